// The words of the book: limits, the layout, marks, the conditional swap and the read.
#![tactic(auto)]

ghost use Rattle.std.specs.Prelude.{◌≡◌, Bool, true, ◌≤◌, ◌<◌, length, set, cond};
ghost use Rattle.words.specs.Tests.{occurs, distinct};
ghost use Rattle.words.specs.Words.{team_count, passage_count, leg_words, last_leg_in, last_leg, is_held, mark_of, holder_of, newest_word, count_word, link_word_in, link_word, place_word, measure_word, newer_word, read_of, swap_of, any_value};

// The limits of the book and its layout.
#[derive(Drop)]
pub struct Limits {}

// What a conditional swap reports: the word that it found, and who holds it.
#[derive(Clone, Copy)]
pub struct Report {
    pub found: u64,
    pub holder: u16,
}

impl Limits {
    // The words of a book.
    pub const WORDS: usize = 4096;

    pub const PASSAGES: u16 = 32;

    pub const TEAMS: usize = 16;

    // The last leg's number; legs start at 1, and 0 means none.
    pub const LAST_LEG: u16 = 1008;

    // The most targets of a ticket: a move's, with both of its neighbours' newer words.
    pub const TARGETS: usize = 9;

    // The most words that a view names.
    pub const NAMED: usize = 6;

    // The shelves of a store, each of which keeps a book.
    pub const SHELVES: usize = 3;

    // A word from here on is held; below it, a value.
    pub const HELD: u64 = 9223372036854775808;

    // No team's number: it stands where nobody known holds a word. Request 3 has the swap report this number and Waiting tell it,
    // so an Option is no plainer: the one reader of a holder would only turn its None back into the number.
    pub const NOBODY: u16 = 65535;

    // A passage's words: the newest leg, the count of legs.
    pub const PASSAGE_WORDS: u16 = 2;

    // A leg's words: link, place, measure, newer.
    pub const LEG_WORDS: u16 = 4;

    // The same of books from before chains ran both ways, in which a leg has no newer word.
    pub const LAST_OLD_LEG: u16 = 1344;

    pub const OLD_LEG_WORDS: u16 = 3;
}

// How many words a leg has: three in books from before chains ran both ways, four since.
#[derive(Clone, Copy)]
pub enum LegLayout {
    ThreeWords,
    FourWords,
}

pub fn is_held(word: u64) -> bool
    ensures { result ≡ is_held word }
{
    Limits::HELD <= word
}

// The mark (in the literature: the descriptor's address with its control bit) of a team. A team's number comes from a frame or counts
// the slots: a type with the bound would be made anew at each, from this same fact, here and wherever it is asked for.
pub fn mark(team: u16) -> u64
    requires { team < team_count }
    ensures { result ≡ mark_of team }
{
    Limits::HELD + team as u64
}

// Who holds a word, by what stands in it.
pub fn holder(word: u64) -> u16
    ensures { result ≡ holder_of word }
{
    if !is_held(word) {
        return Limits::NOBODY;
    }
    let team = word - Limits::HELD;
    if team < Limits::TEAMS as u64 {
        return team as u16;
    }
    Limits::NOBODY
}

// A passage's number comes from a field, a word or a loop: a type with the range as its invariant would be made anew at each
// use, from this same fact, here and wherever it is asked for.
pub fn newest_word(passage: u16) -> u16
    requires { passage < passage_count }
    ensures { result ≡ newest_word passage }
{
    Limits::PASSAGE_WORDS * passage
}

pub fn count_word(passage: u16) -> u16
    requires { passage < passage_count }
    ensures { result ≡ count_word passage }
{
    newest_word(passage) + 1
}

// A match of its own, as `last_leg_in` has: of a struct of a layout's two numbers each caller would take one.
fn leg_words(layout: LegLayout) -> u16
    ensures { result ≡ leg_words layout }
{
    match layout {
        LegLayout::ThreeWords => Limits::OLD_LEG_WORDS,
        LegLayout::FourWords => Limits::LEG_WORDS,
    }
}

pub fn last_leg_in(layout: LegLayout) -> u16
    ensures { result ≡ last_leg_in layout }
{
    match layout {
        LegLayout::ThreeWords => Limits::LAST_OLD_LEG,
        LegLayout::FourWords => Limits::LAST_LEG,
    }
}

// Where a leg starts in either layout; its place and its measure are the next two words.
pub fn link_word_in(layout: LegLayout, leg: u16) -> u16
    requires { (1 ≤ leg) × (leg ≤ last_leg_in layout) }
    ensures { result ≡ link_word_in layout leg }
{
    Limits::PASSAGE_WORDS * Limits::PASSAGES + leg_words(layout) * (leg - 1)
}

// A leg's number comes from a field, a link or a loop, where 0 means none, and in an old book is up to 1,344: a type with the
// range as its invariant would be made anew at each use, from these same facts, here and wherever they are asked for.
pub fn link_word(leg: u16) -> u16
    requires { (1 ≤ leg) × (leg ≤ last_leg) }
    ensures { result ≡ link_word leg }
{
    link_word_in(LegLayout::FourWords, leg)
}

// Each word of a leg has a function by its name, as the layout names it.
pub fn place_word(leg: u16) -> u16
    requires { (1 ≤ leg) × (leg ≤ last_leg) }
    ensures { result ≡ place_word leg }
{
    link_word(leg) + 1
}

pub fn measure_word(leg: u16) -> u16
    requires { (1 ≤ leg) × (leg ≤ last_leg) }
    ensures { result ≡ measure_word leg }
{
    link_word(leg) + 2
}

pub fn newer_word(leg: u16) -> u16
    requires { (1 ≤ leg) × (leg ≤ last_leg) }
    ensures { result ≡ newer_word leg }
{
    link_word(leg) + 3
}

// One read of one word (Figure 8, without its loop). Words of any number are taken, here and by the swaps: an array of a book's would
// be a narrower argument.
pub fn read(book: &[u64], at: usize) -> u64
    requires { at < length book.now }
    ensures { result ≡ read_of book.now at }
{
    book[at]
}

// Reports the word found, with its holder, and stores another one where the word passes a test.
fn swap_where<F: Fn(u64) -> bool>(book: &mut [u64], at: usize, test: F, desired: u64) -> Report
    requires in_book { at < length book.old }
    requires callable { F.IsAlwaysCallable test }
    ensures found { result.found ≡ read_of book.old at }
    ensures holder { result.holder ≡ holder_of (read_of book.old at) }
    ensures words { (passes : Bool) × F.post test (read_of book.old at) passes × (book.new ≡ cond passes (set book.old at desired) book.old) }
{
    let found = book[at];
    if test(found) {
        book[at] = desired;
    }
    Report {
        found,
        holder: holder(found),
    }
}

// The conditional swap, also called compare-and-swap (Figure 1): reports the word found, and its holder.
pub fn conditional_swap(book: &mut [u64], at: usize, expected: u64, desired: u64) -> Report
    requires { at < length book.old }
    ensures found { result.found ≡ (swap_of book.old at expected desired).found }
    ensures holder { result.holder ≡ (swap_of book.old at expected desired).holder }
    ensures words { book.new ≡ (swap_of book.old at expected desired).words }
{
    swap_where(book, at, |found| found == expected, desired)
}

// The conditional swap that expects whatever value it finds: a mark alone stays.
pub fn swap_any_value(book: &mut [u64], at: usize, desired: u64) -> Report
    requires { at < length book.old }
    ensures found { result.found ≡ (swap_of book.old at (any_value (read_of book.old at)) desired).found }
    ensures holder { result.holder ≡ (swap_of book.old at (any_value (read_of book.old at)) desired).holder }
    ensures words { book.new ≡ (swap_of book.old at (any_value (read_of book.old at)) desired).words }
{
    swap_where(book, at, |found| !is_held(found), desired)
}

// Whether a number stands among some.
pub fn occurs(numbers: &[u64], number: u64) -> bool
    ensures { result ≡ occurs number numbers.now }
{
    numbers.contains(&number)
}

// Whether no number stands twice among some.
#[tactic(auto, unfolding(crate::specs::Tests::distinct))]
pub fn distinct(numbers: &[u64]) -> bool
    ensures { result ≡ distinct numbers.now }
{
    let mut rest = numbers;
    while let Some((number, later)) = rest.split_first() {
        if occurs(later, *number) {
            return false;
        }
        rest = later;
    }
    true
}
