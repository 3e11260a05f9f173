// The carry-over of an old book, in which a leg has three words, into a second one, in which it has four.
#![tactic(auto)]

ghost use Rattle.std.specs.Prelude.{◌≡◌, true, ℕ, ◌≤◌, ◌<◌, length};
ghost use Rattle.words.specs.declared.LegLayout.TheVariants.{ThreeWords};
ghost use Rattle.words.specs.Words.{words_in_book, last_leg};
ghost use Rattle.tickets.specs.Table.{table_of};
ghost use Rattle.frames.specs.Refusals.{numbered};
ghost use Rattle.soundness.specs.Checking.{is_sound_in};
ghost use Rattle.soundness.specs.InWords.{plain_in};
ghost use Rattle.carrying.specs.Carrying.{leg_above, words_from, carry_of};
ghost use Rattle.carry.specs.Writing.{moved_word, with_newer, newers_set, LinksFit};

use frames::Refusal;
use making::any_stands;
use sound::is_plain;
use tickets::Tickets;
use words::{LegLayout, Limits, link_word_in, newer_word};

// A word of the second book before the newer words are set: a passage's as it was, a leg's moved, its fourth 0.
fn moved_word(old: &[u64; Limits::WORDS], word: u16) -> u64
    requires { word < words_in_book }
    ensures { result ≡ moved_word old.now word }
{
    let first = Limits::PASSAGE_WORDS * Limits::PASSAGES;
    if word < first {
        return old[word as usize];
    }
    let which = (word - first) % Limits::LEG_WORDS;
    if which == Limits::OLD_LEG_WORDS {
        return 0;
    }
    let leg = (word - first) / Limits::LEG_WORDS + 1;
    let at = link_word_in(LegLayout::ThreeWords, leg) + which;
    old[at as usize]
}

// Writes every word of the second book, whatever it held.
fn move_words(old: &[u64; Limits::WORDS], second: &mut [u64; Limits::WORDS])
    ensures { second.new ≡ words_from (moved_word old.now) 0 words_in_book }
{
    for (word, value) in second.iter_mut().enumerate() {
        *value = moved_word(old, word as u16);
    }
}

// The leg that a leg links to, if there is one, has that leg as its newer one. A link's word holds 0 where there is none: an
// Option would be made of it only to be taken apart here.
fn set_newer(second: &mut [u64; Limits::WORDS], older: u64, leg: u16)
    requires { older ≤ last_leg }
    ensures { second.new ≡ with_newer second.old older leg }
{
    if older == 0 {
        return;
    }
    let at = newer_word(older as u16) as usize;
    second[at] = leg as u64;
}

// Each leg is linked to by one leg at most, so one pass over the links finds every newer word.
fn set_newers(old: &[u64; Limits::WORDS], second: &mut [u64; Limits::WORDS])
    requires { LinksFit old.now }
    ensures { second.new ≡ newers_set old.now last_leg second.old }
{
    for leg in 1..=Limits::LAST_LEG {
        let older = old[link_word_in(LegLayout::ThreeWords, leg) as usize];
        set_newer(second, older, leg);
    }
}

// Whether a leg that the new layout does not have is in use: in a sound book its place tells.
fn has_leg_above(old: &[u64; Limits::WORDS]) -> bool
    requires { is_sound_in ThreeWords old.now ≡ true }
    ensures { result ≡ leg_above (plain_in ThreeWords old.now) }
{
    (Limits::LAST_LEG + 1..Limits::LAST_OLD_LEG + 1).any(|leg| {
        let at = link_word_in(LegLayout::ThreeWords, leg) + 1;
        old[at as usize] != 0
    })
}

// Makes the second book the layout in force of the old book's lists, unless it is refused. Nothing is written before all
// checks are passed. A shelf that was filled from the old book still holds the old layout, and is not to be come back to.
pub fn carry_over(old: &[u64], second: &mut [u64], tickets: Tickets) -> Result<(), Refusal>
    ensures { (numbered result, second.new) ≡ carry_of old.now second.old (table_of tickets) }
{
    let old = old.as_array::<{ Limits::WORDS }>().ok_or(Refusal::Book)?;
    let second = second
        .as_mut_array::<{ Limits::WORDS }>()
        .ok_or(Refusal::Book)?;
    if any_stands(&tickets.slots) {
        return Err(Refusal::TicketStands);
    }
    if !is_plain(old, LegLayout::ThreeWords) {
        return Err(Refusal::Unsound);
    }
    if has_leg_above(old) {
        return Err(Refusal::LegAbove);
    }
    move_words(old, second);
    set_newers(old, second);
    Ok(())
}
