// The fast way of an edit: its claims and puts that go through, with no branch on the phase.
#![tactic(auto)]

ghost use Rattle.std.specs.Prelude.{◌≡◌, ℕ, cond, ◌+◌, ◌*◌, ◌<◌, length, eqb};
ghost use Rattle.words.specs.Words.{Words, words_in_book, team_count, is_held};
ghost use Rattle.tickets.specs.Steps.{swap_tried};
ghost use Rattle.tickets.specs.Table.{target_standing, gathered};
ghost use Rattle.replies.specs.Leaving.{RoomAt};
ghost use Rattle.quick.specs.Quick.{Quick, is_plain, claims_quick, next_of, quick_swaps, quick_tried, advanced_by, AdvancesBy, told_answer, ToldAt};

use encoder::AnswerKind;
use frames::Frame;
use frames::numbers::Bits;
use tickets::{Kind, SwapTried, Target, Ticket, Tickets};
use words::Limits;

// What came of the next swap of an edit on the fast way: it went through, told with whether it was a claim; or it was a claim
// that missed, told with what it found; or none was tried. Whether it was a claim is a bool, since `chosen` goes by it: a match on an
// enum would be the branch that this way has not.
#[derive(Clone, Copy)]
pub enum Tried {
    Went(bool),
    Missed(u64),
    Untried,
}

// One of two values, by a test.
fn chosen<T: Copy>(test: bool, yes: T, no: T) -> T
    ensures { result ≡ cond test yes no }
{
    if test { yes } else { no }
}

// Whether it claims wherever not all is claimed.
fn is_plain(ticket: Ticket) -> bool
    ensures { result ≡ is_plain ticket }
{
    if ticket.done == 0 {
        return true;
    }
    ticket.n <= ticket.claimed
}

// How many targets a ticket may have done and still go the fast way.
pub fn quick_swaps(ticket: Ticket) -> u16
    ensures { result ≡ quick_swaps ticket }
{
    let kind = ticket.kind;
    match kind {
        Kind::Edit => chosen(is_plain(ticket), ticket.n, 0),
        Kind::Stale => 0,
        Kind::View => 0,
    }
}

// The target of the next claim or put of an edit.
fn next_target(targets: &[Target; Tickets::ROOM], ticket: Ticket) -> Target
    requires { Quick targets.now ticket }
    ensures next { result ≡ target_standing targets.now (next_of (claims_quick ticket) ticket) }
    ensures inside { result.word < words_in_book }
{
    let claims = ticket.claimed < ticket.n;
    let k = chosen(claims, ticket.claimed, ticket.done);
    targets[k as usize]
}

// The next claim or put of an edit. Both values are read, so that no load hangs on a branch (`counts_anyway`).
fn swap_at(targets: &[Target; Tickets::ROOM], team: usize, ticket: Ticket) -> SwapTried
    requires { (team < team_count) × Quick targets.now ticket }
    ensures { ((words : Words) → result ≡ swap_tried words (gathered targets.now ticket) team) × (result.word < words_in_book) }
{
    let mark = words::mark(team as u16);
    let claims = ticket.claimed < ticket.n;
    let target = next_target(targets, ticket);
    let word = target.word as u16;
    let value = chosen(claims, target.quoted, target.new);
    SwapTried {
        word,
        expected: chosen(claims, value, mark),
        desired: chosen(claims, mark, value),
    }
}

// Whether the next swap of an edit counts as done whatever it finds: a put's does, which expects a mark. No value of a target is one, and
// both values are asked, so that they are in registers where the swap is chosen: a value that nothing but the choice needs would be
// read behind a branch on the phase.
fn counts_anyway(targets: &[Target; Tickets::ROOM], ticket: Ticket) -> bool
    requires { Quick targets.now ticket }
    ensures { (words : Words) (team : ℕ) → result ≡ is_held (swap_tried words (gathered targets.now ticket) team).expected }
{
    let claims = ticket.claimed < ticket.n;
    let target = next_target(targets, ticket);
    chosen(
        claims,
        words::is_held(target.quoted),
        !words::is_held(target.new),
    )
}

// Tries an edit's next swap. A put counts as done whatever it found.
pub fn try_quick(
    book: &mut [u64; Limits::WORDS],
    targets: &[Target; Tickets::ROOM],
    ticket: Ticket,
    team: usize,
    quick: u16,
) -> Tried
    requires { (team < team_count) × (ticket.done < quick → Quick targets.now ticket) }
    ensures { (result, book.new) ≡ quick_tried book.old targets.now team ticket quick }
{
    if quick <= ticket.done {
        return Tried::Untried;
    }
    let claims = ticket.claimed < ticket.n;
    let swap = swap_at(targets, team, ticket);
    let at = swap.word as usize;
    let report = words::conditional_swap(book, at, swap.expected, swap.desired);
    let found = report.found;
    if found == swap.expected {
        return Tried::Went(claims);
    }
    if counts_anyway(targets, ticket) {
        return Tried::Went(claims);
    }
    Tried::Missed(found)
}

// The ticket whose swap went through.
pub fn advanced(ticket: Ticket, claims: bool) -> Ticket
    requires { AdvancesBy claims ticket }
    ensures { result ≡ advanced_by claims ticket }
{
    if claims { ticket.claim() } else { ticket.put() }
}

// The answers on the fast way: their first four bytes, as one number.
#[derive(Drop)]
struct Told {}

impl Told {
    // What the length field says where the fields take 16 bits, and where they take 32.
    const SHORT: u16 = (Frame::FIELD + Frame::FIELD) as u16;

    const LONG: u16 = (Frame::FIELD + Frame::LONG) as u16;

    const CLAIMED: u32 = Told::SHORT as u32 + Bits::TWO_BYTES * (AnswerKind::Claimed as u32);

    const PUT: u32 = Told::SHORT as u32 + Bits::TWO_BYTES * (AnswerKind::Put as u32);

    const GRANTED: u32 = Told::LONG as u32 + Bits::TWO_BYTES * (AnswerKind::Granted as u32);
}

// The answer to a swap that went through: six bytes, or eight where it is Granted; the bytes behind them stay.
pub fn put_told(out: &mut [u8], at: usize, claims: bool, after: Ticket) -> usize
    requires { RoomAt out.old at }
    ensures { ToldAt out.old at (told_answer claims after) result out.new }
{
    let granted = after.done == after.n;
    let kept = frames::numbers::read16(out, at + Frame::HEAD + Frame::FIELD) as u32;
    let many = chosen(claims, after.claimed, after.done) as u32;
    let head = chosen(
        granted,
        Told::GRANTED,
        chosen(claims, Told::CLAIMED, Told::PUT),
    );
    let fields = chosen(granted, after.tries, many + Bits::TWO_BYTES * kept);
    frames::numbers::put32(out, at, head);
    frames::numbers::put32(out, at + Frame::HEAD, fields);
    at + Frame::FIELD + chosen(granted, Told::LONG, Told::SHORT) as usize
}
