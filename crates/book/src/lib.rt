// The calls that users make: one frame in, one answer out, and all whole frames of an input; over the lent book and the tickets.
#![tactic(auto)]

ghost use Rattle.std.specs.Prelude.{◌≡◌, Bool, true, ℕ, ◌≤◌, ◌<◌, length};
ghost use Rattle.tickets.specs.Table.{table_of};
ghost use Rattle.frames.specs.Refusals.{numbered, refusal_in};
ghost use Rattle.frames.specs.Answers.{longest_answer};
ghost use Rattle.calls.specs.Call.{call_of};
ghost use Rattle.calls.specs.Returned.{reply_of, returned_refusal};
ghost use Rattle.calls.specs.Stream.{streamed, streamed_of, stream_from, stream_of};
ghost use Rattle.calls.specs.Way.{aim_numbered, AimKnown, slot_of, settled_by};
ghost use Rattle.tickets.specs.Table.{gathered};
ghost use Rattle.handlers.specs.Settling.{SettledAs};
ghost use Rattle.book.specs.Quickly.{quick_for, QuickSlots, is_step_by};

use calls::{Aim, Reply, Stop, Streamed};
use dispatch::Ahead;
use frames::{Answer, Frame, Kind, Refusal};
use handlers::{other_frame, other_step};
use legs::AcceptedRanks;
use quick::Tried;
use replies::Left;
use tickets::{Slot, Target, Ticket, Tickets};
use words::Limits;

// Whether a frame is a team's step.
fn is_step(aim: Result<Aim, Refusal>) -> bool
    ensures { result ≡ is_step_by (aim_numbered aim) }
{
    matches!(aim, Ok(Aim::Team(Kind::Step, _)))
}

// What a frame leaves in its slot, the table not known to be well made, and its answer at the front of the output.
fn answer(
    book: &mut [u64; Limits::WORDS],
    targets: &mut [Target; Tickets::ROOM],
    ranks: &AcceptedRanks,
    ticket: Ticket,
    team: usize,
    frame: &[u8],
    aim: Result<Aim, Refusal>,
    out: &mut [u8],
) -> Left
    requires { AimKnown frame.now (aim_numbered aim) × (team ≡ slot_of (aim_numbered aim)) × (longest_answer ≤ length out.old) }
    ensures { SettledAs (settled_by book.old (gathered targets.old ticket) ranks.now frame.now (aim_numbered aim)) targets.new result.ticket book.new out.old result.written out.new }
{
    if is_step(aim) {
        return other_step(book, targets, ticket, team, Tried::Untried, false, out);
    }
    let opened = other_frame(book, targets, ranks, ticket, frame, aim, out);
    Left {
        ticket: opened.ticket.unwrap_or(ticket),
        written: opened.written,
    }
}

// What is returned where nothing is written.
fn turned_away(tickets: Tickets, refusal: Refusal) -> Reply
    ensures { (result.written ≡ Err refusal) × (result.tickets ≡ tickets) }
{
    Reply {
        written: Err(refusal),
        tickets,
    }
}

// One call: a frame in, an answer out. The ranks in force are lent as the caller has them, however many.
pub fn call(
    book: &mut [u64],
    mut tickets: Tickets,
    ranks: &[u16],
    frame: &[u8],
    out: &mut [u8],
) -> Reply
    ensures all { (reply_of result, book.new, out.new) ≡ call_of book.old (table_of tickets) ranks.now frame.now out.old }
    ensures refusal { refusal_in (numbered result.written) ≡ returned_refusal book.old ranks.now out.old }
{
    let Some(book) = book.as_mut_array() else {
        return turned_away(tickets, Refusal::Book);
    };
    let Some(accepted) = ranks::accepted(ranks) else {
        return turned_away(tickets, Refusal::Ranks);
    };
    if out.len() < Answer::LONGEST {
        return turned_away(tickets, Refusal::Output);
    }
    let aim = dispatch::aim_of(frame);
    let team = dispatch::slot_of(aim);
    let slot = &mut tickets.slots[team];
    let left = answer(
        book,
        &mut slot.targets,
        &accepted,
        slot.ticket,
        team,
        frame,
        aim,
        out,
    );
    slot.ticket = left.ticket;
    Reply {
        written: Ok(left.written),
        tickets,
    }
}

// How many targets a ticket may have done and still go the fast way: none in a table that is not known to be well made.
fn quick_of(ticket: Ticket, known: bool) -> u16
    ensures { result ≡ quick_for known ticket }
{
    if known {
        return quick::quick_swaps(ticket);
    }
    0
}

// The same for each slot.
fn all_quick(slots: [Slot; Limits::TEAMS], known: bool) -> [u16; Limits::TEAMS]
    ensures { QuickSlots known slots result }
{
    slots.map(|slot| quick_of(slot.ticket, known))
}

fn stopped(tickets: Tickets, consumed: usize, written: usize, stop: Stop) -> Streamed
    ensures { (streamed_of result ≡ streamed (table_of tickets) consumed written stop) × (result.consumed ≡ consumed) × (result.written ≡ written) }
{
    Streamed {
        tickets,
        consumed,
        written,
        stop,
    }
}

// All frames, one after another. An edit's claims and puts that go through, as most frames are, have the fast way; where all
// tickets are well made at the start they stay so, and no step tests one again. The look at the ranks tells the proof that
// they are accepted. What is known of a slot in this stream alone stands beside the table, which is returned as it is. Both
// places are numbers of the loop, which go in registers: of a struct with the output its part would be lent just the same.
fn answer_frames(
    book: &mut [u64; Limits::WORDS],
    mut tickets: Tickets,
    ranks: &AcceptedRanks,
    input: &[u8],
    out: &mut [u8],
) -> Streamed
    ensures { ((result.consumed ≤ length input.now) × (result.written ≤ length out.old)) × ((streamed_of result, book.new, out.new) ≡ stream_from (length input.now) book.old (table_of tickets) ranks.now input.now out.old 0 0) }
{
    let _ = &ranks.numbers;
    let known = making::all_well_made(&tickets.slots);
    let mut quick = all_quick(tickets.slots, known);
    let mut at: usize = 0;
    let mut filled: usize = 0;
    // A `while let` would lose the stop, which is returned.
    loop {
        let next = match dispatch::next_at(input, at, out.len() - filled) {
            Ok(next) => next,
            Err(stop) => return stopped(tickets, at, filled, stop),
        };
        match next {
            Ahead::Step(team) => {
                at += Frame::STEP;
                let team = team as usize;
                let slot = &mut tickets.slots[team];
                let ticket = slot.ticket;
                let tried = quick::try_quick(book, &slot.targets, ticket, team, quick[team]);
                if let Tried::Went(claims) = tried {
                    let after = quick::advanced(ticket, claims);
                    slot.ticket = after;
                    filled = quick::put_told(out, filled, claims, after);
                    continue;
                }
                let room = &mut out[filled..];
                let left = other_step(book, &mut slot.targets, ticket, team, tried, known, room);
                slot.ticket = left.ticket;
                quick[team] = quick_of(left.ticket, known);
                filled += left.written;
            }
            Ahead::Other(size) => {
                let frame = &input[at..at + size];
                at += size;
                let aim = dispatch::aim_of(frame);
                let team = dispatch::slot_of(aim);
                let slot = &mut tickets.slots[team];
                let ticket = slot.ticket;
                let room = &mut out[filled..];
                let left = other_frame(book, &mut slot.targets, ranks, ticket, frame, aim, room);
                filled += left.written;
                if let Some(after) = left.ticket {
                    slot.ticket = after;
                    quick[team] = quick_of(after, known);
                }
            }
        }
    }
}

// All whole frames of the input, answered one after another.
pub fn stream(
    book: &mut [u64],
    tickets: Tickets,
    ranks: &[u16],
    input: &[u8],
    out: &mut [u8],
) -> Streamed
    ensures bounds { (result.consumed ≤ length input.now) × (result.written ≤ length out.old) }
    ensures all { (streamed_of result, book.new, out.new) ≡ stream_of book.old (table_of tickets) ranks.now input.now out.old }
{
    let Some(book) = book.as_mut_array() else {
        return stopped(tickets, 0, 0, Stop::NoBook);
    };
    let Some(accepted) = ranks::accepted(ranks) else {
        return stopped(tickets, 0, 0, Stop::NoRanks);
    };
    answer_frames(book, tickets, &accepted, input, out)
}
