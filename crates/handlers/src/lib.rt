// What each frame does to its slot, and its answer: a step that does not go the fast way, an edit or
// a view that opens a ticket, a look, a refusal.
#![tactic(auto)]

ghost use Rattle.std.specs.Prelude.{◌≡◌, ℕ, true, None, ◌-◌, ◌≤◌, ◌<◌, length};
ghost use Rattle.words.specs.Words.{team_count};
ghost use Rattle.tickets.specs.declared.Ticket as Slot;
ghost use Rattle.tickets.specs.Tickets.{SlotWellMade, slot_well_made};
ghost use Rattle.tickets.specs.Table.{gathered};
ghost use Rattle.frames.specs.Requests.{part_after_kind};
ghost use Rattle.frames.specs.Numbers.{number16};
ghost use Rattle.frames.specs.Fields.{Whole, read_edit};
ghost use Rattle.frames.specs.Requests.{look_kind};
ghost use Rattle.frames.specs.Refusals.{refusal_number};
ghost use Rattle.frames.specs.Kinds.{kind_number};
ghost use Rattle.frames.specs.Answers.{longest_answer, answer_frame, written};
ghost use Rattle.frames.specs.declared.Answer.TheVariants as Answer;
ghost use Rattle.calls.specs.Way.{aimed, aim_numbered, AimKnown, look_answer, settled_by};
ghost use Rattle.claiming.specs.Missing.{MissesIn};
ghost use Rattle.quick.specs.declared.Tried.TheVariants.{Missed};
ghost use Rattle.handlers.specs.Settling.{open_by, NoStep, AskedAs, OpenedBy, OpenedAs, StepLeft};

use calls::Aim;
use frames::{Answer, Kind, Refusal};
use legs::AcceptedRanks;
use quick::Tried;
use replies::Left;
use tickets::{Target, Ticket, Tickets};
use words::Limits;

// What a frame that is no step leaves: the ticket that it opens, if it does, and the bytes of its answer. A struct of its own beside
// `Left`: what the stream knows of a slot it tells anew only where there is a ticket.
#[derive(Clone, Copy)]
pub struct Opened {
    pub ticket: Option<Ticket>,
    pub written: usize,
}

// The answer to a look.
fn look_answer(book: &[u64; Limits::WORDS], frame: &[u8]) -> Answer
    requires { Whole frame.now look_kind }
    ensures { result ≡ look_answer book.now (number16 (part_after_kind frame.now) 0) }
{
    let part = frames::head::part_after_kind(frame);
    let word = frames::numbers::read16(part, 0);
    if (word as usize) < Limits::WORDS {
        return Answer::Look(steps::look(book, word));
    }
    Answer::Refused(Refusal::Range.number())
}

// Whether a slot passes: in a table of which that is known it is not tested again. What is known is so of this slot, and the stream
// knows it of all: a struct would be made of each slot anew.
fn known_well_made(targets: &[Target; Tickets::ROOM], ticket: Ticket, known: bool) -> bool
    requires { known ≡ true → SlotWellMade (gathered targets.now ticket) }
    ensures { result ≡ slot_well_made (gathered targets.now ticket) }
{
    if known {
        return true;
    }
    making::slot_well_made(targets, ticket)
}

// The ticket that a team's frame asks for, its targets stored: refused over another, and else if its fields are.
fn open(
    targets: &mut [Target; Tickets::ROOM],
    ranks: &AcceptedRanks,
    ticket: Ticket,
    frame: &[u8],
    kind: Kind,
    team: u16,
) -> Result<Ticket, Refusal>
    requires { AimKnown frame.now (Ok (aimed (Aim.Team kind team))) × NoStep (Ok (aimed (Aim.Team kind team))) }
    ensures { AskedAs (open_by (gathered targets.old ticket) ranks.now (part_after_kind frame.now) (kind_number kind)) targets.new ticket result }
{
    if ticket.stands() {
        if making::slot_well_made(targets, ticket) {
            return Err(Refusal::Standing);
        }
        return Err(Refusal::Ticket);
    }
    let part = frames::head::part_after_kind(frame);
    if kind.is_edit() {
        let edit = decoder::read_edit(kind, part)?;
        let n = opening::open(targets, ranks, edit);
        return Ok(Ticket::edit(n));
    }
    let view = decoder::read_view(part)?;
    opening::open_view(targets, ranks, view);
    Ok(Ticket::view(view.n))
}

// The answer to a frame that asks for a ticket.
fn settle(asked: Result<Ticket, Refusal>, out: &mut [u8; Answer::LONGEST]) -> Opened
    ensures { OpenedBy asked result out.old out.new }
{
    match asked {
        Ok(ticket) => Opened {
            ticket: Some(ticket),
            written: encoder::write(out, Answer::Standing(ticket.n)),
        },
        Err(refusal) => Opened {
            ticket: None,
            written: encoder::write(out, Answer::Refused(refusal.number())),
        },
    }
}

// What a frame that is no team's step leaves, its answer in the room for one.
fn answer_other(
    book: &[u64; Limits::WORDS],
    targets: &mut [Target; Tickets::ROOM],
    ranks: &AcceptedRanks,
    ticket: Ticket,
    frame: &[u8],
    aim: Result<Aim, Refusal>,
    out: &mut [u8; Answer::LONGEST],
) -> Opened
    requires { AimKnown frame.now (aim_numbered aim) × NoStep (aim_numbered aim) }
    ensures { OpenedAs (settled_by book.now (gathered targets.old ticket) ranks.now frame.now (aim_numbered aim)).0 targets.new ticket result out.old out.new }
{
    let aim = match aim {
        Ok(aim) => aim,
        Err(refusal) => return settle(Err(refusal), out),
    };
    match aim {
        Aim::Look => Opened {
            ticket: None,
            written: encoder::write(out, look_answer(book, frame)),
        },
        Aim::Team(kind, team) => {
            let asked = open(targets, ranks, ticket, frame, kind, team);
            settle(asked, out)
        }
    }
}

// A frame that is no team's step: it changes no word. Its answer is at the front of the output, which is a slice: of the room taken from a
// part of the output in the stream's loop, no fact says how the whole is written through it, so that the proof there doesn't close. What is
// known of the aim is so of this frame: a struct of both would be taken apart here.
pub fn other_frame(
    book: &[u64; Limits::WORDS],
    targets: &mut [Target; Tickets::ROOM],
    ranks: &AcceptedRanks,
    ticket: Ticket,
    frame: &[u8],
    aim: Result<Aim, Refusal>,
    out: &mut [u8],
) -> Opened
    requires { AimKnown frame.now (aim_numbered aim) × NoStep (aim_numbered aim) × (longest_answer ≤ length out.old) }
    ensures { OpenedAs (settled_by book.now (gathered targets.old ticket) ranks.now frame.now (aim_numbered aim)).0 targets.new ticket result out.old out.new }
{
    let Some(room) = out.first_chunk_mut() else {
        unreachable!()
    };
    answer_other(book, targets, ranks, ticket, frame, aim, room)
}

fn refuse(ticket: Ticket, refusal: Refusal, out: &mut [u8]) -> Left
    requires { longest_answer ≤ length out.old }
    ensures { (result.ticket ≡ ticket) × ((result.written, out.new) ≡ written out.old (answer_frame (Answer.Refused (refusal_number refusal)))) }
{
    Left {
        ticket,
        written: encoder::write(out, Answer::Refused(refusal.number())),
    }
}

// A step that does not go through on the fast way: a claim that missed there, or one that was not tried there. Its answer is at the
// front of the output.
pub fn other_step(
    book: &mut [u64; Limits::WORDS],
    targets: &mut [Target; Tickets::ROOM],
    ticket: Ticket,
    team: usize,
    tried: Tried,
    known: bool,
    out: &mut [u8],
) -> Left
    requires { (team < team_count) × ((found : ℕ) → tried ≡ Missed found → MissesIn targets.old ticket) × (known ≡ true → SlotWellMade (gathered targets.old ticket)) × (longest_answer ≤ length out.old) }
    ensures { StepLeft book.old targets.old team ticket tried result.ticket book.new targets.new out.old result.written out.new }
{
    if let Tried::Missed(found) = tried {
        return claiming::missed(targets, ticket, found, out);
    }
    if !ticket.stands() {
        return refuse(ticket, Refusal::NoTicket, out);
    }
    if !known_well_made(targets, ticket, known) {
        return refuse(ticket, Refusal::Ticket, out);
    }
    steps::step(book, targets, ticket, team, out)
}
