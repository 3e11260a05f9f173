// Calls that a stream can't reach, from standard input: other books, short outputs, lent tickets, and readings. What each gives
// comes on standard output. The form of a call is that of `desk`; what comes behind the last whole one is passed over, and so is a
// call with a tag that isn't known.
//
// - Title (0): the bytes carried, as they stand.
// - Fresh (1): zero words, and no ticket. Writes nothing, as the next three.
// - Word (2): the word of that number becomes the value carried, 64 bits.
// - Slot (3): the slot of the team of that number becomes the one carried, in the form of `desk`.
// - Target (4): the number at that place of all teams' targets, one team's behind another's, becomes the one carried, 64 bits.
// - Frame (5): the bytes carried are the frame; beside the book so many bytes of output are lent, each with that number in it.
// - Read (6): a reading of the place and the measure carried, 64 bits each.
//
// A frame's lines: what is returned and the output; each word that has changed; each ticket that stands, with its phase, n,
// claimed, done, tries, and its targets.
#![tactic(auto)]

use desk::records::{Call, Records, UnknownTag};
use desk::text::{Bytes, Targets};
use desk::{Room, text};
use legs::{Leg, Measure, Stations};
use std::fmt;
use std::fmt::Display;
use std::io::{Print, Stdout};
use tickets::{Phase, Slot, Ticket, Tickets};

enum Tag {
    Title,
    Fresh,
    Word,
    Slot,
    Target,
    Frame,
    Read,
}

// A table of its own: each program gives these numbers a meaning of its own, and what refuses the others is `UnknownTag` for all.
impl TryFrom<u16> for Tag {
    type Error = UnknownTag;

    fn try_from(tag: u16) -> Result<Tag, UnknownTag> {
        match tag {
            0 => Ok(Tag::Title),
            1 => Ok(Tag::Fresh),
            2 => Ok(Tag::Word),
            3 => Ok(Tag::Slot),
            4 => Ok(Tag::Target),
            5 => Ok(Tag::Frame),
            6 => Ok(Tag::Read),
            _ => Err(UnknownTag(tag)),
        }
    }
}

// A phase's name, as a ticket's line has it.
#[derive(Clone, Copy)]
struct Name(Phase);

impl Display for Name {
    fn fmt<W: fmt::Write>(&self, f: &mut fmt::Formatter<W>) -> fmt::Result {
        f.write_str(match self.0 {
            Phase::NoTicket => "none",
            Phase::Claiming => "claiming",
            Phase::Putting => "putting",
            Phase::GivingBack => "giving-back",
            Phase::Viewing => "viewing",
            Phase::Viewed => "viewed",
        })
    }
}

// A ticket and its first n targets, or those that there is room for.
fn tell_ticket(stdout: Stdout, team: usize, slot: &Slot) {
    let name = Name(slot.ticket.phase());
    let Ticket {
        tries,
        n,
        claimed,
        done,
        ..
    } = slot.ticket;
    let many = Tickets::ROOM.min(n as usize);
    let targets = Targets(&slot.targets[..many]);
    let _ = println!(stdout; "ticket {team} {name} {n} {claimed} {done} {tries} :{targets}");
}

fn tell_tickets(stdout: Stdout, tickets: &Tickets) {
    for (team, slot) in tickets.slots.iter().enumerate() {
        if slot.ticket.stands() {
            tell_ticket(stdout, team, slot);
        }
    }
}

fn tell_leg(stdout: Stdout, leg: Leg) {
    let Leg {
        passage,
        stations,
        measure,
    } = leg;
    let Stations { from, to } = stations;
    let Measure {
        distance,
        compass,
        clino,
    } = measure;
    let _ = println!(stdout; "leg {passage} {from} {to} {distance} {compass} {clino}");
}

fn read(stdout: Stdout, carried: &[u8]) {
    let mut numbers = Records::<u64>::of(carried);
    let (Some(place), Some(measure)) = (numbers.next(), numbers.next()) else {
        return;
    };
    match legs::read_leg(place, measure) {
        None => {
            let _ = println!(stdout; "no leg");
        }
        Some(leg) => tell_leg(stdout, leg),
    }
}

// The words lent, and the table of tickets.
#[derive(Drop)]
struct State {
    words: [u64; Room::WORDS],
    tickets: Tickets,
}

impl State {
    fn fresh() -> State {
        State {
            words: [0; Room::WORDS],
            tickets: Tickets::fresh(),
        }
    }

    // A word that isn't lent is passed over, and so are a slot and a target that the table doesn't have.
    fn set_word(&mut self, word: usize, carried: &[u8]) {
        if let Some(place) = self.words.get_mut(word) {
            *place = Records::of(carried).next().unwrap_or(0);
        }
    }

    fn set_target(&mut self, place: usize, carried: &[u8]) {
        if let Some(slot) = self.tickets.slots.get_mut(place / Room::NUMBERS) {
            let number = Records::of(carried).next().unwrap_or(0);
            desk::set_number(&mut slot.targets, place % Room::NUMBERS, number);
        }
    }

    fn set_slot(&mut self, team: usize, carried: &[u8]) {
        if let Some(slot) = self.tickets.slots.get_mut(team) {
            slot.ticket = Records::of(carried).next().unwrap_or(Ticket::none());
        }
    }

    // A frame on so many of the words, with an output of so many of the bytes.
    fn answer(&mut self, stdout: Stdout, call: Call<'_>) {
        let before = self.words;
        let tickets = self.tickets;
        let [fill, _] = call.number.to_le_bytes();
        let mut space = [fill; Room::OUTPUT];
        let many = call.book.min(Room::WORDS);
        let count = call.beside.min(Room::OUTPUT);
        let book = &mut self.words[..many];
        let out = &mut space[..count];
        let ranks = legs::fixed_ranks();
        let reply = book::call(book, tickets, &ranks, call.carried, out);
        self.tickets = reply.tickets;
        let returned = desk::returned(reply.written);
        let _ = println!(stdout; "returns {returned} :{}", Bytes(out));
        text::tell_every_change(stdout, &before, &self.words);
        tell_tickets(stdout, &self.tickets);
    }

    // Tags are a program's own, so that each looks its own up in a match of its own.
    fn dispatch(&mut self, stdout: Stdout, call: Call<'_>) {
        let Ok(tag) = Tag::try_from(call.tag) else {
            return;
        };
        let number = call.number as usize;
        let carried = call.carried;
        match tag {
            Tag::Title => {
                let _ = stdout.write_all(carried);
            }
            Tag::Fresh => *self = State::fresh(),
            Tag::Word => self.set_word(number, carried),
            Tag::Slot => self.set_slot(number, carried),
            Tag::Target => self.set_target(number, carried),
            Tag::Frame => self.answer(stdout, call),
            Tag::Read => read(stdout, carried),
        }
    }
}

fn main(rt: HostRuntime) {
    let mut buffer = [0u8; Room::INPUT];
    let mut state = State::fresh();
    // No call fails, since a write that fails is passed over.
    let _ = desk::for_each_record(rt.stdin(), &mut buffer, |call| {
        state.dispatch(rt.stdout(), call);
        Ok(())
    });
}
