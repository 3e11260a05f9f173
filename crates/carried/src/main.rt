// Old books from standard input, each carried over into a second one: lines for each on standard output. A case is five numbers
// of 16 bits (the words of the old book, those of the second, how many slots are lent, how many words are given of the old book
// and how many of the second) and one of 64 bits, the value of the second's words that aren't given; those of the old book are
// 0. Then come the slots, each with its team, 16 bits, the slot in the form of `desk`, how many numbers follow, 16 bits, and
// these, 64 bits each, for its targets; and the words given, in the form of `desk`. Every number has its low byte first. What
// comes behind the last whole case is passed over.
//
// A case's lines: `carried` or `refused` with the number, and each word of the second that has changed.
#![tactic(auto)]

ghost use Rattle.std.specs.Prelude.{◌≤◌, length, IfSome};

use desk::records::{Given, Record, Records};
use desk::{Room, records, text};
use frames::Refusal;
use std::io::{Print, Stdout};
use tickets::{Ticket, Tickets};
use words::Limits;

// The slot of a team, and the numbers of its targets.
#[derive(Clone, Copy)]
struct Slot<'a> {
    team: usize,
    ticket: Ticket,
    numbers: &'a [u8],
}

impl Slot<'_> {
    const NUMBER: usize = 8;

    // The slot of a team that isn't one of sixteen is passed over, and so is a number that the table has no room for: what does not fit
    // in the team's room is in that of the teams behind it.
    fn put_into(self, tickets: &mut Tickets) {
        if Limits::TEAMS <= self.team {
            return;
        }
        tickets.slots[self.team].ticket = self.ticket;
        let first = self.team * Room::NUMBERS;
        for (place, number) in (first..).zip(Records::of(self.numbers)) {
            if let Some(slot) = tickets.slots.get_mut(place / Room::NUMBERS) {
                desk::set_number(&mut slot.targets, place % Room::NUMBERS, number);
            }
        }
    }
}

impl<'a> Record<'a> for Slot<'a> {
    fn read(left: &mut &'a [u8]) -> Option<Slot<'a>> {
        let team = u16::read(left)? as usize;
        let ticket = Ticket::read(left)?;
        let count = u16::read(left)? as usize;
        let numbers = records::take(left, Slot::NUMBER * count)?;
        Some(Slot {
            team,
            ticket,
            numbers,
        })
    }
}

// The table with so many slots lent.
fn read_tickets(left: &mut &[u8], count: u16) -> Option<Tickets>
    ensures { IfSome result (λ _. length left.new.now ≤ length left.old.now) }
{
    let mut tickets = Tickets::fresh();
    for _ in 0..count {
        Slot::read(left)?.put_into(&mut tickets);
    }
    Some(tickets)
}

// How many words of each book are lent, the value of the second's words that aren't given, the table with the slots lent, and the
// words given of each.
#[derive(Clone, Copy)]
struct Case<'a> {
    old_words: usize,
    second_words: usize,
    value: u64,
    tickets: Tickets,
    old_given: &'a [u8],
    second_given: &'a [u8],
}

impl<'a> Record<'a> for Case<'a> {
    fn read(left: &mut &'a [u8]) -> Option<Case<'a>> {
        let old_words = u16::read(left)? as usize;
        let second_words = u16::read(left)? as usize;
        let slots = u16::read(left)?;
        let old_count = u16::read(left)? as usize;
        let second_count = u16::read(left)? as usize;
        let value = u64::read(left)?;
        let tickets = read_tickets(left, slots)?;
        let old_given = records::take(left, Given::BYTES * old_count)?;
        let second_given = records::take(left, Given::BYTES * second_count)?;
        Some(Case {
            old_words,
            second_words,
            value,
            tickets,
            old_given,
            second_given,
        })
    }
}

fn tell(stdout: Stdout, outcome: Result<(), Refusal>) {
    match outcome {
        Ok(()) => {
            let _ = println!(stdout; "carried");
        }
        Err(refusal) => {
            let _ = println!(stdout; "{refusal}");
        }
    }
}

// The words of the old book, of the second as it was, and of the second. They are kept from case to case, since of short books only the
// words that are lent are made anew. The parts that are lent are split off: one taken by its range isn't lent through several fields.
#[derive(Drop)]
struct Books {
    old: [u64; Room::WORDS],
    before: [u64; Room::WORDS],
    second: [u64; Room::WORDS],
}

impl Books {
    fn carry(&mut self, stdout: Stdout, case: Case<'_>) {
        let Books {
            old,
            before,
            second,
        } = self;
        let (old, _) = old.split_at_mut(case.old_words.min(Room::WORDS));
        old.fill(0);
        desk::set_words(old, case.old_given);
        let many = case.second_words.min(Room::WORDS);
        let (before, _) = before.split_at_mut(many);
        before.fill(case.value);
        desk::set_words(before, case.second_given);
        let (second, _) = second.split_at_mut(many);
        second.copy_from_slice(before);
        let outcome = carry::carry_over(old, second, case.tickets);
        tell(stdout, outcome);
        text::tell_every_change(stdout, before, second);
    }
}

fn main(rt: HostRuntime) {
    let mut buffer = [0u8; Room::INPUT];
    let mut books = Books {
        old: [0; Room::WORDS],
        before: [0; Room::WORDS],
        second: [0; Room::WORDS],
    };
    // No call fails, since a write that fails is passed over.
    let _ = desk::for_each_record(rt.stdin(), &mut buffer, |case| {
        books.carry(rt.stdout(), case);
        Ok(())
    });
}

#[cfg(test)]
mod tests {
    use super::*;
    use std::io;

    // Both calls succeed where standard output takes what is written, which no clause says of the first. The test stands in this crate and
    // not in `desk`, since this one has no edits.
    #[test]
    fn tells_changes(rt: HostRuntime) -> io::Result<()> {
        let before = [3, 7, 9];
        text::tell_changes(rt.stdout(), &before, &[3, 8, 0])?;
        text::tell_changes(rt.stdout(), &before, &before)
    }
}
