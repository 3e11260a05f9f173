// What every step of a ticket takes and leaves: a target of its team, an answer.
#![tactic(auto)]

ghost use Rattle.std.specs.Prelude.{◌≡◌, ◌≤◌, ◌<◌, length};
ghost use Rattle.words.specs.Words.{words_in_book, team_count, mark_of, holder_of, swap_of};
ghost use Rattle.tickets.specs.declared.StepAnswer.TheVariants.{Waiting};
ghost use Rattle.tickets.specs.Table.{target_room, target_standing, tried_slot};
ghost use Rattle.frames.specs.Answers.{answer_frame, longest_answer, PutAt};
ghost use Rattle.replies.specs.Leaving.{RoomAt, Answered};

use frames::Answer;
use tickets::{StepAnswer, Target, Ticket, Tickets};
use words::Limits;

// What a step leaves: its ticket, and the bytes of its answer.
#[derive(Clone, Copy)]
pub struct Left {
    pub ticket: Ticket,
    pub written: usize,
}

// Target k of a slot, whose word is in the book.
pub fn target_at(targets: &[Target; Tickets::ROOM], k: u16) -> Target
    requires { (k < target_room) × ((target_standing targets.now k).word < words_in_book) }
    ensures target { result ≡ target_standing targets.now k }
    ensures inside { result.word < words_in_book }
{
    targets[k as usize]
}

// A word that a team holds released: its mark is exchanged for a value.
pub fn release(book: &mut [u64; Limits::WORDS], team: usize, word: u64, value: u64)
    requires { (team < team_count) × (word < words_in_book) }
    ensures { book.new ≡ (swap_of book.old word (mark_of team) value).words }
{
    words::conditional_swap(book, word as usize, words::mark(team as u16), value);
}

// Puts an answer at a place of the output, and returns the place after it. Its caller knows which answer: inlined there, no
// test of it is left.
#[inline(always)]
pub fn put(out: &mut [u8], at: usize, answer: Answer) -> usize
    requires { RoomAt out.old at }
    ensures { PutAt out.old at (answer_frame answer) result out.new }
{
    at + encoder::write(&mut out[at..], answer)
}

// The ticket that a step leaves, and the step's answer at the front of the output. The output is a slice, as `encoder::write` takes it: an
// array of as many bytes as the longest answer has would be a narrower argument.
#[inline(always)]
pub fn leave(ticket: Ticket, answer: StepAnswer, out: &mut [u8]) -> Left
    requires { longest_answer ≤ length out.old }
    ensures ticket { result.ticket ≡ ticket }
    ensures answer { Answered out.old answer result.written out.new }
{
    Left {
        ticket,
        written: encoder::write(out, Answer::Step(answer)),
    }
}

// A claim that found a mark: the ticket waits, and its answer tells the holder.
pub fn waited(ticket: Ticket, word: u16, found: u64, out: &mut [u8]) -> Left
    requires { longest_answer ≤ length out.old }
    ensures ticket { result.ticket ≡ tried_slot ticket ticket.kind ticket.claimed ticket.done }
    ensures answer { Answered out.old (Waiting word (holder_of found)) result.written out.new }
{
    let holder = words::holder(found);
    leave(ticket.wait(), StepAnswer::Waiting(word, holder), out)
}
