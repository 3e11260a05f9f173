// What survey does between a read and a write.
#![tactic(auto)]

ghost use Rattle.std.specs.Prelude.{◌≡◌, ◌+◌, ◌-◌, ◌<◌, ◌≤◌, length, take, IfSome, unwrap_or};
ghost use Rattle.tickets.specs.Table.{table_of};
ghost use Rattle.frames.specs.Answers.{longest_answer};
ghost use Rattle.frames.specs.Fields.{longest_frame};
ghost use Rattle.calls.specs.Stream.{stream_of, streamed_of, Roomy};
ghost use Rattle.calls.specs.Pieces.{goes_on};

use calls::{Stop, Streamed};
use frames::{Answer, Refusal};
use std::ops::ControlFlow;
use tickets::Tickets;
use words::Limits;

// A buffer with room for every frame, and how many bytes at its front have come and are kept.
#[derive(Drop)]
pub struct Input<'a> {
    pub buffer: &'a mut [u8],
    pub have: usize,
    pub ghost inside: { have ≤ length buffer.now },
    pub ghost holds_a_frame: { longest_frame ≤ length buffer.now },
}

impl Input<'_> {
    ghost use Rattle.serve.specs.Serving.{shifted};

    // The stream of the bytes that are kept.
    fn stream(&self, book: &mut [u64], tickets: Tickets, ranks: &[u16], out: &mut [u8]) -> Streamed
        ensures bounds { (result.consumed ≤ self.now.have) × (result.written ≤ length out.old) }
        ensures all { (streamed_of result, book.new, out.new) ≡ stream_of book.old (table_of tickets) ranks.now (take self.now.have self.now.buffer.now) out.old }
    {
        book::stream(book, tickets, ranks, &self.buffer[..self.have], out)
    }

    // Lets the first bytes go, and moves those behind them to the front.
    fn consume(&mut self, count: usize)
        requires { count ≤ self.old.have }
        ensures left { (self.new.have ≡ self.old.have - count) × (self.new.buffer.now ≡ shifted self.old.buffer.now count self.old.have) }
        ensures same_buffer { (self.new.buffer.ghost_name ≡ self.old.buffer.ghost_name) × (length self.new.buffer.now ≡ length self.old.buffer.now) }
    {
        self.buffer.copy_within(count..self.have, 0);
        self.have -= count;
    }
}

// What is kept from turn to turn, lent: the book, the tickets, the ranks in force, what came and is not answered yet, and an
// output with room for every answer.
#[derive(Drop)]
pub struct Server<'a, 'b> {
    pub book: &'a mut [u64; Limits::WORDS],
    pub tickets: Tickets,
    pub ranks: &'a [u16],
    pub input: Input<'b>,
    pub out: &'a mut [u8],
    pub ghost roomy: { Roomy input.buffer.now out.now },
}

fn goes_on(stop: Stop) -> bool
    ensures { result ≡ goes_on stop }
{
    matches!(stop, Stop::MoreInput | Stop::OutputFull)
}

impl Server<'_, '_> {
    ghost use Rattle.serve.specs.Serving.{end_of, served_of, served_after, served_by, SameLoans};

    // What is written at the end of the input, where `have` bytes are kept: Refused 3 for a torn last frame. It is
    // lent the output alone, since of the server nothing else changes.
    fn at_end(out: &mut [u8], have: usize) -> usize
        requires { longest_answer ≤ length out.old }
        ensures { ((result, out.new) ≡ end_of out.old have) × (result ≤ length out.old) }
    {
        if 0 < have {
            return replies::put(out, 0, Answer::Refused(Refusal::Torn.number()));
        }
        0
    }

    // All whole frames among the bytes that are kept answered, and what is left of them moved to the front; or Refused 3 behind
    // the answers, and no byte is kept.
    fn serve_front(&mut self) -> ControlFlow<usize, usize>
        ensures bounds { IfSome (served_of self.new result).have (λ kept. kept < longest_frame) × ((served_of self.new result).written ≤ length self.old.out.now) }
        ensures kept { self.new.input.have ≡ unwrap_or (served_of self.new result).have 0 }
        ensures all { (served_of self.new result, self.new.book.now, self.new.input.buffer.now, self.new.out.now) ≡ served_after self.old.input.buffer.now self.old.input.have (stream_of self.old.book.now (table_of self.old.tickets) self.old.ranks.now (take self.old.input.have self.old.input.buffer.now) self.old.out.now) }
        ensures same_loans { SameLoans self.old self.new }
    {
        // Each part is lent under a name of its own: beside the loans of others a field's loan is not covered.
        let tickets = self.tickets;
        let ranks = self.ranks;
        let book = &mut *self.book;
        let out = &mut *self.out;
        let input = &mut self.input;
        let answered = input.stream(book, tickets, ranks, out);
        self.tickets = answered.tickets;
        if !goes_on(answered.stop) {
            input.have = 0;
            let refused = replies::put(
                self.out,
                answered.written,
                Answer::Refused(Refusal::Torn.number()),
            );
            return ControlFlow::Break(refused);
        }
        self.input.consume(answered.consumed);
        ControlFlow::Continue(answered.written)
    }

    // All that is done after a read of `got` bytes behind those kept, none at the end of the input: how many bytes to write from
    // the front of the output, and if the program goes on. Where it doesn't, no byte is kept: a turn after it refuses none again.
    // No plainer as an `Option`: `Read` itself tells the end by 0, and `served_by` takes the number.
    pub fn after_read(&mut self, got: usize) -> ControlFlow<usize, usize>
        requires { self.old.input.have + got ≤ length self.old.input.buffer.now }
        ensures bounds { IfSome (served_of self.new result).have (λ kept. kept < longest_frame) × ((served_of self.new result).written ≤ length self.old.out.now) }
        ensures kept { self.new.input.have ≡ unwrap_or (served_of self.new result).have 0 }
        ensures all { (served_of self.new result, self.new.book.now, self.new.input.buffer.now, self.new.out.now) ≡ served_by self.old.book.now (table_of self.old.tickets) self.old.ranks.now self.old.input.buffer.now self.old.input.have got self.old.out.now }
        ensures same_loans { SameLoans self.old self.new }
    {
        if got == 0 {
            let have = self.input.have;
            self.input.have = 0;
            let count = Server::at_end(self.out, have);
            return ControlFlow::Break(count);
        }
        self.input.have += got;
        self.serve_front()
    }
}
