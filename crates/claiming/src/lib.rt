// The claims of an edit: one more word, or a claim that misses.
#![tactic(auto)]

ghost use Rattle.std.specs.Prelude.{◌≡◌, ◌≤◌, length};
ghost use Rattle.tickets.specs.declared.Phase.TheVariants.{Claiming};
ghost use Rattle.tickets.specs.Steps.{step_of};
ghost use Rattle.tickets.specs.Table.{gathered};
ghost use Rattle.frames.specs.Answers.{longest_answer};
ghost use Rattle.replies.specs.Leaving.{Answered, StepsFromWithRoom, LeftBy};
ghost use Rattle.claiming.specs.Missing.{differed_slot, differed_answer, MissesIn, MissLeft};

use replies::Left;
use tickets::{StepAnswer, Target, Ticket, Tickets};
use words::Limits;

// Found stale: at once where nothing is claimed, else it gives back first.
fn differed(ticket: Ticket, word: u16, out: &mut [u8]) -> Left
    requires { longest_answer ≤ length out.old }
    ensures ticket { result.ticket ≡ differed_slot ticket }
    ensures answer { Answered out.old (differed_answer ticket word) result.written out.new }
{
    let turned = ticket.turn();
    if ticket.claimed == 0 {
        let answer = StepAnswer::Stale(word, turned.tries);
        return replies::leave(Ticket::none(), answer, out);
    }
    replies::leave(turned, StepAnswer::Found(word), out)
}

// A claim of an edit that found something else than quoted: it waits, or is found stale.
pub fn missed(targets: &[Target; Tickets::ROOM], ticket: Ticket, found: u64, out: &mut [u8]) -> Left
    requires { MissesIn targets.now ticket × (longest_answer ≤ length out.old) }
    ensures { MissLeft targets.now ticket found result.ticket out.old result.written out.new }
{
    let target = replies::target_at(targets, ticket.claimed);
    if words::is_held(found) {
        return replies::waited(ticket, target.word as u16, found, out);
    }
    differed(ticket, target.word as u16, out)
}

// The next claim of an edit: one swap. A view's differs in the swap, in the value that it notes and in what a miss comes to, so that
// one function of both would be handed all three.
pub fn claim(
    book: &mut [u64; Limits::WORDS],
    targets: &[Target; Tickets::ROOM],
    ticket: Ticket,
    team: usize,
    out: &mut [u8],
) -> Left
    requires { StepsFromWithRoom Claiming targets.now team ticket out.old }
    ensures { LeftBy (step_of book.old (gathered targets.now ticket) team) targets.now result.ticket book.new out.old result.written out.new }
{
    let target = replies::target_at(targets, ticket.claimed);
    let mark = words::mark(team as u16);
    let found = words::conditional_swap(book, target.word as usize, target.quoted, mark).found;
    if found == target.quoted {
        let after = ticket.claim();
        return replies::leave(after, StepAnswer::Claimed(after.claimed), out);
    }
    missed(targets, ticket, found, out)
}
