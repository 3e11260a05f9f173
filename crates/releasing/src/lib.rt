// The words of an edit released: put with their new values, or given back.
#![tactic(auto)]

ghost use Rattle.tickets.specs.declared.Phase.TheVariants.{Putting, GivingBack};
ghost use Rattle.tickets.specs.Steps.{step_of};
ghost use Rattle.tickets.specs.Table.{gathered};
ghost use Rattle.replies.specs.Leaving.{StepsFromWithRoom, LeftBy};

use replies::Left;
use tickets::{StepAnswer, Target, Ticket, Tickets};
use words::Limits;

// The next put of an edit: one swap. It differs from a give-back in the value, in the ticket after it and in both answers, so that one
// function of both would be handed all four.
pub fn put(
    book: &mut [u64; Limits::WORDS],
    targets: &[Target; Tickets::ROOM],
    ticket: Ticket,
    team: usize,
    out: &mut [u8],
) -> Left
    requires { StepsFromWithRoom Putting targets.now team ticket out.old }
    ensures { LeftBy (step_of book.old (gathered targets.now ticket) team) targets.now result.ticket book.new out.old result.written out.new }
{
    let target = replies::target_at(targets, ticket.done);
    replies::release(book, team, target.word, target.new);
    let after = ticket.put();
    if after.stands() {
        return replies::leave(after, StepAnswer::Put(after.done), out);
    }
    replies::leave(after, StepAnswer::Granted(after.tries), out)
}

// The next give-back of an edit found stale: one swap; the last names the word that differed, where a view's shows its values: of both
// one function would be handed these last lines.
pub fn give_back(
    book: &mut [u64; Limits::WORDS],
    targets: &[Target; Tickets::ROOM],
    ticket: Ticket,
    team: usize,
    out: &mut [u8],
) -> Left
    requires { StepsFromWithRoom GivingBack targets.now team ticket out.old }
    ensures { LeftBy (step_of book.old (gathered targets.now ticket) team) targets.now result.ticket book.new out.old result.written out.new }
{
    let target = replies::target_at(targets, ticket.done);
    replies::release(book, team, target.word, target.quoted);
    let after = ticket.give_back();
    if after.stands() {
        return replies::leave(after, StepAnswer::Returned(after.done), out);
    }
    let differed = replies::target_at(targets, ticket.claimed);
    replies::leave(
        after,
        StepAnswer::Stale(differed.word as u16, after.tries),
        out,
    )
}
