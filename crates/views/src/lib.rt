// A step of a view: a claim, whose value is noted, or a give-back, the last of which shows the values.
#![tactic(auto)]

ghost use Rattle.std.specs.Prelude.{◌≡◌, ◌≤◌, ◌<◌};
ghost use Rattle.words.specs.Words.{most_named};
ghost use Rattle.tickets.specs.declared.Phase.TheVariants.{Viewing, Viewed};
ghost use Rattle.tickets.specs.Steps.{value_noted, values_seen, step_of};
ghost use Rattle.tickets.specs.Table.{target_room, noted_at, targets_of, gathered};
ghost use Rattle.replies.specs.Leaving.{StepsFromWithRoom, LeftBy};

use replies::Left;
use tickets::{StepAnswer, Target, Ticket, Tickets, Values};
use words::Limits;

// Notes the value found for target k, in the place of a quoted one.
fn note(targets: &mut [Target; Tickets::ROOM], k: u16, found: u64)
    requires { k < target_room }
    ensures { targets.new ≡ noted_at targets.old k found }
{
    targets[k as usize].quoted = found;
}

// One step of a view that claims: one swap, which takes any value.
pub fn view_claim(
    book: &mut [u64; Limits::WORDS],
    targets: &mut [Target; Tickets::ROOM],
    ticket: Ticket,
    team: usize,
    out: &mut [u8],
) -> Left
    requires { StepsFromWithRoom Viewing targets.old team ticket out.old }
    ensures { LeftBy (step_of book.old (gathered targets.old ticket) team) targets.new result.ticket book.new out.old result.written out.new }
{
    let target = replies::target_at(targets, ticket.claimed);
    let mark = words::mark(team as u16);
    let found = words::swap_any_value(book, target.word as usize, mark).found;
    if words::is_held(found) {
        return replies::waited(ticket, target.word as u16, found, out);
    }
    note(targets, ticket.claimed, found);
    let after = ticket.claim();
    replies::leave(after, StepAnswer::Claimed(after.claimed), out)
}

// The value noted for a word, 0 where it is no target's.
fn value_noted(targets: &[Target], word: u64) -> u64
    ensures { result ≡ value_noted targets.now word }
{
    let Some(target) = targets.iter().find(|target| target.word == word) else {
        return 0;
    };
    target.quoted
}

// The values noted, in the order named.
fn values_seen(targets: &[Target; Tickets::ROOM], n: u16) -> Values
    requires { n ≤ most_named }
    ensures { result ≡ values_seen (targets_of targets.now n) }
{
    let noted = &targets[..n as usize];
    let mut values = [0; Limits::NAMED];
    for (k, target) in noted.iter().enumerate() {
        values[k] = value_noted(noted, target.new);
    }
    Values { n, values }
}

// One step of a view that gives back: one conditional swap. It differs from an edit's in its last answer, which is worked out only then:
// a function of both would be handed a closure for these two lines.
pub fn view_give_back(
    book: &mut [u64; Limits::WORDS],
    targets: &[Target; Tickets::ROOM],
    ticket: Ticket,
    team: usize,
    out: &mut [u8],
) -> Left
    requires { StepsFromWithRoom Viewed targets.now team ticket out.old }
    ensures { LeftBy (step_of book.old (gathered targets.now ticket) team) targets.now result.ticket book.new out.old result.written out.new }
{
    let target = replies::target_at(targets, ticket.done);
    replies::release(book, team, target.word, target.quoted);
    let after = ticket.give_back();
    if after.stands() {
        return replies::leave(after, StepAnswer::Returned(after.done), out);
    }
    let seen = values_seen(targets, ticket.n);
    replies::leave(after, StepAnswer::Seen(seen), out)
}
