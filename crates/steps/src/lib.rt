// One step of a standing, well-made ticket: its swap made, and its answer written at the front of the output. One look.
#![tactic(auto)]

ghost use Rattle.std.specs.Prelude.{◌≡◌, ◌<◌, length};
ghost use Rattle.tickets.specs.Steps.{step_of, look_of};
ghost use Rattle.tickets.specs.Table.{gathered};
ghost use Rattle.replies.specs.Leaving.{StepsWithRoom, LeftBy};

use replies::Left;
use tickets::{Phase, Target, Ticket, Tickets};
use words::Limits;

// A step of a team whose ticket is well made, by its phase: one swap. A match, since what each may write is told by its own contract; a
// table of closures would hide it.
pub fn step(
    book: &mut [u64; Limits::WORDS],
    targets: &mut [Target; Tickets::ROOM],
    ticket: Ticket,
    team: usize,
    out: &mut [u8],
) -> Left
    requires { StepsWithRoom targets.old team ticket out.old }
    ensures { LeftBy (step_of book.old (gathered targets.old ticket) team) targets.new result.ticket book.new out.old result.written out.new }
{
    match ticket.phase() {
        Phase::Claiming => claiming::claim(book, targets, ticket, team, out),
        Phase::Putting => releasing::put(book, targets, ticket, team, out),
        Phase::GivingBack => releasing::give_back(book, targets, ticket, team, out),
        Phase::Viewing => views::view_claim(book, targets, ticket, team, out),
        Phase::Viewed => views::view_give_back(book, targets, ticket, team, out),
        Phase::NoTicket => unreachable!(),
    }
}

// One look at a word: one read. There is no value to show where the word is held.
pub fn look(book: &[u64], word: u16) -> Option<u64>
    requires { word < length book.now }
    ensures { result ≡ look_of book.now word }
{
    let found = words::read(book, word as usize);
    (!words::is_held(found)).then_some(found)
}
