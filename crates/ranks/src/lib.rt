// The cave's own ranks: whether a table can be in force, and the load that puts one in force.
#![tactic(auto)]

ghost use Rattle.std.specs.Prelude.{◌≡◌, cond, Some, None};
ghost use Rattle.legs.specs.Positions.{is_permutation};
ghost use Rattle.tickets.specs.Table.{table_of};
ghost use Rattle.frames.specs.Refusals.{numbered};
ghost use Rattle.calls.specs.Loading.{load_of};
ghost use Rattle.ranks.specs.Marking.{MarksOf};

use frames::Refusal;
use legs::AcceptedRanks;
use making::any_stands;
use tickets::Tickets;
use words::Limits;

// Which of the numbers 0 to 31 are among some ranks. One pass marks them all: a call asks for it with every frame.
fn marked(ranks: &[u16]) -> [bool; Limits::PASSAGES as usize]
    ensures { MarksOf result ranks.now }
{
    let mut found = [false; Limits::PASSAGES as usize];
    for rank in ranks {
        let number = usize::from(*rank);
        if number < Limits::PASSAGES as usize {
            found[number] = true;
        }
    }
    found
}

// Whether there are 32 ranks and each of 0 to 31 is among them.
pub fn is_permutation(ranks: &[u16]) -> bool
    ensures { result ≡ is_permutation ranks.now }
{
    if ranks.len() != Limits::PASSAGES as usize {
        return false;
    }
    let found = marked(ranks);
    found.iter().all(|mark| *mark)
}

// The same ranks as accepted ones, if they can be in force. An early return: a closure under `then` would have to ask for the test again,
// since the invariant is proved from it.
pub fn accepted(ranks: &[u16]) -> Option<AcceptedRanks>
    ensures { result ≡ cond (is_permutation ranks.now) (Some ranks.now) None }
{
    if !is_permutation(ranks) {
        return None;
    }
    Some(AcceptedRanks { numbers: ranks })
}

// The ranks in force become those loaded, unless the load is refused. It writes no word of the book.
pub fn load(
    book: &[u64],
    tickets: Tickets,
    ranks: &mut [u16; Limits::PASSAGES as usize],
    loaded: &[u16],
) -> Result<(), Refusal>
    ensures { (numbered result, ranks.new) ≡ load_of book.now (table_of tickets) ranks.old loaded.now }
{
    if book.len() != Limits::WORDS {
        return Err(Refusal::Book);
    }
    if !is_permutation(loaded) {
        return Err(Refusal::Ranks);
    }
    if any_stands(&tickets.slots) {
        return Err(Refusal::TicketStands);
    }
    ranks.copy_from_slice(loaded);
    Ok(())
}
