// Whether a ticket is well made, by its slot; whether all are, and whether any stands.
#![tactic(auto)]

ghost use Rattle.std.specs.Prelude.{◌≡◌, Bool, cond, ◌≤◌};
ghost use Rattle.words.specs.Words.{team_count, most_targets, most_named};
ghost use Rattle.tickets.specs.Tickets.{words_in, named_in, target_well_made, all_well_made, counts_well_made, is_view, names_well_made, well_made, slot_well_made, well_made_from, stands_below};
ghost use Rattle.tickets.specs.Table.{target_room, phase_by, targets_of, gathered, table_of, table_with};

use tickets::{Kind, Phase, Slot, Target, Ticket, Tickets};
use words::Limits;

// Its word is in the book, and its values are no marks.
#[tactic(auto, unfolding(words::specs::Tests::all_hold))]
fn target_well_made(target: &Target) -> bool
    ensures { result ≡ target_well_made target.now }
{
    target.word < Limits::WORDS as u64 && target.quoted < Limits::HELD && target.new < Limits::HELD
}

// Whether all of some targets are.
pub fn targets_well_made(targets: &[Target]) -> bool
    ensures { result ≡ all_well_made targets.now }
{
    targets.iter().all(|target| target_well_made(target))
}

// Whether the words that a view names are distinct, and its targets in some order. Names and words are taken out, since the tests are of
// numbers.
pub fn names_well_made(targets: &[Target; Tickets::ROOM], n: u16) -> bool
    requires { n ≤ target_room }
    ensures { result ≡ names_well_made (named_in (targets_of targets.now n)) (words_in (targets_of targets.now n)) }
{
    let many = n as usize;
    let names = targets.map(|target| target.new);
    let words = targets.map(|target| target.word);
    let named = &names[..many];
    if !words::distinct(named) {
        return false;
    }
    named
        .iter()
        .all(|name| words::occurs(&words[..many], *name))
}

// The counts are those of the phase.
#[tactic(auto, unfolding(words::specs::Tests::all_hold))]
fn counts_fit(phase: Phase, ticket: Ticket) -> bool
    ensures { result ≡ counts_well_made phase ticket.n ticket.claimed ticket.done }
{
    let Ticket {
        n,
        claimed,
        done,
        ..
    } = ticket;
    match phase {
        Phase::NoTicket => false,
        Phase::Claiming => claimed < n,
        Phase::Putting => done < n,
        // What is given back of an edit found stale: fewer than were claimed, and those not all.
        Phase::GivingBack => done < claimed && claimed < n,
        Phase::Viewing => claimed < n,
        // What a view gives back: all are claimed.
        Phase::Viewed => done < claimed && claimed == n,
    }
}

// Whether a ticket is a view's.
fn is_view(kind: Kind) -> bool
    ensures { (claims : Bool) → result ≡ is_view (phase_by kind claims) }
{
    matches!(kind, Kind::View)
}

// The most targets of a ticket: of a view, the words that it may name.
fn most_targets(view: bool) -> u16
    ensures { result ≡ cond view most_named most_targets }
{
    if view {
        return Limits::NAMED as u16;
    }
    Limits::TARGETS as u16
}

// Whether the ticket in a slot is well made. A slot without one has none that is.
pub fn well_made(targets: &[Target; Tickets::ROOM], ticket: Ticket) -> bool
    ensures { result ≡ well_made (gathered targets.now ticket) }
{
    if ticket.n <= ticket.done {
        return false;
    }
    let kind = ticket.kind;
    let view = is_view(kind);
    if most_targets(view) < ticket.n {
        return false;
    }
    if !targets_well_made(&targets[..ticket.n as usize]) {
        return false;
    }
    let phase = ticket.phase();
    if !counts_fit(phase, ticket) {
        return false;
    }
    if !view {
        return true;
    }
    names_well_made(targets, ticket.n)
}

// Whether a slot passes: a ticket that stands in it is well made.
pub fn slot_well_made(targets: &[Target; Tickets::ROOM], ticket: Ticket) -> bool
    ensures { result ≡ slot_well_made (gathered targets.now ticket) }
{
    if ticket.stands() {
        return well_made(targets, ticket);
    }
    true
}

// Whether all slots pass.
pub fn all_well_made(slots: &[Slot; Limits::TEAMS]) -> bool
    ensures { result ≡ well_made_from 0 team_count (table_of (table_with slots.now)) }
{
    slots
        .iter()
        .all(|slot| slot_well_made(&slot.targets, slot.ticket))
}

// Whether some team has a ticket, whatever its targets.
pub fn any_stands(slots: &[Slot; Limits::TEAMS]) -> bool
    ensures { result ≡ stands_below team_count (table_of (table_with slots.now)) }
{
    slots.iter().any(|slot| slot.ticket.stands())
}
