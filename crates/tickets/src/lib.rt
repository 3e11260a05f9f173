// A team's ticket by value, and the table of tickets: a slot for each team, with its ticket and room for the ticket's targets.
#![tactic(auto)]

ghost use Rattle.std.specs.Prelude.{◌≡◌, false, List, ◌+◌, ◌≤◌, ◌<◌};
ghost use Rattle.tickets.specs.Tickets.{fresh_tickets};
ghost use Rattle.tickets.specs.Steps.{one_more_try, claimed, put, given_back};
ghost use Rattle.tickets.specs.declared.Kind.TheVariants.{Edit, Stale, View};
ghost use Rattle.tickets.specs.declared.Target.{Target};
ghost use Rattle.tickets.specs.Table.{no_target, no_slot, fresh_slot, opened_slot, tried_slot, stands_in, claims_in, phase_by, phase_of, done_with_one, gathered, table_of};

use words::Limits;

// A word, the value that the edit quotes for it (in the source document: expected) and its new value (desired). A table may be lent with
// any number in the word's place, so that it has room for one.
#[derive(Clone, Copy)]
pub struct Target {
    pub word: u64,
    pub quoted: u64,
    pub new: u64,
}

// The phase of a ticket; "no ticket" is that of an empty slot. An edit is claiming, then putting or giving back; a view (in
// the literature: an atomic multi-word read, or snapshot) claims, then gives back. A view that is putting can't be written. That there is
// none is a phase too: the definitions go by all six, and an Option would be taken apart wherever a phase is matched.
#[derive(Clone, Copy)]
pub enum Phase {
    NoTicket,
    Claiming,
    Putting,
    GivingBack,
    Viewing,
    Viewed,
}

// Whose ticket it is: an edit's, that of an edit found stale, which gives back, or a view's.
#[derive(Clone, Copy)]
pub enum Kind {
    Edit,
    Stale,
    View,
}

// A ticket (in the source document: a multi-word compare-and-swap descriptor) in its team's slot: how many targets it has,
// how many are claimed, how many are done, and its tries. Its phase follows from these. It is small, so that it goes by value
// at no cost; its targets stand beside it in the slot, and are lent apart from it: a step reads them while it makes the next ticket.
#[derive(Clone, Copy)]
pub struct Ticket {
    pub tries: u32,
    pub n: u16,
    pub claimed: u16,
    pub done: u16,
    pub kind: Kind,
}

// What is kept for a team: its ticket, and room for the targets, since there is no heap: how many stand there, the ticket says. A view keeps the values that it found where an edit keeps those it
// quotes, and the words in the order named where an edit keeps new values.
#[derive(Clone, Copy)]
pub struct Slot {
    pub ticket: Ticket,
    pub targets: [Target; Tickets::ROOM],
}

// One slot for each team.
#[derive(Clone, Copy)]
pub struct Tickets {
    pub slots: [Slot; Limits::TEAMS],
}

// The conditional swap that a step tries.
#[derive(Clone, Copy)]
pub struct SwapTried {
    pub word: u16,
    pub expected: u64,
    pub desired: u64,
}

#[derive(Clone, Copy)]
pub enum StepAnswer {
    Claimed(u16),
    Waiting(u16, u16),
    Found(u16),
    Put(u16),
    Returned(u16),
    Granted(u32),
    Stale(u16, u32),
    Seen(Values),
}

// What a view has seen: the values of its n words, in the order named; room not used is zeros. There is no heap, and a slice would
// borrow from the table that is written: the number stands beside the array.
#[derive(Clone, Copy)]
pub struct Values {
    pub n: u16,
    pub values: [u64; Limits::NAMED],
}

// The phase of a standing ticket, by whether it has words left to claim.
fn phase_by(kind: Kind, claims: bool) -> Phase
    ensures { result ≡ phase_by kind claims }
{
    match kind {
        Kind::Edit if claims => Phase::Claiming,
        Kind::Edit => Phase::Putting,
        Kind::Stale => Phase::GivingBack,
        Kind::View if claims => Phase::Viewing,
        Kind::View => Phase::Viewed,
    }
}

impl Ticket {
    // Tries stops rising here.
    pub const MOST_TRIES: u32 = 4294967295;

    // A ticket of n targets, just opened.
    fn opened(kind: Kind, n: u16) -> Ticket
        ensures { result ≡ opened_slot kind n }
    {
        Ticket {
            tries: 0,
            n,
            claimed: 0,
            done: 0,
            kind,
        }
    }

    // The slot of a team with no ticket: an edit's of no targets, all of which are done. A finished ticket is gone and says so by its
    // counts, so that an Option would be a second way to say it.
    pub fn none() -> Ticket
        ensures { result ≡ no_slot }
    {
        Ticket::opened(Kind::Edit, 0)
    }

    // An edit's ticket of n targets, just opened, whose kind is in the name,
    pub fn edit(n: u16) -> Ticket
        ensures { result ≡ opened_slot Edit n }
    {
        Ticket::opened(Kind::Edit, n)
    }

    // and a view's.
    pub fn view(n: u16) -> Ticket
        ensures { result ≡ opened_slot View n }
    {
        Ticket::opened(Kind::View, n)
    }

    // Whether this is a ticket, and no empty slot: a finished one is gone.
    pub fn stands(self) -> bool
        ensures { result ≡ stands_in self }
    {
        self.done < self.n
    }

    // Whether it has words left to claim.
    pub fn claims(self) -> bool
        ensures { result ≡ claims_in self }
    {
        self.done == 0 && self.claimed < self.n
    }

    // Its phase, which follows from its counts.
    pub fn phase(self) -> Phase
        ensures { result ≡ phase_of self }
    {
        if self.stands() {
            phase_by(self.kind, self.claims())
        } else {
            Phase::NoTicket
        }
    }

    // The tries after one more. The scope names this constant, at which they stop, so that it is not left to the type's.
    fn tried(self) -> u32
        ensures { result ≡ one_more_try self.tries }
    {
        if self.tries < Ticket::MOST_TRIES {
            self.tries + 1
        } else {
            self.tries
        }
    }

    // The ticket after one more try, with so many claimed and so many done.
    fn advanced(self, claimed: u16, done: u16) -> Ticket
        ensures { result ≡ tried_slot self self.kind claimed done }
    {
        Ticket {
            tries: self.tried(),
            claimed,
            done,
            ..self
        }
    }

    // One more word claimed: the ticket advanced, and putting once it has them all; a view then gives back.
    pub fn claim(self) -> Ticket
        requires { (self.done ≡ 0) × (self.claimed < self.n) }
        ensures slot { result ≡ tried_slot self self.kind (self.claimed + 1) self.done }
        ensures edit { self.kind ≡ Edit → (targets : List Target) → gathered targets result ≡ (claimed (gathered targets self)).ticket }
    {
        self.advanced(self.claimed + 1, self.done)
    }

    // One more target put: the ticket advanced, and gone with the last.
    pub fn put(self) -> Ticket
        requires { (self.kind ≡ Edit) × (self.done < self.n) × (claims_in self ≡ false) }
        ensures slot { result ≡ tried_slot self self.kind self.claimed (self.done + 1) }
        ensures edit { (targets : List Target) → gathered targets result ≡ (put (gathered targets self)).ticket }
    {
        self.advanced(self.claimed, self.done + 1)
    }

    // How many targets are done with one more given back: all, with the last that was claimed.
    fn given(self) -> u16
        requires { self.done < self.claimed }
        ensures { result ≡ done_with_one self }
    {
        let more = self.done + 1;
        if more == self.claimed { self.n } else { more }
    }

    // One more word given back: the ticket advanced, and gone with the last.
    pub fn give_back(self) -> Ticket
        requires { (self.done < self.claimed) × (self.claimed ≤ self.n) }
        ensures slot { result ≡ tried_slot self self.kind self.claimed (done_with_one self) }
        ensures edit { self.kind ≡ Stale → (targets : List Target) → gathered targets result ≡ (given_back (gathered targets self)).ticket }
    {
        self.advanced(self.claimed, self.given())
    }

    // A claim that found the word held: it waits.
    pub fn wait(self) -> Ticket
        ensures { result ≡ tried_slot self self.kind self.claimed self.done }
    {
        self.advanced(self.claimed, self.done)
    }

    // Found stale, with words claimed: it gives them back, nothing done yet.
    pub fn turn(self) -> Ticket
        ensures { result ≡ tried_slot self Stale self.claimed 0 }
    {
        Ticket {
            tries: self.tried(),
            done: 0,
            kind: Kind::Stale,
            ..self
        }
    }
}

impl Target {
    // What stands where no target was stored yet.
    pub fn none() -> Target
        ensures { result ≡ no_target }
    {
        Target {
            word: 0,
            quoted: 0,
            new: 0,
        }
    }
}

impl Slot {
    // A slot to begin with: no ticket, and zeros in its room.
    pub fn fresh() -> Slot
        ensures { result ≡ fresh_slot }
    {
        Slot {
            ticket: Ticket::none(),
            targets: [Target::none(); Tickets::ROOM],
        }
    }
}

impl Tickets {
    // Room for the targets of one team.
    pub const ROOM: usize = Limits::TARGETS;

    // No team has a ticket.
    pub fn fresh() -> Tickets
        ensures { table_of result ≡ fresh_tickets }
    {
        Tickets {
            slots: [Slot::fresh(); Limits::TEAMS],
        }
    }
}
