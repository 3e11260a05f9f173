// What a call and a stream give, as types. What they are is said in specs/, with the theorems about every list of
// calls; the code stands in the crate book.
#![tactic(auto)]

use frames::{Kind, Refusal};
use tickets::Tickets;

// What the call returns: the bytes written, or the refusal that is returned and written nowhere; and the tickets, which go by value, as
// the scope has them.
#[derive(Clone, Copy)]
pub struct Reply {
    pub written: Result<usize, Refusal>,
    pub tickets: Tickets,
}

// Where a frame that is not refused goes: to a look; or to a team, with its kind. A look is a place of its own, and not the lack of a
// team, so that an Option would say less.
#[derive(Clone, Copy)]
pub enum Aim {
    Look,
    Team(Kind, u16),
}

// Why a stream stopped: the rest is no whole frame yet; there is no room for an answer; a length field is too
// large; the book has another length; the ranks are not each of 0 to 31.
#[derive(Clone, Copy)]
pub enum Stop {
    MoreInput,
    OutputFull,
    BadLength,
    NoBook,
    NoRanks,
}

// What a stream returns: the tickets, the bytes consumed and written, and why it stopped.
#[derive(Clone, Copy)]
pub struct Streamed {
    pub tickets: Tickets,
    pub consumed: usize,
    pub written: usize,
    pub stop: Stop,
}
