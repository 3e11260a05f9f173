// Frames: what is read from a frame and what answers it, as types; numbers in bytes, and a frame's head.
#![tactic(auto)]

ghost use Rattle.std.specs.Prelude.{◌≡◌};
ghost use Rattle.frames.specs.Requests.{view_kind, is_edit_kind, length_fits};
ghost use Rattle.frames.specs.Refusals.{refusal_number};
ghost use Rattle.frames.specs.Kinds.{kind_number, KindRead};

use crate::numbers::Bits;
use std::error::Error;
use std::fmt;
use tickets::StepAnswer;
use words::Limits;

pub mod numbers; // numbers in bytes, read and put
pub mod head; // refusals 3 to 5, and the part after the kind

// An answer; that to a look has the word's value, and none where the word is held. A refusal is told like every
// other answer, so that it is no Result.
#[derive(Clone, Copy)]
pub enum Answer {
    Standing(u16),
    Step(StepAnswer),
    Look(Option<u64>),
    // The number of the frame, as the other answers' fields are: the definitions read an answer back from bytes of any number.
    Refused(u16),
}

// Of a leg that is taken out of its passage's list: the next newer leg, itself, the next older, and the count of legs. Strike and
// Move have these four as fields of their own, as the papers name them: a Taken in both would be one more name in every place of one.
#[derive(Clone, Copy)]
pub struct Taken {
    pub newer: u16,
    pub leg: u16,
    pub older: u16,
    pub count: u16,
}

// The size of a frame, in bytes.
#[derive(Drop)]
pub struct Frame {}

impl Frame {
    // A field of 16 bits, as the length and the kind are.
    pub const FIELD: usize = 2;

    // A field of 32 bits, as tries and a distance are.
    pub const LONG: usize = 4;

    // A field of each, as a word and tries are.
    pub const FIELD_AND_LONG: usize = Frame::FIELD + Frame::LONG;

    // A value, of 64 bits.
    pub const VALUE: usize = 8;

    // The length and the kind.
    pub const HEAD: usize = Frame::FIELD + Frame::FIELD;

    // A step's; and its first four bytes, as one number.
    pub const STEP: usize = Frame::FIELD + Length::STEP as usize;

    pub const STEP_HEAD: u32 = Length::STEP as u32 + Bits::TWO_BYTES * (Kind::STEP as u32);

    // What a view's length counts beside its words: kind, team and n.
    pub const BEFORE_WORDS: usize = 3 * Frame::FIELD;

    pub const LONGEST: usize = 64;
}

impl Answer {
    // The bytes of the longest answer's frame, which an output must have room for.
    pub const LONGEST: usize = Frame::HEAD + Frame::VALUE * Limits::NAMED;
}

// What the length field of each kind says: the bytes of the kind, which counts as a field, of the other fields, and of measures.
#[derive(Drop)]
pub struct Length {}

impl Length {
    const FIELD: u16 = Frame::FIELD as u16;

    // Distance, compass and clino.
    pub const MEASURE: u16 = Frame::LONG as u16 + 2 * Length::FIELD;

    pub const ADD: u16 = 8 * Length::FIELD + Length::MEASURE;

    pub const CORRECT: u16 = 6 * Length::FIELD + 2 * Length::MEASURE;

    pub const STRIKE: u16 = 9 * Length::FIELD + Length::MEASURE;

    pub const MOVE: u16 = 12 * Length::FIELD;

    // Distance, and compass and clino by degrees and minutes, the clino with a sign.
    pub const MEASURE_IN_MINUTES: u16 = Frame::LONG as u16 + 5 * Length::FIELD;

    pub const ADD_IN_MINUTES: u16 = 8 * Length::FIELD + Length::MEASURE_IN_MINUTES;

    pub const CORRECT_IN_MINUTES: u16 = 6 * Length::FIELD + 2 * Length::MEASURE_IN_MINUTES;

    // The team, or the word, is the only other field.
    pub const STEP: u16 = 2 * Length::FIELD;

    pub const LOOK: u16 = 2 * Length::FIELD;
}

// What a frame asks for, by its kind.
#[derive(Clone, Copy, Debug, PartialEq, Eq)]
pub enum Kind {
    Add,
    Correct,
    Strike,
    Move,
    Step,
    Look,
    View,
    // Add and Correct, compass and clino in degrees and minutes.
    AddInMinutes,
    CorrectInMinutes,
}

impl Kind {
    // A frame says its kind by these numbers of the papers. They are constants beside the variants, since who makes a frame needs them, and the
    // number that a step's frame begins with is made of one.
    pub const ADD: u16 = 1;

    pub const CORRECT: u16 = 2;

    pub const STRIKE: u16 = 3;

    pub const MOVE: u16 = 4;

    pub const STEP: u16 = 5;

    pub const LOOK: u16 = 6;

    pub const VIEW: u16 = 7;

    pub const ADD_IN_MINUTES: u16 = 17;

    pub const CORRECT_IN_MINUTES: u16 = 18;

    // Whether it is an edit's.
    pub fn is_edit(self) -> bool
        ensures { result ≡ is_edit_kind (kind_number self) }
    {
        !matches!(self, Kind::Step | Kind::Look | Kind::View)
    }

    // Whether this is what its length field may say. All but a view have one length.
    #[tactic(auto, unfolding(crate::specs::Requests::length_fits))]
    pub fn fits(self, length: u16) -> bool
        ensures { result ≡ length_fits (kind_number self) length }
    {
        match self {
            Kind::Add => length == Length::ADD,
            Kind::Correct => length == Length::CORRECT,
            Kind::Strike => length == Length::STRIKE,
            Kind::Move => length == Length::MOVE,
            Kind::Step => length == Length::STEP,
            Kind::Look => length == Length::LOOK,
            Kind::View => fits_view(length),
            Kind::AddInMinutes => length == Length::ADD_IN_MINUTES,
            Kind::CorrectInMinutes => length == Length::CORRECT_IN_MINUTES,
        }
    }
}

// Whether the length field is a view's, which says how many words there are.
fn fits_view(length: u16) -> bool
    ensures { result ≡ length_fits view_kind length }
{
    let count = length as usize;
    if count < Frame::BEFORE_WORDS + Frame::FIELD {
        return false;
    }
    if Frame::BEFORE_WORDS + Frame::FIELD * Limits::NAMED < count {
        return false;
    }
    count % Frame::FIELD == 0
}

impl TryFrom<u16> for Kind {
    type Error = Refusal;

    ghost try_from_gives = { KindRead };

    fn try_from(number: u16) -> Result<Kind, Refusal> {
        match number {
            Kind::ADD => Ok(Kind::Add),
            Kind::CORRECT => Ok(Kind::Correct),
            Kind::STRIKE => Ok(Kind::Strike),
            Kind::MOVE => Ok(Kind::Move),
            Kind::STEP => Ok(Kind::Step),
            Kind::LOOK => Ok(Kind::Look),
            Kind::VIEW => Ok(Kind::View),
            Kind::ADD_IN_MINUTES => Ok(Kind::AddInMinutes),
            Kind::CORRECT_IN_MINUTES => Ok(Kind::CorrectInMinutes),
            _ => Err(Refusal::Kind),
        }
    }
}

// Why a frame or a call without a frame is refused, with the papers' numbers, in checking order.
#[derive(Clone, Copy, Debug, PartialEq, Eq)]
pub enum Refusal {
    // These three are returned, and written nowhere. The ranks are tested after the book.
    Book = 1,
    Ranks = 13,
    Output = 2,
    Torn = 3,
    Kind = 4,
    Length = 5,
    Team = 6,
    Ticket = 7,
    Standing = 8,
    NoTicket = 9,
    Range = 10,
    Repeated = 11,
    // These are of calls without a frame, and are returned.
    Scratch = 12,
    TicketStands = 14,
    Unsound = 15,
    LegAbove = 16,
    Store = 19,
    Shelf = 20,
    List = 21,
}

impl Refusal {
    // The number that a frame carries, or that a call returns: a name for `as`, which says so where a From would not.
    pub fn number(self) -> u16
        ensures { result ≡ refusal_number self }
    {
        self as u16
    }
}

impl fmt::Display for Refusal {
    fn fmt<W: fmt::Write>(&self, f: &mut fmt::Formatter<W>) -> fmt::Result {
        write!(f, "refused {}", self.number())
    }
}

impl Error for Refusal {}
