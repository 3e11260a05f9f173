// The legs of a book at a station: whether a leg is there, how many of each passage are, and how long their list is.
#![tactic(auto)]

ghost use Rattle.std.specs.Prelude.{◌≡◌, ◌+◌, ◌*◌, ◌≤◌, ◌<◌, length, sum};
ghost use Rattle.words.specs.declared.LegLayout.TheVariants.{FourWords};
ghost use Rattle.words.specs.Words.{passage_count, last_leg};
ghost use Rattle.soundness.specs.InWords.{list_in, plain_in};
ghost use Rattle.meeting.specs.Meeting.{those_meeting};
ghost use Rattle.stations.specs.Counting.{counts_at, with_passage, size_of};

mod book;

pub use book::{LegsAlong, SoundBook, WrittenLeg};
use words::Limits;

// How much there is to list: the legs, the passages that have one there, and their pairs.
#[derive(Clone, Copy, Default)]
pub struct Size {
    pub legs: usize,
    pub passages: usize,
    pub pairs: usize,
}

impl Size {
    // The two numbers, of legs and of pairs.
    pub const NUMBERS: usize = 2;

    // The words of a leg, or of a pair.
    pub const ENTRY: usize = 2;
}

// How many legs of a passage are there. The book and the station go side by side: the one is asked of the other, and a struct of both
// would be made for one list alone.
fn count_of(book: SoundBook, station: u16, passage: u16) -> usize
    requires { passage < passage_count }
    ensures { result ≡ length (those_meeting station (list_in FourWords book.entry.words.now passage)) }
{
    book.legs_of(passage)
        .filter(|leg| leg.is_at(station))
        .count()
}

// How many legs of each passage are there.
pub fn counts_at(book: SoundBook, station: u16) -> [usize; Limits::PASSAGES as usize]
    ensures { result ≡ counts_at station (plain_in FourWords book.entry.words.now) }
{
    let mut counts = [0usize; Limits::PASSAGES as usize];
    for (passage, count) in counts.iter_mut().enumerate() {
        *count = count_of(book, station, passage as u16);
    }
    counts
}

// A passage before those counted makes a pair with each of them.
fn with_passage(size: Size, count: usize) -> Size
    requires { ((size.legs + count ≤ last_leg) × (size.passages ≤ passage_count)) × (size.pairs ≤ passage_count * size.passages) }
    ensures { result ≡ with_passage count size }
{
    if count == 0 {
        return size;
    }
    Size {
        legs: size.legs + count,
        passages: size.passages + 1,
        pairs: size.pairs + size.passages,
    }
}

// The size of the list, from the last passage on: each finds those after it counted. A loop and no fold, whose closure would have to ask
// that the size so far is small.
pub fn size_of(counts: [usize; Limits::PASSAGES as usize]) -> Size
    requires { sum counts ≤ last_leg }
    ensures { result ≡ size_of counts }
{
    let mut size = Size::default();
    for count in counts.iter().rev() {
        size = with_passage(size, *count);
    }
    size
}
