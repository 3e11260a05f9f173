// The list of a station, written into an output that has room for it: the legs, and the pairs of passages.
#![tactic(auto)]

ghost use Rattle.std.specs.Prelude.{[], ◌∷◌, ◌<◌};
ghost use Rattle.words.specs.declared.LegLayout.TheVariants.{FourWords};
ghost use Rattle.words.specs.Words.{passage_count};
ghost use Rattle.soundness.specs.InWords.{list_in, plain_in};
ghost use Rattle.meeting.specs.Meeting.{those_meeting, legs_at, pairs_of, listed_words, pair_words};
ghost use Rattle.stations.specs.Chains.{leg_of};
ghost use Rattle.stations.specs.Counting.{present_from};
ghost use Rattle.listing.specs.Listing.{pairs_with};
ghost use Rattle.listing.specs.Writing.{HasRoom, HasWritten};

use legs::distance_in;
use stations::{Size, SoundBook, WrittenLeg};
use words::Limits;

// An output, and the place in it where the next word goes. That it has room is asked of the words that each function writes, which no
// invariant can say of all.
#[derive(Drop)]
pub struct Output<'a> {
    pub words: &'a mut [u64],
    pub at: usize,
}

impl<'a> Output<'a> {
    pub fn put(&mut self, word: u64)
        requires { HasRoom self.old (word ∷ []) }
        ensures { HasWritten self.old (word ∷ []) self.new }
    {
        self.words[self.at] = word;
        self.at += 1;
    }

    // Puts the two words of a leg, or of a pair: both at once, so that room is asked of once.
    fn put_two(&mut self, first: u64, second: u64)
        requires { HasRoom self.old (first ∷ second ∷ []) }
        ensures { HasWritten self.old (first ∷ second ∷ []) self.new }
    {
        self.words[self.at] = first;
        self.words[self.at + 1] = second;
        self.at += Size::ENTRY;
    }
}

fn write_leg(leg: WrittenLeg, station: u16, out: &mut Output)
    requires { HasRoom out.old (listed_words (those_meeting station (leg_of leg ∷ []))) }
    ensures { HasWritten out.old (listed_words (those_meeting station (leg_of leg ∷ []))) out.new }
{
    if leg.is_at(station) {
        let number = u64::from(leg.number);
        let distance = distance_in(leg.measure);
        out.put_two(number, distance);
    }
}

// Writes the legs of a passage that are there, newest first.
fn write_passage(book: SoundBook, station: u16, passage: u16, out: &mut Output)
    requires { (passage < passage_count) × HasRoom out.old (listed_words (those_meeting station (list_in FourWords book.words.now passage))) }
    ensures { HasWritten out.old (listed_words (those_meeting station (list_in FourWords book.entry.words.now passage))) out.new }
{
    for leg in book.legs_of(passage) {
        write_leg(leg, station, out);
    }
}

// Writes the legs that are there, by rising passage.
pub fn write_legs(book: SoundBook, station: u16, out: &mut Output)
    requires { HasRoom out.old (listed_words (legs_at station (plain_in FourWords book.words.now))) }
    ensures { HasWritten out.old (listed_words (legs_at station (plain_in FourWords book.entry.words.now))) out.new }
{
    for passage in 0..Limits::PASSAGES {
        write_passage(book, station, passage, out);
    }
}

// Writes the pairs in which a passage is the lower one.
fn write_pairs_with(counts: [usize; Limits::PASSAGES as usize], lower: usize, out: &mut Output)
    requires { (lower < passage_count) × HasRoom out.old (pair_words (pairs_with counts lower)) }
    ensures { HasWritten out.old (pair_words (pairs_with counts lower)) out.new }
{
    if counts[lower] == 0 {
        return;
    }
    for higher in lower + 1..Limits::PASSAGES as usize {
        if counts[higher] != 0 {
            out.put_two(lower as u64, higher as u64);
        }
    }
}

// Writes the pairs of the passages that have a leg there.
pub fn write_pairs(counts: [usize; Limits::PASSAGES as usize], out: &mut Output)
    requires { HasRoom out.old (pair_words (pairs_of (present_from 0 counts))) }
    ensures { HasWritten out.old (pair_words (pairs_of (present_from 0 counts))) out.new }
{
    for lower in 0..Limits::PASSAGES as usize {
        write_pairs_with(counts, lower, out);
    }
}
