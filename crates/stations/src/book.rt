// A book that passed the check, and the legs of its passages along their links.
ghost use Rattle.std.specs.Prelude.{◌≡◌, true, ℕ, ◌<◌};
ghost use Rattle.std.specs.Iterator.{YieldsFirstBy, item_count};
ghost use Rattle.words.specs.Words.{passage_count};
ghost use Rattle.words.specs.declared.LegLayout.TheVariants.{FourWords};
ghost use Rattle.soundness.specs.Checking.{is_sound};
ghost use Rattle.soundness.specs.InWords.{list_in};
ghost use Rattle.meeting.specs.Meeting.{meets};
ghost use Rattle.stations.specs.Links.{IsLeg, leg_after};

use legs::{from_in, to_in};
use words::{Limits, count_word, link_word, measure_word, newest_word, place_word};

// The words of a book that passed the check in the layout in force.
#[derive(Clone, Copy)]
pub struct SoundBook<'a> {
    pub words: &'a [u64; Limits::WORDS],
    pub ghost sound: { is_sound words.now ≡ true },
}

// A leg as its words have it.
#[derive(Clone, Copy)]
pub struct WrittenLeg {
    pub number: u16,
    pub place: u64,
    pub measure: u64,
}

// The legs of a passage that are left, newest first.
#[derive(Drop)]
pub struct LegsAlong<'a> {
    book: SoundBook<'a>,
    left: u64,
    leg: u64,
    ghost legs: { (k : ℕ) → k < left → IsLeg (leg_after book.words.now leg k) },
}

impl<'a> SoundBook<'a> {
    ghost use Rattle.stations.specs.Chains.{legs_left};

    // The legs of a passage.
    pub fn legs_of(self, passage: u16) -> LegsAlong<'a>
        requires { passage < passage_count }
        ensures { legs_left result ≡ list_in FourWords self.entry.words.now passage }
    {
        LegsAlong {
            book: self,
            left: self.words[count_word(passage) as usize],
            leg: self.words[newest_word(passage) as usize],
        }
    }
}

impl WrittenLeg {
    ghost use Rattle.stations.specs.Chains.{leg_of};

    // Whether the leg runs from the station or to it.
    pub fn is_at(self, station: u16) -> bool
        ensures { result ≡ meets station (leg_of self) }
    {
        from_in(self.place) == u64::from(station) || to_in(self.place) == u64::from(station)
    }
}

impl<'a> Iterator for LegsAlong<'a> {
    type Item = WrittenLeg;

    ghost use Rattle.stations.specs.Chains.{leg_of, legs_left};

    ghost next_gives = { YieldsFirstBy leg_of legs_left };

    ghost remaining = { item_count legs_left };

    fn next(&mut self) -> Option<WrittenLeg> {
        if self.left == 0 {
            return None;
        }
        let words = self.book.words;
        let number = self.leg as u16;
        let place = words[place_word(number) as usize];
        let measure = words[measure_word(number) as usize];
        let older = words[link_word(number) as usize];
        *self = LegsAlong {
            book: self.book,
            left: self.left - 1,
            leg: older,
        };
        Some(WrittenLeg {
            number: number,
            place: place,
            measure: measure,
        })
    }
}
