// One field of a frame's part after the kind: in range, or out of it.
ghost use Rattle.std.specs.Prelude.{◌≡◌, Bool, true, false, cond, ◌+◌, ◌≤◌, ◌<◌, length, eqb};
ghost use Rattle.std.specs.Range.{range_inclusive_contains};
ghost use Rattle.words.specs.Tests.{within};
ghost use Rattle.legs.specs.Legs.{longest_distance};
ghost use Rattle.edits.specs.Ranges.{passage_in_range};
ghost use Rattle.frames.specs.Numbers.{number16, number32, signed16};
ghost use Rattle.frames.specs.Requests.{stations_at, taken_at};
ghost use Rattle.frames.specs.Fields.{field_of, clino_field_of, measure_size, measure_field_at, taken_field_of};
ghost use Rattle.decoder.specs.Angles.{compass_field_at, clino_field_at};

use frames::numbers::{read16, read32, signed};
use frames::{Length, Taken};
use legs::{Angle, Measure, Stations};
use std::ops::RangeInclusive;
use words::Limits;

// A number, where it is in a range.
fn within<T: PartialOrd + Copy>(range: RangeInclusive<T>, number: T) -> Option<T>
    ensures { result ≡ field_of (range_inclusive_contains T.partial_cmp range number) number }
{
    range.contains(&number).then_some(number)
}

// The number of 16 bits at a byte, where it is in a range.
pub fn field(part: &[u8], at: usize, range: RangeInclusive<u16>) -> Option<u16>
    requires { at + 1 < length part.now }
    ensures { result ≡ field_of (range_inclusive_contains ⟦<u16 as PartialOrd>⟧.partial_cmp range (number16 part.now at)) (number16 part.now at) }
{
    within(range, read16(part, at))
}

pub fn passage_field(part: &[u8], at: usize) -> Option<u16>
    requires { at + 1 < length part.now }
    ensures { result ≡ field_of (passage_in_range (number16 part.now at)) (number16 part.now at) }
{
    field(part, at, 0..=Limits::PASSAGES - 1)
}

pub fn stations_at(part: &[u8], at: usize) -> Stations
    requires { at + 3 < length part.now }
    ensures { result ≡ stations_at part.now at }
{
    let from = read16(part, at);
    let to = read16(part, at + 2);
    Stations { from, to }
}

#[tactic(auto, unfolding(words::specs::Tests::all_hold))]
fn distance_field(part: &[u8], at: usize) -> Option<u32>
    requires { at + 3 < length part.now }
    ensures { result ≡ field_of (within 1 longest_distance (number32 part.now at)) (number32 part.now at) }
{
    within(1..=Measure::LONGEST as u32, read32(part, at))
}

fn clino_field(part: &[u8], at: usize) -> Option<i16>
    requires { at + 1 < length part.now }
    ensures { result ≡ clino_field_of (signed16 part.now at) }
{
    let steepest = Measure::STEEPEST as i16;
    within(-steepest..=steepest, signed(read16(part, at)))
}

// The last minute that a clino of so many degrees may have: none goes over 90 degrees 0 minutes.
fn last_minute(degrees: u16) -> u16
    ensures { result ≡ cond (eqb degrees 90) 0 59 }
{
    if degrees == Angle::STEEPEST {
        return 0;
    }
    Angle::LAST_MINUTE
}

// What compass and clino of an M are sent in.
pub trait AngleUnit {
    // Whether in degrees and minutes, and not in hundredths of a degree.
    ghost minutes: { Bool };

    // The bytes of M.
    fn measure_size() -> usize
        ensures { result ≡ measure_size minutes };

    // The compass of the M at a byte, in hundredths of a degree.
    fn compass(part: &[u8], at: usize) -> Option<u16>
        requires { at + measure_size minutes ≤ length part.now }
        ensures { result ≡ compass_field_at minutes part.now at };

    // Its clino.
    fn clino(part: &[u8], at: usize) -> Option<i16>
        requires { at + measure_size minutes ≤ length part.now }
        ensures { result ≡ clino_field_at minutes part.now at };
}

#[derive(Drop)]
pub struct Hundredths {}

impl AngleUnit for Hundredths {
    ghost minutes = { false };

    fn measure_size() -> usize {
        usize::from(Length::MEASURE)
    }

    fn compass(part: &[u8], at: usize) -> Option<u16> {
        field(part, at + 4, 0..=Measure::LAST_COMPASS as u16)
    }

    fn clino(part: &[u8], at: usize) -> Option<i16> {
        clino_field(part, at + 6)
    }
}

// Degrees and minutes, the clino's behind its sign. As sent they are in range, or the angle is out of it; then it is rounded.
#[derive(Drop)]
pub struct Minutes {}

impl AngleUnit for Minutes {
    ghost minutes = { true };

    fn measure_size() -> usize {
        usize::from(Length::MEASURE_IN_MINUTES)
    }

    #[tactic(auto, unfolding(words::specs::Tests::all_hold))]
    fn compass(part: &[u8], at: usize) -> Option<u16> {
        let degrees = field(part, at + 4, 0..=Angle::LAST_DEGREE)?;
        let minutes = field(part, at + 6, 0..=Angle::LAST_MINUTE)?;
        Some(legs::hundredths(degrees, minutes))
    }

    fn clino(part: &[u8], at: usize) -> Option<i16> {
        let sign = field(part, at + 8, 0..=Angle::DOWN)?;
        let degrees = field(part, at + 10, 0..=Angle::STEEPEST)?;
        let minutes = field(part, at + 12, 0..=last_minute(degrees))?;
        let steepness = legs::hundredths(degrees, minutes);
        Some(legs::signed_by(sign, steepness))
    }
}

// Distance, compass and clino.
#[tactic(auto, using(crate::proofs::Answered::distance_out, crate::proofs::Answered::compass_out, crate::proofs::Answered::clino_out))]
pub fn measure_field<U: AngleUnit>(part: &[u8], at: usize) -> Option<Measure>
    requires { at + measure_size U.minutes ≤ length part.now }
    ensures { result ≡ measure_field_at U.minutes part.now at }
{
    let distance = distance_field(part, at)?;
    let compass = U::compass(part, at)?;
    let clino = U::clino(part, at)?;
    Some(Measure {
        distance,
        compass,
        clino,
    })
}

// f r s c.
#[tactic(auto, unfolding(words::specs::Tests::all_hold))]
pub fn taken_field(part: &[u8], at: usize) -> Option<Taken>
    requires { at + 7 < length part.now }
    ensures { result ≡ taken_field_of (taken_at part.now at) }
{
    let newer = field(part, at, 0..=Limits::LAST_LEG)?;
    let leg = field(part, at + 2, 1..=Limits::LAST_LEG)?;
    let older = field(part, at + 4, 0..=Limits::LAST_LEG)?;
    let count = field(part, at + 6, 1..=Limits::LAST_LEG)?;
    Some(Taken {
        newer,
        leg,
        older,
        count,
    })
}
