// Where passages meet: the list of a station, written into a lent output.
#![tactic(auto)]

ghost use Rattle.std.specs.Prelude.{◌≡◌, ◌≤◌, length};
ghost use Rattle.words.specs.declared.LegLayout.TheVariants.{FourWords};
ghost use Rattle.soundness.specs.InWords.{plain_in};
ghost use Rattle.frames.specs.Refusals.{numbered};
ghost use Rattle.meeting.specs.Meeting.{station_list, at_front, meeting_of};
ghost use Rattle.stations.specs.Counting.{counts_at, size_of, list_length};

use frames::Refusal;
use listing::{Output, write_legs, write_pairs};
use sound::is_plain;
use stations::{Size, SoundBook, counts_at, size_of};
use words::{LegLayout, Limits};

// Writes the whole list, for which the output has room, and returns its length.
fn write_list(
    book: SoundBook,
    station: u16,
    counts: [usize; Limits::PASSAGES as usize],
    size: Size,
    out: &mut [u64],
) -> usize
    requires { (counts ≡ counts_at station (plain_in FourWords book.words.now)) × (size ≡ size_of counts) × (list_length size ≤ length out.old) }
    ensures { (result ≡ length (station_list book.entry.words.now station)) × (out.new ≡ at_front out.old (station_list book.entry.words.now station)) }
{
    let mut list = Output { words: out, at: 0 };
    let legs = size.legs;
    list.put(legs as u64);
    write_legs(book, station, &mut list);
    let pairs = size.pairs;
    list.put(pairs as u64);
    write_pairs(counts, &mut list);
    list.at
}

// Lists the legs at a station and the pairs of passages that meet there, unless it is refused. How long the list is, is
// known by its counts before the first word is written. Each leg is read once by the check, once to be counted and once
// to be written.
pub fn meet(book: &[u64], station: u16, out: &mut [u64]) -> Result<usize, Refusal>
    ensures { (numbered result, out.new) ≡ meeting_of book.now station out.old }
{
    let whole = book.as_array::<{ Limits::WORDS }>().ok_or(Refusal::Book)?;
    if !is_plain(whole, LegLayout::FourWords) {
        return Err(Refusal::Unsound);
    }
    let sound = SoundBook { words: whole };
    let counts = counts_at(sound, station);
    let size = size_of(counts);
    let words = Size::NUMBERS + Size::ENTRY * (size.legs + size.pairs);
    if out.len() < words {
        return Err(Refusal::List);
    }
    let end = write_list(sound, station, counts, size, out);
    Ok(end)
}
