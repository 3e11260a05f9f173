// What the programs share that make calls from standard input: room, what the input holds, what a call returns, and the text of answers.
#![tactic(auto)]

ghost use Rattle.std.specs.Prelude.{◌≡◌, ◌≤◌, length};
ghost use Rattle.frames.specs.Refusals.{numbered};
ghost use Rattle.desk.specs.Calls.{CalledAtEach, number_returned};
ghost use Rattle.desk.specs.Targets.{with_number};

use frames::Refusal;
use records::{Given, Record, Records};
use std::io;
use std::io::{Read, Stdin};
use tickets::{Target, Tickets};
use words::Limits;

pub mod records; // what stands in the input
pub mod text; // what is told

#[derive(Drop)]
pub struct Room {}

impl Room {
    // For one word more than a book has.
    pub const WORDS: usize = Limits::WORDS + 1;

    pub const OUTPUT: usize = 64;

    pub const INPUT: usize = 1048576;

    // The numbers of a target, and of a team's targets.
    pub const TARGET: usize = 3;

    pub const NUMBERS: usize = Room::TARGET * Tickets::ROOM;
}

// Reads until the buffer is full, the input ends or a read fails: what has come.
pub fn read_full(mut stdin: Stdin, buffer: &mut [u8]) -> &[u8]
    ensures { length result.now ≤ length buffer.old }
{
    let mut done = 0;
    while let Ok(count @ 1..) = stdin.read(&mut buffer[done..]) {
        done += count;
    }
    &buffer[..done]
}

// Calls for each record of the input, up to a call that fails. The buffer is the caller's, since the records borrow from it, and an
// array, so that the length of a million zeros is known by their type and is not counted.
pub fn for_each_record<'a, R: Record<'a>, F: FnMut(R) -> io::Result<()>>(
    stdin: Stdin,
    buffer: &'a mut [u8; Room::INPUT],
    f: F,
) -> io::Result<()>
    requires { F.IsAlwaysCallable f }
    ensures { CalledAtEach R.reads F.FnMut f result }
{
    let input = read_full(stdin, buffer);
    Records::of(input).try_for_each(f)
}

// The number that a call returns: that of the bytes written, or its refusal's.
pub fn returned(written: Result<usize, Refusal>) -> usize
    ensures { result ≡ number_returned (numbered written) }
{
    written.unwrap_or_else(|refusal| refusal.number() as usize)
}

// A word that the book doesn't have is passed over.
pub fn set_words(book: &mut [u64], given: &[u8]) {
    for Given { word, value } in Records::of(given) {
        if let Some(place) = book.get_mut(word as usize) {
            *place = value;
        }
    }
}

// The numbers of a team's targets are counted one target after another: of each its word, its quoted and its new value. One that the room
// doesn't have is passed over. Its length is asked of once, before which of the three it is.
pub fn set_number(targets: &mut [Target], place: usize, number: u64)
    ensures { targets.new ≡ with_number targets.old place number }
{
    let k = place / Room::TARGET;
    if targets.len() <= k {
        return;
    }
    match place % Room::TARGET {
        0 => targets[k].word = number,
        1 => targets[k].quoted = number,
        _ => targets[k].new = number,
    }
}
