// Books from standard input, each checked: a line for each on standard output. A case is three numbers of 16 bits (the bytes
// of its scratch, the words of its book, how many words are given), then each word given, 16 bits, with its value, 64 bits.
// Every number has its low byte first. A word not given is 0, and what comes behind the last whole case is passed over.
// The scratch is a part of a larger buffer, which is full of other bytes: if one changed that is not the check's to write,
// the line ends with ` spoiled`.
#![tactic(auto)]

ghost use Rattle.std.specs.Prelude.{◌+◌, ◌≤◌, length};

use desk::records::{Given, Record};
use desk::{Room, records};
use frames::Refusal;
use sound::Scratch;
use std::fmt;
use std::io::{Print, Stdout};

// The buffer of which a part is lent: the bytes before that part, its bytes at most, and some behind them.
#[derive(Drop)]
struct Sector {}

impl Sector {
    const BEFORE: usize = 64;

    const MOST_LENT: usize = 2000;

    const BYTES: usize = Sector::BEFORE + Sector::MOST_LENT + Sector::BEFORE;

    // What it is full of, in turn from case to case.
    const FILLINGS: [u8; 2] = [255, 165];
}

#[derive(Clone, Copy)]
struct Case<'a> {
    lent: usize,
    words: usize,
    given: &'a [u8],
}

impl<'a> Record<'a> for Case<'a> {
    fn read(left: &mut &'a [u8]) -> Option<Case<'a>> {
        let lent = u16::read(left)? as usize;
        let words = u16::read(left)? as usize;
        let count = u16::read(left)? as usize;
        let given = records::take(left, Given::BYTES * count)?;
        Some(Case { lent, words, given })
    }
}

// A book's answer, as a line has it.
#[derive(Clone, Copy)]
struct Answer(Result<bool, Refusal>);

impl fmt::Display for Answer {
    fn fmt<W: fmt::Write>(&self, f: &mut fmt::Formatter<W>) -> fmt::Result {
        match self.0 {
            Ok(true) => f.write_str("yes"),
            Ok(false) => f.write_str("no"),
            Err(refusal) => write!(f, "{refusal}"),
        }
    }
}

// Whether a byte changed before the part lent, or behind those of its first bytes that the check may write. Each part is gone over by
// itself: a chain of both asks at each byte which part it is in.
fn is_spoiled(sector: &[u8], lent: usize, filling: u8) -> bool
    requires { 64 + lent ≤ length sector.now }
{
    let (before, rest) = sector.split_at(Sector::BEFORE);
    let behind = &rest[lent.min(Scratch::BYTES)..];
    before.iter().any(|byte| *byte != filling) || behind.iter().any(|byte| *byte != filling)
}

// The words of the book, and the buffer of which the scratch is a part. Both are kept from case to case, since of a short book only the
// words that are lent are made anew. The parts that are lent are split off: one taken by its range isn't lent through several fields.
#[derive(Drop)]
struct State {
    words: [u64; Room::WORDS],
    sector: [u8; Sector::BYTES],
}

impl State {
    fn check(&mut self, stdout: Stdout, case: Case<'_>, filling: u8) {
        let State { words, sector } = self;
        let (book, _) = words.split_at_mut(case.words.min(Room::WORDS));
        book.fill(0);
        desk::set_words(book, case.given);
        let lent = case.lent.min(Sector::MOST_LENT);
        sector.fill(filling);
        let (_, rest) = sector.split_at_mut(Sector::BEFORE);
        let (scratch, _) = rest.split_at_mut(lent);
        let answer = Answer(sound::check(book, scratch));
        if is_spoiled(&sector[..], lent, filling) {
            let _ = println!(stdout; "{answer} spoiled");
        } else {
            let _ = println!(stdout; "{answer}");
        }
    }
}

fn main(rt: HostRuntime) {
    let mut buffer = [0u8; Room::INPUT];
    let mut state = State {
        words: [0; Room::WORDS],
        sector: [0; Sector::BYTES],
    };
    let mut fillings = Sector::FILLINGS;
    // No call fails, since a write that fails is passed over.
    let _ = desk::for_each_record(rt.stdin(), &mut buffer, |case| {
        let [filling, _] = fillings;
        fillings.rotate_left(1);
        state.check(rt.stdout(), case, filling);
        Ok(())
    });
}
