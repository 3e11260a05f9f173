// The text of answers.
ghost use Rattle.std.specs.Prelude.{◌≡◌, IsOk};

use std::fmt::Display;
use std::io::{Print, Stdout};
use std::{fmt, io};
use tickets::Target;

// Numbers, each behind a space.
#[derive(Drop)]
pub struct Numbers<'a, T>(pub &'a [T]);

impl<T: Display> Display for Numbers<'_, T> {
    fn fmt<W: fmt::Write>(&self, f: &mut fmt::Formatter<W>) -> fmt::Result {
        for number in self.0 {
            write!(f, " {number}")?;
        }
        Ok(())
    }
}

// The numbers of targets, each behind a space: of each its word, its quoted and its new value.
#[derive(Drop)]
pub struct Targets<'a>(pub &'a [Target]);

impl Display for Targets<'_> {
    fn fmt<W: fmt::Write>(&self, f: &mut fmt::Formatter<W>) -> fmt::Result {
        for target in self.0 {
            write!(f, " {} {} {}", target.word, target.quoted, target.new)?;
        }
        Ok(())
    }
}

// Bytes as two digits of base 16, each behind a space.
#[derive(Drop)]
pub struct Bytes<'a>(pub &'a [u8]);

impl Display for Bytes<'_> {
    fn fmt<W: fmt::Write>(&self, f: &mut fmt::Formatter<W>) -> fmt::Result {
        for byte in self.0 {
            write!(f, " {byte:02X}")?;
        }
        Ok(())
    }
}

// A line for each word that has changed, up to a write that fails, for a caller that has to know of it. No clause says what is written.
pub fn tell_changes(stdout: Stdout, before: &[u64], after: &[u64]) -> io::Result<()>
    ensures { before.now ≡ after.now → IsOk result }
{
    for (word, (was, is)) in before.iter().zip(after).enumerate() {
        if was != is {
            println!(stdout; "word {word} {is}")?;
        }
    }
    Ok(())
}

// A line for each word that has changed. A write that fails is passed over, and those behind it are made.
pub fn tell_every_change(stdout: Stdout, before: &[u64], after: &[u64]) {
    for (word, (was, is)) in before.iter().zip(after).enumerate() {
        if was != is {
            let _ = println!(stdout; "word {word} {is}");
        }
    }
}
