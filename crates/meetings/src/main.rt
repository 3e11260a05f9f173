// Stations of books from standard input, listed one after another: a line for each on standard output. The form of a call is
// that of `desk`. What comes behind the last whole call is passed over, and so is a call with a tag that isn't known.
//
// - Begin (0): every word of the book becomes 0, then the words given that are carried are set. Writes nothing.
// - Change (1): the words given that are carried are set over the book as it is. Writes nothing.
// - Meet (2): the number is the station; so many words of the output are lent beside the book. Every word of the output's room
//   has the former value before.
//
// A meet's line: `written`, how many words, and these; or `refused` with the number; then `spoiled`, if another word of the
// output's room than those written has changed.
#![tactic(auto)]

use desk::Room;
use desk::records::{Call, UnknownTag};
use desk::text::Numbers;
use frames::Refusal;
use std::io::{Print, Stdout};

enum Tag {
    Begin,
    Change,
    Meet,
}

// A table of its own: each program gives these numbers a meaning of its own, and what refuses the others is `UnknownTag` for all.
impl TryFrom<u16> for Tag {
    type Error = UnknownTag;

    fn try_from(tag: u16) -> Result<Tag, UnknownTag> {
        match tag {
            0 => Ok(Tag::Begin),
            1 => Ok(Tag::Change),
            2 => Ok(Tag::Meet),
            _ => Err(UnknownTag(tag)),
        }
    }
}

#[derive(Drop)]
struct Output {}

impl Output {
    // For more words than the longest list has.
    const WORDS: usize = 3072;

    // What stands in each word before a call.
    const FORMER: u64 = u64::MAX;
}

// Tells the words written, or the refusal; what comes back is the words that have to be as they were.
fn tell_met(stdout: Stdout, met: Result<usize, Refusal>, space: &[u64]) -> &[u64] {
    match met {
        Ok(written) => {
            let (list, others) = space.split_at(written.min(space.len()));
            let _ = print!(stdout; "written {written}{}", Numbers(list));
            others
        }
        Err(refusal) => {
            let _ = print!(stdout; "{refusal}");
            space
        }
    }
}

// The words of the book, and the output's room.
#[derive(Drop)]
struct State {
    words: [u64; Room::WORDS],
    space: [u64; Output::WORDS],
}

impl State {
    fn list_station(&mut self, stdout: Stdout, call: Call<'_>) {
        let State { words, space } = self;
        space.fill(Output::FORMER);
        let book = &words[..call.book.min(Room::WORDS)];
        let out = &mut space[..call.beside.min(Output::WORDS)];
        let met = meet::meet(book, call.number, out);
        let others = tell_met(stdout, met, &space[..]);
        if others.iter().all(|word| *word == Output::FORMER) {
            let _ = println!(stdout);
        } else {
            let _ = println!(stdout; " spoiled");
        }
    }

    fn dispatch(&mut self, stdout: Stdout, call: Call<'_>) {
        let Ok(tag) = Tag::try_from(call.tag) else {
            return;
        };
        match tag {
            Tag::Begin => {
                self.words.fill(0);
                desk::set_words(&mut self.words, call.carried);
            }
            Tag::Change => desk::set_words(&mut self.words, call.carried),
            Tag::Meet => self.list_station(stdout, call),
        }
    }
}

fn main(rt: HostRuntime) {
    let mut buffer = [0u8; Room::INPUT];
    let mut state = State {
        words: [0; Room::WORDS],
        space: [0; Output::WORDS],
    };
    // No call fails, since a write that fails is passed over.
    let _ = desk::for_each_record(rt.stdin(), &mut buffer, |call| {
        state.dispatch(rt.stdout(), call);
        Ok(())
    });
}
