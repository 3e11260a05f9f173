// A list of calls from standard input, made one after another: what each returns and writes, on standard output. The form of a
// call is that of `desk`; beside the book so many words of the store are lent. What comes behind the last whole call is passed
// over, and so is a call with a tag that isn't known.
//
// - Begin (0): a fresh book, no ticket, no shelf filled, the fixed ranks in force; word i of the store becomes the number times
//   i + 1. Writes nothing.
// - Frame (1): the bytes carried are the frame, the number is the bytes of the output.
// - Fill (2), come back (3): the number is the shelf.
// - Tell (4): lines with a digest of the book and of the word behind it, of each shelf and of the word behind the store, with
//   which shelves are filled, with the whole output, and with how many ranks are lent and each of them.
// - Load (5), lend (6): the number is how many ranks are carried, of 16 bits each. A load is lent them and the first 32 places of
//   the ranks in force; when it is done 32 are in force. To lend them is no call: they are in force from then on, any number
//   of any ranks, as a caller may come to lend. Writes nothing.
//
// A frame's line is the number returned and so many bytes of its output (all, if there are fewer); the line of the other
// calls is the number, 0 if not refused. The output keeps what it holds from one call to the next.
#![tactic(auto)]

ghost use Rattle.std.specs.Prelude.{◌≤◌};

use desk::Room;
use desk::records::{Call, Records, UnknownTag};
use desk::text::{Bytes, Numbers};
use frames::Refusal;
use std::fmt;
use std::fmt::Display;
use std::io::{Print, Stdout};
use tickets::Tickets;
use words::Limits;

#[derive(Drop)]
struct Lent {}

impl Lent {
    // For one word more than a store has.
    const STORE: usize = Limits::SHELVES * Limits::WORDS + 1;

    // A table of ranks that can be in force has one for each passage.
    const TABLE: usize = Limits::PASSAGES as usize;

    // For more ranks than there are passages.
    const RANKS: usize = Lent::TABLE + 8;
}

enum Tag {
    Begin,
    Frame,
    Fill,
    ComeBack,
    Tell,
    Load,
    Lend,
}

// A table of its own: each program gives these numbers a meaning of its own, and what refuses the others is `UnknownTag` for all.
impl TryFrom<u16> for Tag {
    type Error = UnknownTag;

    fn try_from(tag: u16) -> Result<Tag, UnknownTag> {
        match tag {
            0 => Ok(Tag::Begin),
            1 => Ok(Tag::Frame),
            2 => Ok(Tag::Fill),
            3 => Ok(Tag::ComeBack),
            4 => Ok(Tag::Tell),
            5 => Ok(Tag::Load),
            6 => Ok(Tag::Lend),
            _ => Err(UnknownTag(tag)),
        }
    }
}

// Digests of so many words each as a book has, each behind a space.
#[derive(Drop)]
struct Digests<'a>(&'a [u64]);

impl Digests<'_> {
    const FACTOR: u64 = 65599;

    // The first above 2^32, so that no change of a single word goes unseen.
    const PRIME: u64 = 4294967311;

    // How many numbers 32 bits can say.
    const HALF: u64 = 1 << 32;
}

// A digest takes 32 bits at a time.
fn with_half(digest: u64, half: u64) -> u64 {
    let before = digest % Digests::PRIME;
    let more = half % Digests::HALF;
    (Digests::FACTOR * before + more) % Digests::PRIME
}

fn with_word(digest: u64, word: u64) -> u64 {
    with_half(with_half(digest, word), word / Digests::HALF)
}

impl Display for Digests<'_> {
    fn fmt<W: fmt::Write>(&self, f: &mut fmt::Formatter<W>) -> fmt::Result {
        for part in self.0.chunks(Limits::WORDS) {
            let digest = part.iter().fold(0, |digest, word| with_word(digest, *word));
            write!(f, " {digest}")?;
        }
        Ok(())
    }
}

// A call without a frame writes nothing.
fn tell_outcome(stdout: Stdout, outcome: Result<(), Refusal>) {
    let returned = desk::returned(outcome.map(|()| 0));
    let _ = println!(stdout; "{returned}");
}

// Room for the ranks lent, of which the first so many are in force.
// The room behind the number is kept and read as well, so that it is no list of the ranks in force alone.
#[derive(Clone, Copy)]
struct Ranks {
    room: [u16; Lent::RANKS],
    count: usize,
    ghost in_room: { count ≤ 40 },
}

impl Ranks {
    fn none() -> Ranks {
        Ranks {
            room: [0; Lent::RANKS],
            count: 0,
        }
    }

    fn in_force(&self) -> &[u16] {
        &self.room[..self.count]
    }

    // The first ones, whether or not they are in force.
    fn table(&self) -> [u16; Lent::TABLE] {
        let Some(table) = self.room.first_chunk() else {
            unreachable!()
        };
        *table
    }

    // The first ones become those of the table, which are then in force.
    fn with_table(self, table: &[u16; Lent::TABLE]) -> Ranks {
        let mut room = self.room;
        let (first, _) = room.split_at_mut(Lent::TABLE);
        first.copy_from_slice(table);
        Ranks {
            room,
            count: Lent::TABLE,
        }
    }

    // The first ones become those carried, so many as the call's number says, which are then in force.
    fn with_carried(self, call: Call<'_>) -> Ranks {
        let mut room = self.room;
        let most = Lent::RANKS.min(call.carried.len() / 2);
        let count = most.min(call.number as usize);
        for (rank, carried) in room[..count].iter_mut().zip(Records::of(call.carried)) {
            *rank = carried;
        }
        Ranks { room, count }
    }
}

// What a list lends and has at hand.
#[derive(Drop)]
struct State {
    words: [u64; Room::WORDS],
    tickets: Tickets,
    store: [u64; Lent::STORE],
    filled: [bool; Limits::SHELVES],
    ranks: Ranks,
    out: [u8; Room::OUTPUT],
}

impl State {
    fn new() -> State {
        State {
            words: [0; Room::WORDS],
            tickets: Tickets::fresh(),
            store: [0; Lent::STORE],
            filled: [false; Limits::SHELVES],
            ranks: Ranks::none(),
            out: [0; Room::OUTPUT],
        }
    }

    fn begin(&mut self, number: u16) {
        self.words.fill(0);
        self.tickets = Tickets::fresh();
        for (i, word) in self.store.iter_mut().enumerate() {
            *word = number as u64 * (i as u64 + 1);
        }
        self.filled.fill(false);
        self.ranks = self.ranks.with_table(&legs::fixed_ranks());
    }

    // The parts that are lent are split off, since a part taken by its range isn't lent through the several fields at once.
    fn answer(&mut self, stdout: Stdout, call: Call<'_>) {
        let State {
            words,
            tickets,
            ranks,
            out,
            ..
        } = self;
        let (book, _) = words.split_at_mut(call.book.min(Room::WORDS));
        let (out, _) = out.split_at_mut(Room::OUTPUT.min(call.number as usize));
        let reply = book::call(book, *tickets, ranks.in_force(), call.carried, out);
        *tickets = reply.tickets;
        let returned = desk::returned(reply.written);
        let _ = println!(stdout; "{returned}{}", Bytes(&out[..returned.min(out.len())]));
    }

    fn fill(&mut self, call: Call<'_>) -> Result<(), Refusal> {
        let State {
            words,
            tickets,
            store,
            filled,
            ..
        } = self;
        let book = &words[..call.book.min(Room::WORDS)];
        let (store, _) = store.split_at_mut(call.beside.min(Lent::STORE));
        shelves::fill(book, *tickets, store, filled, call.number as usize)
    }

    fn come_back(&mut self, call: Call<'_>) -> Result<(), Refusal> {
        let State {
            words,
            tickets,
            store,
            filled,
            ..
        } = self;
        let (book, _) = words.split_at_mut(call.book.min(Room::WORDS));
        let store = &store[..call.beside.min(Lent::STORE)];
        shelves::come_back(book, *tickets, store, filled, call.number as usize)
    }

    fn load(&mut self, call: Call<'_>) -> Result<(), Refusal> {
        let carried = Ranks::none().with_carried(call);
        let book = &self.words[..call.book.min(Room::WORDS)];
        let mut table = self.ranks.table();
        let outcome = ranks::load(book, self.tickets, &mut table, carried.in_force());
        if outcome.is_ok() {
            self.ranks = self.ranks.with_table(&table);
        }
        outcome
    }

    fn tell(&self, stdout: Stdout) {
        let filled = self.filled.map(u8::from);
        let ranks = self.ranks.in_force();
        let count = ranks.len();
        let _ = println!(stdout; "book{}", Digests(&self.words));
        let _ = println!(stdout; "store{}", Digests(&self.store));
        let _ = println!(stdout; "filled{}", Numbers(&filled));
        let _ = println!(stdout; "output{}", Bytes(&self.out));
        let _ = println!(stdout; "ranks {count}{}", Numbers(ranks));
    }

    fn dispatch(&mut self, stdout: Stdout, call: Call<'_>) {
        let Ok(tag) = Tag::try_from(call.tag) else {
            return;
        };
        match tag {
            Tag::Begin => self.begin(call.number),
            Tag::Frame => self.answer(stdout, call),
            Tag::Fill => tell_outcome(stdout, self.fill(call)),
            Tag::ComeBack => tell_outcome(stdout, self.come_back(call)),
            Tag::Tell => self.tell(stdout),
            Tag::Load => tell_outcome(stdout, self.load(call)),
            Tag::Lend => self.ranks = self.ranks.with_carried(call),
        }
    }
}

fn main(rt: HostRuntime) {
    let mut buffer = [0u8; Room::INPUT];
    let mut state = State::new();
    // No call fails, since a write that fails is passed over.
    let _ = desk::for_each_record(rt.stdin(), &mut buffer, |call| {
        state.dispatch(rt.stdout(), call);
        Ok(())
    });
}
