// What stands in the input of a program, one record after another. Every number has its low byte first.
ghost use Rattle.std.specs.Prelude.{◌≡◌, ℕ, ◌+◌, ◌<◌, List, length, Option, IfSome, option_map, ⊤};
ghost use Rattle.std.specs.Iterator.{at_most};
ghost use Rattle.std.specs.Int.{w16, w32, w64};
ghost use Rattle.desk.specs.Records.{first_bytes, first_number, first_given, first_kind, first_ticket, seen, first_call};

use std::marker::PhantomData;
use tickets::{Kind, Ticket};

// What can be read from the front of the bytes left, which are then those behind it; none where they hold no whole one.
pub trait Record<'a> {
    // What is read of some bytes, and the bytes left then. The default says nothing.
    ghost reads: { List ℕ → Option Self → List ℕ → Type 0 } = { λ _ _ _. ⊤ };

    fn read(left: &mut &'a [u8]) -> Option<Self>
    where
        Self: Sized,
        ensures reads { reads left.old.now result left.new.now }
        ensures fewer { IfSome result (λ _. length left.new.now < length left.old.now) };
}

// The records of some bytes, up to where they hold no whole one.
#[derive(Drop)]
pub struct Records<'a, R> {
    left: &'a [u8],
    kind: PhantomData<R>,
}

impl<'a, R: Record<'a>> Records<'a, R> {
    pub fn of(bytes: &'a [u8]) -> Records<'a, R>
        ensures { result.left.now ≡ bytes.now }
    {
        Records {
            left: bytes,
            kind: PhantomData,
        }
    }
}

impl<'a, R: Record<'a>> Iterator for Records<'a, R> {
    type Item = R;

    ghost next_gives = { λ s r t. R.reads s.left.now r t.left.now };

    ghost remaining = { λ s. at_most (length s.left.now) };

    fn next(&mut self) -> Option<R> {
        R::read(&mut self.left)
    }
}

// The first so many of the bytes left.
pub fn take<'a>(left: &mut &'a [u8], count: usize) -> Option<&'a [u8]>
    ensures first { (option_map (λ x. x.now) result, left.new.now) ≡ first_bytes count left.old.now }
    ensures fewer { IfSome result (λ _. length left.new.now + count ≡ length left.old.now) }
{
    let (front, behind) = left.split_at_checked(count)?;
    *left = behind;
    Some(front)
}

// As many of them as an array has.
fn take_array<const N: usize>(left: &mut &[u8]) -> Option<[u8; N]>
    ensures first { (result, left.new.now) ≡ first_bytes N left.old.now }
    ensures fewer { IfSome result (λ _. length left.new.now + N ≡ length left.old.now) }
{
    let (front, behind) = left.split_first_chunk::<N>()?;
    *left = behind;
    Some(*front)
}

// An impl for each width: the trait is of a type, and what the widths have in common is `take_array`.
impl<'a> Record<'a> for u16 {
    ghost reads = { λ bytes number left. (number, left) ≡ first_number w16 bytes };

    fn read(left: &mut &'a [u8]) -> Option<u16> {
        let bytes = take_array(left)?;
        Some(u16::from_le_bytes(bytes))
    }
}

impl<'a> Record<'a> for u32 {
    ghost reads = { λ bytes number left. (number, left) ≡ first_number w32 bytes };

    fn read(left: &mut &'a [u8]) -> Option<u32> {
        let bytes = take_array(left)?;
        Some(u32::from_le_bytes(bytes))
    }
}

impl<'a> Record<'a> for u64 {
    ghost reads = { λ bytes number left. (number, left) ≡ first_number w64 bytes };

    fn read(left: &mut &'a [u8]) -> Option<u64> {
        let bytes = take_array(left)?;
        Some(u64::from_le_bytes(bytes))
    }
}

// A call: its tag, the words of the book lent, the size of what is lent beside the book, a number, and how many bytes it
// carries, 16 bits each; then these.
#[derive(Clone, Copy)]
pub struct Call<'a> {
    pub tag: u16,
    pub book: usize,
    pub beside: usize,
    pub number: u16,
    pub carried: &'a [u8],
}

impl<'a> Record<'a> for Call<'a> {
    ghost reads = { λ bytes call left. (option_map seen call, left) ≡ first_call bytes };

    fn read(left: &mut &'a [u8]) -> Option<Call<'a>> {
        let tag = u16::read(left)?;
        let book = u16::read(left)? as usize;
        let beside = u16::read(left)? as usize;
        let number = u16::read(left)?;
        let count = u16::read(left)? as usize;
        let carried = take(left, count)?;
        Some(Call {
            tag,
            book,
            beside,
            number,
            carried,
        })
    }
}

// A tag that no call of a program has.
#[derive(Clone, Copy)]
pub struct UnknownTag(pub u16);

// A word given: its number, 16 bits, and its value, 64 bits.
#[derive(Clone, Copy)]
pub struct Given {
    pub word: u16,
    pub value: u64,
}

impl Given {
    pub const BYTES: usize = 10;
}

impl<'a> Record<'a> for Given {
    ghost reads = { λ bytes given left. (given, left) ≡ first_given bytes };

    fn read(left: &mut &'a [u8]) -> Option<Given> {
        let word = u16::read(left)?;
        let value = u64::read(left)?;
        Some(Given { word, value })
    }
}

// Whose a slot's ticket is, 16 bits: 0 an edit's, 1 that of an edit found stale, any other number a view's.
// No plainer as a `From` or `TryFrom`: no number is refused, and neither type is this crate's, so that the impl can't be here.
impl<'a> Record<'a> for Kind {
    ghost reads = { λ bytes kind left. (kind, left) ≡ first_kind bytes };

    fn read(left: &mut &'a [u8]) -> Option<Kind> {
        let kind = match u16::read(left)? {
            0 => Kind::Edit,
            1 => Kind::Stale,
            _ => Kind::View,
        };
        Some(kind)
    }
}

// A slot: tries, 32 bits, then n, claimed, done and kind, 16 bits each.
impl<'a> Record<'a> for Ticket {
    ghost reads = { λ bytes ticket left. (ticket, left) ≡ first_ticket bytes };

    fn read(left: &mut &'a [u8]) -> Option<Ticket> {
        let tries = u32::read(left)?;
        let n = u16::read(left)?;
        let claimed = u16::read(left)?;
        let done = u16::read(left)?;
        let kind = Kind::read(left)?;
        Some(Ticket {
            tries,
            n,
            claimed,
            done,
            kind,
        })
    }
}
