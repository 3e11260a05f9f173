// Numbers in bytes, low byte first.
ghost use Rattle.std.specs.Prelude.{◌≡◌, ◌+◌, ◌<◌, ◌≤◌, length, take, drop};
ghost use Rattle.std.proofs.lemmas.List.Edits.{sets};
ghost use Rattle.frames.specs.Numbers.{number16, number32, number64, signed_of, bytes16, bytes32, bytes64};

// How many numbers a byte, two and four of them can say.
#[derive(Drop)]
pub struct Bits {}

impl Bits {
    pub const BYTE: u16 = 256;

    pub const TWO_BYTES: u32 = 65536;

    pub const FOUR_BYTES: u64 = 4294967296;
}

// So many bytes from one on. Each width has a reader and a writer of its own over this and `put`: a trait of the three would want the
// same six functions in its impls. Each requires that its bytes are there: a cursor over the bytes left would answer none where they
// are not, which a whole frame never lacks, and the definitions name each field by its place, here and wherever one is asked for.
fn bytes_at<const N: usize>(part: &[u8], at: usize) -> [u8; N]
    requires { at + N ≤ length part.now }
    ensures { result ≡ take N (drop at part.now) }
{
    let mut bytes = [0; N];
    bytes.copy_from_slice(&part[at..at + N]);
    bytes
}

// The number of 16 bits that starts at a byte,
pub fn read16(part: &[u8], at: usize) -> u16
    requires { at + 1 < length part.now }
    ensures { (result ≡ number16 part.now at) × (result < 65536) }
{
    u16::from_le_bytes(bytes_at(part, at))
}

// that of 32 bits,
pub fn read32(part: &[u8], at: usize) -> u32
    requires { at + 3 < length part.now }
    ensures { result ≡ number32 part.now at }
{
    u32::from_le_bytes(bytes_at(part, at))
}

// and that of 64 bits.
pub fn read64(part: &[u8], at: usize) -> u64
    requires { at + 7 < length part.now }
    ensures { result ≡ number64 part.now at }
{
    u64::from_le_bytes(bytes_at(part, at))
}

// The signed number that has these 16 bits. The scope names this form, so that it has a name of its own.
pub fn signed(bits: u16) -> i16
    ensures { result ≡ signed_of bits }
{
    bits.cast_signed()
}

// These bytes put from one on.
fn put<const N: usize>(out: &mut [u8], at: usize, bytes: [u8; N])
    requires { at + N ≤ length out.old }
    ensures { out.new ≡ sets out.old at bytes.entry }
{
    out[at..at + N].copy_from_slice(&bytes)
}

pub fn put16(out: &mut [u8], at: usize, x: u16)
    requires { at + 1 < length out.old }
    ensures { out.new ≡ sets out.old at (bytes16 x) }
{
    put(out, at, x.to_le_bytes())
}

pub fn put32(out: &mut [u8], at: usize, x: u32)
    requires { at + 3 < length out.old }
    ensures { out.new ≡ sets out.old at (bytes32 x) }
{
    put(out, at, x.to_le_bytes())
}

pub fn put64(out: &mut [u8], at: usize, x: u64)
    requires { at + 7 < length out.old }
    ensures { out.new ≡ sets out.old at (bytes64 x) }
{
    put(out, at, x.to_le_bytes())
}
