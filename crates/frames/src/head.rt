// A frame's length and kind, and the part after the kind.
ghost use Rattle.std.specs.Prelude.{◌≡◌, ◌≤◌, length};
ghost use Rattle.frames.specs.Requests.{head_bytes, part_after_kind};
ghost use Rattle.frames.specs.Fields.{header_of, WholeIfKnown, is_step};
ghost use Rattle.frames.specs.Kinds.{kind_numbered};

use crate::numbers::{read16, read32};
use crate::{Frame, Kind, Refusal};

// The part of the frame after its kind.
pub fn part_after_kind(frame: &[u8]) -> &[u8]
    requires { head_bytes ≤ length frame.now }
    ensures { result.now ≡ part_after_kind frame.now }
{
    &frame[Frame::HEAD..]
}

// Whether a frame is a step's, told by its length and its kind at once: most frames are.
fn is_step(frame: &[u8]) -> bool
    ensures { result ≡ is_step frame.now }
{
    if frame.len() != Frame::STEP {
        return false;
    }
    read32(frame, 0) == Frame::STEP_HEAD
}

// The kind, unless refusal 3, 4 or 5 comes first.
pub fn read_header(frame: &[u8]) -> Result<Kind, Refusal>
    ensures { (kind_numbered result ≡ header_of frame.now) × WholeIfKnown frame.now (kind_numbered result) }
{
    if is_step(frame) {
        return Ok(Kind::Step);
    }
    let count = frame.len();
    if count < Frame::HEAD {
        return Err(Refusal::Torn);
    }
    if Frame::LONGEST < count {
        return Err(Refusal::Torn);
    }
    let length = read16(frame, 0);
    if length as usize + Frame::FIELD != count {
        return Err(Refusal::Torn);
    }
    let kind = Kind::try_from(read16(frame, Frame::FIELD))?;
    if !kind.fits(length) {
        return Err(Refusal::Length);
    }
    Ok(kind)
}
