// Where a frame goes: which stands at a place of the input, and to which team it is sent.
#![tactic(auto)]

ghost use Rattle.std.specs.Prelude.{◌≡◌, ◌+◌, ◌≤◌, ◌<◌, length};
ghost use Rattle.words.specs.Words.{team_count};
ghost use Rattle.frames.specs.Fields.{Whole};
ghost use Rattle.frames.specs.Kinds.{kind_number};
ghost use Rattle.calls.specs.Stream.{next_at, NextInside};
ghost use Rattle.calls.specs.Way.{aim_numbered, aim_by, aim_of, AimKnown, SlotKnown, slot_of};
ghost use Rattle.dispatch.specs.Ahead.{step_at, ahead_of, AheadInside};

use calls::{Aim, Stop};
use frames::{Answer, Frame, Kind, Refusal};
use words::Limits;

// A whole frame that stands at a place of the input: a team's step, or another of so many bytes. Neither is an error, so that it is
// no Result.
#[derive(Clone, Copy)]
pub enum Ahead {
    Step(u16),
    Other(usize),
}

// A look goes to no team, whatever its fields.
fn aim_by_kind(frame: &[u8], kind: Kind) -> Result<Aim, Refusal>
    requires { Whole frame.now (kind_number kind) }
    ensures { (aim_numbered result ≡ aim_by frame.now (Ok (kind_number kind))) × AimKnown frame.now (aim_numbered result) }
{
    if let Kind::Look = kind {
        return Ok(Aim::Look);
    }
    let part = frames::head::part_after_kind(frame);
    let team = frames::numbers::read16(part, 0);
    if team < Limits::TEAMS as u16 {
        Ok(Aim::Team(kind, team))
    } else {
        Err(Refusal::Team)
    }
}

pub fn aim_of(frame: &[u8]) -> Result<Aim, Refusal>
    ensures { (aim_numbered result ≡ aim_of frame.now) × AimKnown frame.now (aim_numbered result) }
{
    let kind = frames::head::read_header(frame)?;
    aim_by_kind(frame, kind)
}

// The slot that a frame uses: its team's, else the first, which it leaves as it is: an Option would be turned into it at both calls.
pub fn slot_of(aim: Result<Aim, Refusal>) -> usize
    requires { SlotKnown (aim_numbered aim) }
    ensures { (result ≡ slot_of (aim_numbered aim)) × (result < team_count) }
{
    match aim {
        Ok(Aim::Team(_, team)) => team as usize,
        _ => 0,
    }
}

// The size of the whole frame at a place, or why there is none. The place is the stream's own number, which counts what was consumed: a
// slice of the rest would have it counted once more.
fn next_frame(input: &[u8], at: usize) -> Result<usize, Stop>
    requires { at ≤ length input.now }
    ensures { (result ≡ next_at input.now at) × NextInside input.now at result }
{
    let rest = input.len() - at;
    if rest < Frame::FIELD {
        return Err(Stop::MoreInput);
    }
    let length = frames::numbers::read16(input, at) as usize;
    if Frame::LONGEST - Frame::FIELD < length {
        return Err(Stop::BadLength);
    }
    let size = Frame::FIELD + length;
    if rest < size {
        return Err(Stop::MoreInput);
    }
    Ok(size)
}

// Whether a whole step of a team stands at a place, told by its first four bytes as one number: most frames are steps.
// `frames` asks this of a frame that is cut already, and of no team: neither is a part of the other.
fn is_step_at(input: &[u8], at: usize) -> bool
    requires { at ≤ length input.now }
    ensures { result ≡ step_at input.now at }
{
    if input.len() - at < Frame::STEP {
        return false;
    }
    if frames::numbers::read32(input, at) != Frame::STEP_HEAD {
        return false;
    }
    (frames::numbers::read16(input, at + Frame::HEAD) as usize) < Limits::TEAMS
}

// What stands at a place, with so much room for its answer.
pub fn next_at(input: &[u8], at: usize, room: usize) -> Result<Ahead, Stop>
    requires { at ≤ length input.now }
    ensures { (result ≡ ahead_of input.now at room) × AheadInside input.now at room result }
{
    if is_step_at(input, at) {
        if room < Answer::LONGEST {
            return Err(Stop::OutputFull);
        }
        return Ok(Ahead::Step(frames::numbers::read16(input, at + Frame::HEAD)));
    }
    let size = next_frame(input, at)?;
    if room < Answer::LONGEST {
        return Err(Stop::OutputFull);
    }
    Ok(Ahead::Other(size))
}
