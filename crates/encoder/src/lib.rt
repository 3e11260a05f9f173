// An answer's frame, written at the front of the output.
#![tactic(auto)]

ghost use Rattle.std.specs.Prelude.{◌≡◌, ◌++◌, ◌+◌, ◌≤◌, min, length};
ghost use Rattle.std.proofs.lemmas.List.Edits.{sets};
ghost use Rattle.words.specs.Words.{most_named};
ghost use Rattle.tickets.specs.declared.StepAnswer.TheVariants.{Seen};
ghost use Rattle.frames.specs.declared.Answer.TheVariants as Answer;
ghost use Rattle.frames.specs.Numbers.{bytes16};
ghost use Rattle.frames.specs.Requests.{head_bytes};
ghost use Rattle.frames.specs.Answers.{frame_of, answer_frame, longest_answer, written};
ghost use Rattle.encoder.specs.Kinds.{answer_kind_number};

use frames::numbers::{put16, put32, put64};
use frames::{Answer, Frame};
use tickets::{StepAnswer, Values};
use words::Limits;

// The kinds of the answers, each with its number.
#[derive(Clone, Copy)]
pub enum AnswerKind {
    Standing = 128,
    Claimed = 129,
    Waiting = 130,
    Found = 131,
    Put = 132,
    Returned = 133,
    Granted = 134,
    Stale = 135,
    Value = 136,
    Held = 137,
    Refused = 138,
    Seen = 139,
}

// The length and the kind of a frame whose fields take so many bytes. Returns the frame's bytes.
fn put_head(out: &mut [u8; Answer::LONGEST], kind: AnswerKind, fields: usize) -> usize
    requires { head_bytes + fields ≤ longest_answer }
    ensures { (result ≡ head_bytes + fields) × (out.new ≡ sets out.old 0 (bytes16 (2 + fields) ++ bytes16 (answer_kind_number kind))) }
{
    put16(out, 0, (Frame::FIELD + fields) as u16);
    put16(out, Frame::FIELD, kind as u16);
    Frame::HEAD + fields
}

// A frame with one field of 16 bits, as most have.
fn write_short(out: &mut [u8; Answer::LONGEST], kind: AnswerKind, x: u16) -> usize
    ensures { (result, out.new) ≡ written out.old (frame_of (answer_kind_number kind) (bytes16 x)) }
{
    let count = put_head(out, kind, Frame::FIELD);
    put16(out, Frame::HEAD, x);
    count
}

// How many values a view shows: n, and there is room for six.
fn values_shown(n: u16) -> usize
    ensures { result ≡ min n most_named }
{
    Limits::NAMED.min(n as usize)
}

// A frame with one field of 64 bits for each value that a view shows: of its first n, six at most.
fn write_seen(out: &mut [u8; Answer::LONGEST], seen: Values) -> usize
    ensures { (result, out.new) ≡ written out.old (answer_frame (Answer.Step (Seen seen))) }
{
    let shown = values_shown(seen.n);
    let count = put_head(out, AnswerKind::Seen, Frame::VALUE * shown);
    for (k, value) in seen.values[..shown].iter().enumerate() {
        put64(out, Frame::HEAD + Frame::VALUE * k, *value);
    }
    count
}

// The answer to a step.
#[tactic(auto, using(frames::proofs::Put::all_written_lem), unfolding(frames::specs::Answers::answer_frame))]
fn write_step(out: &mut [u8; Answer::LONGEST], answer: StepAnswer) -> usize
    ensures { (result, out.new) ≡ written out.old (answer_frame (Answer.Step answer)) }
{
    match answer {
        StepAnswer::Claimed(many) => write_short(out, AnswerKind::Claimed, many),
        StepAnswer::Waiting(word, team) => {
            let count = put_head(out, AnswerKind::Waiting, 2 * Frame::FIELD);
            put16(out, Frame::HEAD, word);
            put16(out, Frame::HEAD + Frame::FIELD, team);
            count
        }
        StepAnswer::Found(word) => write_short(out, AnswerKind::Found, word),
        StepAnswer::Put(many) => write_short(out, AnswerKind::Put, many),
        StepAnswer::Returned(many) => write_short(out, AnswerKind::Returned, many),
        StepAnswer::Granted(tries) => {
            let count = put_head(out, AnswerKind::Granted, Frame::LONG);
            put32(out, Frame::HEAD, tries);
            count
        }
        StepAnswer::Stale(word, tries) => {
            let count = put_head(out, AnswerKind::Stale, Frame::FIELD_AND_LONG);
            put16(out, Frame::HEAD, word);
            put32(out, Frame::HEAD + Frame::FIELD, tries);
            count
        }
        StepAnswer::Seen(seen) => write_seen(out, seen),
    }
}

// The answer to a look: the value, or Held where there is none.
#[tactic(auto, using(frames::proofs::Put::all_written_lem), unfolding(frames::specs::Answers::answer_frame))]
fn write_look(out: &mut [u8; Answer::LONGEST], answer: Option<u64>) -> usize
    ensures { (result, out.new) ≡ written out.old (answer_frame (Answer.Look answer)) }
{
    let Some(value) = answer else {
        return put_head(out, AnswerKind::Held, 0);
    };
    let count = put_head(out, AnswerKind::Value, Frame::VALUE);
    put64(out, Frame::HEAD, value);
    count
}

// Any answer's frame. Returns its bytes. The output is a slice, as which an array is lent too: an array would be a narrower argument.
#[inline(always)]
#[tactic(auto, using(frames::proofs::Framed::fitted), unfolding(frames::specs::Answers::answer_frame))]
pub fn write(out: &mut [u8], answer: Answer) -> usize
    requires { longest_answer ≤ length out.old }
    ensures { ((result, out.new) ≡ written out.old (answer_frame answer)) × (result ≤ longest_answer) }
{
    let out = out.first_chunk_mut().unwrap();
    match answer {
        Answer::Standing(n) => write_short(out, AnswerKind::Standing, n),
        Answer::Step(answer) => write_step(out, answer),
        Answer::Look(answer) => write_look(out, answer),
        Answer::Refused(number) => write_short(out, AnswerKind::Refused, number),
    }
}
