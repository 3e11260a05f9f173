// Each edit's and a view's fields, read from the part of the frame after its kind. A field out of range ends the reading there.
#![tactic(auto)]

ghost use Rattle.std.specs.Prelude.{◌≡◌, true, ◌+◌, ◌*◌, ◌-◌, ◌≤◌, length, take};
ghost use Rattle.words.specs.Words.{most_named};
ghost use Rattle.edits.specs.declared.Edit.TheVariants as Edit;
ghost use Rattle.edits.specs.Views.{all_in_book, padded_names};
ghost use Rattle.edits.specs.Ranges.{named_among, named_twice};
ghost use Rattle.frames.specs.Requests.{strike_kind, move_kind, length_of_kind, is_edit_kind, strike_in, move_in, view_words_in};
ghost use Rattle.frames.specs.Numbers.{number16};
ghost use Rattle.frames.specs.Fields.{measure_size, edit_read, add_read, correct_read, read_edit, ViewFields, view_read};
ghost use Rattle.frames.specs.Refusals.{numbered};
ghost use Rattle.frames.specs.Kinds.{kind_number};

use crate::fields::{
    AngleUnit, Hundredths, Minutes, field, measure_field, passage_field, stations_at, taken_field,
};
use edits::{Add, Correct, Edit, Move, Strike, View};
use frames::numbers::read16;
use frames::{Frame, Kind, Refusal};
use words::Limits;

pub mod fields; // one field, in range or out of it

// Whether a leg is named among others: 0 means none, and is named nowhere.
fn named_among(leg: u16, others: &[u16]) -> bool
    ensures { result ≡ named_among leg others.now }
{
    leg != 0 && others.contains(&leg)
}

// Whether a leg other than 0 is named twice. Its callers give two to four: inlined there, no loop is left. It passes over 0, where
// `words::distinct` has every number: one function of both would be handed that test.
#[inline(always)]
#[tactic(auto, using(frames::proofs::Ranges::test_alone), unfolding(words::specs::Tests::some_holds))]
fn named_twice(legs: &[u16]) -> bool
    ensures { result ≡ named_twice legs.now }
{
    let mut rest = legs;
    while let Some((leg, later)) = rest.split_first() {
        if named_among(*leg, later) {
            return true;
        }
        rest = later;
    }
    false
}

// team p r h c from to M. Each field is taken by `let .. else`, the form that the scope names, here and in the other edits.
fn read_add<U: AngleUnit>(part: &[u8]) -> Result<Edit, Refusal>
    requires { length part.now ≡ 14 + measure_size U.minutes }
    ensures { numbered result ≡ add_read U.minutes part.now }
{
    let Some(passage) = passage_field(part, 2) else {
        return Err(Refusal::Range);
    };
    let Some(leg) = field(part, 4, 1..=Limits::LAST_LEG) else {
        return Err(Refusal::Range);
    };
    let Some(newest) = field(part, 6, 0..=Limits::LAST_LEG) else {
        return Err(Refusal::Range);
    };
    let Some(count) = field(part, 8, 0..=Limits::LAST_LEG - 1) else {
        return Err(Refusal::Range);
    };
    let stations = stations_at(part, 10);
    let Some(measure) = measure_field::<U>(part, 14) else {
        return Err(Refusal::Range);
    };
    if stations.from == stations.to {
        return Err(Refusal::Repeated);
    }
    if named_twice(&[leg, newest]) {
        return Err(Refusal::Repeated);
    }
    Ok(Edit::Add(Add {
        passage,
        leg,
        newest,
        count,
        stations,
        measure,
    }))
}

// team p r from to, old M, new M, both in the same unit.
fn read_correct<U: AngleUnit>(part: &[u8]) -> Result<Edit, Refusal>
    requires { length part.now ≡ 10 + 2 * measure_size U.minutes }
    ensures { numbered result ≡ correct_read U.minutes part.now }
{
    let second = 10 + U::measure_size();
    let Some(passage) = passage_field(part, 2) else {
        return Err(Refusal::Range);
    };
    let Some(leg) = field(part, 4, 1..=Limits::LAST_LEG) else {
        return Err(Refusal::Range);
    };
    let stations = stations_at(part, 6);
    let Some(old) = measure_field::<U>(part, 10) else {
        return Err(Refusal::Range);
    };
    let Some(new) = measure_field::<U>(part, second) else {
        return Err(Refusal::Range);
    };
    if stations.from == stations.to {
        return Err(Refusal::Repeated);
    }
    Ok(Edit::Correct(Correct {
        passage,
        leg,
        stations,
        old,
        new,
    }))
}

// team p f r s c from to M.
fn read_strike(part: &[u8]) -> Result<Edit, Refusal>
    requires { length part.now ≡ length_of_kind strike_kind - 2 }
    ensures { numbered result ≡ edit_read (Edit.Strike (strike_in part.now)) }
{
    let Some(passage) = passage_field(part, 2) else {
        return Err(Refusal::Range);
    };
    let Some(taken) = taken_field(part, 4) else {
        return Err(Refusal::Range);
    };
    let stations = stations_at(part, 12);
    let Some(measure) = measure_field::<Hundredths>(part, 16) else {
        return Err(Refusal::Range);
    };
    if stations.from == stations.to {
        return Err(Refusal::Repeated);
    }
    if named_twice(&[taken.newer, taken.leg, taken.older]) {
        return Err(Refusal::Repeated);
    }
    Ok(Edit::Strike(Strike {
        passage,
        newer: taken.newer,
        leg: taken.leg,
        older: taken.older,
        count: taken.count,
        stations,
        measure,
    }))
}

// team p q f r s c h d from to.
fn read_move(part: &[u8]) -> Result<Edit, Refusal>
    requires { length part.now ≡ length_of_kind move_kind - 2 }
    ensures { numbered result ≡ edit_read (Edit.Move (move_in part.now)) }
{
    let Some(passage) = passage_field(part, 2) else {
        return Err(Refusal::Range);
    };
    let Some(into) = passage_field(part, 4) else {
        return Err(Refusal::Range);
    };
    let Some(taken) = taken_field(part, 6) else {
        return Err(Refusal::Range);
    };
    let Some(newest) = field(part, 14, 0..=Limits::LAST_LEG) else {
        return Err(Refusal::Range);
    };
    let Some(count) = field(part, 16, 0..=Limits::LAST_LEG - 1) else {
        return Err(Refusal::Range);
    };
    let stations = stations_at(part, 18);
    if stations.from == stations.to || into == passage {
        return Err(Refusal::Repeated);
    }
    if named_twice(&[taken.newer, taken.leg, taken.older, newest]) {
        return Err(Refusal::Repeated);
    }
    Ok(Edit::Move(Move {
        passage,
        into,
        newer: taken.newer,
        leg: taken.leg,
        older: taken.older,
        count: taken.count,
        into_newest: newest,
        into_count: count,
        stations,
    }))
}

// The edit of a frame whose kind is an edit's. The other kinds stand here too: a type of the edits' kinds alone would be made of this one by
// this same match.
pub fn read_edit(kind: Kind, part: &[u8]) -> Result<Edit, Refusal>
    requires { (is_edit_kind (kind_number kind) ≡ true) × (length part.now ≡ length_of_kind (kind_number kind) - 2) }
    ensures { numbered result ≡ read_edit (kind_number kind) part.now }
{
    match kind {
        Kind::Add => read_add::<Hundredths>(part),
        Kind::AddInMinutes => read_add::<Minutes>(part),
        Kind::Correct => read_correct::<Hundredths>(part),
        Kind::CorrectInMinutes => read_correct::<Minutes>(part),
        Kind::Strike => read_strike(part),
        Kind::Move => read_move(part),
        Kind::Step | Kind::Look | Kind::View => unreachable!(),
    }
}

// The words that a view names, zeros behind them. The count is the place in the frame, too: of a loop over `words.iter_mut().zip(fields)`,
// which has none, no fact says what was written through the zip, so that its proof doesn't close.
fn named_words(part: &[u8], n: usize) -> [u64; Limits::NAMED]
    requires { (n ≤ most_named) × (length part.now ≡ 4 + 2 * n) }
    ensures { result ≡ padded_names (view_words_in part.now) }
{
    let mut words = [0u64; Limits::NAMED];
    for k in 0..n {
        words[k] = u64::from(read16(part, 2 * Frame::FIELD + Frame::FIELD * k));
    }
    words
}

// Whether all are words of the book.
fn all_in_book(words: &[u64]) -> bool
    ensures { result ≡ all_in_book words.now }
{
    words.iter().all(|word| *word < Limits::WORDS as u64)
}

// team n, then n words.
pub fn read_view(part: &[u8]) -> Result<View, Refusal>
    requires { ViewFields part.now }
    ensures { numbered result ≡ view_read (number16 part.now 2) (view_words_in part.now) }
{
    let n = read16(part, Frame::FIELD);
    let count = (part.len() - 2 * Frame::FIELD) / Frame::FIELD;
    if n as usize != count {
        return Err(Refusal::Range);
    }
    let words = named_words(part, count);
    if !all_in_book(&words[..count]) {
        return Err(Refusal::Range);
    }
    if !words::distinct(&words[..count]) {
        return Err(Refusal::Repeated);
    }
    Ok(View { n, words })
}
