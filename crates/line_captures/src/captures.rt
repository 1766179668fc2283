// Captures: the first attempt from a place on, and where the next one opens.
ghost use Rattle.std.specs.Prelude.{◌≡◌, ℕ, ◌+◌, ◌≤◌, length, drop, if◌then◌else◌};
ghost use Rattle.answers.specs.Answers.{said};
ghost use Rattle.line_reader.specs.declared.reader.Reader.TheVariants.{Fresh, Dropping};
ghost use Rattle.line_captures.specs.Captures.{is_open, opens_at, attempt_of, read_in, read_of, said_of_read};

use answers::{Answer, Refusal};
use line_mode::{LineMode, mode_of};
use line_reader::{Broken, Ending, Reader, Step, answer_to_ending, drop_on, go_on};

// An attempt of a capture: how it ends, and where the next one opens.
#[derive(Clone, Copy)]
pub struct Attempt {
    pub ending: Ending,
    pub next: usize,
}

// What reading a capture from a place on brings: the first attempt, if there is one; none at the end. A number that names no mode, and a
// place past the end, are refused.
pub type ReadOutcome = Result<Option<Attempt>, Refusal>;

// What reading has come to, as an answer: no `From`, since neither `Result` nor `Answer` is this crate's.
pub fn answer_to_read(outcome: ReadOutcome) -> Answer
    ensures { said result ≡ said_of_read outcome }
{
    match outcome {
        Ok(Some(attempt)) => answer_to_ending(attempt.ending),
        Ok(None) => Answer::Nothing,
        Err(refusal) => Answer::Refused(refusal),
    }
}

// Whether an attempt is open.
fn is_open(reader: Reader) -> bool
    ensures { result ≡ is_open reader }
{
    matches!(reader, Reader::Open { .. })
}

// The place of the first edge from an index of the tail on that follows a quiet gap; the tail stands at a place of the capture. The edge
// before that index came at `last`.
fn opens_at(tail: &[u32], place: usize, from: usize, mode: LineMode, last: u32) -> usize
    requires { (from ≤ length tail.now) × (place + length tail.now ≤ 18446744073709551615) }
    ensures { result ≡ opens_at mode (Dropping last) (drop from tail.now) (place + from) }
{
    let mut before = last;
    for i in from..tail.len() {
        let reading = tail[i];
        if is_open(drop_on(mode, before, reading).reader) {
            return place + i;
        }
        before = reading;
    }
    place + tail.len()
}

// Where the next attempt opens once one has ended at an edge: the edge may have opened it, else a later one does.
fn next_opens(tail: &[u32], place: usize, i: usize, mode: LineMode, reader: Reader) -> usize
    requires { (i + 1 ≤ length tail.now) × (place + length tail.now ≤ 18446744073709551615) }
    ensures { result ≡ (if is_open reader then place + i else opens_at mode reader (drop (i + 1) tail.now) (place + (i + 1))) }
{
    match reader {
        Reader::Fresh => place + (i + 1),
        Reader::Open { .. } => place + i,
        Reader::Dropping { last } => opens_at(tail, place, i + 1, mode, last),
    }
}

// The first attempt of a capture's tail that stands at a place: its first edge opens it. The loop holds the attempt as numbers, since an edge costs
// twice as much where the reader goes through memory.
fn first_attempt(tail: &[u32], place: usize, mode: LineMode) -> Attempt
    requires { (1 ≤ length tail.now) × (place + length tail.now ≤ 18446744073709551615) }
    ensures { Ok (Some result) ≡ attempt_of mode Fresh tail.now place }
{
    let mut at = 1;
    let mut last = tail[0];
    let mut bits = 0;
    for i in 1..tail.len() {
        let reading = tail[i];
        let Step { heard, reader } = go_on(mode, at, last, bits, reading);
        if let Some(ending) = heard {
            return Attempt {
                ending,
                next: next_opens(tail, place, i, mode, reader),
            };
        }
        if let Reader::Open {
            at: next,
            bits: more,
            ..
        } = reader
        {
            at = next;
            bits = more;
        }
        last = reading;
    }
    Attempt {
        ending: Err(Broken::Cut),
        next: place + tail.len(),
    }
}

// Reading in a mode whose numbers are known.
#[tactic(auto, unfolding(crate::specs::Captures::read_in))]
fn read_in(capture: &[u32], place: usize, mode: LineMode) -> ReadOutcome
    ensures { result ≡ read_in mode capture.now place }
{
    if capture.len() < place {
        return Err(Refusal::Room);
    }
    if place == capture.len() {
        return Ok(None);
    }
    Ok(Some(first_attempt(&capture[place..], place, mode)))
}

// The first attempt from a place of a capture on: how it ends, and where the next one opens. The mode comes by its number, as C gives it.
#[tactic(auto, unfolding(crate::specs::Captures::read_of))]
pub fn read(capture: &[u32], place: usize, mode: u32) -> ReadOutcome
    ensures { result ≡ read_of mode capture.now place }
{
    let known = mode_of(mode).ok_or(Refusal::Mode)?;
    read_in(capture, place, known)
}
