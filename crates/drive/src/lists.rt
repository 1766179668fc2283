// The calls that take lists. Each puts the number of its answer cells, and these, behind the answers that stand there already; its contract
// says how many there are then, or how many at most. 65536 is there the most cells of the input, and 196608 the room for the answers.
ghost use Rattle.std.specs.Prelude.{◌≡◌, ◌+◌, ◌*◌, ◌/◌, ◌≤◌, length};
ghost use Rattle.arrayvec.specs.ArrayVec.{array_vec_len};

use crate::cells::{mode_of, narrowed, reading_of, symbol_of};
use crate::{Answers, Readings, Told};
use answers::{Answer, Refusal};
use line_captures::answer_to_read;
use line_mode::mode_of as line_mode_of;
use line_reader::{Reader, answer_to_heard};

// The cells of a message, and the most messages of a run.
const MESSAGE_CELLS: usize = 3;

const MOST_MESSAGES: usize = 64;

// The cells of a state: the register's 44 symbols, and how many were taken.
const STATE_ENTRIES: usize = 45;

const PARITY_SYMBOLS: usize = 44;

// The most symbols of a burst that have to be looked at: more than 406 are refused, whatever they are, so 407 tell as much as all.
const MOST_LOOKED_AT: usize = 407;

// Puts a cell behind the answers.
fn tell(answers: &mut Answers, cell: u64)
    requires { array_vec_len answers.old + 1 ≤ 196608 }
    ensures { array_vec_len answers.new ≡ array_vec_len answers.old + 1 }
{
    answers.push(cell.to_le_bytes());
}

// No answer cells.
pub(crate) fn none(answers: &mut Answers)
    requires { array_vec_len answers.old + 1 ≤ 196608 }
    ensures { array_vec_len answers.new ≡ array_vec_len answers.old + 1 }
{
    tell(answers, 0);
}

// An answer alone.
pub(crate) fn one(answers: &mut Answers, answer: Answer)
    requires { array_vec_len answers.old + 2 ≤ 196608 }
    ensures { array_vec_len answers.new ≡ array_vec_len answers.old + 2 }
{
    tell(answers, 1);
    tell(answers, answer.packed());
}

// An answer's cell, and the entries of a list behind it.
fn with_list<T: Copy + Into<u64>>(answers: &mut Answers, answer: Answer, list: &[T])
    requires { array_vec_len answers.old + length list.now + 2 ≤ 196608 }
    ensures { array_vec_len answers.new ≡ array_vec_len answers.old + length list.now + 2 }
{
    tell(answers, 1 + list.len() as u64);
    tell(answers, answer.packed());
    for entry in list {
        tell(answers, (*entry).into());
    }
}

// Operation 3.
pub(crate) fn write(
    answers: &mut Answers,
    readings: &mut Readings,
    mode: u64,
    word: u64,
    first: u64,
    place: u64,
    list: &[u64],
)
    requires { (array_vec_len answers.old + length list.now + 2 ≤ 196608) × (length list.now ≤ 65536) }
    ensures { array_vec_len answers.new ≡ array_vec_len answers.old + length list.now + 2 }
{
    let entries = &mut readings[..list.len()];
    narrowed(list, entries, reading_of);
    let counted = line_writer::write(
        entries,
        place as usize,
        mode_of(mode),
        word,
        reading_of(first),
    );
    with_list(answers, Answer::from(counted), entries)
}

// Operation 4: the answer, and where the next attempt opens, which is the place itself if there is none.
pub(crate) fn read(
    answers: &mut Answers,
    readings: &mut Readings,
    mode: u64,
    place: u64,
    capture: &[u64],
)
    requires { (array_vec_len answers.old + 3 ≤ 196608) × (length capture.now ≤ 65536) }
    ensures { array_vec_len answers.new ≡ array_vec_len answers.old + 3 }
{
    let taken = &mut readings[..capture.len()];
    narrowed(capture, taken, reading_of);
    let outcome = line_captures::read(taken, place as usize, mode_of(mode));
    let next = match outcome {
        Ok(Some(attempt)) => attempt.next as u64,
        _ => place,
    };
    tell(answers, 2);
    tell(answers, answer_to_read(outcome).packed());
    tell(answers, next);
}

// Operation 6: an answer to each event, from a fresh device on.
pub(crate) fn run(answers: &mut Answers, told: &mut Told, events: &[u64])
    requires { (array_vec_len answers.old + length events.now / 3 + 1 ≤ 196608) × (length events.now ≤ 65536) }
    ensures { array_vec_len answers.new ≡ array_vec_len answers.old + length events.now / 3 + 1 }
{
    let count = events.len() / 3;
    let told = &mut told[..count];
    // There is room for all answers, so what the call says is their number.
    let _ = port_lent::run(events, told);
    tell(answers, count as u64);
    for answer in told.iter() {
        tell(answers, *answer);
    }
}

// Operation 7: what a reader says at each reading, from a fresh one on.
pub(crate) fn edges(answers: &mut Answers, mode: u64, readings: &[u64])
    requires { array_vec_len answers.old + length readings.now + 2 ≤ 196608 }
    ensures { array_vec_len answers.new ≤ array_vec_len answers.old + length readings.now + 2 }
{
    let Some(mode) = line_mode_of(mode_of(mode)) else {
        return one(answers, Answer::Refused(Refusal::Mode));
    };
    tell(answers, readings.len() as u64);
    let mut reader = Reader::Fresh;
    for reading in readings {
        let step = reader.edge(mode, reading_of(*reading));
        tell(answers, answer_to_heard(step.heard).packed());
        reader = step.reader;
    }
}

// Operation 8: the answer, and three cells for each message.
pub(crate) fn messages(answers: &mut Answers, pages: &[u64])
    requires { array_vec_len answers.old + 3 * length pages.now + 2 ≤ 196608 }
    ensures { array_vec_len answers.new ≤ array_vec_len answers.old + 3 * length pages.now + 2 }
{
    let mut found = [0; MOST_MESSAGES * MESSAGE_CELLS];
    let counted = page_messages::messages(pages, &mut found);
    // Never more messages than pages, nor than there is room for: that is seen to here, and not shown again.
    let count = counted.unwrap_or(0).min(pages.len()).min(MOST_MESSAGES);
    with_list(
        answers,
        Answer::from(counted),
        &found[..MESSAGE_CELLS * count],
    )
}

// Operation 9: the answer, and the state afterwards.
pub(crate) fn parity_take(answers: &mut Answers, state: &[u64; STATE_ENTRIES], burst: &[u64])
    requires { array_vec_len answers.old + 47 ≤ 196608 }
    ensures { array_vec_len answers.new ≡ array_vec_len answers.old + 47 }
{
    let mut entries = [0; STATE_ENTRIES];
    narrowed(state, &mut entries, symbol_of);
    let mut symbols = [0; MOST_LOOKED_AT];
    narrowed(burst, &mut symbols, symbol_of);
    let looked_at = burst.len().min(MOST_LOOKED_AT);
    let counted = frame_parity::take_burst(&mut entries, &symbols[..looked_at]);
    with_list(answers, Answer::from(counted), &entries)
}

// Operation 10: the answer, and the parity symbols unless it is a refusal.
pub(crate) fn parity_finish(answers: &mut Answers, state: &[u64; STATE_ENTRIES])
    requires { array_vec_len answers.old + 46 ≤ 196608 }
    ensures { array_vec_len answers.new ≤ array_vec_len answers.old + 46 }
{
    let mut entries = [0; STATE_ENTRIES];
    narrowed(state, &mut entries, symbol_of);
    let mut parity = [0; PARITY_SYMBOLS];
    let counted = frame_parity::finish(&entries, &mut parity);
    let symbols: &[u16] = if counted.is_ok() { &parity } else { &[] };
    with_list(answers, Answer::from(counted), symbols)
}
