// The C functions of the static library, thin over the crates: each gives the answer as one number. include/maststep.h declares them. (One line each, and alike: the C interface.)
#![tactic(auto)]

ghost use Rattle.std.specs.Prelude.{◌≡◌};
ghost use Rattle.answers.specs.Answers.{packed};
ghost use Rattle.page_check_bits.specs.CheckBits.{checked};
ghost use Rattle.page_resolve.specs.Resolving.{resolve_says};
ghost use Rattle.page_messages.specs.Telling.{messages_of};
ghost use Rattle.frame_parity.specs.Taking.{take_of, finish_of};
ghost use Rattle.line_mode.specs.Gaps.{judged};
ghost use Rattle.line_writer.specs.Writing.{write_of};
ghost use Rattle.line_captures.specs.Captures.{said_of_read, read_of};
ghost use Rattle.port_state.specs.Memory.{fresh_device};
ghost use Rattle.port_state.specs.PlainRecords.{device_of, record_of};
ghost use Rattle.port_step.specs.Runs.{run_of};
ghost use Rattle.port_lent.specs.Lent.{step_on_record};
ghost use Rattle.maststep.specs.NextPlace.{next_left};

use answers::Answer;
use line_captures::{ReadOutcome, answer_to_read};
use port_state::PlainRecord;

// The check bits of a word, or 13.
#[unsafe(no_mangle)]
pub extern "C" fn maststep_check(word: u64) -> u64
    ensures { result ≡ packed (checked word) }
{
    let bits = page_check_bits::check(word).map(|bits| bits as usize);
    Answer::from(bits).packed()
}

// What two words settle on, ability and role, or 13, 4, 5, 8, 9.
#[unsafe(no_mangle)]
#[tactic(auto, unfolding(page_resolve::specs::Resolving::resolve_says))]
pub extern "C" fn maststep_resolve(own: u64, partner: u64) -> u64
    ensures { result ≡ packed (resolve_says own partner) }
{
    page_resolve::answer_to(page_resolve::resolve(own, partner)).packed()
}

// How a gap counts in a mode, or 14.
#[unsafe(no_mangle)]
pub extern "C" fn maststep_judge(mode: u32, gap: u32) -> u64
    ensures { result ≡ packed (judged mode gap) }
{
    line_mode::answer_to_judging(line_mode::judge(mode, gap)).packed()
}

// Writes a page's readings into the list from a place on: their number, or 14, 13, 12.
#[unsafe(no_mangle)]
pub extern "C" fn maststep_write(
    list: &mut [u32],
    place: usize,
    mode: u32,
    word: u64,
    first: u32,
) -> u64
    ensures says { result ≡ packed (write_of mode list.old place word first).says }
    ensures leaves { list.new ≡ (write_of mode list.old place word first).list }
{
    Answer::from(line_writer::write(list, place, mode, word, first)).packed()
}

// What is left where the caller keeps the next place.
fn next_left(outcome: ReadOutcome, place: usize, old: usize) -> usize
    ensures { result ≡ next_left outcome place old }
{
    match outcome {
        Err(refusal) => old,
        Ok(None) => place,
        Ok(Some(attempt)) => attempt.next,
    }
}

// The first attempt from a place of a capture on: its outcome, nothing at the end of the capture, or 14, 12; and where the next attempt opens.
#[unsafe(no_mangle)]
pub extern "C" fn maststep_read(list: &[u32], place: usize, mode: u32, next: &mut usize) -> u64
    ensures says { result ≡ packed (said_of_read (read_of mode list.now place)) }
    ensures leaves { next.new ≡ next_left (read_of mode list.now place) place next.old }
{
    let outcome = line_captures::read(list, place, mode);
    *next = next_left(outcome, place, *next);
    answer_to_read(outcome).packed()
}

// Makes a record that of a fresh device, whatever it held.
#[unsafe(no_mangle)]
pub extern "C" fn maststep_fresh(device: &mut PlainRecord)
    ensures leaves { device.new ≡ record_of fresh_device }
{
    *device = port_lent::fresh_record();
}

// Gives an event, as three numbers, to the device that a record means; the record then means the device afterwards.
#[unsafe(no_mangle)]
pub extern "C" fn maststep_step(
    device: &mut PlainRecord,
    kind: u64,
    clock: u64,
    argument: u64,
) -> u64
    ensures says { result ≡ packed (step_on_record kind clock argument device.old).says }
    ensures means { device_of device.new ≡ (step_on_record kind clock argument device.old).device }
{
    port_lent::step_record(device, kind, clock, argument)
}

// A fresh device takes the events, three cells each, and the list gets one answer for each: their number, or 12.
#[unsafe(no_mangle)]
pub extern "C" fn maststep_run(events: &[u64], answers: &mut [u64]) -> u64
    ensures says { result ≡ packed (run_of events.now answers.old).says }
    ensures leaves { answers.new ≡ (run_of events.now answers.old).list }
{
    Answer::from(port_lent::run(events, answers)).packed()
}

// The messages of a run of heard pages, three cells each: their number, or 25, 13, 24, 12.
#[unsafe(no_mangle)]
pub extern "C" fn maststep_messages(pages: &[u64], messages: &mut [u64]) -> u64
    ensures says { result ≡ packed (messages_of pages.now messages.old).says }
    ensures leaves { messages.new ≡ (messages_of pages.now messages.old).list }
{
    Answer::from(page_messages::messages(pages, messages)).packed()
}

// Takes a burst of data symbols into the lent state of a frame: the number of symbols taken so far, or 12, 21, 20.
#[unsafe(no_mangle)]
pub extern "C" fn maststep_parity_take(state: &mut [u16], burst: &[u16]) -> u64
    ensures says { result ≡ packed (take_of state.old burst.now).says }
    ensures leaves { state.new ≡ (take_of state.old burst.now).list }
{
    Answer::from(frame_parity::take_burst(state, burst)).packed()
}

// Gives the parity symbols of a frame whose lent state has taken all data: their number, or 12, 21, 20.
#[unsafe(no_mangle)]
pub extern "C" fn maststep_parity_finish(state: &[u16], parity: &mut [u16]) -> u64
    ensures says { result ≡ packed (finish_of state.now parity.old).says }
    ensures leaves { parity.new ≡ (finish_of state.now parity.old).list }
{
    Answer::from(frame_parity::finish(state, parity)).packed()
}
