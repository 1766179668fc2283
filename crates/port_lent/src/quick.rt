// Events that change at most the reader. To store a whole record costs more than such an event does; so what is to be stored is told apart first.
ghost use Rattle.std.specs.Prelude.{◌≡◌, false, not, ◌&&◌, ◌||◌, ℕ, if◌then◌else◌};
ghost use Rattle.answers.specs.Answers.{packed, nothing, register_value};
ghost use Rattle.page_word.specs.Thirds.{third_of};
ghost use Rattle.line_mode.specs.Modes.{lsm_mode};
ghost use Rattle.port_state.specs.declared.plain_record.PlainRecord.{PlainRecord};
ghost use Rattle.port_state.specs.Memory.{due};
ghost use Rattle.port_state.specs.PlainRecords.{device_of};
ghost use Rattle.port_registers.specs.Registers.{read_due};
ghost use Rattle.port_hearing.specs.Edges.{listened, edge_due};
ghost use Rattle.port_timing.specs.Ticks.{run_out, low_speed, holds_back, may_order, is_lost, tick_due};
ghost use Rattle.port_lent.specs.declared.quick.Quick.TheVariants.{Kept};
ghost use Rattle.port_lent.specs.Lent.{step_on_record};
ghost use Rattle.port_lent.specs.Quickly.{Fits};

use answers::{Answer, Refusal};
use line_mode::LineMode;
use line_reader::{Reader, Step, drop_on, go_on, open_on};
use page_word::{Third, third_of};
use port_hearing::takes_edges;
use port_state::{PlainRecord, ReaderNumbers, Round, SETTLED, State, is_base, is_set};
use port_timing::{break_is_over, inhibit_is_over, is_held_back, mark_has_run, partner_is_lost};

// What an event brings: something that is not told here; this answer, and the record as it was; this answer, and the reader's numbers.
#[derive(Drop)]
pub enum Quick {
    Slow,
    // The answer as the C call gives it, packed.
    Kept(u64),
    Moved { answer: u64, reader: ReaderNumbers },
}

// What the reader's step brings, if it has read no good page: behind one more than the reader may change. By one `match` over what is heard, since
// what goes through `answer_to_heard` lies in memory, and an edge that says something takes twice the time.
#[tactic(auto, using(crate::proofs::QuickLaws::reader_moved))]
fn moved(step: Step) -> Quick
    ensures { (plain : PlainRecord) (reading : ℕ) → Fits result plain (listened step reading (device_of plain)) }
{
    let answer = match step.heard {
        None => Answer::Nothing,
        Some(Err(broken)) => Answer::Refused(Refusal::from(broken)),
        Some(Ok(_)) => return Quick::Slow,
    };
    Quick::Moved {
        answer: answer.packed(),
        reader: ReaderNumbers::from(step.reader),
    }
}

// Whether a page is due, if none is out. Few ticks find the mark old enough, so the reader is looked at last.
#[tactic(auto, unfolding(port_state::specs::PlainRecords::device_of))]
fn page_is_due(plain: &PlainRecord, reading: u32) -> bool
    ensures { result ≡ (run_out (if (device_of plain.now).link.talk.heard then low_speed.silent else low_speed.wait) (device_of plain.now).link.talk.mark reading && not (holds_back low_speed.mode.quiet (device_of plain.now).link.reader reading)) }
{
    mark_has_run(is_set(plain.is_heard), plain.mark, reading)
        && !is_held_back(Reader::from(*plain), reading)
}

// Whether a tick gives the link up or orders a page, where pages are traded.
#[tactic(auto, unfolding(port_state::specs::PlainRecords::device_of, port_timing::specs::Ticks::is_lost, port_timing::specs::Ticks::may_order))]
fn talk_acts(plain: &PlainRecord, reading: u32) -> bool
    ensures { result ≡ (is_lost low_speed reading (device_of plain.now).link || may_order low_speed reading (device_of plain.now).link) }
{
    if is_set(plain.is_out) {
        return false;
    }
    let is_lost = !is_base(Round::from(plain.round)) && partner_is_lost(plain.good, reading);
    is_lost || page_is_due(plain, reading)
}

// Whether a tick does anything.
#[tactic(auto, using(crate::proofs::QuickLaws::idle_talk, crate::proofs::QuickLaws::inhibit_by), unfolding(port_state::specs::PlainRecords::device_of, port_timing::specs::Ticks::tick_due))]
fn tick_acts(plain: &PlainRecord, reading: u32) -> bool
    ensures { result ≡ false → (draw : ℕ) → tick_due low_speed reading draw (device_of plain.now) ≡ due nothing (device_of plain.now) }
{
    match State::from(plain.state) {
        State::Off | State::Up => false,
        State::Break => break_is_over(plain.timer, reading),
        State::Ability | State::Ack | State::Complete => talk_acts(plain, reading),
        State::CheckLink => {
            let rate = (plain.outcome == SETTLED).then_some(plain.ability);
            inhibit_is_over(rate, plain.timer, reading)
        }
    }
}

// A tick.
fn quick_tick(plain: &PlainRecord, reading: u32) -> Quick
    ensures { (draw : ℕ) → Fits result plain.now (tick_due low_speed reading draw (device_of plain.now)) }
{
    if tick_acts(plain, reading) {
        return Quick::Slow;
    }
    Quick::Kept(0)
}

// A register's value.
fn value(word: u64, third: Third) -> Quick
    ensures { result ≡ Kept (packed (register_value (third_of third word))) }
{
    Quick::Kept(Answer::Value(third_of(word, third)).packed())
}

// A read of a register of a bank. It is the table of 7.514-525 as they stand in C's record: a register's number decides at once which field is read.
#[tactic(auto, unfolding(port_registers::specs::Registers::register_of, port_registers::specs::Registers::read_due, port_state::specs::PlainRecords::device_of))]
fn quick_read(plain: &PlainRecord, register: u64) -> Quick
    ensures { Fits result plain.now (read_due register (device_of plain.now)) }
{
    match register {
        514 => value(plain.advertised, Third::Low),
        515 => value(plain.advertised, Third::Middle),
        516 => value(plain.advertised, Third::High),
        517 => value(plain.partner, Third::Low),
        518 => value(plain.partner, Third::Middle),
        519 => value(plain.partner, Third::High),
        520 => value(plain.transmit, Third::Low),
        521 => value(plain.transmit, Third::Middle),
        522 => value(plain.transmit, Third::High),
        523 => value(plain.heard, Third::Low),
        524 => value(plain.heard, Third::Middle),
        525 => value(plain.heard, Third::High),
        _ => Quick::Slow,
    }
}

// An edge.
#[tactic(auto, using(crate::proofs::QuickLaws::nothing_due), unfolding(port_hearing::specs::Edges::edge_due, port_state::specs::PlainRecords::device_of, line_reader::specs::Reading::edge_of))]
fn quick_edge<const IN_RUN: bool>(plain: &PlainRecord, reading: u32) -> Quick
    ensures { Fits result plain.now (edge_due lsm_mode reading (device_of plain.now)) }
{
    if !takes_edges(State::from(plain.state), is_set(plain.is_out)) {
        return Quick::Kept(0);
    }
    // Only from 155 on can a page end.
    if 155 <= plain.position {
        return Quick::Slow;
    }
    // By `Reader::edge`, laid in here, an edge from C took 74.5 instructions, where it took 71.2 so.
    match Reader::from(*plain) {
        Reader::Fresh => moved(open_on(reading)),
        Reader::Open { at, last, bits } => {
            moved(go_on(LineMode::lsm(), at, last, bits, reading))
        }
        Reader::Dropping { last } => moved(drop_on(LineMode::lsm(), last, reading)),
    }
}

// An event. IN_RUN says which of two callers this is for, a run or a call for one event, so that the compiler makes a copy for each and lays it in. With `inline(always)` in its place an
// edge of a run cost 83 instructions and not 72, and with one copy for both a tick of a run 48 and not 35.
#[tactic(auto, unfolding(port_step::specs::Runs::event_of, port_step::specs::Steps::step_over))]
pub(crate) fn quick_of<const IN_RUN: bool>(
    plain: &PlainRecord,
    kind: u64,
    clock: u64,
    argument: u64,
) -> Quick
    ensures { Fits result plain.now (step_on_record kind clock argument plain.now) }
{
    let reading = (clock % 4294967296) as u32;
    match kind {
        0 => quick_edge::<IN_RUN>(plain, reading),
        1 => quick_tick(plain, reading),
        4 => quick_read(plain, argument),
        _ => Quick::Slow,
    }
}
