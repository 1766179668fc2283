// The step on a record of plain numbers that the caller lends, which is changed where it lies.
ghost use Rattle.std.specs.Prelude.{◌≡◌};
ghost use Rattle.answers.specs.Answers.{packed};
ghost use Rattle.port_state.specs.Memory.{fresh_device};
ghost use Rattle.port_state.specs.PlainRecords.{device_of, record_of};
ghost use Rattle.port_lent.specs.Lent.{step_on_record};
ghost use Rattle.port_lent.specs.Quickly.{with_reader_numbers};

use crate::quick::{Quick, quick_of};
use port_state::{Device, PlainRecord, ReaderNumbers};
use port_step::{event_of, step};

// Takes an event by the device that the record means.
#[tactic(auto, using(port_state::proofs::PlainRecordLaws::comes_back))]
fn step_slowly(plain: &mut PlainRecord, kind: u64, clock: u64, argument: u64) -> u64
    ensures says { result ≡ packed (step_on_record kind clock argument plain.old).says }
    ensures means { device_of plain.new ≡ (step_on_record kind clock argument plain.old).device }
{
    let reply = step(Device::from(*plain), event_of(kind, clock, argument));
    *plain = PlainRecord::from(reply.device);
    reply.answer.packed()
}

// Puts the numbers of another reader into a record.
fn put_reader(plain: &mut PlainRecord, reader: ReaderNumbers)
    ensures { plain.new ≡ with_reader_numbers reader plain.old }
{
    plain.bits = reader.bits;
    plain.last = reader.last;
    plain.position = reader.position;
    plain.reader = reader.kind;
}

// Takes an event, in a run or in a call for it alone. Most change the reader alone or nothing, and then no more is written.
pub(crate) fn take_event<const IN_RUN: bool>(
    plain: &mut PlainRecord,
    kind: u64,
    clock: u64,
    argument: u64,
) -> u64
    ensures says { result ≡ packed (step_on_record kind clock argument plain.old).says }
    ensures means { device_of plain.new ≡ (step_on_record kind clock argument plain.old).device }
{
    match quick_of::<IN_RUN>(plain, kind, clock, argument) {
        Quick::Slow => step_slowly(plain, kind, clock, argument),
        Quick::Kept(answer) => answer,
        Quick::Moved { answer, reader } => {
            put_reader(plain, reader);
            answer
        }
    }
}

// Takes an event.
pub fn step_record(plain: &mut PlainRecord, kind: u64, clock: u64, argument: u64) -> u64
    ensures says { result ≡ packed (step_on_record kind clock argument plain.old).says }
    ensures means { device_of plain.new ≡ (step_on_record kind clock argument plain.old).device }
{
    take_event::<false>(plain, kind, clock, argument)
}

// The record of a device that no event has reached.
pub fn fresh_record() -> PlainRecord
    ensures { result ≡ record_of fresh_device }
{
    PlainRecord::from(Device::fresh())
}
