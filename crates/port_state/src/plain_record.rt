// The device as a record of plain numbers, in which a caller that knows no enum can keep it. Any content means some device.
ghost use Rattle.std.specs.Prelude.{◌≡◌};
ghost use Rattle.port_state.specs.PlainRecords.{is_set, state_of, state_number, round_of, round_number, reader_of, reader_numbers, outcome_of, outcome_numbers, lasting_of, talk_of, next_pages_of, link_of, device_of, record_of};

use crate::rounds::Round;
use crate::{Device, Flags, Lasting, Link, NextPages, Outcome, State, Talk};
use answers::Refusal;
use line_reader::Reader;
use page_resolve::Settled;

// The banks of registers, the base and Next Pages, the readings of timers and marks; the reader's kind with its bits, its last reading and its position; bytes for
// the state, the round, the outcome with ability and role, and for yes or no. include/maststep.h declares the same for C.
#[repr(C)]
#[derive(Clone, Copy)]
pub struct PlainRecord {
    pub advertised: u64,
    pub partner: u64,
    pub transmit: u64,
    pub heard: u64,
    pub own_base: u64,
    pub held_base: u64,
    pub own_next: u64,
    pub held_next: u64,
    pub bits: u64,
    pub last: u32,
    pub position: u32,
    pub mark: u32,
    pub timer: u32,
    pub good: u32,
    pub count: u32,
    pub reader: u8,
    pub state: u8,
    pub is_out: u8,
    pub is_heard: u8,
    pub round: u8,
    pub is_loaded: u8,
    pub is_latched: u8,
    pub is_received: u8,
    pub is_fault: u8,
    pub outcome: u8,
    pub ability: u8,
    pub is_master: u8,
}

// A reader as numbers: its kind, 0 fresh, 1 open, 2 dropping, and what it holds.
#[derive(Drop)]
pub struct ReaderNumbers {
    pub bits: u64,
    pub last: u32,
    pub position: u32,
    pub kind: u8,
}

// An outcome as numbers: its kind, which is that of an answer, and what it holds.
#[derive(Drop)]
pub struct OutcomeNumbers {
    pub kind: u8,
    pub ability: u8,
    pub is_master: u8,
}

// A byte of the C record as yes or no: the header tells C callers that any byte but 0 is yes.
pub fn is_set(number: u8) -> bool
    ensures { result ≡ is_set number }
{
    number != 0
}

impl From<u8> for State {
    #[tactic(auto, unfolding(crate::specs::PlainRecords::state_of))]
    fn from(number: u8) -> State
        ensures { result ≡ state_of number }
    {
        match number {
            1 => State::Break,
            2 => State::Ability,
            3 => State::Ack,
            4 => State::Complete,
            5 => State::CheckLink,
            6 => State::Up,
            _ => State::Off,
        }
    }
}

impl From<State> for u8 {
    fn from(state: State) -> u8
        ensures { result ≡ state_number state }
    {
        state as u8
    }
}

impl From<u8> for Round {
    #[tactic(auto, unfolding(crate::specs::PlainRecords::round_of))]
    fn from(number: u8) -> Round
        ensures { result ≡ round_of number }
    {
        match number {
            0 => Round::Base,
            1 => Round::First,
            _ => Round::Later,
        }
    }
}

impl From<Round> for u8 {
    fn from(round: Round) -> u8
        ensures { result ≡ round_number round }
    {
        round as u8
    }
}

impl From<ReaderNumbers> for Reader {
    // The reader that numbers mean, by its kind.
    #[inline(always)]
    #[tactic(auto, unfolding(crate::specs::PlainRecords::reader_of))]
    fn from(numbers: ReaderNumbers) -> Reader
        ensures { result ≡ reader_of numbers.kind numbers.position numbers.last numbers.bits }
    {
        match numbers.kind {
            0 => Reader::Fresh,
            1 => Reader::Open {
                at: numbers.position,
                last: numbers.last,
                bits: numbers.bits,
            },
            _ => Reader::Dropping { last: numbers.last },
        }
    }
}

impl From<PlainRecord> for Reader {
    #[inline(always)]
    fn from(plain: PlainRecord) -> Reader
        ensures { result ≡ reader_of plain.reader plain.position plain.last plain.bits }
    {
        Reader::from(ReaderNumbers {
            kind: plain.reader,
            position: plain.position,
            last: plain.last,
            bits: plain.bits,
        })
    }
}

impl From<Reader> for ReaderNumbers {
    // What a reader does not hold is 0.
    fn from(reader: Reader) -> ReaderNumbers
        ensures { result ≡ reader_numbers reader }
    {
        match reader {
            Reader::Fresh => ReaderNumbers {
                kind: 0,
                position: 0,
                last: 0,
                bits: 0,
            },
            Reader::Open { at, last, bits } => ReaderNumbers {
                kind: 1,
                position: at,
                last,
                bits,
            },
            Reader::Dropping { last } => ReaderNumbers {
                kind: 2,
                position: 0,
                last,
                bits: 0,
            },
        }
    }
}

// The kind of an outcome with a rate, as the C record keeps it: that of Answer::Settled, which Answer::packed writes as 130.
pub const SETTLED: u8 = 130;

impl From<PlainRecord> for Outcome {
    // The outcome of a record, by its kind.
    #[tactic(auto, unfolding(crate::specs::PlainRecords::outcome_of))]
    fn from(plain: PlainRecord) -> Outcome
        ensures { result ≡ outcome_of plain.outcome plain.ability (is_set plain.is_master) }
    {
        match plain.outcome {
            SETTLED => Some(Ok(Settled {
                ability: plain.ability,
                master: is_set(plain.is_master),
            })),
            0 => None,
            refused => Some(Err(Refusal::from(refused))),
        }
    }
}

impl From<Outcome> for OutcomeNumbers {
    // What an outcome does not hold is 0.
    fn from(outcome: Outcome) -> OutcomeNumbers
        ensures { result ≡ outcome_numbers outcome }
    {
        match outcome {
            None => OutcomeNumbers {
                kind: 0,
                ability: 0,
                is_master: 0,
            },
            Some(Err(refusal)) => OutcomeNumbers {
                kind: u8::from(refusal),
                ability: 0,
                is_master: 0,
            },
            Some(Ok(settled)) => OutcomeNumbers {
                kind: SETTLED,
                ability: settled.ability,
                is_master: u8::from(settled.master),
            },
        }
    }
}

impl From<PlainRecord> for Lasting {
    fn from(plain: PlainRecord) -> Lasting
        ensures { result ≡ lasting_of plain }
    {
        Lasting {
            advertised: plain.advertised,
            flags: Flags {
                received: is_set(plain.is_received),
                fault: is_set(plain.is_fault),
            },
        }
    }
}

impl From<PlainRecord> for Talk {
    fn from(plain: PlainRecord) -> Talk
        ensures { result ≡ talk_of plain }
    {
        Talk {
            own: plain.own_base,
            held: plain.held_base,
            mark: plain.mark,
            timer: plain.timer,
            count: plain.count,
            out: is_set(plain.is_out),
            heard: is_set(plain.is_heard),
            latch: is_set(plain.is_latched),
        }
    }
}

impl From<PlainRecord> for NextPages {
    fn from(plain: PlainRecord) -> NextPages
        ensures { result ≡ next_pages_of plain }
    {
        NextPages {
            good: plain.good,
            loaded: is_set(plain.is_loaded),
            round: Round::from(plain.round),
            own: plain.own_next,
            held: plain.held_next,
            transmit: plain.transmit,
            heard: plain.heard,
        }
    }
}

impl From<PlainRecord> for Link {
    fn from(plain: PlainRecord) -> Link
        ensures { result ≡ link_of plain }
    {
        Link {
            partner: plain.partner,
            next: NextPages::from(plain),
            talk: Talk::from(plain),
            outcome: Outcome::from(plain),
            reader: Reader::from(plain),
        }
    }
}

impl From<PlainRecord> for Device {
    // The device that a record means, whatever it holds.
    #[tactic(auto, unfolding(crate::specs::PlainRecords::device_of))]
    fn from(plain: PlainRecord) -> Device
        ensures { result ≡ device_of plain }
    {
        Device {
            link: Link::from(plain),
            lasting: Lasting::from(plain),
            state: State::from(plain.state),
        }
    }
}

impl From<Device> for PlainRecord {
    #[tactic(auto, using(crate::proofs::YesOrNo::from_bool_one_if), unfolding(crate::specs::PlainRecords::record_of))]
    fn from(device: Device) -> PlainRecord
        ensures { result ≡ record_of device }
    {
        let outcome = OutcomeNumbers::from(device.link.outcome);
        let reader = ReaderNumbers::from(device.link.reader);
        PlainRecord {
            advertised: device.lasting.advertised,
            partner: device.link.partner,
            transmit: device.link.next.transmit,
            heard: device.link.next.heard,
            own_base: device.link.talk.own,
            held_base: device.link.talk.held,
            own_next: device.link.next.own,
            held_next: device.link.next.held,
            bits: reader.bits,
            last: reader.last,
            position: reader.position,
            mark: device.link.talk.mark,
            timer: device.link.talk.timer,
            good: device.link.next.good,
            count: device.link.talk.count,
            reader: reader.kind,
            state: u8::from(device.state),
            is_out: u8::from(device.link.talk.out),
            is_heard: u8::from(device.link.talk.heard),
            round: u8::from(device.link.next.round),
            is_loaded: u8::from(device.link.next.loaded),
            is_latched: u8::from(device.link.talk.latch),
            is_received: u8::from(device.lasting.flags.received),
            is_fault: u8::from(device.lasting.flags.fault),
            outcome: outcome.kind,
            ability: outcome.ability,
            is_master: outcome.is_master,
        }
    }
}
