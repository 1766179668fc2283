// What a device remembers, and what is left of it where it goes into Break or Off.
#![tactic(auto)]

ghost use Rattle.std.specs.Prelude.{◌≡◌};
ghost use Rattle.answers.specs.Answers.{said};
ghost use Rattle.port_state.specs.Memory.{Meets, due, no_talk, no_next_pages, no_link, without_link, fresh_device, into_break, into_off};

mod changes;
mod plain_record;
mod rounds;

use answers::Answer;
use line_reader::Reader;
use page_resolve::Resolution;
pub use plain_record::{OutcomeNumbers, PlainRecord, ReaderNumbers, SETTLED, is_set};
pub use rounds::{Round, held_in_round, is_base, is_first, own_in_round};

// The states of the negotiation, in the order of their numbers in a plain record.
#[derive(Clone, Copy, PartialEq, Eq)]
pub enum State {
    Off,
    Break,
    Ability,
    Ack,
    Complete,
    CheckLink,
    Up,
}

// The two bits of 7.513 that outlive a link: Page received and Remote fault.
#[derive(Clone, Copy)]
pub struct Flags {
    pub received: bool,
    pub fault: bool,
}

// What outlives a link: 7.514-516, and these two bits.
#[derive(Clone, Copy)]
pub struct Lasting {
    pub advertised: u64,
    pub flags: Flags,
}

// What is said and heard on one link: the own base page, the held base page, whether a page is out, how many were sent in Complete; the mark, whether
// it is "heard" or "waiting", and its reading; the reading at which the state's timer started; the link latch of 7.513. (A mark always has its
// reading, so it is no Option: with_mark and mark_has_run take the two apart, and docs/PROMISES.md names them. The order of the fields is for speed.)
#[derive(Clone, Copy)]
pub struct Talk {
    pub own: u64,
    pub held: u64,
    pub mark: u32,
    pub timer: u32,
    pub count: u32,
    pub out: bool,
    pub heard: bool,
    pub latch: bool,
}

// What resolving came to, if it was asked.
pub type Outcome = Option<Resolution>;

// What Next Pages add to a link: 7.520-522, the own Next Page as the host writes it, and whether one is loaded; 7.523-525, the heard one; the own and
// the held Next Page, the round, and the reading of the last good page.
#[derive(Clone, Copy)]
pub struct NextPages {
    pub good: u32,
    pub loaded: bool,
    pub round: Round,
    pub own: u64,
    pub held: u64,
    pub transmit: u64,
    pub heard: u64,
}

// What belongs to one link: 7.517-519, Next Pages, what is said and heard, the outcome, the reader.
#[derive(Clone, Copy)]
pub struct Link {
    pub partner: u64,
    pub next: NextPages,
    pub talk: Talk,
    pub outcome: Outcome,
    pub reader: Reader,
}

// A device: what outlives a link, the state, and what belongs to the link. The order of fields, here, in Talk and in NextPages, is the one of those tried with which
// events cost least (bench/README.md).
#[derive(Clone, Copy)]
pub struct Device {
    pub link: Link,
    pub lasting: Lasting,
    pub state: State,
}

// What an event brings.
#[derive(Drop)]
pub struct Reply {
    pub answer: Answer,
    pub device: Device,
}

// An answer with the device afterwards.
pub fn answered(answer: Answer, device: Device) -> Reply
    ensures { Meets result (due (said answer) device) }
{
    Reply { answer, device }
}

// Nothing said and nothing heard, every time at one reading.
fn no_talk(reading: u32) -> Talk
    ensures { result ≡ no_talk reading }
{
    Talk {
        own: 0,
        held: 0,
        count: 0,
        mark: reading,
        timer: reading,
        out: false,
        heard: false,
        latch: false,
    }
}

// No Next Page loaded, said or heard, the last good page's reading at one reading.
fn no_next_pages(reading: u32) -> NextPages
    ensures { result ≡ no_next_pages reading }
{
    NextPages {
        own: 0,
        held: 0,
        transmit: 0,
        heard: 0,
        good: reading,
        loaded: false,
        round: Round::Base,
    }
}

// Nothing of any link. All that a device forgets is forgotten by putting this in its place, so nothing can be left over.
fn no_link(reading: u32) -> Link
    ensures { result ≡ no_link reading }
{
    Link {
        partner: 0,
        next: no_next_pages(reading),
        talk: no_talk(reading),
        outcome: None,
        reader: Reader::Fresh,
    }
}

// A device that knows no link, in a state and with what outlives links.
fn without_link(lasting: Lasting, state: State, reading: u32) -> Device
    ensures { result ≡ without_link lasting state reading }
{
    Device {
        lasting,
        state,
        link: no_link(reading),
    }
}

impl Device {
    // A device that no event has reached.
    pub fn fresh() -> Self
        ensures { result ≡ fresh_device }
    {
        let unwritten = Lasting {
            advertised: 0,
            flags: Flags {
                received: false,
                fault: false,
            },
        };
        without_link(unwritten, State::Off, 0)
    }
}

// The device in Break: the link is forgotten, and the break timer starts. (`enter_off` differs in state and reading: both are names that docs/PROMISES.md has.)
pub fn enter_break(device: Device, reading: u32) -> Device
    ensures { result ≡ into_break reading device }
{
    without_link(device.lasting, State::Break, reading)
}

// The device in Off: the link is forgotten, and no timer starts.
pub fn enter_off(device: Device) -> Device
    ensures { result ≡ into_off device }
{
    without_link(device.lasting, State::Off, 0)
}
