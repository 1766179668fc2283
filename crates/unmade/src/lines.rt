// A line: the words for a record and an event, then the answer, as kind and value, and what is left of the record.
use answers::KIND;
use line_reader::Reader;
use port_state::{Device, State};
use port_step::{Event, step};
use std::fmt::{Display, Formatter};
use std::{fmt, io};

// A part of a record, to be told in words. (The types are other crates', whose core prints nothing, so that only a type of one's own can be Display.)
#[derive(Drop)]
struct Told<T>(T);

impl Display for Told<State> {
    fn fmt<W: fmt::Write>(&self, f: &mut Formatter<W>) -> fmt::Result {
        f.write_str(match self.0 {
            State::Off => "off",
            State::Break => "break",
            State::Ability => "ability",
            State::Ack => "ack",
            State::Complete => "complete",
            State::CheckLink => "check-link",
            State::Up => "up",
        })
    }
}

impl Display for Told<Reader> {
    fn fmt<W: fmt::Write>(&self, f: &mut Formatter<W>) -> fmt::Result {
        match self.0 {
            Reader::Fresh => write!(f, "fresh"),
            Reader::Open { at, last, bits: _ } => write!(f, "open at {at} since {last}"),
            Reader::Dropping { last } => write!(f, "dropping since {last}"),
        }
    }
}

// The state, the own base page, the held one and the own Next Page in hex, whether a page is out, the count and the reader.
impl Display for Told<Device> {
    fn fmt<W: fmt::Write>(&self, f: &mut Formatter<W>) -> fmt::Result {
        let link = self.0.link;
        let state = Told(self.0.state);
        let (own, held, count) = (link.talk.own, link.talk.held, link.talk.count);
        let next = link.next.own;
        let out = if link.talk.out {
            "page out"
        } else {
            "no page out"
        };
        let reader = Told(link.reader);
        write!(
            f,
            "{state}, own {own:012x}, held {held:012x}, own next {next:012x}, {out}, count {count}, reader {reader}"
        )
    }
}

// Gives the record the event, and tells what comes of it behind the words for both.
pub(crate) fn tell(
    rt: &impl Print,
    words: impl Display + Drop,
    device: Device,
    event: Event,
) -> io::Result<()> {
    let reply = step(device, event);
    let after = Told(reply.device);
    let number = reply.answer.packed();
    let (kind, value) = (number / KIND, number % KIND);
    println!(rt; "{words}: answers kind {kind} value {value}; then {after}")
}
