// Records that no call has made, each given an event: a line tells the record, the event, what is answered and what is left. What each must
// bring is proved of the definitions in NotMade, among the promises; here the compiled step takes the same records, and rt holds the lines to
// the file stdout.
#![tactic(auto)]

mod lines;

use line_reader::Reader;
use lines::tell;
use page_resolve::Settled;
use page_word::WIDE;
use port_state::{Device, Round, State};
use port_step::Event;
use std::io;

// A device in Complete with a page out, these two pages and this count.
fn complete(own: u64, held: u64, count: u32) -> Device {
    Device::fresh()
        .with_own(own)
        .with_held(held)
        .with_count(count)
        .with_out(true)
        .with_state(State::Complete)
}

// The same at round first, where no device is in Complete.
fn complete_at_round_first() -> Device {
    let device = complete(0x850001, 0x898001, 2);
    device.with_own_next(0x2801).with_round(Round::First)
}

// A device in Up, settled on 1000BASE-T1 as slave, with a page out.
fn up() -> Device {
    let settled = Settled {
        ability: 2,
        master: false,
    };
    Device::fresh()
        .with_outcome(Some(Ok(settled)))
        .with_out(true)
        .with_state(State::Up)
}

// A device in Ability whose reader stands at position 156, where no page has a transition.
fn open_at_156() -> Device {
    let reader = Reader::Open {
        at: 156,
        last: 0,
        bits: 0,
    };
    Device::fresh()
        .with_own(0x850001)
        .with_reader(reader)
        .with_state(State::Ability)
}

// A page is sent.
fn tell_sent(rt: &impl Print, record: &str, device: Device) -> io::Result<()> {
    let words = format_args!("{record}; sent at 1000");
    tell(rt, words, device, Event::Sent { reading: 1000 })
}

// Pages that no device holds in Complete: wider than 48 bits, with selector 0, with equal nonces. Then a count and a round that none has there.
fn tell_complete(rt: &impl Print) -> io::Result<()> {
    let wide = complete(WIDE, 0xA90001, 2);
    tell_sent(rt, "complete, own page 2^48, count 2", wide)?;
    let no_selector = complete(0x850000, 0xA90001, 2);
    tell_sent(rt, "complete, own selector 0, count 2", no_selector)?;
    let equal_nonces = complete(0x850001, 0xA50001, 2);
    tell_sent(rt, "complete, equal nonces, count 2", equal_nonces)?;
    let counted_to_4 = complete(0x850001, 0xA90001, 4);
    tell_sent(rt, "complete, count 4", counted_to_4)?;
    let round_first = complete_at_round_first();
    tell_sent(rt, "complete, round first, count 2", round_first)
}

fn tell_up(rt: &impl Print) -> io::Result<()> {
    tell_sent(rt, "up, page out", up())?;
    let edge = Event::Edge { reading: 1000 };
    tell(rt, "up, page out; edge at 1000", up(), edge)?;
    let tick = Event::Tick {
        reading: 1000,
        draw: 5,
    };
    tell(rt, "up, page out; tick at 1000", up(), tick)
}

// An edge one position of the low-speed mode later, two positions later, and after quiet. Two would end a page at 155, and so tell 156 from it.
fn tell_reader(rt: &impl Print) -> io::Result<()> {
    for reading in [800, 1600, 3441] {
        let words = format_args!("ability, reader open at 156 since 0; edge at {reading}");
        tell(rt, words, open_at_156(), Event::Edge { reading })?;
    }
    Ok(())
}

fn main(rt: HostRuntime) -> io::Result<()> {
    tell_complete(&rt)?;
    tell_up(&rt)?;
    tell_reader(&rt)
}
