// An edge: the reader takes it, and a good page does what state and round say.
ghost use Rattle.std.specs.Prelude.{◌≡◌, not, ◌&&◌};
ghost use Rattle.line_mode.specs.Modes.{lsm_mode};
ghost use Rattle.line_reader.specs.Reading.{edge_of};
ghost use Rattle.port_state.specs.Memory.{is_talking, Meets};
ghost use Rattle.port_hearing.specs.Edges.{page_in_ability, page_in_ack, page_in, hears, listened, edge_due};

use crate::base_pages::{base_page_in_ability, base_page_in_ack};
use crate::heard_pages::take;
use crate::next_pages::{next_page_in_ability, next_page_in_ack};
use answers::{Answer, Refusal};
use line_mode::LineMode;
use line_reader::Heard;
use port_state::{Device, Reply, State, answered, is_base};

// A device, a page and the reading of its last edge go together through these functions: a struct of the three would only be taken apart again in each.
// A good page in Ability, by round. (As in Ack: what is done is another function at each of the four places, which specs/Edges has one by one.)
#[tactic(auto, unfolding(crate::specs::Edges::page_in_ability))]
fn page_in_ability(device: Device, word: u64, reading: u32) -> Reply
    ensures { Meets result (page_in_ability word reading device) }
{
    if is_base(device.link.next.round) {
        return base_page_in_ability(device, word, reading);
    }
    next_page_in_ability(device, word, reading)
}

// A good page in Ack, by round.
#[tactic(auto, unfolding(crate::specs::Edges::page_in_ack))]
fn page_in_ack(device: Device, word: u64, reading: u32) -> Reply
    ensures { Meets result (page_in_ack word reading device) }
{
    if is_base(device.link.next.round) {
        return base_page_in_ack(device, word, reading);
    }
    next_page_in_ack(device, word, reading)
}

// A good page, by state.
#[tactic(auto, unfolding(crate::specs::Edges::page_in))]
fn page_in(device: Device, word: u64, reading: u32) -> Reply
    ensures { Meets result (page_in device.state word reading device) }
{
    match device.state {
        State::Ability => page_in_ability(device, word, reading),
        State::Ack => page_in_ack(device, word, reading),
        State::Complete => take(device.with_mark(true, reading), word, reading),
        State::Off | State::Break | State::CheckLink | State::Up => {
            answered(Answer::Nothing, device)
        }
    }
}

// What was heard, once the reader has moved.
#[tactic(auto, unfolding(crate::specs::Edges::hears))]
fn hear(device: Device, heard: Heard, reading: u32) -> Reply
    ensures { Meets result (hears heard reading device) }
{
    match heard {
        None => answered(Answer::Nothing, device),
        Some(Ok(word)) => page_in(device, word, reading),
        Some(Err(broken)) => answered(Answer::Refused(Refusal::from(broken)), device),
    }
}

// The reader takes the edge.
fn listen(mode: LineMode, device: Device, reading: u32) -> Reply
    ensures { Meets result (listened (edge_of mode device.link.reader reading) reading device) }
{
    let step = device.link.reader.edge(mode, reading);
    hear(device.with_reader(step.reader), step.heard, reading)
}

// The states in which pages are heard.
fn is_talking(state: State) -> bool
    ensures { result ≡ is_talking state }
{
    matches!(state, State::Ability | State::Ack | State::Complete)
}

// Whether an edge is taken, and not ignored.
pub fn takes_edges(state: State, out: bool) -> bool
    ensures { result ≡ (is_talking state && not out) }
{
    !out && is_talking(state)
}

// An edge, over any mode's numbers.
#[tactic(auto, unfolding(crate::specs::Edges::edge_due))]
fn edge_by(mode: LineMode, device: Device, reading: u32) -> Reply
    ensures { Meets result (edge_due mode reading device) }
{
    if takes_edges(device.state, device.link.talk.out) {
        return listen(mode, device, reading);
    }
    answered(Answer::Nothing, device)
}

// The event "edge".
pub fn edge(device: Device, reading: u32) -> Reply
    ensures { Meets result (edge_due lsm_mode reading device) }
{
    edge_by(LineMode::lsm(), device, reading)
}
