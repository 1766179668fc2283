// A page has been sent.
ghost use Rattle.std.specs.Prelude.{◌≡◌};
ghost use Rattle.page_resolve.specs.Rates.{rate_order};
ghost use Rattle.port_state.specs.Memory.{Meets};
ghost use Rattle.port_timing.specs.Sending.{ended, resolved, round_after, goes_on, next_or_null, decided, counted, sent_due};

use answers::{Answer, Refusal};
use page_resolve::{answer_to, resolve};
use page_word::{NULL_MESSAGE, next_after, sets_next_page};
use port_state::{Device, Reply, Round, State, answered, held_in_round, own_in_round};

// The page is no longer out, and the mark is "waiting", now.
fn end(device: Device, reading: u32) -> Device
    ensures { result ≡ ended reading device }
{
    device.with_out(false).with_mark(false, reading)
}

// Neither end has more to send: rate and role are resolved from the base pages, or refused, and the device goes to Check-link.
fn settle(device: Device, reading: u32) -> Reply
    ensures { Meets result (resolved rate_order reading device) }
{
    let resolution = resolve(device.link.talk.own, device.link.talk.held);
    let settled = device
        .with_timer(reading)
        .with_outcome(Some(resolution))
        .with_state(State::CheckLink);
    answered(answer_to(resolution), settled)
}

// The round in which the next own page is sent.
fn round_after(round: Round) -> Round
    ensures { result ≡ round_after round }
{
    match round {
        Round::Base | Round::First => Round::First,
        Round::Later => Round::Later,
    }
}

// A word becomes the own Next Page, and the device goes back to Ability with it.
fn go_on(device: Device, word: u64) -> Device
    ensures { result ≡ goes_on word device }
{
    device
        .with_own_next(next_after(own_in_round(device.link), word))
        .with_round(round_after(device.link.next.round))
        .with_state(State::Ability)
}

// One end has more to send. The loaded page is next; an end that has said all sends the Null message; one that has announced a page and has none
// loaded waits for it.
#[tactic(auto, unfolding(crate::specs::Sending::next_or_null))]
fn next_or_null(device: Device) -> Device
    ensures { result ≡ next_or_null device }
{
    if device.link.next.loaded {
        return go_on(device.with_loaded(false), device.link.next.transmit);
    }
    if sets_next_page(own_in_round(device.link)) {
        return device;
    }
    go_on(device, NULL_MESSAGE)
}

// Three pages were sent: the end of the pages, or one more of them.
#[tactic(auto, unfolding(crate::specs::Sending::decided))]
fn decide(device: Device, reading: u32) -> Reply
    ensures { Meets result (decided rate_order reading device) }
{
    if sets_next_page(own_in_round(device.link)) || sets_next_page(held_in_round(device.link)) {
        return answered(Answer::Nothing, next_or_null(device));
    }
    settle(device, reading)
}

// One more page was sent in Complete.
#[tactic(auto, unfolding(crate::specs::Sending::counted))]
fn count(device: Device, reading: u32) -> Reply
    ensures { Meets result (counted rate_order reading device) }
{
    if 2 <= device.link.talk.count {
        return decide(device.with_count(3), reading);
    }
    answered(
        Answer::Nothing,
        device.with_count(device.link.talk.count + 1),
    )
}

// The event "page sent".
#[tactic(auto, unfolding(crate::specs::Sending::sent_due))]
pub fn sent(device: Device, reading: u32) -> Reply
    ensures { Meets result (sent_due rate_order reading device) }
{
    if !device.link.talk.out {
        return answered(Answer::Refused(Refusal::Turn), device);
    }
    match device.state {
        State::Off | State::Break => answered(Answer::Refused(Refusal::Turn), device),
        State::Complete => count(end(device, reading), reading),
        State::Ability | State::Ack | State::CheckLink | State::Up => {
            answered(Answer::Nothing, end(device, reading))
        }
    }
}
