// A good page at round first or later: the partner's Next Page, or once more the page that is held.
ghost use Rattle.std.specs.Prelude.{◌≡◌};
ghost use Rattle.port_state.specs.Memory.{Meets};
ghost use Rattle.port_hearing.specs.NextPages.{holds_next, next_page_in_ability, into_complete_again, next_page_in_ack};

use crate::heard_pages::{is_changed_next, repeats_held, take};
use answers::{Answer, Refusal};
use page_word::{Field, get, same_toggle};
use port_state::{Device, Reply, Round, State, answered, enter_break, held_in_round};

// The Next Page is held, and the device goes to Ack. 7.523-7.525 are loaded only when the partner has acknowledged.
fn hold_next(device: Device, word: u64, reading: u32) -> Device
    ensures { result ≡ holds_next word reading device }
{
    device
        .with_held_next(word)
        .with_round(Round::Later)
        .with_mark(true, reading)
        .with_state(State::Ack)
}

// In Ability. Two ends never finish their third sending at one moment, so the one that goes on first still hears the other's old page.
#[tactic(auto, unfolding(crate::specs::NextPages::next_page_in_ability))]
pub(crate) fn next_page_in_ability(device: Device, word: u64, reading: u32) -> Reply
    ensures { Meets result (next_page_in_ability word reading device) }
{
    if repeats_held(device.link, word) {
        return take(device.with_mark(true, reading), word, reading);
    }
    if same_toggle(word, held_in_round(device.link)) {
        return answered(
            Answer::Refused(Refusal::Toggle),
            enter_break(device, reading),
        );
    }
    take(hold_next(device, word, reading), word, reading)
}

// The partner has acknowledged: its Next Page goes into the registers, and the device to Complete.
fn complete_again(device: Device, word: u64, reading: u32) -> Device
    ensures { result ≡ into_complete_again word reading device }
{
    let fault = device.lasting.flags.fault;
    device
        .with_mark(true, reading)
        .with_heard_next(word)
        .with_flags(true, fault)
        .with_count(0)
        .with_state(State::Complete)
}

// In Ack. A Next Page carries no nonces, so no echo is asked for.
#[tactic(auto, unfolding(crate::specs::NextPages::next_page_in_ack))]
pub(crate) fn next_page_in_ack(device: Device, word: u64, reading: u32) -> Reply
    ensures { Meets result (next_page_in_ack word reading device) }
{
    if is_changed_next(word, held_in_round(device.link)) {
        return answered(
            Answer::Refused(Refusal::Changed),
            enter_break(device, reading),
        );
    }
    if get(word, Field::Ack) == 0 {
        return take(device.with_mark(true, reading), word, reading);
    }
    take(complete_again(device, word, reading), word, reading)
}
