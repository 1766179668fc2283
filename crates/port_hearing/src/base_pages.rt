// A good page at round base: a base page of the partner's.
ghost use Rattle.std.specs.Prelude.{◌≡◌};
ghost use Rattle.port_state.specs.Memory.{Meets};
ghost use Rattle.port_hearing.specs.BasePages.{holds, base_page_in_ability, fault_after, into_complete, base_page_in_ack};

use crate::heard_pages::{echoes_other, is_changed, take};
use answers::{Answer, Refusal};
use page_word::{Field, get, has_other_selector, is_tie};
use port_state::{Device, Reply, State, answered, enter_break};

// The page is held, and the device goes to Ack. 7.517-7.519 are loaded only when the partner has echoed.
fn hold(device: Device, word: u64, reading: u32) -> Device
    ensures { result ≡ holds word reading device }
{
    device
        .with_held(word)
        .with_mark(true, reading)
        .with_state(State::Ack)
}

// A good page in Ability.
#[tactic(auto, unfolding(crate::specs::BasePages::base_page_in_ability))]
pub(crate) fn base_page_in_ability(device: Device, word: u64, reading: u32) -> Reply
    ensures { Meets result (base_page_in_ability word reading device) }
{
    if has_other_selector(word) {
        return answered(Answer::Refused(Refusal::Selector), device);
    }
    if is_tie(device.link.talk.own, word) {
        return answered(Answer::Refused(Refusal::Tie), enter_break(device, reading));
    }
    take(hold(device, word, reading), word, reading)
}

// Remote fault, if the page has it; a page without it leaves the bit as it was.
fn fault_after(word: u64, fault: bool) -> bool
    ensures { result ≡ fault_after word fault }
{
    get(word, Field::RemoteFault) == 1 || fault
}

// The partner has answered: its page goes into the registers, and the device to Complete.
fn complete(device: Device, word: u64, reading: u32) -> Device
    ensures { result ≡ into_complete word reading device }
{
    let fault = fault_after(word, device.lasting.flags.fault);
    device
        .with_mark(true, reading)
        .with_partner(word)
        .with_flags(true, fault)
        .with_count(0)
        .with_state(State::Complete)
}

// A good page in Ack.
#[tactic(auto, unfolding(crate::specs::BasePages::base_page_in_ack))]
pub(crate) fn base_page_in_ack(device: Device, word: u64, reading: u32) -> Reply
    ensures { Meets result (base_page_in_ack word reading device) }
{
    if is_changed(word, device.link.talk.held) {
        return answered(
            Answer::Refused(Refusal::Changed),
            enter_break(device, reading),
        );
    }
    if get(word, Field::Ack) == 0 {
        return take(device.with_mark(true, reading), word, reading);
    }
    if echoes_other(device.link.talk.own, word) {
        return answered(Answer::Refused(Refusal::Echo), enter_break(device, reading));
    }
    take(complete(device, word, reading), word, reading)
}
