// A tick: timers are looked at, and pages ordered, on ticks only. The profile goes beside device and reading, since promises speak of a tick over any profile.
ghost use Rattle.std.specs.Prelude.{◌≡◌};
ghost use Rattle.port_state.specs.declared.State.TheVariants.{Break, CheckLink};
ghost use Rattle.port_state.specs.Memory.{Meets};
ghost use Rattle.port_timing.specs.Ticks.{low_speed, leaves_break, holds_back, may_order, orders, is_lost, talks, tick_in, tick_due};

use crate::own_pages::{acknowledging, own_page};
use crate::profile::{Profile, inhibit_of, low_speed, run_out};
use answers::Answer;
use line_mode::time_between;
use line_reader::Reader;
use port_state::{Device, Reply, State, answered, enter_break, is_base, own_in_round};

// The break is over: the own page is made, and the device goes to Ability.
fn leave_break(device: Device, reading: u32, draw: u64) -> Device
    ensures { result ≡ leaves_break reading draw device }
{
    let own = own_page(device.lasting.advertised, draw, device.link.next.loaded);
    device
        .with_own(own)
        .with_mark(false, reading)
        .with_reader(Reader::Fresh)
        .with_state(State::Ability)
}

// Whether an attempt is open whose last edge is too young for an order.
pub(crate) fn holds_back(quiet: u32, reader: Reader, reading: u32) -> bool
    ensures { result ≡ holds_back quiet reader reading }
{
    match reader {
        Reader::Open { last, .. } => time_between(reading, last) < quiet,
        Reader::Fresh | Reader::Dropping { .. } => false,
    }
}

// Whether a page may be ordered.
#[tactic(auto, unfolding(crate::specs::Ticks::may_order))]
fn may_order(profile: Profile, device: Device, reading: u32) -> bool
    ensures { result ≡ may_order profile reading device.link }
{
    let pause = if device.link.talk.heard {
        profile.silent
    } else {
        profile.wait
    };
    !device.link.talk.out
        && !holds_back(profile.mode.quiet, device.link.reader, reading)
        && run_out(pause, device.link.talk.mark, reading)
}

// Orders a page, if one may be.
#[tactic(auto, unfolding(crate::specs::Ticks::orders))]
fn order(profile: Profile, device: Device, word: u64, reading: u32) -> Reply
    ensures { Meets result (orders profile reading word device) }
{
    if may_order(profile, device, reading) {
        return answered(Answer::Order(word), device.with_out(true));
    }
    answered(Answer::Nothing, device)
}

// Whether the partner has fallen silent while Next Pages are exchanged.
#[tactic(auto, unfolding(crate::specs::Ticks::is_lost))]
fn is_lost(profile: Profile, device: Device, reading: u32) -> bool
    ensures { result ≡ is_lost profile reading device.link }
{
    !is_base(device.link.next.round)
        && !device.link.talk.out
        && run_out(profile.lost, device.link.next.good, reading)
}

// A tick in Ability, Ack or Complete: the link is given up, or the page ordered if it may be.
#[tactic(auto, unfolding(crate::specs::Ticks::talks))]
fn talk(profile: Profile, device: Device, word: u64, reading: u32) -> Reply
    ensures { Meets result (talks profile reading word device) }
{
    if is_lost(profile, device, reading) {
        return answered(Answer::Nothing, enter_break(device, reading));
    }
    order(profile, device, word, reading)
}

// A tick in Break.
fn tick_in_break(profile: Profile, device: Device, reading: u32, draw: u64) -> Reply
    ensures { Meets result (tick_in Break profile reading draw device) }
{
    if run_out(profile.breaking, device.link.talk.timer, reading) {
        return answered(Answer::Nothing, leave_break(device, reading, draw));
    }
    answered(Answer::Nothing, device)
}

// A tick in Check-link. Profile and draw are here for the contract alone: one for all of them was tried, and `tick_by` didn't close.
fn tick_in_check_link(profile: Profile, device: Device, reading: u32, draw: u64) -> Reply
    ensures { Meets result (tick_in CheckLink profile reading draw device) }
{
    if run_out(
        inhibit_of(device.link.outcome),
        device.link.talk.timer,
        reading,
    ) {
        return answered(Answer::Nothing, enter_break(device, reading));
    }
    answered(Answer::Nothing, device)
}

// A tick, over any profile.
#[tactic(auto, unfolding(crate::specs::Ticks::tick_due))]
fn tick_by(profile: Profile, device: Device, reading: u32, draw: u64) -> Reply
    ensures { Meets result (tick_due profile reading draw device) }
{
    match device.state {
        State::Off | State::Up => answered(Answer::Nothing, device),
        State::Break => tick_in_break(profile, device, reading, draw),
        State::Ability => talk(profile, device, own_in_round(device.link), reading),
        State::Ack | State::Complete => talk(profile, device, acknowledging(device.link), reading),
        State::CheckLink => tick_in_check_link(profile, device, reading, draw),
    }
}

// The event "tick", with a draw.
pub fn tick(device: Device, reading: u32, draw: u64) -> Reply
    ensures { Meets result (tick_due low_speed reading draw device) }
{
    tick_by(low_speed(), device, reading, draw)
}
