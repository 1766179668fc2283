// A link report.
ghost use Rattle.std.specs.Prelude.{◌≡◌};
ghost use Rattle.port_state.specs.declared.State.TheVariants.{Up, CheckLink};
ghost use Rattle.port_state.specs.Memory.{Meets};
ghost use Rattle.port_timing.specs.Sending.{has_rate, report_in, report_due};

use answers::Answer;
use port_state::{Device, Outcome, Reply, State, answered, enter_break};

// Whether an outcome has a rate. (One `matches!`, as `is_good` of port_lent, of another type.)
fn has_rate(outcome: Outcome) -> bool
    ensures { result ≡ has_rate outcome }
{
    matches!(outcome, Some(Ok(_)))
}

// A report in Check-link. The latch of 7.513 stays as it was: only a read sets it. The reading is here for the contract alone: one for all readings was tried, and `report` didn't close.
fn report_in_check_link(device: Device, up: bool, reading: u32) -> Device
    ensures { result ≡ report_in CheckLink up reading device }
{
    if up && has_rate(device.link.outcome) {
        return device.with_state(State::Up);
    }
    device
}

// A report in Up.
fn report_in_up(device: Device, up: bool, reading: u32) -> Device
    ensures { result ≡ report_in Up up reading device }
{
    if up {
        return device;
    }
    enter_break(device, reading)
}

// The event "link report".
#[tactic(auto, unfolding(crate::specs::Sending::report_due))]
pub fn report(device: Device, reading: u32, up: bool) -> Reply
    ensures { Meets result (report_due up reading device) }
{
    let after = match device.state {
        State::Off | State::Break | State::Ability | State::Ack | State::Complete => device,
        State::CheckLink => report_in_check_link(device, up, reading),
        State::Up => report_in_up(device, up, reading),
    };
    answered(Answer::Nothing, after)
}
