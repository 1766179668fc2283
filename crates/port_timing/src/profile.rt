// The numbers of the timers, and when one has run out.
ghost use Rattle.std.specs.Prelude.{◌≡◌};
ghost use Rattle.port_timing.specs.Ticks.{run_out, low_speed, inhibit_for, inhibit_at, inhibit_of};

use line_mode::{LineMode, time_between};
use port_state::Outcome;

// The line mode's numbers, and those of the break timer, silent, wait and lost, in ns.
#[derive(Clone, Copy)]
pub struct Profile {
    pub mode: LineMode,
    pub breaking: u32,
    pub silent: u32,
    pub wait: u32,
    pub lost: u32,
}

// Low speed, the only one so far.
pub(crate) fn low_speed() -> Profile
    ensures { result ≡ low_speed }
{
    Profile {
        mode: LineMode::lsm(),
        breaking: 8000000,
        silent: 33000,
        wait: 350000,
        lost: 4000000,
    }
}

// Whether a timer of a number that was started at one reading has run out at another.
pub(crate) fn run_out(number: u32, start: u32, reading: u32) -> bool
    ensures { result ≡ run_out number start reading }
{
    number <= time_between(reading, start)
}

// The inhibit timer's number for most rates, and without one.
const INHIBIT: u32 = 97500000;

// The inhibit timer's number for a rate.
fn inhibit_for(ability: u8) -> u32
    ensures { result ≡ inhibit_for ability }
{
    match ability {
        1 | 22 => 402000000,
        9 => 3060000000,
        _ => INHIBIT,
    }
}

// The inhibit timer's number with a rate or without one.
pub(crate) fn inhibit_at(rate: Option<u8>) -> u32
    ensures { result ≡ inhibit_at rate }
{
    match rate {
        Some(ability) => inhibit_for(ability),
        None => INHIBIT,
    }
}

// The inhibit timer's number for an outcome.
pub(crate) fn inhibit_of(outcome: Outcome) -> u32
    ensures { result ≡ inhibit_of outcome }
{
    inhibit_at(match outcome {
        Some(Ok(settled)) => Some(settled.ability),
        Some(Err(_)) | None => None,
    })
}
