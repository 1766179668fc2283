// What a tick looks at, by itself: whether a wait is over at low speed. A tick that finds none over does nothing.
ghost use Rattle.std.specs.Prelude.{◌≡◌, if◌then◌else◌};
ghost use Rattle.port_timing.specs.Ticks.{run_out, low_speed, inhibit_at, holds_back};

use crate::profile::{inhibit_at, low_speed, run_out};
use crate::ticks::holds_back;
use line_reader::Reader;

// Break. (Its twin is `partner_is_lost`: each names a wait of the profile, and no parameter can name a field.)
pub fn break_is_over(timer: u32, reading: u32) -> bool
    ensures { result ≡ run_out low_speed.breaking timer reading }
{
    run_out(low_speed().breaking, timer, reading)
}

// The wait for a partner of whom Next Pages are awaited.
pub fn partner_is_lost(good: u32, reading: u32) -> bool
    ensures { result ≡ run_out low_speed.lost good reading }
{
    run_out(low_speed().lost, good, reading)
}

// Silent since a mark "heard", or wait since a mark "waiting".
pub fn mark_has_run(heard: bool, mark: u32, reading: u32) -> bool
    ensures { result ≡ run_out (if heard then low_speed.silent else low_speed.wait) mark reading }
{
    let pause = if heard {
        low_speed().silent
    } else {
        low_speed().wait
    };
    run_out(pause, mark, reading)
}

// The wait for the end of an attempt that holds an order back.
pub fn is_held_back(reader: Reader, reading: u32) -> bool
    ensures { result ≡ holds_back low_speed.mode.quiet reader reading }
{
    holds_back(low_speed().mode.quiet, reader, reading)
}

// The inhibit time, with a rate or without one.
pub fn inhibit_is_over(rate: Option<u8>, timer: u32, reading: u32) -> bool
    ensures { result ≡ run_out (inhibit_at rate) timer reading }
{
    run_out(inhibit_at(rate), timer, reading)
}
