// An event as numbers.
ghost use Rattle.std.specs.Prelude.{◌≡◌};
ghost use Rattle.port_step.specs.Runs.{event_of};

use crate::events::Event;

// An event as three numbers, which are what the C call takes, told apart here.
#[tactic(auto, unfolding(crate::specs::Runs::event_of))]
pub fn event_of(kind: u64, clock: u64, argument: u64) -> Event
    ensures { result ≡ event_of kind clock argument }
{
    let reading = (clock % 4294967296) as u32;
    match kind {
        0 => Event::Edge { reading },
        1 => Event::Tick {
            reading,
            draw: argument,
        },
        2 => Event::Sent { reading },
        3 => Event::Report {
            reading,
            up: argument != 0,
        },
        4 => Event::Read {
            reading,
            register: argument,
        },
        5 => Event::Write {
            reading,
            register: argument / 65536,
            value: (argument % 65536) as u16,
        },
        _ => Event::Unnamed,
    }
}
