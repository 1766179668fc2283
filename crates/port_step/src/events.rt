// The events, and the one step that takes any of them.
ghost use Rattle.port_state.specs.Memory.{Meets};
ghost use Rattle.port_step.specs.Steps.{step_due};

use answers::Answer;
use port_state::{Device, Reply, answered};

// An event with its clock reading. The last is a number that names no event: the step takes it too, and answers nothing, as 01's "What is not named" has it, and promises speak
// of it; an Option around the others would say no more.
#[derive(Drop)]
pub enum Event {
    Edge {
        reading: u32,
    },
    Tick {
        reading: u32,
        draw: u64,
    },
    Sent {
        reading: u32,
    },
    Report {
        reading: u32,
        up: bool,
    },
    Read {
        reading: u32,
        register: u64,
    },
    Write {
        reading: u32,
        register: u64,
        value: u16,
    },
    Unnamed,
}

// Takes an event.
#[tactic(auto, unfolding(crate::specs::Steps::step_over))]
pub fn step(device: Device, event: Event) -> Reply
    ensures { Meets result (step_due event device) }
{
    match event {
        Event::Edge { reading } => port_hearing::edge(device, reading),
        Event::Tick { reading, draw } => port_timing::tick(device, reading, draw),
        Event::Sent { reading } => port_timing::sent(device, reading),
        Event::Report { reading, up } => port_timing::report(device, reading, up),
        Event::Read { reading, register } => port_registers::read(device, register),
        Event::Write {
            reading,
            register,
            value,
        } => port_registers::write(device, register, value, reading),
        Event::Unnamed => answered(Answer::Nothing, device),
    }
}
