// The device: one step for each event, by value and where the device lies, and events as numbers.
#![tactic(auto)]

mod events;
mod in_place;
mod numbers;

pub use events::{Event, step};
pub use in_place::step_in_place;
pub use numbers::event_of;
