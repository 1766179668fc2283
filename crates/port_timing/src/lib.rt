// The negotiation: what a tick, a page sent and a link report do; timers and orders.
// Device and reading are parameters side by side: each change makes a new device and keeps the reading, so a struct of both would be taken apart at each change; and methods of
// Device can stand in port_state alone.
#![tactic(auto)]

mod own_pages;
mod profile;
mod reports;
mod sending;
mod ticks;
mod waits;

pub use reports::report;
pub use sending::sent;
pub use ticks::tick;
pub use waits::{break_is_over, inhibit_is_over, is_held_back, mark_has_run, partner_is_lost};
