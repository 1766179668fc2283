// The negotiation: what an edge does, and a page that is heard whole.
// Device and reading are parameters side by side: each change makes a new device and keeps the reading, so a struct of both would be taken apart at each change; and methods of
// Device can stand in port_state alone.
#![tactic(auto)]

mod base_pages;
mod edges;
mod heard_pages;
mod next_pages;

pub use edges::{edge, takes_edges};
