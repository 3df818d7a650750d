// Readers of the two records of the rules. Every slice, of any length and content, gets its value or its refusal.
#![tactic(auto)]

mod accepted;
pub mod inner;
mod input;
mod network;
mod opening;
mod request;

pub use input::network_size;
pub use network::{link, read_network};
pub use request::read_request;
