// Writers of the two records of the rules, into lent room. Every number of any size, and every list of any length, gets
// its record or its refusal.
#![tactic(auto)]

pub mod inner;
mod network;
mod request;

pub use network::write_network;
pub use request::write_request;
