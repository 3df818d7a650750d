// The network engine: it spreads least sums over the arcs of a network.
#![tactic(auto)]

mod drives;
mod engine;
pub mod inner;
mod walks;
