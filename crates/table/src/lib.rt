// The two tables of the search: the riders' walking distances, and the work table of best finishes.
#![tactic(auto)]

mod distances;
pub mod inner;
mod meetings;
mod places;
mod rows;
mod starts;
mod tables;
