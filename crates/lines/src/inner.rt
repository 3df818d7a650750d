// The lines of a plan's steps, for a plan that the search has written.
pub use crate::step::{Step, node_after, step_line};
