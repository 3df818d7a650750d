// Filling rooms that are known to be large enough, for records that were read, and reading them.
pub use crate::distances::fill_distances;
pub use crate::meetings::FirstMeeting;
pub use crate::places::{rider_bit, value};
pub use crate::rows::fill_table;
pub use crate::tables::Tables;
