// The engine for its two uses: walks in a 32-bit room, drives in a 64-bit row of the work table. Each is one call, so that callers see
// no trait.
pub use crate::drives::spread_drives;
pub use crate::walks::spread_walks;
