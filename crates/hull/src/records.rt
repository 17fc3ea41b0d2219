//! What a hull keeps: one record for each mark, and the ring of the outline.

ghost use Rattle.std.specs.Prelude.{◌≡◌, length};

use super::rings::Ring;
use cc::LIMIT;

// Whether a mark is in, and its two neighbours and its position on the outline. Of a mark that is not on the outline these three say nothing:
// a mark that leaves it is not looked for, and its record keeps what was so before.
#[derive(Clone, Copy)]
pub struct Record {
    pub(crate) is_in: bool,
    pub(crate) before: usize,
    pub(crate) after: usize,
    pub(crate) position: usize,
}

// The records of all marks, and the outline of those that are in, from its lowest mark on.
#[derive(Drop)]
pub struct HullState {
    pub(crate) records: [Record; LIMIT],
    pub(crate) ring: Ring,
    ghost long: { length records ≡ 128 },
}
