//! The outline and the rounds of all marks of a system.

use arrayvec::ArrayVec;
use cc::LIMIT;

// The ring as it is read out, and the round of each mark.
#[derive(Drop)]
pub struct ConvexLayers {
    pub(crate) ring: ArrayVec<usize, LIMIT>,
    pub(crate) rounds: ArrayVec<usize, LIMIT>,
}
