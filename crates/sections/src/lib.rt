//! What is asked of a points system as a whole: the Delaunay star of a point, and the length of a tape around a ring.

#![tactic(auto)]

mod arcs;
pub mod delaunay;
pub mod tapes;
#[cfg(test)]
mod tests;

ghost use Rattle.sections.specs.Delaunay.{StarIsFacingArcs, OnePairEach, OneStarAnswer};
ghost use Rattle.sections.specs.Tapes.{OneTapeAnswer, ShortByLessThanArcs};

// The pairs of a star are the arcs of the star system that face its centre, each point is first in at most one pair,
// and the contract of `star` leaves one answer only.
pub fn stars_stand()
    ensures arcs { StarIsFacingArcs }
    ensures pairs { OnePairEach }
    ensures answer { OneStarAnswer }
{}

/// The contract of `tape` leaves one answer only. The parts that it is rounded from are not more than the exact length, and from one arc on
/// they fall short of it by less than the number of arcs.
pub fn tapes_stand()
    ensures one { OneTapeAnswer }
    ensures short { ShortByLessThanArcs }
{}
