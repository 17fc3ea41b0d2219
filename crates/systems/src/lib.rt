//! CC systems over a list that the caller lends: each is opened by a check of the whole list, and tells its fault where it is refused.

#![tactic(auto)]

pub mod flat_points;
mod geometry;
mod lengths;
pub mod networks;
mod offsets;
pub mod orders;
pub mod planar;
pub mod points;
mod searches;
pub mod stars;
pub mod tables;
#[cfg(test)]
mod tests;

ghost use Rattle.systems.specs.Openings.{OneJudgement, OneStarJudgement};
ghost use Rattle.systems.specs.FlatPoints.{OneJudgement as OneFlatJudgement};

/// The contracts of `Points::open`, `FlatPoints::open` and `Star::about` leave one answer only. `networks_stand` and `tables_stand` say so of
/// the other two openers.
pub fn openings_stand()
    ensures points { OneJudgement }
    ensures flat_points { OneFlatJudgement }
    ensures stars { OneStarJudgement }
{}
