//! Why points, stars, reflection networks and turn tables keep the five laws: definitions and proofs, and little code.

#![tactic(auto)]

pub mod catalogue;
pub mod counts;
pub mod networks;
pub mod places;

ghost use Rattle.models.specs.Determinants.{SignsKeepTheLaws};
ghost use Rattle.models.specs.Places.{PointsKeepTheLaws};
ghost use Rattle.models.specs.FlatPoints.{FlatPointsKeepTheLaws, FlatPointsAgree};
ghost use Rattle.models.specs.Stars.{StarsKeepTheLaws};
ghost use Rattle.models.specs.Circles.{OutsideByDeterminant};

/// Rows in general position, points of the plane, flat points and stars keep the laws, since their turns are the signs of
/// determinants; flat points of which no three lie on a line turn as points do; and a star's determinant tells which places lie
/// outside of a circle. The contract names the theorems.
pub fn determinants_stand()
    ensures signs { SignsKeepTheLaws }
    ensures points { PointsKeepTheLaws }
    ensures flat_points { FlatPointsKeepTheLaws }
    ensures agree { FlatPointsAgree }
    ensures stars { StarsKeepTheLaws }
    ensures circles { OutsideByDeterminant }
{}
