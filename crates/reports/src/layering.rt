//! Finding the outline and the rounds of all marks of a system.

ghost use Rattle.std.specs.Prelude.{◌≡◌, length};
ghost use Rattle.hull.specs.Records.{held};
ghost use Rattle.reports.specs.Layers.{first, Layered};

use super::layers::ConvexLayers;
use arrayvec::ArrayVec;
use cc::{CcSystem, LIMIT};
use hull::hulls::DynamicHull;

// The hull of all marks of the system.
fn full<S: CcSystem>(system: S) -> DynamicHull<S>
    ensures all { held result.state.records ≡ first (S.CcSystem.meaning result.system).count }
    ensures system { result.system ≡ system }
{
    let mut hull = DynamicHull::over(system);
    for mark in 0..hull.count() {
        let _ = hull.add(mark);
    }
    hull
}

// The ring and the rounds of all marks of the system.
pub(crate) fn layers_of<S: CcSystem + Drop>(system: S) -> ConvexLayers
    ensures layered { Layered (S.CcSystem.meaning system) result.ring.items result.rounds.items }
    ensures count { length result.rounds.items ≡ (S.CcSystem.meaning system).count }
{
    let hull = full(system);
    // `ring` and `rounds` are made full and cut afterwards, since the calls write into a list that they are lent
    let mut ring = ArrayVec::from([0; LIMIT]);
    let Ok(len) = hull.outline(&mut ring) else {
        unreachable()
    };
    ring.truncate(len);
    let mut rounds = ArrayVec::from([0; LIMIT]);
    let Ok(_) = hull.rounds(&mut rounds) else {
        unreachable()
    };
    rounds.truncate(hull.count());
    ConvexLayers { ring, rounds }
}
