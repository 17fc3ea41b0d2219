//! The Delaunay star of a point.

ghost use Rattle.std.specs.Prelude.{◌≡◌, ℕ, ◌-◌, ◌<◌, ◌≤◌, length, MatchOption, MatchResult};
ghost use Rattle.models.specs.Stars.{other};
ghost use Rattle.systems.specs.Openings.{Starred, StarRefused};
ghost use Rattle.sections.specs.Delaunay.{Delaunay, StarPairs, StarAnswer};

use super::arcs::{arc_from, turns_left};
use arrayvec::ArrayVec;
use cc::checks::Checked;
use cc::faults::Fault;
use cc::lists::copy_front;
use cc::{CcSystem, LIMIT};
use systems::points::Points;
use systems::stars::Star;

// A mark of a points system, and the star about it.
#[derive(Clone, Copy)]
struct Centre<'a> {
    points: Points<'a>,
    star: Star<'a>,
    mark: usize,
    ghost tied: { (star.places.now ≡ points.places.now) × (star.centre ≡ mark) },
    ghost starred: { Starred points.places.now mark },
}

impl<'a> Centre<'a> {
    fn of(points: &Points<'a>, mark: usize) -> Result<Centre<'a>, Fault>
        ensures judged { MatchResult result (λ c. (c.points.places.now ≡ points.now.places.now) × (c.mark ≡ mark)) (StarRefused points.now.places.now mark) }
    {
        let star = Star::about(points, mark).checked()?;
        Ok(Centre {
            points: *points,
            star,
            mark,
        })
    }

    // The pair whose first point is the one that mark i of the star means; none where that point is first in no pair.
    fn pair(&self, i: usize) -> Option<(usize, usize)>
        requires mark { i < length self.now.points.places.now - 1 }
        ensures pair { MatchOption result ((q : ℕ) → Delaunay self.now.points.places.now self.now.mark (other self.now.mark i) q → ⊥) (λ t. (t.0 ≡ other self.now.mark i) × Delaunay self.now.points.places.now self.now.mark t.0 t.1) }
    {
        let j = arc_from(&self.star, i)?;
        let p = self.star.point(i)?;
        let q = self.star.point(j)?;
        turns_left(&self.points, self.mark, p, q).then_some((p, q))
    }

    // All pairs, in the rising order of their first points.
    fn pairs(&self) -> ArrayVec<(usize, usize), LIMIT>
        ensures pairs { StarPairs self.now.points.places.now self.now.mark result.items }
    {
        // stays a loop: `collect` into an `ArrayVec` asks for an allocator, and `extend` answers a `Result`, which would be taken apart
        let mut pairs = ArrayVec::new();
        for i in 0..self.star.count() {
            if let Some(pair) = self.pair(i) {
                pairs.push(pair);
            }
        }
        pairs
    }
}

// Writes the pairs (p, q) of the star about c at the front of the list, in rising p, and answers how many:
// c, p and q turn left, and every other point lies outside the circle through them.
pub fn star(points: &Points<'_>, c: usize, pairs: &mut [(usize, usize)]) -> Result<usize, Fault>
    ensures answer { StarAnswer points.now.places.now c pairs.old pairs.new result }
{
    let found = Centre::of(points, c)?.pairs();
    copy_front(&found, pairs)
}
