//! Checks of a list of places, and the exact determinant of three of them.

ghost use Rattle.std.specs.Prelude.{◌≡◌, ◌<◌, ◌≤◌, length, ◌-ℤ◌, ◌*ℤ◌, MatchBool, MatchOption, MatchResult, unsigned_abs};
ghost use Rattle.laws.specs.First.{First, FirstPair, NeverPair};
ghost use Rattle.models.specs.Places.{Near, AllNear, Far, Twins, InLine, cross};
ghost use Rattle.models.specs.FlatPoints.{Distinct};
ghost use Rattle.models.specs.Determinants.{det};
ghost use Rattle.models.specs.Stars.{seen, OnCircle};
ghost use Rattle.systems.specs.FlatPoints.{Refused};
ghost use Rattle.systems.specs.Offsets.{Leads, row};

use super::offsets::{Arm, Offset};
use super::searches::OfThree;
use cc::LIMIT;
use cc::faults::Fault;
use models::places::Place;

// The first place that is out of range.
fn outside(places: &[Place]) -> Option<usize>
    ensures first { MatchOption result (AllNear places.now) (First (length places.now) (Far places.now)) }
{
    places.iter().position(|place| !place.is_near())
}

// The first two places, in rising order, that are alike.
fn twins(places: &[Place]) -> Option<(usize, usize)>
    ensures first { MatchOption result (NeverPair (length places.now) (Twins places.now)) (λ p. FirstPair (length places.now) (Twins places.now) p.0 p.1) }
{
    // stays nested loops: two numbers are sought, and `find_map` with a `find` inside is no plainer
    for i in 0..places.len() {
        for j in i + 1..places.len() {
            if places[i] == places[j] {
                return Some((i, j));
            }
        }
    }
    None
}

// Whether a list has at most 128 places, all of them in range, and no two alike; its first fault if it has not.
pub(crate) fn check_distinct(places: &[Place]) -> Result<(), Fault>
    ensures judged { MatchResult result (λ _. Distinct places.now) (Refused places.now) }
{
    if places.len() > LIMIT {
        return Err(Fault::Outsize(LIMIT));
    }
    if let Some(i) = outside(places) {
        return Err(Fault::Outsize(i));
    }
    match twins(places) {
        Some((i, j)) => Err(Fault::Twin(i, j)),
        None => Ok(()),
    }
}

impl Offset {
    // The place q as seen from p.
    fn between(p: Place, q: Place) -> Offset
        requires p { Near p }
        requires q { Near q }
        ensures leads { Leads p q result }
    {
        Offset {
            a: i64::from(q.x - p.x),
            b: i64::from(q.y - p.y),
        }
    }

    // Twice the signed area of the triangle that two offsets span.
    fn minor(self, other: Offset) -> i64
        ensures exact { result ≡ self.a *ℤ other.b -ℤ self.b *ℤ other.a }
        ensures small { unsigned_abs result ≤ 800000000 }
    {
        self.a * other.b - self.b * other.a
    }
}

// Twice the signed area of the triangle p q r.
// That the places are in range stays a `requires`, here, at `between`, `to` and `star_determinant`, and at the step of a tape in
// `sections`: they come out of a list of which one fact says that all are in range, and a type for a place in range would be made anew at
// each read.
pub(crate) fn determinant(p: Place, q: Place, r: Place) -> i64
    requires p { Near p }
    requires q { Near q }
    requires r { Near r }
    ensures exact { result ≡ cross p q r }
{
    Offset::between(p, q).minor(Offset::between(p, r))
}

// That three places lie on a line.
#[derive(Clone, Copy)]
pub(crate) struct OnLine<'a> {
    pub(crate) places: &'a [Place],
    ghost near: { AllNear places.now },
}

impl<'a> OfThree for OnLine<'a> {
    ghost below = { λ line. length line.places.now };

    ghost property = { λ line. InLine line.places.now };

    fn count(&self) -> usize {
        self.places.len()
    }

    fn holds(&self, i: usize, j: usize, k: usize) -> bool {
        determinant(self.places[i], self.places[j], self.places[k]) == 0
    }
}

impl Arm {
    // The place p as seen from c.
    fn to(c: Place, p: Place) -> Arm
        requires c { Near c }
        requires p { Near p }
        ensures seen { row result ≡ seen c p }
    {
        let offset = Offset::between(c, p);
        Arm {
            offset,
            w: offset.a * offset.a + offset.b * offset.b,
        }
    }
}

// The determinant of three arms.
fn arms_determinant(p: Arm, q: Arm, r: Arm) -> i64
    ensures exact { result ≡ det (row p) (row q) (row r) }
{
    let qr = q.offset.minor(r.offset);
    let pr = p.offset.minor(r.offset);
    let pq = p.offset.minor(q.offset);
    p.w * qr - q.w * pr + r.w * pq
}

// The determinant of p, q and r as seen from c.
pub(crate) fn star_determinant(c: Place, p: Place, q: Place, r: Place) -> i64
    requires c { Near c }
    requires p { Near p }
    requires q { Near q }
    requires r { Near r }
    ensures exact { result ≡ det (seen c p) (seen c q) (seen c r) }
{
    arms_determinant(Arm::to(c, p), Arm::to(c, q), Arm::to(c, r))
}

// That three places lie on one circle with a fourth, the centre of a star.
#[derive(Clone, Copy)]
pub(crate) struct OnCircleWith<'a> {
    pub(crate) places: &'a [Place],
    pub(crate) centre: usize,
    ghost near: { AllNear places.now },
    ghost within: { centre < length places.now },
}

impl<'a> OfThree for OnCircleWith<'a> {
    ghost below = { λ circle. length circle.places.now };

    ghost property = { λ circle. OnCircle circle.places.now circle.centre };

    fn count(&self) -> usize {
        self.places.len()
    }

    fn holds(&self, i: usize, j: usize, k: usize) -> bool {
        // the determinant, which is 0 for c itself, comes before the tests for c: what it takes of i and j alone is then worked out once for all k
        let c = self.centre;
        let determinant = star_determinant(
            self.places[c],
            self.places[i],
            self.places[j],
            self.places[k],
        );
        determinant == 0 && i != c && j != c && k != c
    }
}
