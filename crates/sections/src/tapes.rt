//! The length of a tape around a ring of points, in twentieths of a millimetre. It is found in parts, of which 1,024 make one twentieth.
//! A squared distance is at most 8·10^8, and so below 2^50 in parts: 64 bits hold it, and the sum of 128 roots of such numbers.

ghost use Rattle.std.specs.Prelude.{◌≡◌, ℕ, ◌^◌, ◌<◌, ◌≤◌, length, MatchResult};
ghost use Rattle.laws.specs.First.{Never};
ghost use Rattle.models.specs.Places.{AllNear, Near, place};
ghost use Rattle.sections.specs.Tapes.{Root, squared_parts, Parts, Strange, FirstStranger, TapeAnswer};

use cc::LIMIT;
use cc::faults::Fault;
use models::places::Place;
use systems::planar::Planar;

// How many parts make a twentieth of a millimetre.
const PARTS: u64 = 1_024;

// The distance of two places in parts, rounded down: the greatest whole number whose square is at most their squared distance in parts.
fn step(p: Place, q: Place) -> u64
    requires p { Near p }
    requires q { Near q }
    ensures root { Root (squared_parts p q) result }
    ensures small { result < 2 ^ 32 }
{
    let across = u64::from(q.x.abs_diff(p.x));
    let up = u64::from(q.y.abs_diff(p.y));
    (PARTS * PARTS * (across * across + up * up)).isqrt()
}

// The step from one mark to another.
fn step_between(places: &[Place], p: usize, q: usize) -> u64
    requires near { AllNear places.now }
    requires p { p < length places.now }
    requires q { q < length places.now }
    ensures root { Root (squared_parts (place places.now p) (place places.now q)) result }
    ensures small { result < 2 ^ 32 }
{
    step(places[p], places[q])
}

// Whether every entry is a mark; the fault names the first entry that is none.
fn check_marks(places: &[Place], ring: &[usize]) -> Result<(), Fault>
    ensures first { MatchResult result
        (λ _. Never (length ring.now) (Strange places.now ring.now))
        (FirstStranger places.now ring.now) }
{
    let n = places.len();
    match ring.iter().find(|mark| **mark >= n) {
        Some(stranger) => Err(Fault::Stranger(*stranger)),
        None => Ok(()),
    }
}

// The steps around the ring, added: the length in parts.
fn parts_around(places: &[Place], ring: &[usize]) -> u64
    requires near { AllNear places.now }
    requires few { length ring.now ≤ 128 }
    requires marks { Never (length ring.now) (Strange places.now ring.now) }
    ensures parts { Parts places.now ring.now result }
    ensures small { result < 2 ^ 40 }
{
    let (first, rest) = ring.split_at(ring.len().min(1));
    ring.iter()
        .zip(rest.iter().chain(first))
        .map(|(p, q)| step_between(places, *p, *q))
        .sum()
}

/// The length of a tape around a ring of points, or of flat points, in twentieths of a millimetre: the distances in parts from each entry
/// to its follower (the first follows the last), each rounded down, added, and their sum rounded to whole twentieths. An empty ring and a
/// single mark give 0.
///
/// Refused are a ring of more than 128 entries (`Outsize(128)`), then the first entry that is no mark of the points (`Stranger`).
pub fn tape<'a, P: Planar<'a>>(points: &P, ring: &[usize]) -> Result<u64, Fault>
    ensures answer { TapeAnswer (P.Planar.places points.now) ring.now result }
{
    if ring.len() > LIMIT {
        return Err(Fault::Outsize(LIMIT));
    }
    let places = points.places();
    check_marks(places, ring)?;
    Ok((parts_around(places, ring) + PARTS / 2) / PARTS)
}
