//! Flat points, points of the plane of which three or more may lie on one line, as a CC system.

ghost use Rattle.std.specs.Prelude.{◌≡◌, length, Some};
ghost use Rattle.laws.specs.Systems.{Three};
ghost use Rattle.models.specs.Places.{Near};
ghost use Rattle.models.specs.FlatPoints.{Distinct, flat_points, in_cyclic_order, turns_left};
ghost use Rattle.models.proofs.FlatPoints.{distinct, lawful_flat_points};
ghost use Rattle.cc.specs.Turns.{Told};
ghost use Rattle.systems.specs.Openings.{held};
ghost use Rattle.systems.specs.FlatPoints.{Judged};
ghost use Rattle.cc.proofs.Lights.{few_1};

use super::geometry::{check_distinct, determinant};
use super::orders::{are_three, turned};
use super::planar::Planar;
use cc::checks::Checked;
use cc::faults::Fault;
use cc::{CcSystem, Turn, TurnAnswer};
use models::places::Place;

// The units of a turn.
const UNITS: usize = 1;

// Whether p, q, r is the order of the three places, or a cyclic shift of it.
fn are_in_cyclic_order(p: Place, q: Place, r: Place) -> bool
    ensures order { result ≡ in_cyclic_order p q r }
{
    let pq = p.comes_before(q);
    let qr = q.comes_before(r);
    let rp = r.comes_before(p);
    pq && qr || qr && rp || rp && pq
}

// Whether p, q and r turn left.
fn turn_left(p: Place, q: Place, r: Place) -> bool
    requires p { Near p }
    requires q { Near q }
    requires r { Near r }
    ensures left { result ≡ turns_left p q r }
{
    let determinant = determinant(p, q, r);
    if determinant == 0 {
        are_in_cyclic_order(p, q, r)
    } else {
        determinant > 0
    }
}

/// A list of distinct places, opened as a system: p, q and r turn left where they stand counterclockwise. Where they lie on one line, they
/// turn left where they are in the order of their places, by x and then by y, or in a cyclic shift of it.
/// Refused, it holds no place, so it has no mark, and tells why.
#[derive(Clone, Copy)]
pub struct FlatPoints<'a> {
    places: &'a [Place],
    fault: Option<Fault>,
    ghost distinct: { ∥ Distinct places.now ∥₁ },
}

impl<'a> FlatPoints<'a> {
    /// Opens a list: at most 128 places (2), coordinates from -10,000 to 10,000 (2), and no two alike (4), looked at in this order.
    pub fn open(places: &'a [Place]) -> FlatPoints<'a>
        ensures judged { Judged places.now result.fault }
        ensures list { result.places.now ≡ held result.fault places.now }
    {
        if let Err(fault) = check_distinct(places) {
            return FlatPoints {
                places: &places[..0],
                fault: Some(fault),
            };
        }
        FlatPoints {
            places,
            fault: None,
        }
    }

    // How three different marks turn.
    fn turn_of(&self, p: usize, q: usize, r: usize) -> Turn
        requires { Three (length self.now.places.now) p q r }
        ensures told { Told (flat_points self.now.places.now) p q r (Some result) }
    {
        turned(turn_left(self.places[p], self.places[q], self.places[r]))
    }
}

impl<'a> Planar<'a> for FlatPoints<'a> {
    ghost places = { λ s. s.places.now };

    ghost near = { λ s. (distinct s.places.now s.distinct).near };

    fn places(&self) -> &'a [Place] {
        self.places
    }
}

impl<'a> Checked for FlatPoints<'a> {
    ghost refusal = { λ s. s.fault };

    fn fault(&self) -> Option<Fault> {
        self.fault
    }
}

impl<'a> CcSystem for FlatPoints<'a> {
    ghost meaning = { λ s. flat_points s.places.now };

    ghost lawful = { λ s. lawful_flat_points s.places.now s.distinct };

    ghost units = { λ _. 1 };

    ghost light = { λ _. few_1 };

    fn count(&self) -> usize {
        self.places.len()
    }

    fn units(&self) -> usize {
        UNITS
    }

    fn turn(&self, p: usize, q: usize, r: usize) -> TurnAnswer {
        if !are_three(self.count(), p, q, r) {
            return TurnAnswer::none();
        }
        TurnAnswer::of(self.turn_of(p, q, r), UNITS)
    }
}
