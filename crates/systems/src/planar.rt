//! Systems whose marks are places.

ghost use Rattle.std.specs.Prelude.{◌≡◌, List};
ghost use Rattle.models.specs.Places.{AllNear};
ghost use Rattle.models.specs.declared.places.Place.{Place};

use models::places::Place;

/// A system whose marks are places in the plane, all of them in range.
pub trait Planar<'a> {
    // its places, in the order of the marks
    ghost places: { Self → List Place };

    /// The places that are held, in the order of the marks; a refused system holds none.
    fn places(&self) -> &'a [Place]
        ensures held { result.now ≡ places self.now };

    // they are in range
    ghost near: { (s : Self) → AllNear (places s) };
}
