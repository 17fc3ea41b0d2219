//! Places in the plane.

ghost use Rattle.std.specs.Prelude.{◌≡◌, MatchBool};
ghost use Rattle.models.specs.Places.{Near, before};

// The greatest absolute value of a coordinate.
const REACH: u32 = 10_000;

// A place, in twentieths of a millimetre.
#[derive(Clone, Copy, PartialEq, Eq, Debug)]
pub struct Place {
    pub x: i32,
    pub y: i32,
}

impl Place {
    // Whether both coordinates are in range.
    pub fn is_near(self) -> bool
        ensures near { MatchBool result (Near self) (Near self → ⊥) }
    {
        self.x.unsigned_abs() <= REACH && self.y.unsigned_abs() <= REACH
    }

    /// Whether it comes before another: places are ordered by x, and those with the same x by y.
    pub fn comes_before(self, other: Place) -> bool
        ensures before { result ≡ before self other }
    {
        self.x < other.x || self.x == other.x && self.y < other.y
    }
}

#[cfg(test)]
mod tests {
    use super::*;

    #[test]
    fn places_in_range(rt: HostRuntime) {
        let corner = Place {
            x: 10_000,
            y: -10_000,
        };
        assert!(rt; corner.is_near());
        assert!(rt; !Place { x: 10_001, y: 0 }.is_near());
        assert!(rt; !Place { x: 0, y: -10_001 }.is_near());
    }

    #[test]
    fn places_in_order(rt: HostRuntime) {
        let low = Place { x: -3, y: 5 };
        let high = Place { x: -3, y: 6 };
        assert!(rt; low.comes_before(high));
        assert!(rt; !high.comes_before(low));
        assert!(rt; high.comes_before(Place { x: -2, y: -9 }));
        assert!(rt; !low.comes_before(low));
    }
}
