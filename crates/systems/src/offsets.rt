//! Places as seen from one another.

ghost use Rattle.std.specs.Prelude.{◌≤◌, unsigned_abs};

// A place as seen from another; both are in range.
#[derive(Clone, Copy)]
pub(crate) struct Offset {
    pub(crate) a: i64,
    pub(crate) b: i64,
    ghost a_short: { unsigned_abs a ≤ 20000 },
    ghost b_short: { unsigned_abs b ≤ 20000 },
}

// A place as seen from another, with the square of its distance.
#[derive(Clone, Copy)]
pub(crate) struct Arm {
    pub(crate) offset: Offset,
    pub(crate) w: i64,
    ghost w_short: { unsigned_abs w ≤ 800000000 },
}
