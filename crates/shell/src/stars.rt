//! The star about a mark of a points system, and the calls of a script on it.

ghost use Rattle.std.specs.Prelude.{◌≡◌, IfOk, string_bytes};
ghost use Rattle.shell.specs.Stars.{StarOver, no_star_line};

use super::layers::{refusal, with_words};
use cc::checks::Checked;
use std::alloc::{AllocError, Global};
use systems::points::Points;
use systems::stars::Star;

// The line for a sheet that has no star.
pub(crate) fn no_star(heap: Global) -> Result<String, AllocError>
    ensures line { IfOk result (λ out. string_bytes out ≡ no_star_line) }
{
    format!(in heap; "?\tstar\n")
}

// Opens the star about the centre, puts the layers over it, and makes the calls of the script.
pub(crate) fn over_star(
    heap: Global,
    points: &Points<'_>,
    centre: usize,
    layers: &[u8],
    script: &[u8],
) -> Result<String, AllocError>
    ensures over { IfOk result (λ out. StarOver points.now.places.now centre layers.now script.now (string_bytes out)) }
{
    match Star::about(points, centre).checked() {
        Ok(star) => with_words(heap, star, layers, script),
        Err(fault) => refusal(heap, fault),
    }
}
