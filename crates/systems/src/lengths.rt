//! Whether a count is within its limit, and a list as long as the count asks.

ghost use Rattle.std.specs.Prelude.{◌≡◌, ◌≤◌, MatchResult};
ghost use Rattle.systems.specs.Lengths.{Misfit};

use cc::faults::Fault;

// Whether a count is within its limit, and then whether a list has the length that is due.
pub(crate) fn check_length(count: usize, limit: usize, due: usize, len: usize) -> Result<(), Fault>
    ensures fits { MatchResult result (λ _. (count ≤ limit) × (len ≡ due)) (Misfit count limit due len) }
{
    if count > limit {
        return Err(Fault::Outsize(limit));
    }
    if len != due {
        return Err(Fault::Miscounted(len));
    }
    Ok(())
}
