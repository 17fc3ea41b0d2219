//! Systems and layers that are opened by a check of the caller's list, and tell why they are refused.

ghost use Rattle.std.specs.Prelude.{◌≡◌, Some, None, Ok, Err, Option, MatchResult};
ghost use Rattle.cc.specs.declared.faults.Fault.{Fault};

use super::faults::{Fault, accepted};

// A system or a layer that is opened by a check: it is accepted, or else refused for a fault that it tells.
pub trait Checked: Sized {
    // why it is refused; none where it is accepted
    ghost refusal: { Self → Option Fault };

    // Why it is refused; none where it is accepted.
    fn fault(&self) -> Option<Fault>
        ensures told { result ≡ refusal self.now };

    // The fault as an error, for use with `?`.
    final fn accepted(&self) -> Result<(), Fault>
        ensures told { elim result [ Ok _ ↦ refusal self.now ≡ None | Err f ↦ refusal self.now ≡ Some f ] }
    {
        accepted(self.fault())
    }

    // The same system or layer where it is accepted, and otherwise its fault.
    final fn checked(self) -> Result<Self, Fault>
    where
        Self: Drop,
        ensures told { MatchResult result (λ s. (s ≡ self) × (refusal s ≡ None)) (λ f. refusal self ≡ Some f) }
    {
        self.accepted()?;
        Ok(self)
    }
}
