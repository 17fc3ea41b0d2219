//! Which marks a call may speak of.

ghost use Rattle.std.specs.Prelude.{◌≡◌};
ghost use Rattle.hull.specs.Records.{held};
ghost use Rattle.hull.specs.Replies.{Admits, Holds};

use super::records::HullState;
use cc::CcSystem;
use cc::faults::Fault;

impl HullState {
    // Whether mark x may be added.
    // It and `holds` stay two functions: they want opposite flags, and each has a fault of its own; one function would be handed both.
    pub(crate) fn admits<S: CcSystem>(&self, system: &S, x: usize) -> Result<(), Fault>
        ensures admits { Admits (S.CcSystem.meaning system.now) (held self.now.records) x result }
    {
        if x >= system.count() {
            return Err(Fault::Stranger(x));
        }
        if self.records[x].is_in {
            return Err(Fault::AlreadyIn(x));
        }
        Ok(())
    }

    // Whether mark x is in.
    pub(crate) fn holds<S: CcSystem>(&self, system: &S, x: usize) -> Result<(), Fault>
        ensures holds { Holds (S.CcSystem.meaning system.now) (held self.now.records) x result }
    {
        if x >= system.count() {
            return Err(Fault::Stranger(x));
        }
        if !self.records[x].is_in {
            return Err(Fault::Absent(x));
        }
        Ok(())
    }
}
