//! Worked sections: what the definitions say of some small cases, in one statement.

#![tactic(auto)]

ghost use Rattle.worked.specs.Worked.{Worked};

use models::catalogue::catalogue;

// The statement about the worked sections. The list that is answered is the catalogue of the patterns of five marks that keep the laws.
pub fn worked_sections() -> &'static [u16]
    ensures worked { Worked result.now }
{
    catalogue()
}
