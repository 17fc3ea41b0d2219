//! The report of a sheet: its kind and count, the outline and the rounds of all its marks, for points the star about mark 0,
//! and for points and flat points the tape around the outline; or the refusal of a text that is no sheet, or of a list that is
//! no system.

#![tactic(auto)]

mod layering;
mod layers;
mod lines;
mod opened;

ghost use Rattle.std.specs.Prelude.{IfOk, string_bytes};
ghost use Rattle.reports.specs.Reports.{Reports, OneReport};

use lines::write_refusal;
use opened::write_told;
use opening::open;
use sheet::Room;
use std::alloc::{AllocError, Global};

// The report of a text; the error is want of memory.
pub fn report(heap: Global, text: &[u8]) -> Result<String, AllocError>
    ensures report { IfOk result (λ s. Reports text.now (string_bytes s)) }
{
    let mut out = String::new(heap);
    let mut room = Room::new();
    // stays a `match`, as for the star: what is written for a refusal is part of the report, and the only error is want of memory
    let system = match open(&mut room, text) {
        Ok(system) => system,
        Err(fault) => {
            write_refusal(&mut out, fault)?;
            return Ok(out);
        }
    };
    write_told(&mut out, &system)?;
    Ok(out)
}

// The contract of `report` leaves one report for each text.
pub fn reports_stand()
    ensures one { OneReport }
{}
