//! A shell over dynamic hulls: it opens a sheet, puts layers over its system, and makes the calls that a script asks for, one a line.

#![tactic(auto)]

mod answers;
pub mod calls;
pub mod commands;
pub mod dialogues;
pub mod layers;
mod over;
mod stars;

ghost use Rattle.std.specs.Prelude.{IfOk, string_bytes};
ghost use Rattle.shell.specs.Consoles.{Console};
ghost use Rattle.shell.specs.Stars.{StarConsole};
ghost use Rattle.shell.specs.Theorems.{OneCensus, OneConsole, OneDialogue, OneStarConsole, OneTalk};

use layers::{refusal, with_words};
use opening::{Opened, open};
use sheet::Room;
use stars::{no_star, over_star};
use std::alloc::{AllocError, Global};

// Opens the sheet, puts the layers over its system, and makes the calls of the script; the error is want of memory.
pub fn console(
    heap: Global,
    text: &[u8],
    layers: &[u8],
    script: &[u8],
) -> Result<String, AllocError>
    ensures console { IfOk result (λ out. Console text.now layers.now script.now (string_bytes out)) }
{
    let mut room = Room::new();
    // stays a `match`: what is printed for a refusal is an answer, and the only error is want of memory
    match open(&mut room, text) {
        Ok(system) => with_words(heap, system, layers, script),
        Err(fault) => refusal(heap, fault),
    }
}

/// The same over the star about a mark of the sheet's points; the layers are put over the star. A sheet of another kind, of flat points too,
/// has no star, and one line says so.
pub fn star_console(
    heap: Global,
    text: &[u8],
    centre: usize,
    layers: &[u8],
    script: &[u8],
) -> Result<String, AllocError>
    ensures console { IfOk result (λ out. StarConsole text.now centre layers.now script.now (string_bytes out)) }
{
    let mut room = Room::new();
    // stays a `match`, as in `console`, and in two steps: in an arm of two patterns within `Ok` the check does not know that one fits
    let system = match open(&mut room, text) {
        Ok(system) => system,
        Err(fault) => return refusal(heap, fault),
    };
    match system {
        Opened::Points(points) => over_star(heap, &points, centre, layers, script),
        Opened::FlatPoints(_) | Opened::Network(_) | Opened::Table(_) => no_star(heap),
    }
}

// The contracts of `console` and `star_console` leave one text for each sheet, centre, words of layers and script. Over any system the
// words and the script have one text, and so has a script alone, whichever marks are in; and the marks have one census.
pub fn consoles_stand()
    ensures censuses { OneCensus }
    ensures dialogues { OneDialogue }
    ensures talks { OneTalk }
    ensures one { OneConsole }
    ensures one_of_star { OneStarConsole }
{}

#[cfg(test)]
mod tests {
    use super::*;

    // The five places whose report stands in docs/REPORT.md.
    const FIVE: &[u8] = b"P\t5\nm\t3\t2\nm\t0\t0\nm\t10\t1\nm\t8\t9\nm\t1\t7\n";

    const CALLS: &[u8] = b"add 0\nadd 1\nadd 2\nadd 3\noutline 4\nplace 4\n";

    #[test]
    fn a_star_keeps_an_outline(rt: HostRuntime) {
        let said = star_console(rt.alloc(), FIVE, 0, b"", CALLS);
        let due =
            "add\t0\tedge\t0\t0\nadd\t1\tedge\t0\t0\nadd\t2\tedge\t0\t6\nadd\t3\tedge\t0\t9\noutline\t4\t4\t0\t1\t2\t3\nplace\t4\tno\t9\t4\n";
        assert!(rt; said.is_ok_and(|said| said.as_str() == due));
        let said = star_console(rt.alloc(), FIVE, 0, b"mirror", CALLS);
        let due =
            "add\t0\tedge\t0\t0\nadd\t1\tedge\t0\t0\nadd\t2\tedge\t0\t8\nadd\t3\tedge\t0\t12\noutline\t4\t4\t0\t3\t2\t1\nplace\t4\tno\t9\t4\n";
        assert!(rt; said.is_ok_and(|said| said.as_str() == due));
    }

    #[test]
    fn a_star_is_refused(rt: HostRuntime) {
        let said = star_console(rt.alloc(), FIVE, 5, b"", CALLS);
        assert!(rt; said.is_ok_and(|said| said.as_str() == "no\t9\t5\n"));
        let square = b"P\t4\nm\t0\t0\nm\t2\t0\nm\t2\t2\nm\t0\t2\n";
        let said = star_console(rt.alloc(), square, 0, b"", CALLS);
        assert!(rt; said.is_ok_and(|said| said.as_str() == "no\t6\t1\t2\t3\n"));
        let network = b"W\t2\nc\t0\n";
        let said = star_console(rt.alloc(), network, 0, b"", CALLS);
        assert!(rt; said.is_ok_and(|said| said.as_str() == "?\tstar\n"));
        let flat = b"F\t3\nm\t0\t0\nm\t2\t0\nm\t0\t2\n";
        let said = star_console(rt.alloc(), flat, 0, b"", CALLS);
        assert!(rt; said.is_ok_and(|said| said.as_str() == "?\tstar\n"));
    }
}
