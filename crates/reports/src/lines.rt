//! The lines of a report: a word, its numbers, each after a tab, and byte 10.

ghost use Rattle.std.specs.Prelude.{◌≡◌, ◌++◌, string_bytes, codes, OnOk};
ghost use Rattle.reports.specs.Lines.{fault_line, line, pair_lines, round_lines, tape_line};

use cc::faults::Fault;
use cc::texts::Tabbed;
use std::alloc::AllocError;
use std::fmt::Write;

// Writes a word, and numbers after it.
pub(crate) fn write_line(out: &mut String, word: &str, numbers: &[usize]) -> Result<(), AllocError>
    ensures written { OnOk result (string_bytes out.new ≡ string_bytes out.old ++ line word.now numbers.now) }
{
    let numbers = Tabbed(numbers);
    writeln!(out, "{word}{numbers}")
}

// Writes a line for each mark: the mark and its round.
// stays beside `write_pairs`: one function for both would leave each caller to make the pairs and to name the word
pub(crate) fn write_rounds(out: &mut String, rounds: &[usize]) -> Result<(), AllocError>
    ensures written { OnOk result (string_bytes out.new ≡ string_bytes out.old ++ round_lines rounds.now) }
{
    for (mark, round) in rounds.iter().enumerate() {
        write_line(out, "round", &[mark, *round])?;
    }
    Ok(())
}

// Writes a line for each pair of a star.
pub(crate) fn write_pairs(out: &mut String, pairs: &[(usize, usize)]) -> Result<(), AllocError>
    ensures written { OnOk result (string_bytes out.new ≡ string_bytes out.old ++ pair_lines pairs.now) }
{
    for (p, q) in pairs {
        write_line(out, "star", &[*p, *q])?;
    }
    Ok(())
}

// Writes the refusal of a sheet or of its list.
pub(crate) fn write_refusal(out: &mut String, fault: Fault) -> Result<(), AllocError>
    ensures written { OnOk result (string_bytes out.new ≡ string_bytes out.old ++ fault_line (codes "no") fault) }
{
    writeln!(out, "{fault}")
}

// Writes the refusal of a star.
// stays beside `write_refusal`: the two share what prints a fault, and differ in the word
pub(crate) fn write_star_refusal(out: &mut String, fault: Fault) -> Result<(), AllocError>
    ensures written { OnOk result (string_bytes out.new ≡ string_bytes out.old ++ fault_line (codes "star\tno") fault) }
{
    writeln!(out, "star\t{fault}")
}

// Writes the length of a tape.
pub(crate) fn write_length(out: &mut String, total: u64) -> Result<(), AllocError>
    ensures written { OnOk result (string_bytes out.new ≡ string_bytes out.old ++ tape_line total) }
{
    writeln!(out, "tape\t{total}")
}
