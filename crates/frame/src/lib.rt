//! The library as C or Rust links it. In C a slice is a pointer, which is not null, and a length; `out` overlaps none of the others; and the
//! heap is not passed:
//!
//!     size_t moarduft_report(const uint8_t *text, size_t text_len, uint8_t *out, size_t out_len);
//!     size_t moarduft_console(const uint8_t *text, size_t text_len, const uint8_t *layers, size_t layers_len,
//!                             const uint8_t *script, size_t script_len, uint8_t *out, size_t out_len);
//!     size_t moarduft_star_console(const uint8_t *text, size_t text_len, size_t centre, const uint8_t *layers, size_t layers_len,
//!                                  const uint8_t *script, size_t script_len, uint8_t *out, size_t out_len);
//!
//! These answer the length of what they have to say: it stands at the front of `out` where there is room for it, and otherwise nothing is
//! written, so that the call can be made again with more room. `SIZE_MAX` says that memory was wanting.
//!
//!     uint64_t moarduft_tally(const uint8_t *text, size_t text_len, const uint8_t *calls, size_t calls_len, size_t times);
//!
//! This one neither writes nor asks for memory, and is there for measuring: it makes calls that are pairs of bytes, a letter and a number,
//! all of them so many times over, and adds up what their answers are worth.

#![tactic(auto)]

mod answers;
mod tallies;

ghost use Rattle.std.specs.Prelude.{◌≡◌, string_bytes, MatchResult};
ghost use Rattle.reports.specs.Reports.{Reports};
ghost use Rattle.shell.specs.Consoles.{Console};
ghost use Rattle.shell.specs.Stars.{StarConsole};
ghost use Rattle.frame.specs.Handing.{Copied, Handed};
ghost use Rattle.frame.specs.Tallies.{OneTally, Tally};

use cc::lists::copy_front;
use reports::report;
use shell::{console, star_console};
use std::alloc::{AllocError, Global};
use tallies::tally;

// Copies the text to the front of `out`, if there is room for all of it; answers its length either way.
fn copy(text: &[u8], out: &mut [u8]) -> usize
    ensures copied { Copied text.now out.old result out.new }
{
    let _ = copy_front(text, out);
    text.len()
}

// Hands a text over, or says that memory was wanting.
fn handed(said: Result<String, AllocError>, out: &mut [u8]) -> usize
    ensures handed { MatchResult said (λ text. Copied (string_bytes text) out.old result out.new) (λ _. (result ≡ 18446744073709551615) × (out.new ≡ out.old)) }
{
    match said {
        Ok(said) => copy(said.as_bytes(), out),
        // stays a number: C has no `Result`
        Err(_) => usize::MAX,
    }
}

// Writes the report of a sheet's text.
#[unsafe(no_mangle)]
pub extern "C" fn moarduft_report(heap: Global, text: &[u8], out: &mut [u8]) -> usize
    ensures report { Handed (Reports text.now) out.old result out.new }
{
    handed(report(heap, text), out)
}

// Writes what is printed for a sheet, the words of layers, and a script of calls.
#[unsafe(no_mangle)]
pub extern "C" fn moarduft_console(
    heap: Global,
    text: &[u8],
    layers: &[u8],
    script: &[u8],
    out: &mut [u8],
) -> usize
    ensures console { Handed (Console text.now layers.now script.now) out.old result out.new }
{
    handed(console(heap, text, layers, script), out)
}

// Writes what is printed for the star about a mark of a sheet's places, the words of layers over it, and a script of calls.
#[unsafe(no_mangle)]
pub extern "C" fn moarduft_star_console(
    heap: Global,
    text: &[u8],
    centre: usize,
    layers: &[u8],
    script: &[u8],
    out: &mut [u8],
) -> usize
    ensures console { Handed (StarConsole text.now centre layers.now script.now) out.old result out.new }
{
    handed(star_console(heap, text, centre, layers, script), out)
}

// Opens the sheet, makes the calls so many times, each time on an unused hull over its system, and adds up what the answers are worth,
// modulo 2^64; 0 where the sheet or its list is refused. A call is a letter and a number: `a` to add, `d` to drop, `p` to place, `n` for
// neighbours, `o` for the outline, `r` for the rounds; the mark, or the length of the list of zeros that is handed over, at most 128. A pair
// with no letter is passed over, and so is a last byte with no partner.
#[unsafe(no_mangle)]
pub extern "C" fn moarduft_tally(text: &[u8], calls: &[u8], times: usize) -> u64
    ensures tally { Tally text.now calls.now times result }
{
    tally(text, calls, times) as u64
}

// The contract of `moarduft_tally` leaves one sum.
pub fn tallies_stand()
    ensures one { OneTally }
{}
