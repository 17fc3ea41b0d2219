//! Prints the reports of several sheets, each after its name; the file `stdout` has what is expected.
//!
//! The sheets stand in the file `stdin`, a line each: a name, `|`, and the sheet, in which `>` stands for a tab and `/`
//! for byte 10.

#![tactic(auto)]

use anyhow::Context;
use std::alloc::Global;
use std::io::Read;

// The bytes of a sheet, from its line in the table.
// stays here, though `sheet_cases` has the same with a `~` as well: two programs can share only what a library has, and a library for these
// eight lines would be longer than they are twice
fn decoded(heap: Global, sheet: &str) -> anyhow::Result<Vec<u8>> {
    let mut text = Vec::new(heap);
    for b in sheet.bytes() {
        text.push(match char::from(b) {
            '>' => b'\t',
            '/' => b'\n',
            _ => b,
        })?;
    }
    Ok(text)
}

fn try_line(rt: &HostRuntime, line: &str) -> anyhow::Result<()> {
    let (name, sheet) = line.split_once('|').context("no name")?;
    let text = decoded(rt.alloc(), sheet)?;
    let told = reports::report(rt.alloc(), &text)?;
    println!(rt; "-- {name}")?;
    print!(rt; "{told}")?;
    Ok(())
}

fn main(rt: HostRuntime) -> anyhow::Result<()> {
    let mut table = String::new(rt.alloc());
    rt.stdin().read_to_string(&mut table)?;
    for line in table.lines() {
        try_line(&rt, line)?;
    }
    Ok(())
}
