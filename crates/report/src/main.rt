//! Reads a sheet from standard input and prints its report (docs/REPORT.md).

#![tactic(auto)]

use std::io::Read;

fn main(rt: HostRuntime) -> anyhow::Result<()> {
    let mut text = Vec::new(rt.alloc());
    rt.stdin().read_to_end(&mut text)?;
    let told = reports::report(rt.alloc(), &text)?;
    print!(rt; "{told}")?;
    Ok(())
}
