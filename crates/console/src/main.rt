//! `console SHEET [LAYER [LAYER]]`: opens the sheet in the file SHEET, puts the layers over its system, and makes the calls that standard
//! input asks for, one a line. A layer is `mirror`, or `rename:` and marks parted by commas (docs/CONSOLE.md).

#![tactic(auto)]

use anyhow::Context;
use shell::console;
use std::io::{Read, Write};
use std::{env, fs};

fn run(rt: &HostRuntime) -> anyhow::Result<()> {
    let heap = rt.alloc();
    let mut args = env::args(rt)?;
    let _ = args.next();
    let path = args.next().context("no sheet")?;
    let sheet = fs::read(rt, path.as_str())?;
    let words = args
        .skip_while(|word| word.is_empty())
        .collect::<Vec<_>>(heap)?;
    let layers = words.join(heap, " ")?;
    let mut script = Vec::new(heap);
    rt.stdin().read_to_end(&mut script)?;
    let out = console(heap, &sheet, layers.as_bytes(), &script)?;
    rt.stdout().write_all(out.as_bytes())?;
    Ok(())
}

fn main(rt: HostRuntime) -> anyhow::Result<()> {
    run(&rt)
}
