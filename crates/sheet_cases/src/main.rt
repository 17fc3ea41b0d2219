//! Reads good and damaged sheets, and compares each answer with the one that the format asks for.
//!
//! The cases stand in the file `stdin`, a line each: a name, how many entries each list has, the answer that is expected, and the sheet,
//! parted by `|`. In the sheet `>` stands for a tab, `/` for byte 10 and `~` for byte 13. An answer is the letter, the count and the
//! values, or `no`, the refusal's number and its place.

#![tactic(auto)]

mod answers;
mod runs;

fn main(rt: HostRuntime) -> anyhow::Result<()> {
    runs::run(&rt)
}
