//! Runs over the cases of the table, over the largest sheet of each kind, and over texts of the greatest length and of one byte more.

use super::answers::answer;
use anyhow::{Context, anyhow};
use std::alloc::Global;
use std::fmt::Write;
use std::io::Read;

// How many cases were run, and how many of them were answered otherwise than expected.
#[derive(Drop)]
struct Score {
    cases: usize,
    differ: usize,
}

impl Score {
    // Counts a case, and prints `ok NAME` or the difference.
    fn count(
        &mut self,
        rt: &HostRuntime,
        name: &str,
        told: &str,
        expected: &str,
    ) -> anyhow::Result<()> {
        self.cases = self.cases.saturating_add(1);
        if told == expected {
            println!(rt; "ok {name}")?;
        } else {
            self.differ = self.differ.saturating_add(1);
            println!(rt; "differs {name}: {told} in place of {expected}")?;
        }
        Ok(())
    }
}

// The bytes of a sheet, from its line in the table.
// stays here, though `report_cases` has the same without the `~`: two programs can share only what a library has, and a library for these
// eight lines would be longer than they are twice
fn decoded(heap: Global, sheet: &str) -> anyhow::Result<Vec<u8>> {
    let mut text = Vec::new(heap);
    for b in sheet.bytes() {
        text.push(match char::from(b) {
            '>' => b'\t',
            '/' => b'\n',
            '~' => b'\r',
            _ => b,
        })?;
    }
    Ok(text)
}

fn try_line(rt: &HostRuntime, line: &str, score: &mut Score) -> anyhow::Result<()> {
    let heap = rt.alloc();
    let (name, after_name) = line.split_once('|').context("no name")?;
    let (room, after_room) = after_name.split_once('|').context("no room")?;
    let (expected, sheet) = after_room.split_once('|').context("no answer")?;
    let text = decoded(heap, sheet)?;
    let told = answer(heap, room.parse::<usize>()?, &text)?;
    score.count(rt, name, &told, expected)
}

// A table of 24 marks, all turning right.
fn largest_table(heap: Global) -> anyhow::Result<String> {
    let mut text = String::new(heap);
    text.push_str("T\t24\n")?;
    // stay nested loops: each line has its own three marks, so that no line can be repeated
    for i in 0..24 {
        for j in i + 1..24 {
            for k in j + 1..24 {
                write!(text, "t\t{i}\t{j}\t{k}\tR\n")?;
            }
        }
    }
    Ok(text)
}

// The first part, and then the second so many times.
fn repeated(heap: Global, first: &str, second: &str, times: usize) -> anyhow::Result<String> {
    let rest = second.repeat(heap, times)?;
    Ok(format!(in heap; "{first}{rest}")?)
}

fn try_largest(rt: &HostRuntime, score: &mut Score) -> anyhow::Result<()> {
    let heap = rt.alloc();
    let marks = repeated(heap, "P\t128\n", "m\t-7\t9999\n", 128)?;
    let places = repeated(heap, "P 128", " -7,9999", 128)?;
    let told = answer(heap, 128, marks.as_bytes())?;
    score.count(rt, "128 marks", &told, &places)?;
    let marks = repeated(heap, "F\t128\n", "m\t-7\t9999\n", 128)?;
    let places = repeated(heap, "F 128", " -7,9999", 128)?;
    let told = answer(heap, 128, marks.as_bytes())?;
    score.count(rt, "128 flat points", &told, &places)?;
    let wires = repeated(heap, "W\t32\n", "c\t30\n", 496)?;
    let crossings = repeated(heap, "W 32", " 30", 496)?;
    let told = answer(heap, 496, wires.as_bytes())?;
    score.count(rt, "32 wires", &told, &crossings)?;
    let table = largest_table(heap)?;
    let turns = repeated(heap, "T 24", " R", 2024)?;
    let told = answer(heap, 2024, table.as_bytes())?;
    score.count(rt, "a table of 24 marks", &told, &turns)
}

fn try_longest(rt: &HostRuntime, score: &mut Score) -> anyhow::Result<()> {
    let heap = rt.alloc();
    let long = repeated(heap, "P\t0\n", "x", 32_764)?;
    let told = answer(heap, 0, long.as_bytes())?;
    score.count(rt, "32768 bytes", &told, "no 3 2")?;
    let longer = repeated(heap, "P\t0\n", "x", 32_765)?;
    let told = answer(heap, 0, longer.as_bytes())?;
    score.count(rt, "32769 bytes", &told, "no 2 0")
}

// Runs all cases, prints a line for each and their number, and fails where one differs.
pub(crate) fn run(rt: &HostRuntime) -> anyhow::Result<()> {
    let mut table = String::new(rt.alloc());
    rt.stdin().read_to_string(&mut table)?;
    let mut score = Score {
        cases: 0,
        differ: 0,
    };
    for line in table.lines() {
        try_line(rt, line, &mut score)?;
    }
    try_largest(rt, &mut score)?;
    try_longest(rt, &mut score)?;
    let Score { cases, differ } = score;
    println!(rt; "{cases} cases, {differ} differ")?;
    if differ > 0 {
        return Err(anyhow!("an answer differs"));
    }
    Ok(())
}
