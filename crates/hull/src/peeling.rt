//! Onion layers: one outline after another is peeled off the marks.

ghost use Rattle.std.specs.Prelude.{◌≡◌, ℕ, ◌+◌, ◌<◌, ◌≤◌, Bool, false, length, take, drop, slice_index};
ghost use Rattle.laws.specs.Outlines.{Marks};
ghost use Rattle.laws.specs.Theorems.{of};
ghost use Rattle.runs.specs.Calls.{On, Rounds};
ghost use Rattle.hull.specs.Rings.{listed};
ghost use Rattle.hull.specs.Records.{flagged};

use super::outlining::outline_of;
use super::rings::Ring;
use cc::{CcSystem, LIMIT};

// Enters the round of the ring's marks, and takes them off the flags.
fn peel(ring: &Ring, round: usize, flags: &mut [bool; LIMIT], entries: &mut [usize])
    requires small { (i : ℕ) → i < length (listed ring.now) → (slice_index (listed ring.now) i < 128) × (slice_index (listed ring.now) i < length entries.old) }
    ensures on { (p : ℕ) → On (listed ring.now) p → (slice_index entries.new p ≡ round) × (flagged flags.new p ≡ false) }
    ensures off { (p : ℕ) → (On (listed ring.now) p → ⊥) → (slice_index entries.new p ≡ slice_index entries.old p) × (flagged flags.new p ≡ flagged flags.old p) }
{
    for mark in ring.marks.iter() {
        entries[*mark] = round;
        flags[*mark] = false;
    }
}

// Enters the round of each flagged mark, and 0 for each other; the number of rounds.
pub(crate) fn rounds_of<S: CcSystem>(
    system: &S,
    flags: &mut [bool; LIMIT],
    entries: &mut [usize],
) -> usize
    requires marks { Marks (S.CcSystem.meaning system.now) (of (flagged flags.old)) }
    requires room { (S.CcSystem.meaning system.now).count ≤ length entries.old }
    ensures rounds { Rounds (S.CcSystem.meaning system.now) (flagged flags.old) (take (S.CcSystem.meaning system.now).count entries.new) result }
    ensures rest { drop (S.CcSystem.meaning system.now).count entries.new ≡ drop (S.CcSystem.meaning system.now).count entries.old }
{
    let count = system.count();
    entries[..count].fill(0);
    for round in 0..count {
        let ring = outline_of(system, flags);
        if ring.marks.is_empty() {
            return round;
        }
        peel(&ring, round + 1, flags, entries);
    }
    count
}
