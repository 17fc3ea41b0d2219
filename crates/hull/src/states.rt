//! The records kept up: a mark comes in or goes out, and the ring is linked anew.

ghost use Rattle.std.specs.Prelude.{◌≡◌, ℕ, ◌+◌, ◌<◌, ◌≤◌, Bool, true, false, length};
ghost use Rattle.hull.specs.Rings.{listed, PositionOf};
ghost use Rattle.hull.specs.Records.{at, held, flagged, Linked, Recorded, with_position, with_before, with_held};

use super::records::{HullState, Record};
use super::rings::Ring;
use cc::LIMIT;

impl HullState {
    ghost use Rattle.std.specs.Borrow.{sem};
    ghost use Rattle.hull.specs.Lending.{LendsRecord};

    // No mark is in.
    pub(crate) fn empty() -> HullState
        ensures none { (p : ℕ) → held result.records p ≡ false }
        ensures ring { length (listed result.ring) ≡ 0 }
    {
        HullState {
            records: [Record {
                is_in: false,
                before: 0,
                after: 0,
                position: 0,
            }; LIMIT],
            ring: Ring::empty(),
        }
    }

    // Whether each mark is in.
    pub(crate) fn flags(&self) -> [bool; LIMIT]
        ensures flags { (p : ℕ) → flagged result p ≡ held self.now.records p }
    {
        // `array::from_fn`, or a zip with `iter_mut`, has no proof with this kit, and `self.records.map(..)` copies the records first, which
        // takes longer
        let mut flags = [false; LIMIT];
        for (mark, record) in self.records.iter().enumerate() {
            flags[mark] = record.is_in;
        }
        flags
    }

    // The record of a mark, lent to be changed. Whatever changes a record goes through here.
    fn record(&mut self, mark: usize) -> &mut Record
        requires small { mark < 128 }
        ensures* writes_back { sem 𝓛 (LendsRecord self.entry mark result) }
        ensures value { result.now ≡ at self.old.records mark }
    {
        &mut self.records[mark]
    }

    // Mark x is in, or out.
    pub(crate) fn set_in(&mut self, x: usize, is_in: bool)
        requires small { x < 128 }
        ensures records { self.new.records ≡ with_held self.old.records x is_in }
        ensures ring { self.new.ring ≡ self.old.ring }
    {
        self.record(x).is_in = is_in;
    }

    // p stands at a position of the outline, and q comes after it.
    fn link(&mut self, p: usize, position: usize, q: usize)
        requires small { (p < 128) × (q < 128) }
        ensures records { self.new.records
            ≡ with_before (with_position self.old.records p position q) q p }
        ensures ring { self.new.ring ≡ self.old.ring }
    {
        let record = self.record(p);
        record.position = position;
        record.after = q;
        self.record(q).before = p;
    }

    // Takes over a new outline: each of its marks has its position recorded, and is linked with the next.
    pub(crate) fn settle(&mut self, ring: Ring)
        requires recorded { Recorded (listed ring) }
        ensures ring { self.new.ring ≡ ring }
        ensures links { Linked self.new.records (listed ring) }
        ensures marks { (p : ℕ) → held self.new.records p ≡ held self.old.records p }
    {
        // a zip of the ring with itself has no proof with this kit, so `mark` is carried along
        if let [first, rest @ ..] = &ring.marks[..] {
            let mut mark = *first;
            for (position, next) in rest.iter().enumerate() {
                self.link(mark, position, *next);
                mark = *next;
            }
            self.link(mark, rest.len(), *first);
        }
        self.ring = ring;
    }

    // Where mark x stands on the ring. A mark that is off it may have been there before, so the ring is asked what stands at its position.
    pub(crate) fn position(&self, x: usize) -> Option<usize>
        requires small { x < 128 }
        requires links { Linked self.now.records (listed self.now.ring) }
        ensures position { PositionOf (listed self.now.ring) x result }
    {
        let position = self.records[x].position;
        (self.ring.marks.get(position) == Some(&x)).then_some(position)
    }
}
