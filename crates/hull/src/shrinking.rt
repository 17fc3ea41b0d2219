//! One mark less on a ring.

ghost use Rattle.std.specs.Prelude.{◌≡◌, ℕ, ◌+◌, ◌<◌, ◌≤◌, ◌≢◌, Bool, T, ◌++◌, length, take, drop, slice_index};
ghost use Rattle.laws.specs.Outlines.{Marks, Arc, Outline};
ghost use Rattle.laws.specs.Theorems.{of};
ghost use Rattle.runs.specs.Calls.{RingOf};
ghost use Rattle.hull.specs.Rings.{listed, Surrounds, Reached, ComesBefore, Open};
ghost use Rattle.hull.specs.Records.{flagged};

use super::growing::lies_right;
use super::rings::Ring;
use cc::{CcSystem, LIMIT};

// Whether x comes before q about p, which it does where it lies to the right of the way from p to q.
fn comes_before<S: CcSystem>(system: &S, p: usize, q: usize, x: usize) -> bool
    requires p { p < (S.CcSystem.meaning system.now).count }
    requires q { q < (S.CcSystem.meaning system.now).count }
    requires x { x < (S.CcSystem.meaning system.now).count }
    requires apart { p ≢ q }
    ensures before { ComesBefore (S.CcSystem.meaning system.now) p q x result }
{
    x != p && x != q && lies_right(system, p, q, x)
}

// The mark to which an arc of the flagged marks leads from p: the first of them about p. `some` is one of them, from which the search starts.
fn follower<S: CcSystem>(system: &S, flags: &[bool; LIMIT], p: usize, some: usize) -> usize
    requires marks { Marks (S.CcSystem.meaning system.now) (of (flagged flags.now)) }
    requires reached { Reached (S.CcSystem.meaning system.now) (flagged flags.now) p }
    requires some { T (flagged flags.now some) }
    requires apart { p ≢ some }
    ensures arc { Arc (S.CcSystem.meaning system.now) (of (flagged flags.now)) p result }
{
    let mut first = some;
    for (mark, is_in) in flags[..system.count()].iter().enumerate() {
        if *is_in && comes_before(system, p, first, mark) {
            first = mark;
        }
    }
    first
}

impl Ring {
    // The ring from the mark after a position on, to the mark before that position.
    fn opened_at(&self, position: usize) -> Ring
        requires inside { position < length (listed self.now) }
        ensures opened { listed result
            ≡ drop (position + 1) (listed self.now) ++ take position (listed self.now) }
    {
        let mut ring = self.copy();
        ring.marks.rotate_left(position + 1);
        ring.marks.pop();
        ring
    }

    // Goes on from the last mark along arcs of the flagged marks, until the ring is round.
    fn close<S: CcSystem>(&mut self, system: &S, flags: &[bool; LIMIT])
        requires marks { Marks (S.CcSystem.meaning system.now) (of (flagged flags.now)) }
        requires open { Open (S.CcSystem.meaning system.now) (flagged flags.now) (listed self.old) }
        ensures round { Outline (S.CcSystem.meaning system.now) (of (flagged flags.now))
            (listed self.new) }
    {
        let first = self.marks[0];
        let mut next = follower(system, flags, self.marks[self.marks.len() - 1], first);
        while next != first {
            self.marks.push(next);
            next = follower(system, flags, next, first);
        }
    }

    // This ring goes around the flagged marks and the mark at a position of it: the ring around the flagged marks alone, from its lowest mark
    // on.
    pub(crate) fn shrink<S: CcSystem>(
        &self,
        system: &S,
        flags: &[bool; LIMIT],
        position: usize,
    ) -> Ring
        requires inside { position < length (listed self.now) }
        requires surrounds { Surrounds (S.CcSystem.meaning system.now) (flagged flags.now)
            (listed self.now) (slice_index (listed self.now) position) }
        ensures ring { RingOf (S.CcSystem.meaning system.now) (flagged flags.now) (listed result) }
    {
        let mut ring = self.opened_at(position);
        if ring.marks.len() > 1 {
            ring.close(system, flags);
        }
        ring.start_at_lowest();
        ring
    }
}
