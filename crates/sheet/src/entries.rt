//! The lines after the head: one entry of a list each.

ghost use Rattle.std.specs.Prelude.{◌≡◌, ℕ, ◌+◌, ◌<◌, ◌≤◌, [], ◌∷◌, ◌++◌, length, decimal, MatchBool, MatchResult};
ghost use Rattle.sheet.specs.Fields.{Lacks, Says};
ghost use Rattle.sheet.specs.Forms.{Form, Judged, Missed, Stops, Upto};
ghost use Rattle.sheet.specs.Sheets.{crossings, marks, sixes, turns};
ghost use Rattle.sheet.specs.Triples.{triple_at};
ghost use Rattle.sheet.specs.Marks.{mark_whole};
ghost use Rattle.sheet.specs.Turnings.{crossing_whole, turn_whole};

use super::lines::{Line, formed};
use super::numbers::{coordinate, cut, is_number, six_digits};
use super::spots::{Spot, Triple};
use cc::Turn;
use cc::faults::Fault;
use models::places::Place;

// What one line after the head tells, in the sheets of a kind.
pub(crate) trait Entry: Copy + Drop {
    // The form of its lines in a sheet of so many marks.
    ghost form: { ℕ → Form Self };

    // What the line says, if it has the form. It comes without the byte 10 at its end.
    fn told(line: &[u8], spot: Spot) -> Option<Self>
        ensures told { Says ((form spot.count).Written spot.at) ((form spot.count).line spot.at) line.now result };

    // Whether it is in range, in a sheet of so many marks.
    fn fits(&self, count: usize) -> bool
        ensures fits { MatchBool result ((form count).Fits self.now) ((form count).Fits self.now → ⊥) };

    // No such line holds a byte 10.
    ghost whole: { (n at : ℕ) (v : Self) → (form n).Written at v → Lacks 10 ((form n).line at v) };
}

impl Entry for Place {
    ghost form = { λ _. marks };

    ghost whole = { λ n at v w. mark_whole v w };

    fn told(line: &[u8], _spot: Spot) -> Option<Place> {
        let Line::Mark { x, y } = formed(line)? else {
            return None;
        };
        Some(Place {
            x: coordinate(x)?,
            y: coordinate(y)?,
        })
    }

    fn fits(&self, _count: usize) -> bool {
        self.is_near()
    }
}

// A crossing, by its place.
impl Entry for usize {
    ghost form = { crossings };

    ghost whole = { λ n at v w. crossing_whole v w };

    fn told(line: &[u8], _spot: Spot) -> Option<usize> {
        let Line::Crossing { place } = formed(line)? else {
            return None;
        };
        six_digits(place)
    }

    fn fits(&self, count: usize) -> bool {
        *self < count.saturating_sub(1)
    }
}

impl Entry for Turn {
    ghost form = { turns };

    ghost whole = { λ n at v w. turn_whole (triple_at n at) v w };

    fn told(line: &[u8], spot: Spot) -> Option<Turn> {
        let Line::Turning { i, j, k, turn } = formed(line)? else {
            return None;
        };
        is_triple(i, j, k, spot.triple).then_some(turn)
    }

    fn fits(&self, _count: usize) -> bool {
        true
    }
}

// Whether the fields are the triple's marks.
fn is_triple(i: &[u8], j: &[u8], k: &[u8], triple: Triple) -> bool
    ensures same { MatchBool result (sixes triple × (i.now ≡ decimal triple.i) × (j.now ≡ decimal triple.j) × (k.now ≡ decimal triple.k)) (sixes triple → i.now ≡ decimal triple.i → j.now ≡ decimal triple.j → k.now ≡ decimal triple.k → ⊥) }
{
    is_number(i, triple.i) && is_number(j, triple.j) && is_number(k, triple.k)
}

// What the line that is due at the spot says, in range; or the refusal of that line.
fn judge<E: Entry>(line: &[u8], spot: Spot) -> Result<E, Fault>
    ensures judged { Judged (E.form spot.count) spot.at (spot.at + 2) line.now result }
{
    let entry = E::told(line, spot).ok_or(Fault::Torn(spot.number()))?;
    if entry.fits(spot.count) {
        Ok(entry)
    } else {
        Err(Fault::Outsize(spot.number()))
    }
}

// The bytes of the line with this number, which is due, and what follows its byte 10.
fn next_line(rest: &[u8], number: usize) -> Result<(&[u8], &[u8]), Fault>
    ensures line { MatchResult result (λ p. Lacks 10 p.0.now × (rest.now ≡ p.0.now ++ 10 ∷ p.1.now)) (λ e. Missed rest.now number e) }
{
    if rest.is_empty() {
        return Err(Fault::Miscounted(number));
    }
    cut(rest, b'\n').ok_or(Fault::Torn(number))
}

// Whether the text ends where the line with this number would begin; otherwise that line is one too many.
fn at_end(rest: &[u8], line: usize) -> Result<(), Fault>
    ensures end { MatchResult result (λ _. length rest.now ≡ 0) (λ e. (0 < length rest.now) × (e ≡ Fault.Miscounted line)) }
{
    if rest.is_empty() {
        Ok(())
    } else {
        Err(Fault::Miscounted(line))
    }
}

// Reads one line into each entry of the list, in their order; no text may follow these lines.
pub(crate) fn read_lines<E: Entry>(text: &[u8], count: usize, list: &mut [E]) -> Result<(), Fault>
    requires few { length list.old ≤ 2024 }
    ensures read { MatchResult result (λ _. Upto (E.form count) text.now list.new []) (λ e. Stops (E.form count) (length list.old) text.now e) }
{
    let mut rest = text;
    let mut spot = Spot::first(count);
    // `rest` and `spot` stay moved on by hand: an iterator over the lines would just end where one is missing, which is a fault here, and
    // each line's triple is made from the triple before it
    for entry in list.iter_mut() {
        let (line, after) = next_line(rest, spot.number())?;
        *entry = judge(line, spot)?;
        rest = after;
        spot = spot.following();
    }
    at_end(rest, spot.number())
}
