//! What reading a text answers, as text.

use cc::Turn;
use cc::faults::Fault;
use models::places::Place;
use sheet::Kind;
use std::alloc::Global;
use std::fmt::Write;

// The letter, the count, and the values that stand at the front of the list of the kind.
fn sheet_told(
    heap: Global,
    kind: Kind,
    count: usize,
    places: &[Place],
    crossings: &[usize],
    turns: &[Turn],
) -> anyhow::Result<String> {
    let mut told = format!(in heap; "{kind} {count}")?;
    let due = kind.due(count);
    // stay three loops: the values of each kind have their own type, and a place is written as two numbers
    match kind {
        Kind::Points | Kind::FlatPoints => {
            for Place { x, y } in places.iter().take(due) {
                write!(told, " {x},{y}")?;
            }
        }
        Kind::Network => {
            for crossing in crossings.iter().take(due) {
                write!(told, " {crossing}")?;
            }
        }
        Kind::Table => {
            for turn in turns.iter().take(due) {
                write!(told, " {turn}")?;
            }
        }
    }
    Ok(told)
}

// `no`, the number of a refusal and its first place.
// stays this program's own, beside the way in which a `Fault` prints: the table of cases has blanks for tabs, and always one place
fn refusal_told(heap: Global, fault: Fault) -> anyhow::Result<String> {
    let number = fault.number();
    let [place, ..] = fault.places();
    Ok(format!(in heap; "no {number} {place}")?)
}

// What `read` answers to the text, with lists of `room` entries.
pub(crate) fn answer(heap: Global, room: usize, text: &[u8]) -> anyhow::Result<String> {
    let mut places = vec![in heap; Place { x: 0, y: 0 }; room]?;
    let mut crossings = vec![in heap; 0; room]?;
    let mut turns = vec![in heap; Turn::Left; room]?;
    match sheet::read(text, &mut places, &mut crossings, &mut turns) {
        Ok((kind, count)) => sheet_told(heap, kind, count, &places, &crossings, &turns),
        Err(fault) => refusal_told(heap, fault),
    }
}
