//! Room for the values of a sheet, and reading into it.

ghost use Rattle.std.specs.Prelude.{◌≡◌, ◌≤◌, [], length, MatchResult};
ghost use Rattle.sheet.specs.Forms.{Stops, Upto};
ghost use Rattle.sheet.specs.Sheets.{Blank, Declines, Lists, Tells, marks};

use super::entries::read_lines;
use super::{Head, Kind, opening};
use cc::faults::Fault;
use cc::{LIMIT, Turn};
use models::counts::{PAIRS, THREES};
use models::places::Place;

/// The values of a sheet, and its count where that is not the number of its values.
#[derive(Clone, Copy)]
pub enum Values<'a> {
    Points(&'a [Place]),
    FlatPoints(&'a [Place]),
    Network {
        wires: usize,
        crossings: &'a [usize],
    },
    Table {
        marks: usize,
        turns: &'a [Turn],
    },
}

// Room for the values of any one sheet.
// It stays three lists, of which one is in use at a time: no memory is asked for, and values are lent as a slice of their own type.
#[derive(Drop)]
pub struct Room {
    places: [Place; LIMIT],
    crossings: [usize; PAIRS],
    turns: [Turn; THREES],
}

impl Room {
    // Room in which nothing was read: each place is 0, 0, each crossing 0, and each turn left.
    pub fn new() -> Room
        ensures blank { Blank result }
    {
        Room {
            places: [Place { x: 0, y: 0 }; LIMIT],
            crossings: [0; PAIRS],
            turns: [Turn::Left; THREES],
        }
    }

    // Reads so many places, one a line, and lends them.
    fn read_places(&mut self, text: &[u8], count: usize) -> Result<&[Place], Fault>
        requires few { count ≤ 128 }
        ensures read { MatchResult result
            (λ ps. (length ps.now ≡ count) × Upto marks text.now ps.now [])
            (Stops marks count text.now) }
    {
        let places = &mut self.places[..count];
        read_lines(text, count, places)?;
        Ok(places)
    }

    // Reads a sheet, and lends its values. A text that is refused here is refused by the function `read` too, whatever lists that is given.
    pub fn read(&mut self, text: &[u8]) -> Result<Values<'_>, Fault>
        ensures told { MatchResult result (Tells text.now) (λ fault. (room : Lists) → Declines text.now room fault) }
    {
        let (Head { kind, count }, rest) = opening(text)?;
        let due = kind.due(count);
        match kind {
            Kind::Points => Ok(Values::Points(self.read_places(rest, count)?)),
            Kind::FlatPoints => Ok(Values::FlatPoints(self.read_places(rest, count)?)),
            Kind::Network => {
                let crossings = &mut self.crossings[..due];
                read_lines(rest, count, crossings)?;
                Ok(Values::Network {
                    wires: count,
                    crossings,
                })
            }
            Kind::Table => {
                let turns = &mut self.turns[..due];
                read_lines(rest, count, turns)?;
                Ok(Values::Table {
                    marks: count,
                    turns,
                })
            }
        }
    }
}
