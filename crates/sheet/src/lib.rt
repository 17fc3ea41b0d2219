//! The text format of the library's inputs, read exactly.
//!
//! A sheet tells a list of places, as points or as flat points, the crossings of a reflection network, or a table of turns (docs/SHEETS.md).
//! `specs/Sheets` says what the text of a sheet is; `read` gives back the one sheet that a text is, or says where it stops being one.

#![tactic(auto)]

mod entries;
mod lines;
pub mod numbers;
mod rooms;
mod spots;

ghost use Rattle.std.specs.Prelude.{◌≡◌, ◌<◌, ◌≤◌, [], ◌∷◌, ◌++◌, drop, length, min, Some, MatchBool, MatchResult};
ghost use Rattle.sheet.specs.Fields.{Says, Six};
ghost use Rattle.sheet.specs.Shapes.{Lettered, letter};
ghost use Rattle.sheet.specs.Sheets.{Answers, Opens, Unopened, due, heads, limit, lists};
ghost use Rattle.sheet.specs.Theorems.{AllTriples, EveryTable, FirstLine, OneAnswer, RoundTrip, ShortEnough};

use cc::faults::Fault;
use cc::lists::copy_front;
pub use cc::texts::UnknownLetter;
use cc::{LIMIT, Turn};
use lines::{Line, formed};
use models::counts::{IN_TABLE, WIRES, pairs, threes};
use models::places::Place;
use numbers::{cut, six_digits};
pub use rooms::{Room, Values};
use std::fmt;

// The most bytes that a sheet's text may have.
const LONGEST: usize = 32_768;

/// The kind of a sheet, by what it tells: places as points (its letter is P) or as flat points, of which three or more may lie on one line
/// (F), the crossings of a network (W), or a table of turns (T).
#[derive(Clone, Copy, PartialEq, Eq, Debug)]
pub enum Kind {
    Points,
    FlatPoints,
    Network,
    Table,
}

impl Kind {
    // The greatest count that a sheet of the kind may have.
    pub fn limit(self) -> usize
        ensures limit { result ≡ limit self }
    {
        match self {
            Kind::Points | Kind::FlatPoints => LIMIT,
            Kind::Network => WIRES,
            Kind::Table => IN_TABLE,
        }
    }

    // How many lines follow the head in a sheet of so many marks: one for each mark, for each pair, or for each triple.
    // A count beyond the limit is taken as the limit.
    pub fn due(self, count: usize) -> usize
        ensures due { result ≡ due self (min count (limit self)) }
    {
        match self {
            Kind::Points | Kind::FlatPoints => count.min(self.limit()),
            Kind::Network => pairs(count),
            Kind::Table => threes(count),
        }
    }
}

// The kind whose letter it is.
impl TryFrom<u8> for Kind {
    type Error = UnknownLetter;

    ghost try_from_gives = { Lettered };

    fn try_from(letter: u8) -> Result<Kind, UnknownLetter> {
        match char::from(letter) {
            'P' => Ok(Kind::Points),
            'F' => Ok(Kind::FlatPoints),
            'W' => Ok(Kind::Network),
            'T' => Ok(Kind::Table),
            _ => Err(UnknownLetter(letter)),
        }
    }
}

// A kind prints as its letter.
impl fmt::Display for Kind {
    ghost output = { λ kind. Some (letter kind ∷ []) };

    fn fmt<W: fmt::Write>(&self, f: &mut fmt::Formatter<W>) -> fmt::Result {
        f.write_str(match self {
            Kind::Points => "P",
            Kind::FlatPoints => "F",
            Kind::Network => "W",
            Kind::Table => "T",
        })
    }
}

// What a sheet's first line tells.
#[derive(Clone, Copy)]
struct Head {
    kind: Kind,
    count: usize,
}

// The head that a line says, if it says one. The line comes without the byte 10 at its end.
fn head_told(line: &[u8]) -> Option<Head>
    ensures told { Says (λ h. Six h.count) (λ h. heads.line 0 (h.kind, h.count)) line.now result }
{
    let Line::Head { kind, count } = formed(line)? else {
        return None;
    };
    Some(Head {
        kind,
        count: six_digits(count)?,
    })
}

// A text's head, in range, and what follows its line; or the refusal of the text's length or of its head.
fn opening(text: &[u8]) -> Result<(Head, &[u8]), Fault>
    ensures opened { MatchResult result (λ o. Opens text.now o.0.kind o.0.count o.1.now) (λ e. Unopened text.now e) }
{
    if text.len() > LONGEST {
        return Err(Fault::Outsize(0));
    }
    let torn = Fault::Torn(1);
    let (line, rest) = cut(text, b'\n').ok_or(torn)?;
    let head = head_told(line).ok_or(torn)?;
    if head.count <= head.kind.limit() {
        Ok((head, rest))
    } else {
        Err(Fault::Outsize(1))
    }
}

// Reads a sheet into the front of the list of its kind, and answers its kind and count; a refused text leaves the three lists as they are.
pub fn read(
    text: &[u8],
    places: &mut [Place],
    crossings: &mut [usize],
    turns: &mut [Turn],
) -> Result<(Kind, usize), Fault>
    ensures answers { Answers text.now (lists places.old crossings.old turns.old) (lists places.new crossings.new turns.new) result }
{
    let mut room = Room::new();
    match room.read(text)? {
        Values::Points(values) => Ok((Kind::Points, copy_front(values, places)?)),
        Values::FlatPoints(values) => Ok((Kind::FlatPoints, copy_front(values, places)?)),
        Values::Network {
            wires,
            crossings: values,
        } => {
            copy_front(values, crossings)?;
            Ok((Kind::Network, wires))
        }
        Values::Table {
            marks,
            turns: values,
        } => {
            copy_front(values, turns)?;
            Ok((Kind::Table, marks))
        }
    }
}

// The promise of `read` leaves one answer for each text and its lists, and a refusal names the first line at which the text stops being the
// beginning of a sheet. These are theorems, as are those of the two functions below: the contracts say them, and there is no code.
pub fn one_answer_stands()
    ensures one { OneAnswer }
    ensures line { FirstLine }
{}

// The triples of a table's lines are all triples of its marks, each once, in rising order.
pub fn triples_stand()
    ensures all { AllTriples }
{}

// The text of a sheet is read back as that sheet, no sheet in range is too long, and every table of turns has a sheet.
pub fn round_trip_stands()
    ensures back { RoundTrip }
    ensures short { ShortEnough }
    ensures tables { EveryTable }
{}

#[cfg(test)]
mod tests {
    use super::numbers::number;
    use super::*;
    use models::counts::THREES;
    use std::test::Fail;

    #[test]
    fn a_table_is_read(rt: HostRuntime) -> Result<(), Fail> {
        let mut turns = [Turn::Left; 2];
        let answer = read(b"T\t3\nt\t0\t1\t2\tR\n", &mut [], &mut [], &mut turns)?;
        assert_eq!(rt; answer, (Kind::Table, 3));
        assert_eq!(rt; turns[0], Turn::Right);
        assert_eq!(rt; turns[1], Turn::Left);
        Ok(())
    }

    #[test]
    fn a_refusal_writes_nothing(rt: HostRuntime) {
        let mut crossings = [7, 7, 7];
        let answer = read(
            b"W\t3\nc\t0\nc\t1\nc\t2\n",
            &mut [],
            &mut crossings,
            &mut [],
        );
        assert_eq!(rt; answer, Err(Fault::Outsize(4)));
        assert_eq!(rt; crossings, [7, 7, 7]);
    }

    #[test]
    fn a_room_lends_values(rt: HostRuntime) -> Result<(), Fail> {
        let mut room = Room::new();
        let points = room.read(b"P\t2\nm\t-1\t5\nm\t0\t-10000\n")?;
        assert!(rt;
            matches!(
                points,
                Values::Points([Place { x: -1, y: 5 }, Place { x: 0, y: -10_000 }])
            )
        );
        let flat_points = room.read(b"F\t3\nm\t0\t0\nm\t0\t1\nm\t0\t2\n")?;
        assert!(rt;
            matches!(
                flat_points,
                Values::FlatPoints([
                    Place { x: 0, y: 0 },
                    Place { x: 0, y: 1 },
                    Place { x: 0, y: 2 }
                ])
            )
        );
        let network = room.read(b"W\t2\nc\t0\n")?;
        assert!(rt;
            matches!(
                network,
                Values::Network {
                    wires: 2,
                    crossings: [0]
                }
            )
        );
        let table = room.read(b"T\t3\nt\t0\t1\t2\tR\n")?;
        assert!(rt;
            matches!(
                table,
                Values::Table {
                    marks: 3,
                    turns: [Turn::Right]
                }
            )
        );
        assert!(rt; matches!(room.read(b"T\t3\n"), Err(Fault::Miscounted(2))));
        Ok(())
    }

    #[test]
    fn a_kind_has_its_letter(rt: HostRuntime) -> Result<(), Fail> {
        assert_eq!(rt; Kind::try_from(b'W'), Ok(Kind::Network));
        assert_eq!(rt; Kind::try_from(b'F'), Ok(Kind::FlatPoints));
        assert_eq!(rt; Kind::try_from(b'w'), Err(UnknownLetter(b'w')));
        assert_eq!(rt; format!(in rt.alloc(); "{}", Kind::Table)?.as_str(), "T");
        assert_eq!(rt;
            format!(in rt.alloc(); "{}", Kind::FlatPoints)?.as_str(),
            "F"
        );
        assert_eq!(rt; Kind::Table.due(Kind::Table.limit()), THREES);
        Ok(())
    }

    #[test]
    fn a_number_is_cut_off(rt: HostRuntime) {
        assert!(rt; matches!(cut(b"12 7", b' '), Some((b"12", b"7"))));
        assert!(rt; cut(b"12", b' ').is_none());
        assert_eq!(rt;
            number(b"18446744073709551615", usize::MAX),
            Some(usize::MAX)
        );
        assert_eq!(rt; number(b"18446744073709551616", usize::MAX), None);
        assert_eq!(rt; number(b"7", 6), None);
        assert_eq!(rt; number(b"+7", 7), None);
        assert_eq!(rt; number(b"07", 7), None);
        assert_eq!(rt; number(b"", 7), None);
    }
}
