//! A line and its fields.

ghost use Rattle.std.specs.Prelude.{[], ◌∷◌};
ghost use Rattle.std.specs.Option.{option_map};
ghost use Rattle.cc.specs.Texts.{side};
ghost use Rattle.sheet.specs.Fields.{Says};
ghost use Rattle.sheet.specs.Shapes.{Parted, shape, spelled};

use super::Kind;
use super::numbers::cut;
use cc::Turn;

// A line of a sheet, with its fields as parts of the text.
#[derive(Clone, Copy)]
pub(crate) enum Line<'a> {
    Head {
        kind: Kind,
        count: &'a [u8],
    },
    Mark {
        x: &'a [u8],
        y: &'a [u8],
    },
    Crossing {
        place: &'a [u8],
    },
    Turning {
        i: &'a [u8],
        j: &'a [u8],
        k: &'a [u8],
        turn: Turn,
    },
}

// The turn that the field tells: left exactly for the one byte L, right exactly for R, and none for every other field, empty and longer
// ones among them.
fn turn_told(field: &[u8]) -> Option<Turn>
    ensures told { Says (λ _. Unit {0}) (λ turn. side turn ∷ []) field.now result }
{
    let mut letters = field.iter().copied().map(char::from);
    match (letters.next(), letters.next()) {
        (Some('L'), None) => Some(Turn::Left),
        (Some('R'), None) => Some(Turn::Right),
        _ => None,
    }
}

// The line of a turn, from what stands after its letter and the tab; none where these are not the fields of a turn.
fn turning_fields(fields: &[u8]) -> Option<Line<'_>>
    ensures fields { Says Parted spelled (116 ∷ 9 ∷ fields.now) (option_map shape result) }
{
    let (i, after_i) = cut(fields, b'\t')?;
    let (j, after_j) = cut(after_i, b'\t')?;
    let (k, last) = cut(after_j, b'\t')?;
    let turn = turn_told(last)?;
    Some(Line::Turning { i, j, k, turn })
}

// The line that the bytes are, without the byte 10 at its end; none where they have no line's form.
// stays an `Option`: there is one way to be no line, and an error would say nothing more
pub(crate) fn formed(bytes: &[u8]) -> Option<Line<'_>>
    ensures formed { Says Parted spelled bytes.now (option_map shape result) }
{
    let [letter, b'\t', fields @ ..] = bytes else {
        return None;
    };
    match char::from(*letter) {
        'm' => {
            let (x, y) = cut(fields, b'\t')?;
            Some(Line::Mark { x, y })
        }
        'c' => Some(Line::Crossing { place: fields }),
        't' => turning_fields(fields),
        _ => Some(Line::Head {
            kind: Kind::try_from(*letter).ok()?,
            count: fields,
        }),
    }
}
