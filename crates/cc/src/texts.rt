//! Numbers, turns and refusals as text.

ghost use Rattle.std.specs.Prelude.{[], ◌∷◌, Some};
ghost use Rattle.cc.specs.Texts.{Sided, refused, side, tabbed, unknown};

use super::Turn;
use super::faults::Fault;
use std::error::Error;
use std::fmt;

// Numbers, each after a tab.
#[derive(Clone, Copy)]
pub struct Tabbed<'a>(pub &'a [usize]);

impl<'a> fmt::Display for Tabbed<'a> {
    ghost output = { λ numbers. Some (tabbed numbers.0.now) };

    fn fmt<W: fmt::Write>(&self, f: &mut fmt::Formatter<W>) -> fmt::Result {
        for number in self.0 {
            write!(f, "\t{number}")?;
        }
        Ok(())
    }
}

// `no`, the number of the refusal and the places that it uses, each after a tab.
impl fmt::Display for Fault {
    ghost output = { λ fault. Some (refused fault) };

    fn fmt<W: fmt::Write>(&self, f: &mut fmt::Formatter<W>) -> fmt::Result {
        let number = self.number();
        let places = self.places();
        let used = Tabbed(&places[..self.places_used()]);
        write!(f, "no\t{number}{used}")
    }
}

// A letter that stands for nothing where it was read.
#[derive(Clone, Copy, PartialEq, Eq, Debug)]
pub struct UnknownLetter(pub u8);

impl fmt::Display for UnknownLetter {
    ghost output = { λ letter. Some (unknown letter.0) };

    fn fmt<W: fmt::Write>(&self, f: &mut fmt::Formatter<W>) -> fmt::Result {
        write!(f, "unknown letter {}", self.0)
    }
}

impl Error for UnknownLetter {}

// L or R.
impl fmt::Display for Turn {
    ghost output = { λ turn. Some (side turn ∷ []) };

    fn fmt<W: fmt::Write>(&self, f: &mut fmt::Formatter<W>) -> fmt::Result {
        f.write_str(match self {
            Turn::Left => "L",
            Turn::Right => "R",
        })
    }
}

// The turn that L or R stands for.
impl TryFrom<u8> for Turn {
    type Error = UnknownLetter;

    ghost try_from_gives = { Sided };

    fn try_from(letter: u8) -> Result<Turn, UnknownLetter> {
        match char::from(letter) {
            'L' => Ok(Turn::Left),
            'R' => Ok(Turn::Right),
            _ => Err(UnknownLetter(letter)),
        }
    }
}

#[cfg(test)]
mod tests {
    use super::*;
    use std::test::Fail;

    #[test]
    fn a_turn_has_its_letter(rt: HostRuntime) -> Result<(), Fail> {
        assert_eq!(rt; Turn::try_from(b'R'), Ok(Turn::Right));
        assert_eq!(rt; Turn::try_from(b'r'), Err(UnknownLetter(114)));
        assert_eq!(rt; format!(in rt.alloc(); "{}", Turn::Left)?.as_str(), "L");
        assert_eq!(rt;
            format!(in rt.alloc(); "{}", UnknownLetter(114))?.as_str(),
            "unknown letter 114"
        );
        Ok(())
    }
}
