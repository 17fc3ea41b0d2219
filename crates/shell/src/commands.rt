//! The calls that a line can ask for.

ghost use Rattle.std.specs.Prelude.{◌≡◌, Some, MatchBool, MatchOption, ◌≢◌};
ghost use Rattle.sheet.specs.Fields.{Says};
ghost use Rattle.shell.specs.Commands.{Fits, name, written};

use sheet::numbers::{cut, number};
use std::fmt;

// The word of a call that goes with a number.
#[derive(Clone, Copy, PartialEq, Eq, Debug)]
pub enum Verb {
    Add,
    Drop,
    Place,
    Neighbours,
    Outline,
    Rounds,
}

// All the calls.
const VERBS: [Verb; 6] = [
    Verb::Add,
    Verb::Drop,
    Verb::Place,
    Verb::Neighbours,
    Verb::Outline,
    Verb::Rounds,
];

// A call: its word and its number, which is a mark, or the length of the list that is handed over.
// Stays a struct: each of the six words goes with a number, and six cases with one each would leave no list of the words.
#[derive(Clone, Copy, PartialEq, Eq, Debug)]
pub struct Call {
    pub verb: Verb,
    pub number: usize,
}

// What a line asks for.
#[derive(Clone, Copy, PartialEq, Eq, Debug)]
pub enum Command {
    Call(Call),
    Census,
}

impl Verb {
    // The word of the call.
    pub fn word(self) -> &'static str
        ensures word { result.now ≡ name self }
    {
        match self {
            Verb::Add => "add",
            Verb::Drop => "drop",
            Verb::Place => "place",
            Verb::Neighbours => "neighbours",
            Verb::Outline => "outline",
            Verb::Rounds => "rounds",
        }
    }
}

// A verb prints as its word.
impl fmt::Display for Verb {
    ghost output = { λ verb. Some (name verb) };

    fn fmt<W: fmt::Write>(&self, f: &mut fmt::Formatter<W>) -> fmt::Result {
        f.write_str(self.word())
    }
}

// Whether the bytes are those of the word.
// Stays a function: without it each place would compare with `b"census".as_slice()` or `verb.word().as_bytes()`, which is no plainer.
pub(crate) fn is(bytes: &[u8], word: &str) -> bool
    ensures same { MatchBool result (bytes.now ≡ word.now) (bytes.now ≢ word.now) }
{
    bytes == word.as_bytes()
}

// The call that a word names.
// stays an `Option`, and no `TryFrom`: there is one way to be no word of a call, and an error would say nothing more
fn verb_of(word: &[u8]) -> Option<Verb>
    ensures verb { MatchOption result ((v : Verb) → word.now ≢ name v) (λ v. word.now ≡ name v) }
{
    VERBS.iter().copied().find(|verb| is(word, verb.word()))
}

// What a line asks for; none where it is no call.
// stays an `Option`: there is one way to be no call, and an error would say nothing more
pub fn parse(line: &[u8]) -> Option<Command>
    ensures command { Says Fits written line.now result }
{
    if is(line, "census") {
        return Some(Command::Census);
    }
    let (word, digits) = cut(line, b' ')?;
    Some(Command::Call(Call {
        verb: verb_of(word)?,
        number: number(digits, usize::MAX)?,
    }))
}
