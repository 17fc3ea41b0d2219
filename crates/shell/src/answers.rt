//! Answers as text.

ghost use Rattle.std.specs.Prelude.{◌≡◌, ◌++◌, string_bytes, take, OnOk};
ghost use Rattle.hull.specs.Histories.{told};
ghost use Rattle.shell.specs.Texts.{entries_of, shown};

use super::commands::Verb;
use cc::faults::Fault;
use cc::texts::Tabbed;
use hull::histories::Reply;
use std::alloc::AllocError;
use std::fmt::Write;

// The entries of the list that are shown: the ring, or one for each mark of the system.
fn entries(verb: Verb, count: usize, reply: Reply, list: &[usize]) -> &[usize]
    ensures entries { result.now ≡ take (entries_of verb count reply) list.now }
{
    let shown = match reply {
        Reply::Wrote(_) if verb == Verb::Rounds => count,
        Reply::Wrote(length) => length,
        _ => 0,
    };
    &list[..shown.min(list.len())]
}

// Adds what a call answered, in a system of so many marks; the list is as the call has left it.
pub(crate) fn put_answer(
    out: &mut String,
    verb: Verb,
    count: usize,
    reply: Result<Reply, Fault>,
    list: &[usize],
) -> Result<(), AllocError>
    ensures put { OnOk result (string_bytes out.new ≡ string_bytes out.old ++ shown count verb (told reply list.now)) }
{
    match reply {
        Ok(reply) => {
            let entries = Tabbed(entries(verb, count, reply, list));
            write!(out, "\t{reply}{entries}")
        }
        Err(fault) => write!(out, "\t{fault}"),
    }
}
