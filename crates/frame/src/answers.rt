//! What the answers to calls are worth, modulo 2^64.

ghost use Rattle.std.specs.Prelude.{◌≡◌, ◌+◌, [], Ok, sum};
ghost use Rattle.hull.specs.declared.histories.Reply.TheVariants as reply;
ghost use Rattle.hull.specs.Histories.{told};
ghost use Rattle.frame.specs.Tallies.{worth, wrapped};

use cc::faults::Fault;
use hull::answers::{Added, Placed, Side};
use hull::histories::Reply;

// A number and the entries of a list, added up.
fn sum_of(first: usize, list: &[usize]) -> usize
    ensures sum { result ≡ wrapped (first + sum list.now) }
{
    list.iter()
        .fold(first, |all, value| all.wrapping_add(*value))
}

// What an add is worth: how many marks left, one more on the edge, and the units.
fn of_added(added: Added) -> usize
    ensures worth { result ≡ wrapped (worth (told (Ok (reply.Added added)) [])) }
{
    let Added { side, left, units } = added;
    match side {
        Side::Edge => left.wrapping_add(1).wrapping_add(units),
        Side::Inside => left.wrapping_add(units),
    }
}

// What an answer is worth, with the list as the call has left it.
pub(crate) fn worth(reply: Result<Reply, Fault>, list: &[usize]) -> usize
    ensures worth { result ≡ wrapped (worth (told reply list.now)) }
{
    match reply {
        Ok(Reply::Added(added)) => of_added(added),
        Ok(Reply::Dropped(came)) => came,
        Ok(Reply::Placed(Placed::Edge(position))) => position,
        Ok(Reply::Placed(Placed::Inside(first, second)) | Reply::Beside(first, second)) => {
            first.wrapping_add(second)
        }
        Ok(Reply::Wrote(number)) => sum_of(number, list),
        Err(fault) => fault.number(),
    }
}
