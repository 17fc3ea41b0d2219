//! Three marks in rising order.

ghost use Rattle.std.specs.Prelude.{◌≡◌, ◌<◌, not, if◌then◌else◌, MatchBool, MatchOption};
ghost use Rattle.laws.specs.Systems.{Three};
ghost use Rattle.systems.specs.Orders.{is_left, Ordered};

use cc::Turn;

// Three different marks in rising order, and whether they turn as they do in the order in which they were given.
#[derive(Clone, Copy)]
pub struct Order {
    pub low: usize,
    pub mid: usize,
    pub high: usize,
    // stays a flag: it answers one question, whether the turn is the same, and `turn` compares it with the answer to another
    pub same: bool,
}

impl Order {
    // The turn of the marks as they were given, from whether they turn left in rising order.
    pub fn turn(&self, left: bool) -> Turn
        ensures turn { is_left result ≡ (if self.now.same then left else not left) }
    {
        turned(left == self.same)
    }
}

// How marks turn, from whether they turn left.
// It stays a function: `Turn::from(true)` would not say which way.
pub(crate) fn turned(left: bool) -> Turn
    ensures turned { is_left result ≡ left }
{
    if left { Turn::Left } else { Turn::Right }
}

// Whether p, q and r are three different marks below n.
pub(crate) fn are_three(n: usize, p: usize, q: usize, r: usize) -> bool
    ensures three { MatchBool result (Three n p q r) (Three n p q r → ⊥) }
{
    p < n && q < n && r < n && p != q && q != r && r != p
}

// Three different marks below n in rising order; none where one is not below n or two are alike.
pub fn in_order(n: usize, p: usize, q: usize, r: usize) -> Option<Order>
    ensures ordered { MatchOption result (Three n p q r → ⊥) (λ t. Ordered n p q r t.low t.mid t.high t.same) }
{
    // stays an `if` that returns, here and in the `turn` of points and stars: with `then` the proof does not close
    if !are_three(n, p, q, r) {
        return None;
    }
    Some(sorted(n, p, q, r))
}

// The marks in rising order.
// It stays a tree of questions: a sort of the three would lose whether they turn as they did.
fn sorted(n: usize, p: usize, q: usize, r: usize) -> Order
    requires { Three n p q r }
    ensures ordered { Ordered n p q r result.low result.mid result.high result.same }
{
    if p < q {
        if q < r {
            Order {
                low: p,
                mid: q,
                high: r,
                same: true,
            }
        } else if p < r {
            Order {
                low: p,
                mid: r,
                high: q,
                same: false,
            }
        } else {
            Order {
                low: r,
                mid: p,
                high: q,
                same: true,
            }
        }
    } else if p < r {
        Order {
            low: q,
            mid: p,
            high: r,
            same: false,
        }
    } else if q < r {
        Order {
            low: q,
            mid: r,
            high: p,
            same: true,
        }
    } else {
        Order {
            low: r,
            mid: q,
            high: p,
            same: false,
        }
    }
}
