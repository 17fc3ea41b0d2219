//! How many pairs and how many threes some marks have; the order within a pair or a three does not count.

ghost use Rattle.std.specs.Prelude.{◌≡◌, min};
ghost use Rattle.models.specs.Threes.{pairs_of, threes_of};

// The most wires of a reflection network.
pub const WIRES: usize = 32;

// How many pairs the most wires have.
pub const PAIRS: usize = 496;

// The most marks of a turn table.
pub const IN_TABLE: usize = 24;

// How many threes the most marks of a turn table have.
pub const THREES: usize = 2024;

// How many pairs n marks have; more than 32 marks are taken as 32.
pub fn pairs(n: usize) -> usize
    ensures number { result ≡ pairs_of (min n 32) }
{
    let n = n.min(WIRES);
    n * n.saturating_sub(1) / 2
}

// How many threes n marks have; more than 24 marks are taken as 24.
pub fn threes(n: usize) -> usize
    ensures number { result ≡ threes_of (min n 24) }
{
    let n = n.min(IN_TABLE);
    n * n.saturating_sub(1) * n.saturating_sub(2) / 6
}

#[cfg(test)]
mod tests {
    use super::*;

    #[test]
    fn of_the_most_marks(rt: HostRuntime) {
        assert_eq!(rt; pairs(WIRES), PAIRS);
        assert_eq!(rt; threes(IN_TABLE), THREES);
        assert_eq!(rt; pairs(5), 10);
        assert_eq!(rt; threes(2), 0);
    }
}
