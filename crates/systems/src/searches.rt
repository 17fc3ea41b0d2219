//! The first three numbers, in rising order, of which a property holds.

ghost use Rattle.std.specs.Prelude.{◌≡◌, ℕ, ◌<◌, MatchBool, MatchOption};
ghost use Rattle.laws.specs.First.{FirstTriple, NeverTriple};

// A property of three rising numbers below a count, which can be tested.
// It stays a trait: what is tested and the test of it stand together once; for a closure both would be written out at each search.
pub(crate) trait OfThree {
    ghost below: { Self → ℕ };

    ghost property: { Self → ℕ → ℕ → ℕ → Type 0 };

    // The count.
    fn count(&self) -> usize
        ensures count { result ≡ below self.now };

    // Whether i < j < k have it.
    fn holds(&self, i: usize, j: usize, k: usize) -> bool
        requires rising { (i < j) × ((j < k) × (k < below self.now)) }
        ensures told { MatchBool result (property self.now i j k) (property self.now i j k → ⊥) };
}

// The first three numbers that have the property.
pub(crate) fn first_three<P: OfThree>(property: &P) -> Option<(usize, usize, usize)>
    ensures first { MatchOption result (NeverTriple (P.below property.now) (P.property property.now)) (λ t. FirstTriple (P.below property.now) (P.property property.now) t.0 t.1 t.2) }
{
    let n = property.count();
    // stays three loops: no library call finds a first three in rising order, and the label leaves all three at once
    let mut found = None;
    'search: for i in 0..n {
        for j in i + 1..n {
            for k in j + 1..n {
                if property.holds(i, j, k) {
                    found = Some((i, j, k));
                    break 'search;
                }
            }
        }
    }
    found
}
