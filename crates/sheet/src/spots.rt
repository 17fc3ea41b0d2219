//! Which line of a sheet is due, and which triple a table's line tells of.

ghost use Rattle.std.specs.Prelude.{◌≡◌, ◌+◌, ◌^◌, ◌<◌, ◌≤◌};
ghost use Rattle.std.specs.Coded.{Coded-set};
ghost use Rattle.sheet.specs.Triples.{after, triple_at};

// Three marks, i < j < k.
#[derive(Clone, Copy)]
pub(crate) struct Triple {
    pub(crate) i: usize,
    pub(crate) j: usize,
    pub(crate) k: usize,
}

impl Triple {
    // The next triple in rising order, of the marks below n.
    fn following(self, n: usize) -> Triple
        requires small { (self.i + 3 < 2 ^ 64) × (self.j + 2 < 2 ^ 64) × (self.k + 1 < 2 ^ 64) }
        ensures after { result ≡ after n self }
    {
        let Triple { i, j, k } = self;
        if k + 1 < n {
            Triple { i, j, k: k + 1 }
        } else if j + 2 < n {
            Triple {
                i,
                j: j + 1,
                k: j + 2,
            }
        } else {
            Triple {
                i: i + 1,
                j: i + 2,
                k: i + 3,
            }
        }
    }
}

// A line that may be due in a sheet of so many marks: the at-th after the head, counted from 0. In a table it says how the triple turns.
#[derive(Clone, Copy)]
pub(crate) struct Spot {
    pub(crate) count: usize,
    pub(crate) at: usize,
    pub(crate) triple: Triple,
    ghost low: { at ≤ 2024 },
    ghost here: { triple ≡ triple_at count at } by { Coded-set triple-code triple (triple_at count at) },
}

impl Spot {
    // The first line after the head.
    pub(crate) fn first(count: usize) -> Spot
        ensures first { (result.count ≡ count) × (result.at ≡ 0) }
    {
        Spot {
            count,
            at: 0,
            triple: Triple { i: 0, j: 1, k: 2 },
        }
    }

    // The line after this one.
    pub(crate) fn following(self) -> Spot
        requires within { self.at < 2024 }
        ensures following { (result.count ≡ self.count) × (result.at ≡ self.at + 1) }
    {
        Spot {
            count: self.count,
            at: self.at + 1,
            triple: self.triple.following(self.count),
        }
    }

    // The line's number in the sheet, whose head is line 1.
    pub(crate) fn number(self) -> usize
        ensures number { result ≡ self.at + 2 }
    {
        self.at + 2
    }
}
