//! The marks that are in as bits.

ghost use Rattle.std.specs.Prelude.{◌≡◌, ℕ, ◌+◌, ◌<◌, ◌≤◌};
ghost use Rattle.hull.specs.Records.{held};
ghost use Rattle.hull.specs.Words.{word_of, Census};

use super::records::HullState;

impl HullState {
    // The 64 marks from `base` on, as bits.
    fn word(&self, base: usize) -> u64
        requires small { base ≤ 64 }
        ensures word { result ≡ word_of (held self.now.records) base 64 }
    {
        self.records[base..base + 64]
            .iter()
            .rev()
            .fold(0, |word, record| word << 1 | u64::from(record.is_in))
    }

    // The marks from 64 on, as bits.
    fn high_word(&self) -> u64
        ensures word { result ≡ word_of (held self.now.records) 64 64 }
    {
        self.word(64)
    }

    // The marks that are in, as the bits of two words, and how many they are.
    pub(crate) fn census(&self) -> (u64, u64, usize)
        ensures census { Census (held self.now.records) result }
    {
        let low = self.word(0);
        let high = self.high_word();
        (low, high, (low.count_ones() + high.count_ones()) as usize)
    }
}
