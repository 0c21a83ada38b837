//! Random words: the stream of a seed.
#![tactic(auto)]

ghost use Rattle.std.specs.Prelude.{◌≡◌, ◌<◌, ◌%◌, ◌+◌, ℕ};
ghost use Rattle.rw_pick.specs.Words.{seeded, next_word, after_words, word_of};

use rand_core::SeedableRng;
use rand_core::utils::NextWord;
use rand_pcg::Lcg128Xsl64;
use std::marker::Model;

/// The words of a seed that are still to come. The same seed gives the same words.
#[derive(Drop)]
pub struct Words {
    generator: Lcg128Xsl64,
}

impl Model for Words {
    ghost use Rattle.rand_pcg.specs.Lcg.{Lcg};

    ghost Value = { Lcg };

    ghost view = { λ words. words.generator };
}

impl Words {
    /// The words of the seed, of which none was taken.
    pub fn from_seed(seed: u64) -> Words
        ensures { result ≡ after_words seed 0 }
    {
        Words {
            generator: Lcg128Xsl64::seed_from_u64(seed),
        }
    }

    /// Takes the next word, and gives it modulo `n`.
    pub fn below(&mut self, n: u64) -> u64
        requires { 0 < n }
        ensures value { result ≡ (next_word self.old).0 % n }
        ensures rest { self.new ≡ (next_word self.old).1 }
        ensures below { result < n }
        ensures stream { (seed taken : ℕ) → self.old ≡ after_words seed taken → (result ≡ word_of seed taken % n) }
        ensures next { (seed taken : ℕ) → self.old ≡ after_words seed taken → self.new ≡ after_words seed (taken + 1) }
    {
        self.generator.next_word() % n
    }
}

#[cfg(test)]
mod tests;
