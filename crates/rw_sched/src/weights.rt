//! The weights of a draw.

ghost use Rattle.std.specs.Prelude.{◌≡◌, ◌≤◌, ◌<◌, ◌&&◌, length, nat_le};
ghost use Rattle.std.specs.List.{list_all};
ghost use Rattle.rw_sched.specs.Schedules.{total};
ghost use Rattle.rw_sched.specs.ScheduleFaults.{is_small};
ghost use Rattle.rw_sched.specs.Machine.{drawn, IsPortOf};

use std::marker::Model;

/// The weights of a draw, one for each port.
#[derive(Drop)]
pub struct Weights {
    weights: Vec<u32>,
}

impl Model for Weights {
    ghost use Rattle.std.specs.Prelude.{ℕ, List};

    ghost Value = { List ℕ };

    ghost view = { λ weights. weights.weights.items };
}

impl Weights {
    pub fn of(weights: Vec<u32>) -> Weights
        ensures { result ≡ weights.items }
    {
        Weights { weights }
    }

    /// Their number.
    pub fn len(&self) -> usize
        ensures { result ≡ length self.now }
    {
        self.weights.len()
    }

    /// The sum of the weights.
    pub fn total(&self) -> u64
        requires { length self.now ≤ 64 }
        ensures { result ≡ total self.now }
    {
        let mut sum: u64 = 0;
        for weight in self.weights.as_slice() {
            sum += *weight as u64;
        }
        sum
    }

    /// Whether there are 1 to 64 weights, each 1 to 1,000,000.
    pub fn are_within_limits(&self) -> bool
        ensures { result ≡ (nat_le 1 (length self.now) && nat_le (length self.now) 64 && list_all is_small self.now) }
    {
        1 <= self.weights.len() && self.weights.len() <= 64 && are_small(self.weights.as_slice())
    }

    /// The least port at which the residue is below the sum of the weights up to there.
    pub(crate) fn port(&self, residue: u64) -> usize
        ensures value { result ≡ drawn self.now residue }
        ensures least { residue < total self.now → IsPortOf self.now residue result }
    {
        self.drawn(residue)
    }

    /// The port of a residue: the weights are gone through, each taken from the residue.
    fn drawn(&self, residue: u64) -> usize
        ensures { result ≡ drawn self.now residue }
    {
        let mut left = residue;
        for (port, weight) in self.weights.iter().enumerate() {
            if left < *weight as u64 {
                return port;
            }
            left -= *weight as u64;
        }
        self.weights.len()
    }
}

/// Whether a weight or a count is 1 to 1,000,000.
pub fn is_small(number: u32) -> bool
    ensures { result ≡ is_small number }
{
    1 <= number && number <= 1_000_000
}

/// Whether each weight is 1 to 1,000,000.
fn are_small(weights: &[u32]) -> bool
    ensures { result ≡ list_all is_small weights.now }
{
    weights.iter().all(|weight| is_small(*weight))
}
