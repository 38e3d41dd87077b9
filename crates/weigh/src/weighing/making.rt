// How a weighing is made, and its weights.
ghost use Rattle.std.specs.Prelude.{◌≡◌, ◌<◌, ◌≤◌, length, MatchOption, slice_index};
ghost use Rattle.weigh.specs.Weights.{weights_of, AreWeights};

use super::{MOST_WEIGHT, Weighing};
use net::MOST_PLACES;

impl Weighing {
    // The weighing with these weights; none unless there are 1 to 16 of them, each 1 to 1,000.
    pub fn new(numbers: &[u16]) -> Option<Weighing>
        ensures { MatchOption result (AreWeights numbers.now → ⊥) (λ w. AreWeights numbers.now × (weights_of w ≡ numbers.now)) }
    {
        if numbers.is_empty()
            || numbers.len() > MOST_PLACES as usize
            || numbers
                .iter()
                .any(|&weight| weight < 1 || weight > MOST_WEIGHT)
        {
            return None;
        }
        let mut weights = [0u16; 16];
        weights[..numbers.len()].copy_from_slice(numbers);
        Some(Weighing {
            weights,
            len: numbers.len() as u32,
        })
    }

    pub fn places(&self) -> u32
        ensures value { result ≡ length (weights_of self.now) }
        ensures range { (1 ≤ result) × (result ≤ 16) }
    {
        self.len
    }

    // The weight of each place.
    pub fn weights(&self) -> &[u16]
        ensures { result.now ≡ weights_of self.now }
    {
        &self.weights[..self.len as usize]
    }

    // The weight of a place, absent where the weighing has no such place.
    pub fn weight(&self, p: u32) -> Option<u16>
        ensures { MatchOption result (length (weights_of self.now) ≤ p) (λ n. (p < length (weights_of self.now)) × (n ≡ slice_index (weights_of self.now) p) × (1 ≤ n) × (n ≤ 1000)) }
    {
        self.weights().get(p as usize).copied()
    }
}
