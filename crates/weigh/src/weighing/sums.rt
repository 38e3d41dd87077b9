// The weighed and the useful sum.
ghost use Rattle.std.specs.Prelude.{◌≡◌, ℕ, ◌*◌, ◌/◌, ◌<◌, length, slice_index};
ghost use Rattle.net.specs.Sums.{sum_below};
ghost use Rattle.net.specs.Marking.{marking};
ghost use Rattle.net.specs.Model.{net};
ghost use Rattle.weigh.specs.Weights.{weights_of};
ghost use Rattle.weigh.specs.Sums.{weighed, useful};
ghost use Rattle.weigh.specs.Balance.{FiringKeepsWeighed, FiringKeepsUseful};

use super::Weighing;
use net::{Counts, Plan};

// The count without the remainder below the unit.
fn whole_units(count: u32, unit: u32) -> u32
    requires { 0 < unit }
    ensures { result ≡ unit * (count / unit) }
{
    unit * (count / unit)
}

impl Weighing {
    // Weight × number, over all places. A closure says the number at a place.
    pub(super) fn sum_with<F: Fn(u32) -> u32>(&self, number_at: F) -> u64
        requires { (p : ℕ) → p < self.now.len → F.pre number_at p }
        ensures { (numbers : ℕ → ℕ) → ((p n : ℕ) → F.post number_at p n → n ≡ numbers p) → result ≡ sum_below (length (weights_of self.now)) (λ p. slice_index (weights_of self.now) p * numbers p) }
    {
        let mut sum = 0u64;
        for (p, &weight) in self.weights().iter().enumerate() {
            sum += u64::from(weight) * u64::from(number_at(p as u32));
        }
        sum
    }

    // Weight × count, over all places. Firing keeps it in every plan that this weighing balances.
    pub fn weighed_sum(&self, counts: &Counts) -> u64
        ensures value { result ≡ weighed (weights_of self.now) (marking counts.now) }
        ensures kept { FiringKeepsWeighed (weights_of self.now) }
    {
        self.sum_with(|p| counts.held(p))
    }

    // Weight × unit × (count divided by unit, rounded down), over all places. Firing keeps it if this weighing balances the plan.
    pub fn useful_sum(&self, plan: &Plan, counts: &Counts) -> u64
        ensures value { result ≡ useful (net plan.now) (weights_of self.now) (marking counts.now) }
        ensures kept { FiringKeepsUseful (net plan.now) (weights_of self.now) }
    {
        self.sum_with(|p| whole_units(counts.held(p), plan.unit(p)))
    }
}
