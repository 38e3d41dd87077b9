// Whether a weighing balances a plan.
ghost use Rattle.std.specs.Prelude.{◌≡◌, ◌↔◌, length, IsTrue, EachIndex, slice_index};
ghost use Rattle.net.specs.Model.{net};
ghost use Rattle.weigh.specs.Weights.{weights_of};
ghost use Rattle.weigh.specs.Sums.{weighed};
ghost use Rattle.weigh.specs.Balance.{IsUneven};
ghost use Rattle.weigh.specs.Judged.{Judged};

use super::Weighing;
use crate::imbalance::Imbalance;
use net::Plan;

// Whether a row has noughts alone.
fn is_blank(row: &[u16]) -> bool
    ensures { IsTrue result ↔ EachIndex row.now (λ p. slice_index row.now p ≡ 0) }
{
    row.iter().all(|&number| number == 0)
}

impl Weighing {
    // The weight of a row of takes or gives.
    fn weigh_row(&self, row: &[u16]) -> u64
        requires { length row.now ≡ self.now.len }
        ensures { result ≡ weighed (weights_of self.now) row.now }
    {
        self.sum_with(|p| u32::from(row[p as usize]))
    }

    // Whether move t is not idle and takes another weight than it gives. The sums of an idle move are not formed.
    fn is_uneven(&self, plan: &Plan, t: u32) -> bool
        requires { self.now.len ≡ (net plan.now).places }
        ensures { IsTrue result ↔ IsUneven (net plan.now) (weights_of self.now) t }
    {
        let (Some(takes), Some(gives)) = (plan.takes_of(t), plan.gives_of(t)) else {
            return false;
        };
        if is_blank(takes) && is_blank(gives) {
            return false;
        }
        self.weigh_row(takes) != self.weigh_row(gives)
    }

    // Whether every move of the plan takes and gives the same weight; else the lowest move that does not.
    pub fn balance(&self, plan: &Plan) -> Result<(), Imbalance>
        ensures { Judged (net plan.now) (weights_of self.now) result }
    {
        if self.len != plan.places() {
            return Err(Imbalance::OtherPlaces);
        }
        match (0..plan.moves()).find(|&t| self.is_uneven(plan, t)) {
            Some(t) => Err(Imbalance::Uneven(t)),
            None => Ok(()),
        }
    }
}
