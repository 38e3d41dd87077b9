// A board in units of a plan.
ghost use Rattle.std.specs.Prelude.{◌≡◌, length, replicate};
ghost use Rattle.net.specs.Model.{net};
ghost use Rattle.units.specs.Units.{counts_in_units, limits_in_units};
ghost use Rattle.units.specs.Frames.{UnitsFrame};
ghost use Rattle.units.specs.Few.{units-few};
ghost use Rattle.units.specs.Parts.{PartsAt};
ghost use Rattle.units.specs.Scales.{ScaledAt};

use crate::parts::InUnits;
use crate::scale::Scale;
use board::{Board, NotSet, ReadBoard};
use net::Plan;

// A board that counts full units on the board below, and keeps the rests itself. A rest counts modulo the unit, so it is less than a unit.
#[derive(Drop)]
pub struct UnitsBoard<'p, 'b, B> {
    plan: &'p Plan,
    below: &'b mut B,
    rests: [u32; 16],
}

impl<'p, 'b, B: Board> UnitsBoard<'p, 'b, B> {
    // The board in units of the plan, with no rest yet.
    pub fn new(plan: &'p Plan, below: &'b mut B) -> UnitsBoard<'p, 'b, B>
        ensures plan { result.plan.now ≡ plan.now }
        ensures below { result.below.now ≡ below.old }
        ensures same { result.below.ghost_name ≡ below.entry.ghost_name }
        ensures rests { result.rests ≡ replicate 16 0 }
    {
        UnitsBoard {
            plan,
            below,
            rests: [0; 16],
        }
    }

    // The count at a place in full units and a loose rest, absent where there is no such place.
    pub fn in_units(&self, p: u32) -> Option<InUnits>
        ensures { PartsAt (net self.now.plan.now) (B.Board.limits self.now.below.now) (B.ReadBoard.counts self.now.below.now) self.now.rests p result }
    {
        let scale = self.scale(p)?;
        let full = self.below.count(p)?;
        Some(InUnits {
            unit: scale.unit,
            full,
            loose: self.rests[p as usize] % scale.unit,
        })
    }

    // The unit and the limit below at a place, absent where there is no such place.
    fn scale(&self, p: u32) -> Option<Scale>
        ensures { ScaledAt (net self.now.plan.now) (B.Board.limits self.now.below.now) (B.ReadBoard.counts self.now.below.now) p result }
    {
        let limit = self.below.limit(p)?;
        Some(Scale::over(self.plan, p, limit))
    }
}

impl<'p, 'b, B: Board> ReadBoard for UnitsBoard<'p, 'b, B> {
    ghost counts = { λ s. counts_in_units (net s.plan.now) (B.Board.limits s.below.now) (B.ReadBoard.counts s.below.now) s.rests };

    fn places(&self) -> u32 {
        self.below.places()
    }

    fn count(&self, p: u32) -> Option<u32> {
        let parts = self.in_units(p)?;
        Some(parts.whole() as u32)
    }

    ghost few = { λ s. units-few (net s.plan.now) (B.Board.limits s.below.now) (B.ReadBoard.counts s.below.now) s.rests (B.ReadBoard.few s.below.now) };
}

impl<'p, 'b, B: Board> Board for UnitsBoard<'p, 'b, B> {
    ghost limits = { λ s. limits_in_units (net s.plan.now) (B.Board.limits s.below.now) };

    ghost Frame = { UnitsFrame B.Board.Frame };

    ghost kept = { λ s. record { plan = net s.plan.now; board = s.below.ghost_name; limits = B.Board.limits s.below.now; below = B.Board.kept s.below.now } };

    fn limit(&self, p: u32) -> Option<u32> {
        let Scale { unit, limit } = self.scale(p)?;
        let most = InUnits {
            unit,
            full: limit,
            loose: unit - 1,
        };
        Some(most.whole() as u32)
    }

    fn set(&mut self, p: u32, n: u32) -> Result<(), NotSet> {
        let scale = self.scale(p).ok_or(NotSet)?;
        self.below.set(p, n / scale.unit)?;
        self.rests[p as usize] = n % scale.unit;
        Ok(())
    }
}
