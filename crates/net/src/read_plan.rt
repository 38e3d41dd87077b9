// The state of a plan that was read and not opened yet.
ghost use Rattle.std.specs.Prelude.{◌≡◌};
ghost use Rattle.net.specs.Model.{net};
ghost use Rattle.net.specs.ReadPlans.{read_places, read_moves, Remembers};

use crate::plan::Plan;

// It is moved from state to state, so it is neither `Clone` nor `Copy`; it may be let go.
#[derive(Debug, Drop)]
pub struct ReadPlan {
    places: u32,
    moves: u32,
}

impl From<&Plan> for ReadPlan {
    ghost from_gives = { λ plan state. Remembers (net plan.now) state };

    fn from(plan: &Plan) -> ReadPlan {
        ReadPlan {
            places: plan.places(),
            moves: plan.moves(),
        }
    }
}

impl ReadPlan {
    pub fn places(&self) -> u32
        ensures { result ≡ read_places self.now }
    {
        self.places
    }

    pub fn moves(&self) -> u32
        ensures { result ≡ read_moves self.now }
    {
        self.moves
    }
}
