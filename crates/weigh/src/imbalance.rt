// Why a weighing does not balance a plan.
ghost use Rattle.std.specs.Prelude.{Some};
ghost use Rattle.weigh.specs.Judged.{told};

use std::error::Error;
use std::fmt;

#[derive(Clone, Copy, Debug, PartialEq, Eq)]
pub enum Imbalance {
    // the weighing has another number of places than the plan
    OtherPlaces,
    // the lowest move that takes another weight than it gives
    Uneven(u32),
}

impl fmt::Display for Imbalance {
    ghost output = { λ imbalance. Some (told imbalance) };

    fn fmt<W: fmt::Write>(&self, f: &mut fmt::Formatter<W>) -> fmt::Result {
        match self {
            Imbalance::OtherPlaces => write!(f, "it has another number of places"),
            Imbalance::Uneven(t) => write!(f, "move {t} takes another weight than it gives"),
        }
    }
}

impl Error for Imbalance {}
