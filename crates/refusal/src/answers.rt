// The number, slot, spot and layer of each refusal, and how it is printed.
ghost use Rattle.std.specs.Prelude.{◌≡◌, Some};
ghost use Rattle.refusal.specs.Refusals.{answer_of, answer_of_sheet, printed};
ghost use Rattle.refusal.specs.declared.refusals.Refusal.TheVariants.{Sheet};

use crate::refusals::{Layer, Refusal, SheetRefusal};
use std::error::Error;
use std::fmt;

impl SheetRefusal {
    // The question that got a no.
    fn number(&self) -> u32
        ensures { result ≡ (answer_of_sheet self.now).number }
    {
        match self {
            SheetRefusal::Short { .. } => 1,
            SheetRefusal::Size { .. } => 2,
            SheetRefusal::Kind { .. } => 3,
            SheetRefusal::Length { .. } => 4,
            SheetRefusal::Weight { .. } => 5,
            SheetRefusal::Field { .. } => 6,
        }
    }

    // Where it is wrong.
    fn spot(&self) -> u32
        ensures { result ≡ (answer_of_sheet self.now).spot }
    {
        match *self {
            SheetRefusal::Short { length } => length,
            SheetRefusal::Length { smaller } => smaller,
            SheetRefusal::Size { offset }
            | SheetRefusal::Kind { offset }
            | SheetRefusal::Weight { offset }
            | SheetRefusal::Field { offset } => offset,
        }
    }
}

impl Refusal {
    pub fn number(&self) -> u32
        ensures { result ≡ (answer_of self.now).number }
    {
        match self {
            Refusal::Sheet(refusal) => refusal.number(),
        }
    }

    // The part of the clause that is untrue or unfit, from 1; 0 where no part is meant.
    pub fn slot(&self) -> u32
        ensures { result ≡ (answer_of self.now).slot }
    {
        match self {
            Refusal::Sheet(_) => 0,
        }
    }

    pub fn spot(&self) -> u32
        ensures { result ≡ (answer_of self.now).spot }
    {
        match self {
            Refusal::Sheet(refusal) => refusal.spot(),
        }
    }

    pub fn layer(&self) -> Layer
        ensures { result ≡ (answer_of self.now).layer }
    {
        match self {
            Refusal::Sheet(_) => Layer::Sheet,
        }
    }
}

impl From<SheetRefusal> for Refusal {
    ghost from_gives = { λ refusal answer. answer ≡ Sheet refusal };

    fn from(error: SheetRefusal) -> Refusal {
        Refusal::Sheet(error)
    }
}

impl fmt::Display for Refusal {
    ghost output = { λ x. Some (printed (answer_of x)) };

    fn fmt<W: fmt::Write>(&self, f: &mut fmt::Formatter<W>) -> fmt::Result {
        let number = self.number();
        let slot = self.slot();
        let spot = self.spot();
        write!(f, "no {number} {slot} {spot}")
    }
}

impl Error for Refusal {}
