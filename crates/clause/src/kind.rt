// The kinds of certificate, and the numbers that each asks for.
ghost use Rattle.std.specs.Prelude.{◌≡◌, ℕ, ◌<◌, true, false, length, Some, MatchOption, slice_index};
ghost use Rattle.clause.specs.Kinds.{code_of, name_of, Decodes, unknown_text, lawful_number, lawful_ceiling};

use std::error::Error;
use std::fmt;
use weigh::MOST_WEIGHT;

#[derive(Clone, Copy, Debug, PartialEq, Eq)]
pub enum Kind {
    Blank,
    Ceiling,
    NeverStuck,
    DeadSet,
    KeptSet,
}

// A code that stands for no kind.
#[derive(Clone, Copy, Debug, PartialEq, Eq)]
pub struct UnknownKind(pub u8);

impl TryFrom<u8> for Kind {
    type Error = UnknownKind;

    ghost try_from_gives = { Decodes };

    fn try_from(code: u8) -> Result<Kind, UnknownKind> {
        match code {
            0 => Ok(Kind::Blank),
            1 => Ok(Kind::Ceiling),
            2 => Ok(Kind::NeverStuck),
            3 => Ok(Kind::DeadSet),
            4 => Ok(Kind::KeptSet),
            _ => Err(UnknownKind(code)),
        }
    }
}

impl From<Kind> for u8 {
    ghost from_gives = { λ kind code. code ≡ code_of kind };

    fn from(kind: Kind) -> u8 {
        kind as u8
    }
}

impl Kind {
    // Whether a certificate of this kind may have this number at a place.
    pub fn admits(self, number: u16) -> bool
        ensures { result ≡ lawful_number self number }
    {
        match (self, number) {
            (Kind::Ceiling | Kind::NeverStuck, n) if n >= 1 && n <= MOST_WEIGHT => true,
            (Kind::DeadSet | Kind::KeptSet, 0..=1) => true,
            (Kind::Blank, 0) => true,
            _ => false,
        }
    }

    // Whether a certificate of this kind may have this ceiling.
    pub fn admits_ceiling(self, ceiling: u64) -> bool
        ensures { result ≡ lawful_ceiling self ceiling }
    {
        self == Kind::Ceiling || ceiling == 0
    }

    // The index of the first number that this kind does not admit.
    pub fn first_refused(self, numbers: &[u16]) -> Option<usize>
        ensures { MatchOption result ((p : ℕ) → p < length numbers.now → lawful_number self (slice_index numbers.now p) ≡ true) (λ p. (p < length numbers.now) × (lawful_number self (slice_index numbers.now p) ≡ false) × ((k : ℕ) → k < p → lawful_number self (slice_index numbers.now k) ≡ true)) }
    {
        numbers.iter().position(|&number| !self.admits(number))
    }
}

impl fmt::Display for Kind {
    ghost output = { λ kind. Some (name_of kind) };

    fn fmt<W: fmt::Write>(&self, f: &mut fmt::Formatter<W>) -> fmt::Result {
        f.write_str(match self {
            Kind::Blank => "blank",
            Kind::Ceiling => "ceiling",
            Kind::NeverStuck => "never stuck",
            Kind::DeadSet => "dead set",
            Kind::KeptSet => "kept set",
        })
    }
}

impl fmt::Display for UnknownKind {
    ghost output = { λ unknown. Some (unknown_text unknown) };

    fn fmt<W: fmt::Write>(&self, f: &mut fmt::Formatter<W>) -> fmt::Result {
        write!(f, "no kind of certificate has code {}", self.0)
    }
}

impl Error for UnknownKind {}
