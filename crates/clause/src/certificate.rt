// What a plan promises, as data.
ghost use Rattle.std.specs.Prelude.{◌≡◌, length, MatchOption, slice_index};
ghost use Rattle.clause.specs.Kinds.{code_of};
ghost use Rattle.clause.specs.Certificates.{values_of, LawfulFields, kept_values};

use crate::kind::Kind;
use crate::place_set::PlaceSet;
use net::MOST_PLACES;
use weigh::Weighing;

#[derive(Clone, Copy, Debug, PartialEq, Eq)]
pub enum Certificate {
    // nothing is promised
    Blank,
    // the weighed sum stays at or below the ceiling
    Ceiling { weighing: Weighing, ceiling: u64 },
    // at least one move is always fed
    NeverStuck { weighing: Weighing },
    // no move that takes from the set can ever fire
    DeadSet { set: PlaceSet },
    // the places of the set never all run dry
    KeptSet { set: PlaceSet },
}

impl Certificate {
    // The certificate with these fields, one number for each place; none where a field is out of range for the kind.
    pub fn new(kind: Kind, ceiling: u64, numbers: &[u16]) -> Option<Certificate>
        ensures { MatchOption result (LawfulFields kind ceiling numbers.now → ⊥) (λ c. LawfulFields kind ceiling numbers.now × (values_of c ≡ kept_values kind ceiling numbers.now)) }
    {
        if numbers.is_empty()
            || numbers.len() > MOST_PLACES as usize
            || !kind.admits_ceiling(ceiling)
        {
            return None;
        }
        match kind {
            Kind::Blank if kind.first_refused(numbers).is_some() => None,
            Kind::Blank => Some(Certificate::Blank),
            Kind::Ceiling => Some(Certificate::Ceiling {
                weighing: Weighing::new(numbers)?,
                ceiling,
            }),
            Kind::NeverStuck => Some(Certificate::NeverStuck {
                weighing: Weighing::new(numbers)?,
            }),
            Kind::DeadSet => Some(Certificate::DeadSet {
                set: PlaceSet::from_numbers(numbers)?,
            }),
            Kind::KeptSet => Some(Certificate::KeptSet {
                set: PlaceSet::from_numbers(numbers)?,
            }),
        }
    }

    pub fn kind(&self) -> Kind
        ensures { code_of result ≡ (values_of self.now).code }
    {
        match self {
            Certificate::Blank => Kind::Blank,
            Certificate::Ceiling { .. } => Kind::Ceiling,
            Certificate::NeverStuck { .. } => Kind::NeverStuck,
            Certificate::DeadSet { .. } => Kind::DeadSet,
            Certificate::KeptSet { .. } => Kind::KeptSet,
        }
    }

    // The ceiling, 0 where the kind has none.
    pub fn ceiling(&self) -> u64
        ensures { result ≡ (values_of self.now).ceiling }
    {
        match self {
            Certificate::Ceiling { ceiling, .. } => *ceiling,
            _ => 0,
        }
    }

    // How many numbers it has: one for each place, and none in a blank.
    pub fn places(&self) -> u32
        ensures { result ≡ length (values_of self.now).numbers }
    {
        match self {
            Certificate::Blank => 0,
            Certificate::Ceiling { weighing, .. } | Certificate::NeverStuck { weighing } => {
                weighing.places()
            }
            Certificate::DeadSet { set } | Certificate::KeptSet { set } => set.places(),
        }
    }

    // The number at a place: its weight, or 1 where it is in the set; 0 where there is none.
    pub fn number(&self, p: u32) -> u16
        ensures { result ≡ slice_index (values_of self.now).numbers p }
    {
        match self {
            Certificate::Blank => 0,
            Certificate::Ceiling { weighing, .. } | Certificate::NeverStuck { weighing } => {
                weighing.weight(p).unwrap_or(0)
            }
            Certificate::DeadSet { set } | Certificate::KeptSet { set } => {
                u16::from(set.contains(p))
            }
        }
    }
}
