// Certificates as data: five kinds, with a weighing or a set of places.
#![tactic(auto)]

mod certificate;
mod kind;
mod place_set;

pub use certificate::Certificate;
pub use kind::{Kind, UnknownKind};
pub use place_set::PlaceSet;
