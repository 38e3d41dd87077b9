// A sheet as a record: the plan, its filed counts and its certificates, with what follows from them.
#![tactic(auto)]

mod describing;
mod filed;
mod records;
mod stock;

pub use describing::describe;
pub use records::{CertificateRecord, PlaceRecord, PlanRecord, StockRecord, WeighingRecord};
