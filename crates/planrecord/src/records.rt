use clause::Certificate;
use net::{Counts, Plan};
use units::InUnits;
use weigh::Imbalance;

// A place with its filed count, its unit, and its least and largest take where it has a taker.
#[derive(Clone, Copy, Debug, PartialEq, Eq)]
pub struct PlaceRecord {
    pub count: u32,
    pub unit: u32,
    pub least: Option<u16>,
    pub largest: Option<u16>,
}

// What a place may hold in stock, and the parts of its filed count there, absent where that is more.
#[derive(Clone, Copy, Debug, PartialEq, Eq)]
pub struct StockRecord {
    pub limit: u32,
    pub parts: Option<InUnits>,
}

// Whether a certificate's weighing balances the plan, and what the filed counts weigh.
#[derive(Clone, Copy, Debug, PartialEq, Eq)]
pub struct WeighingRecord {
    pub balance: Result<(), Imbalance>,
    pub sum: u64,
}

// A certificate, with the record of its weighing where its kind has one.
#[derive(Clone, Copy, Debug, PartialEq, Eq)]
pub struct CertificateRecord {
    pub certificate: Certificate,
    pub weighing: Option<WeighingRecord>,
}

// What a sheet says. What the moves take and give is in the plan; a place that the plan does not have holds 0, has the unit 1 and no taker.
#[derive(Debug, Drop, PartialEq, Eq)]
pub struct PlanRecord {
    pub plan: Plan,
    pub counts: Counts,
    pub places: [PlaceRecord; 16],
    // on a board of two bytes a place, in units of the plan
    pub stock: [StockRecord; 16],
    // the bit worth 2^t is set if and only if move t is fed
    pub fed_word: u32,
    pub fed_moves: u32,
    pub first: CertificateRecord,
    pub second: CertificateRecord,
}
