use clause::Certificate;
use net::{Counts, Plan, ReadPlan};

// What the bytes of a sheet spell. `state` is the plan before it is opened.
#[derive(Debug, Drop)]
pub struct Sheet {
    pub state: ReadPlan,
    pub plan: Plan,
    pub counts: Counts,
    pub first: Certificate,
    pub second: Certificate,
}
