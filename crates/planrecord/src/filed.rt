// A plan with its filed counts, and what is recorded of both.
ghost use Rattle.std.specs.Prelude.{◌≡◌, ℕ, ◌<◌, slice_index_or};
ghost use Rattle.net.specs.Model.{net};
ghost use Rattle.net.specs.Marking.{marking};
ghost use Rattle.weigh.specs.Weights.{weights_of};
ghost use Rattle.planrecord.specs.Records.{DescribesPlace, DescribesWeighing, DescribesCertificate};

use crate::records::{CertificateRecord, PlaceRecord, WeighingRecord};
use clause::Certificate;
use net::{Counts, Plan};
use std::array;
use weigh::Weighing;

#[derive(Clone, Copy)]
pub(crate) struct Filed<'a> {
    pub(crate) plan: &'a Plan,
    pub(crate) counts: &'a Counts,
}

impl Filed<'_> {
    fn place(&self, p: u32) -> PlaceRecord
        ensures { DescribesPlace (net self.now.plan.now) (marking self.now.counts.now) p result }
    {
        PlaceRecord {
            count: self.counts.held(p),
            unit: self.plan.unit(p),
            least: self.plan.least_take(p),
            largest: self.plan.largest_take(p),
        }
    }

    pub(crate) fn places(&self) -> [PlaceRecord; 16]
        ensures { (p : ℕ) (other : PlaceRecord) → p < 16 → DescribesPlace (net self.now.plan.now) (marking self.now.counts.now) p (slice_index_or result p other) }
    {
        array::from_fn(|p| self.place(p as u32))
    }

    fn weighing(&self, weighing: &Weighing) -> WeighingRecord
        ensures { DescribesWeighing (net self.now.plan.now) (marking self.now.counts.now) (weights_of weighing.now) result }
    {
        WeighingRecord {
            balance: weighing.balance(self.plan),
            sum: weighing.weighed_sum(self.counts),
        }
    }

    pub(crate) fn certificate(&self, certificate: Certificate) -> CertificateRecord
        ensures same { result.certificate ≡ certificate }
        ensures weighing { DescribesCertificate (net self.now.plan.now) (marking self.now.counts.now) result }
    {
        let weighing = match certificate {
            Certificate::Ceiling { weighing, .. } | Certificate::NeverStuck { weighing } => {
                Some(self.weighing(&weighing))
            }
            Certificate::Blank | Certificate::DeadSet { .. } | Certificate::KeptSet { .. } => None,
        };
        CertificateRecord {
            certificate,
            weighing,
        }
    }
}
