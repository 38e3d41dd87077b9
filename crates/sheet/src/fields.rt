// The parts of a sheet after its header: the fifth and the sixth question.
ghost use Rattle.std.specs.Prelude.{◌≡◌, ◌+◌, ◌*◌, ◌≤◌, length, MatchResult};
ghost use Rattle.net.specs.Model.{net};
ghost use Rattle.net.specs.Marking.{marking};
ghost use Rattle.clause.specs.Kinds.{code_of};
ghost use Rattle.clause.specs.Certificates.{values_of};
ghost use Rattle.sheet.specs.Spelled.{SpellsNet, SpellsCounts, SpellsCertificate};
ghost use Rattle.sheet.specs.Stages.{WeightRefused, ArcsLight, FieldsLawful, FieldRefused};

use crate::framed::Framed;
use crate::words::{Word, read_words};
use clause::{Certificate, Kind};
use net::{Counts, Plan};
use refusal::SheetRefusal;

impl Framed<'_> {
    // The plan, or the first take or give that is too large.
    pub(crate) fn plan(&self) -> Result<Plan, SheetRefusal>
        ensures { MatchResult result (λ plan. ArcsLight self.now.bytes.now × SpellsNet self.now.bytes.now (net plan)) (λ e. WeightRefused self.now.bytes.now e) }
    {
        let count = self.header.arcs();
        let mut arcs = [0u16; 1024];
        let arcs = &mut arcs[..2 * count];
        read_words(self.bytes, 4, arcs);
        let (takes, gives) = arcs.split_at(count);
        if let Some(k) = net::first_heavy(arcs) {
            return Err(SheetRefusal::Weight {
                offset: (4 + 2 * k) as u32,
            });
        }
        Ok(Plan::new(self.header.places, self.header.moves, takes, gives).unwrap())
    }

    // The filed counts.
    pub(crate) fn counts(&self) -> Counts
        ensures { SpellsCounts self.now.bytes.now (marking result) }
    {
        let places = self.header.places as usize;
        let mut numbers = [0u32; 16];
        let numbers = &mut numbers[..places];
        read_words(self.bytes, self.header.counts_at(), numbers);
        Counts::new(numbers).unwrap()
    }

    // The certificate that starts here, or its first field that is out of range.
    pub(crate) fn certificate(&self, kind: Kind, start: usize) -> Result<Certificate, SheetRefusal>
        requires { start + 8 + 2 * self.now.header.places ≤ length self.now.bytes.now }
        ensures { MatchResult result (λ c. FieldsLawful self.now.bytes.now kind start × SpellsCertificate self.now.bytes.now (code_of kind) start (values_of c)) (λ e. FieldRefused self.now.bytes.now kind start e) }
    {
        let ceiling = u64::read(self.bytes, start);
        if !kind.admits_ceiling(ceiling) {
            return Err(SheetRefusal::Field {
                offset: start as u32,
            });
        }
        let places = self.header.places as usize;
        let mut numbers = [0u16; 16];
        let numbers = &mut numbers[..places];
        read_words(self.bytes, start + 8, numbers);
        if let Some(p) = kind.first_refused(numbers) {
            return Err(SheetRefusal::Field {
                offset: (start + 8 + 2 * p) as u32,
            });
        }
        Ok(Certificate::new(kind, ceiling, numbers).unwrap())
    }
}
