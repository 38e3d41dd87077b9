// Reading a sheet.
ghost use Rattle.std.specs.Prelude.{MatchResult};
ghost use Rattle.sheet.specs.Spelled.{IsReading, Spells};
ghost use Rattle.sheet.specs.Agreed.{OnlyReading};
ghost use Rattle.sheet.specs.Questions.{Lawful};
ghost use Rattle.sheet.specs.Stages.{Refused};

use crate::framed::Framed;
use crate::sheets::Sheet;
use net::ReadPlan;
use refusal::{Refusal, SheetRefusal};

fn read_fields(bytes: &[u8]) -> Result<Sheet, SheetRefusal>
    ensures { MatchResult result (λ sheet. Lawful bytes.now × Spells bytes.now sheet) (λ e. Refused bytes.now e) }
{
    let framed = Framed::read(bytes)?;
    let header = framed.header;
    let plan = framed.plan()?;
    let counts = framed.counts();
    let first = framed.certificate(header.first, header.first_at())?;
    let second = framed.certificate(header.second, header.second_at())?;
    Ok(Sheet {
        state: ReadPlan::from(&plan),
        plan,
        counts,
        first,
        second,
    })
}

// The plan, the filed counts and the certificates that the bytes spell, or the first question that they answer with no.
pub fn read(bytes: &[u8]) -> Result<Sheet, Refusal>
    ensures reading { IsReading bytes.now result }
    ensures only { OnlyReading bytes.now result }
{
    read_fields(bytes).map_err(Refusal::from)
}
