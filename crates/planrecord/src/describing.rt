// How a record is made.
ghost use Rattle.planrecord.specs.Records.{IsDescription};

use crate::filed::Filed;
use crate::records::PlanRecord;
use refusal::Refusal;
use sheet::Sheet;

// The record of the sheet that the bytes spell, or the first question that they answer with no.
pub fn describe(bytes: &[u8]) -> Result<PlanRecord, Refusal>
    ensures { IsDescription bytes.now result }
{
    let Sheet {
        state: _,
        plan,
        counts,
        first,
        second,
    } = sheet::read(bytes)?;
    let filed = Filed {
        plan: &plan,
        counts: &counts,
    };
    Ok(PlanRecord {
        places: filed.places(),
        stock: filed.stock(),
        fed_word: plan.fed_word(&counts),
        fed_moves: plan.fed_moves(&counts),
        first: filed.certificate(first),
        second: filed.certificate(second),
        plan,
        counts,
    })
}
