// The unit of a place, over a board that has a limit there.
ghost use Rattle.std.specs.Prelude.{◌≡◌, ◌+◌, ◌*◌, ◌<◌, ◌≤◌};
ghost use Rattle.net.specs.Model.{net};
ghost use Rattle.net.specs.Divisors.{unit_of};
ghost use Rattle.units.specs.Units.{unit_over_limit};

use net::Plan;

// How many counts there are: 0 to 4,294,967,295.
const COUNTS: u64 = 4294967296;

// The unit at a place, and the limit that the board below has there: so many units and a rest still count within 32 bits.
#[derive(Clone, Copy, Debug, PartialEq, Eq)]
pub(crate) struct Scale {
    pub(crate) unit: u32,
    pub(crate) limit: u32,
    ghost positive: { 0 < unit },
    ghost fits: { (limit + 1) * unit ≤ 4294967296 },
}

impl Scale {
    // The plan's unit at a place where the board below has this limit, or 1 where counts would pass 32 bits.
    pub(crate) fn over(plan: &Plan, p: u32, limit: u32) -> Scale
        ensures unit { result.unit ≡ unit_over_limit limit (unit_of (net plan.now) p) }
        ensures limit { result.limit ≡ limit }
    {
        let unit = plan.unit(p);
        if (u64::from(limit) + 1) * u64::from(unit) <= COUNTS {
            Scale { unit, limit }
        } else {
            Scale { unit: 1, limit }
        }
    }
}
