ghost use Rattle.std.specs.Prelude.{◌≡◌, ◌+◌, ◌*◌};

// A count in units: so many full units, which the board below holds, and a loose rest of less than a unit, which the units board keeps.
#[derive(Clone, Copy, Debug, PartialEq, Eq)]
pub struct InUnits {
    pub unit: u32,
    pub full: u32,
    pub loose: u32,
}

impl InUnits {
    // The full units and the loose rest, as one number.
    pub(crate) fn whole(self) -> u64
        ensures { result ≡ self.full * self.unit + self.loose }
    {
        u64::from(self.full) * u64::from(self.unit) + u64::from(self.loose)
    }
}
