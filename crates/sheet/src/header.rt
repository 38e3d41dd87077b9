// What the first four bytes of a sheet say, and where its parts begin.
ghost use Rattle.std.specs.Prelude.{◌≡◌, ◌+◌, ◌*◌, ◌≤◌};

use clause::Kind;

#[derive(Clone, Copy, Debug, PartialEq, Eq)]
pub(crate) struct Header {
    pub(crate) places: u32,
    pub(crate) moves: u32,
    pub(crate) first: Kind,
    pub(crate) second: Kind,
    pub(crate) ghost few_places: { places ≤ 16 },
    pub(crate) ghost few_moves: { moves ≤ 32 },
}

impl Header {
    // How many takes there are, and how many gives.
    pub(crate) fn arcs(&self) -> usize
        ensures value { result ≡ self.now.moves * self.now.places }
        ensures bound { result ≤ 512 }
    {
        (self.moves * self.places) as usize
    }

    pub(crate) fn counts_at(&self) -> usize
        ensures { result ≡ 4 + 4 * (self.now.moves * self.now.places) }
    {
        4 + 4 * self.arcs()
    }

    pub(crate) fn first_at(&self) -> usize
        ensures { result ≡ 4 + 4 * (self.now.moves * self.now.places) + 4 * self.now.places }
    {
        self.counts_at() + 4 * self.places as usize
    }

    pub(crate) fn second_at(&self) -> usize
        ensures { result ≡ 4 + 4 * (self.now.moves * self.now.places) + 4 * self.now.places + 8 + 2 * self.now.places }
    {
        self.first_at() + 8 + 2 * self.places as usize
    }

    // The length of the whole sheet.
    pub(crate) fn size(&self) -> usize
        ensures { result ≡ 20 + 8 * self.now.places + 4 * (self.now.moves * self.now.places) }
    {
        self.second_at() + 8 + 2 * self.places as usize
    }
}
