// A board on bytes: two to a place, low byte first, at most 16 places.
ghost use Rattle.std.specs.Prelude.{◌≡◌, length};
ghost use Rattle.net.specs.Answers.{AnswersAt};
ghost use Rattle.std.specs.Simd.{first_chunks};
ghost use Rattle.board.specs.Bytes.{pairs_in, byte_counts, byte_limits, bytes_past};
ghost use Rattle.board.specs.Frames.{LentFrame};
ghost use Rattle.board.specs.Few.{bytes-few};

use crate::meaning::{Board, NotSet, ReadBoard};
use net::MOST_PLACES;

#[derive(Drop)]
pub struct ByteBoard<'m> {
    bytes: &'m mut [u8],
}

impl<'m> ByteBoard<'m> {
    // The board on these bytes: it stands on this memory and changes nothing yet.
    pub fn new(bytes: &'m mut [u8]) -> ByteBoard<'m>
        ensures value { result.bytes.now ≡ bytes.old }
        ensures same { result.bytes.ghost_name ≡ bytes.entry.ghost_name }
    {
        ByteBoard { bytes }
    }
}

impl ByteBoard<'_> {
    // The pairs of bytes that spell counts.
    fn pairs(&self) -> &[[u8; 2]]
        ensures long { length result.now ≡ pairs_in self.now.bytes.now }
        ensures pairs { result.now ≡ first_chunks 2 (pairs_in self.now.bytes.now) self.now.bytes.now }
    {
        let (pairs, _) = self.bytes.as_chunks::<2>();
        &pairs[..pairs.len().min(MOST_PLACES as usize)]
    }

    // The two bytes of a place as a number.
    fn pair(&self, p: u32) -> Option<u16>
        ensures { AnswersAt (byte_counts self.now.bytes.now) p result }
    {
        self.pairs()
            .get(p as usize)
            .map(|pair| u16::from_le_bytes(*pair))
    }
}

impl<'m> ReadBoard for ByteBoard<'m> {
    ghost counts = { λ b. byte_counts b.bytes.now };

    fn places(&self) -> u32 {
        self.pairs().len() as u32
    }

    fn count(&self, p: u32) -> Option<u32> {
        self.pair(p).map(u32::from)
    }

    ghost few = { λ b. bytes-few b.bytes.now };
}

impl<'m> Board for ByteBoard<'m> {
    ghost limits = { λ b. byte_limits b.bytes.now };

    ghost Frame = { LentFrame };

    ghost kept = { λ b. record { memory = b.bytes.ghost_name; past = bytes_past b.bytes.now } };

    fn limit(&self, p: u32) -> Option<u32> {
        self.pair(p).map(|_| u32::from(u16::MAX))
    }

    fn set(&mut self, p: u32, n: u32) -> Result<(), NotSet> {
        let n = u16::try_from(n).map_err(|_| NotSet)?;
        if p >= self.places() {
            return Err(NotSet);
        }
        let at = 2 * p as usize;
        self.bytes[at..at + 2].copy_from_slice(&n.to_le_bytes());
        Ok(())
    }
}
