// The first four questions, which the first four bytes of a sheet and its length answer.
ghost use Rattle.std.specs.Prelude.{◌≡◌, ◌≤◌, MatchOption, MatchResult};
ghost use Rattle.clause.specs.Kinds.{code_of};
ghost use Rattle.sheet.specs.Questions.{Outside};
ghost use Rattle.sheet.specs.Stages.{HeaderRead, Refused};

use crate::header::Header;
use clause::Kind;
use net::{MOST_MOVES, MOST_PLACES};
use refusal::SheetRefusal;

// The bytes of a sheet that answer the first four questions with yes.
#[derive(Clone, Copy)]
pub(crate) struct Framed<'a> {
    pub(crate) bytes: &'a [u8],
    pub(crate) header: Header,
    pub(crate) ghost read: { HeaderRead bytes.now header },
}

// The kind of the first certificate, which may not be blank.
fn first_kind(code: u8) -> Option<Kind>
    ensures { MatchOption result (Outside 1 4 code) (λ kind. (code_of kind ≡ code) × (1 ≤ code)) }
{
    Kind::try_from(code)
        .ok()
        .filter(|kind| *kind != Kind::Blank)
}

impl<'a> Framed<'a> {
    pub(crate) fn read(bytes: &'a [u8]) -> Result<Framed<'a>, SheetRefusal>
        ensures { MatchResult result (λ framed. framed.bytes.now ≡ bytes.now) (λ e. Refused bytes.now e) }
    {
        let [places, moves, first, second, ..] = bytes else {
            return Err(SheetRefusal::Short {
                length: bytes.len() as u32,
            });
        };
        let places = u32::from(*places);
        if !(1..=MOST_PLACES).contains(&places) {
            return Err(SheetRefusal::Size { offset: 0 });
        }
        let moves = u32::from(*moves);
        if !(1..=MOST_MOVES).contains(&moves) {
            return Err(SheetRefusal::Size { offset: 1 });
        }
        let first = first_kind(*first).ok_or(SheetRefusal::Kind { offset: 2 })?;
        let second = Kind::try_from(*second).map_err(|_| SheetRefusal::Kind { offset: 3 })?;
        let header = Header {
            places,
            moves,
            first,
            second,
        };
        let size = header.size();
        if bytes.len() != size {
            return Err(SheetRefusal::Length {
                smaller: bytes.len().min(size) as u32,
            });
        }
        Ok(Framed { bytes, header })
    }
}
