// What a result tells, and the lines that tell it: that of a refusal, which stands alone, and the last line of what was played.
ghost use Rattle.std.specs.Prelude.{◌≡◌};
ghost use Rattle.field.specs.Spelling.{no_bytes, put_all};
ghost use Rattle.listing.specs.Bytes.{is_refusal};
ghost use Rattle.listing.specs.Lines.{last_line, refused_line};
ghost use Rattle.listing.specs.Writing.{told_of, refusal_of, count_of};

use crate::{bytes, lines};
use field::Spelling;

// The numbers of a result: its answer, its line or stamp, its count, and its field.
// Kept: the answer is a number for what may not change, `Lists` and `ListsPages`: they tell of any four bytes that a lent result holds.
#[derive(Clone, Copy, Debug, PartialEq, Eq)]
pub(crate) struct Told {
    pub(crate) answer: u32,
    pub(crate) place: u32,
    pub(crate) count: u32,
    pub(crate) field: u32,
}

impl Told {
    // None of a result of another length.
    #[tactic(auto, unfolding(crate::specs::Writing::told_of))]
    pub(crate) fn of(res: &[u8]) -> Option<Told>
        ensures { result ≡ told_of res.now }
    {
        if res.len() != record::RESULT {
            return None;
        }
        Some(Told {
            answer: bytes::number_at(res, 0),
            place: bytes::number_at(res, 4),
            count: bytes::number_at(res, 8),
            field: bytes::number_at(res, 12),
        })
    }

    // Answers 1 to 5 are the refusals.
    #[tactic(auto, unfolding(crate::specs::Bytes::is_refusal))]
    pub(crate) fn refuses(self) -> bool
        ensures { result ≡ is_refusal self.answer }
    {
        matches!(self.answer, 1..=5)
    }

    pub(crate) fn refused_line(self) -> Spelling
        ensures { result ≡ put_all no_bytes (refused_line self.answer self.place self.field) }
    {
        lines::refused_line(self.answer, self.place, self.field)
    }

    pub(crate) fn last_line(self) -> Spelling
        ensures { result ≡ put_all no_bytes (last_line self.answer self.place self.count) }
    {
        lines::last_line(self.answer, self.place, self.count)
    }
}

// The line of a refusal by its result, put together; no line of a result of another length.
#[tactic(auto, unfolding(crate::specs::Writing::told_of, crate::specs::Writing::refusal_of))]
pub fn refusal_of(res: &[u8]) -> Spelling
    ensures { result ≡ put_all no_bytes (refusal_of res.now) }
{
    match Told::of(res) {
        Some(told) => told.refused_line(),
        None => Spelling::new(),
    }
}

// The count of a result; 0 of one of another length.
#[tactic(auto, unfolding(crate::specs::Writing::told_of, crate::specs::Writing::count_of))]
pub fn count_of(res: &[u8]) -> u32
    ensures { result ≡ count_of res.now }
{
    Told::of(res).map_or(0, |told| told.count)
}
