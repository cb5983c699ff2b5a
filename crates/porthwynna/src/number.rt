// The numbers that the functions answer: document 01's of the replies, and one that no document has. They are constants and no
// enum, since C reads them.
ghost use Rattle.std.specs.Prelude.{◌≡◌, ℕ};
ghost use Rattle.finder.specs.Replies.{too_long_number, refusal_number, place_refusal_number};

use finder::reply::{PlaceRefusal, Refusal, TextTooLong};

// No refusal.
pub const DONE: u32 = 0;
// The text has more letters than the finder's limit.
pub const TEXT_TOO_LONG: u32 = 1;
// The work space has fewer than two numbers for each letter.
pub const WORK_TOO_SHORT: u32 = 2;
// There are more blocks than the report has room for.
pub const FULL: u32 = 3;
// The half is 0, or its two copies go past the end of the text.
pub const NO_SUCH_PLACE: u32 = 4;
// The answer is shorter than the function needs.
pub const ANSWER_TOO_SHORT: u32 = 99;

// A refusal that has a number. Not `From`, since neither the refusals nor `u32` are of this crate.
pub trait Numbered {
    ghost number: { Self → ℕ };

    fn number(self) -> u32
        ensures { result ≡ number self };
}

impl Numbered for TextTooLong {
    ghost number = { too_long_number };

    fn number(self) -> u32 {
        TEXT_TOO_LONG
    }
}

impl Numbered for Refusal {
    ghost number = { refusal_number };

    fn number(self) -> u32 {
        match self {
            Refusal::TextTooLong => TEXT_TOO_LONG,
            Refusal::WorkTooShort => WORK_TOO_SHORT,
        }
    }
}

impl Numbered for PlaceRefusal {
    ghost number = { place_refusal_number };

    fn number(self) -> u32 {
        match self {
            PlaceRefusal::TextTooLong => TEXT_TOO_LONG,
            PlaceRefusal::NoSuchPlace => NO_SUCH_PLACE,
        }
    }
}
