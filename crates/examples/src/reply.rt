// A reply of the finder as the lines show it.
use finder::reply::{Listing, PlaceRefusal, Refusal, Repetition, TextTooLong, Totals};
use std::fmt;

#[derive(Clone, Copy)]
pub enum Answer {
    Totals(Totals),
    YesOrNo(bool),
    Longest(Option<Repetition>),
    Blocks(u32),
}

impl fmt::Display for Answer {
    fn fmt<W: fmt::Write>(&self, f: &mut fmt::Formatter<W>) -> fmt::Result {
        match *self {
            Answer::Totals(totals) => write!(
                f,
                "blocks {}, comparisons {}",
                totals.blocks, totals.comparisons
            ),
            Answer::YesOrNo(true) => write!(f, "yes"),
            Answer::YesOrNo(false) => write!(f, "no"),
            Answer::Longest(Some(found)) => write!(f, "start {}, half {}", found.start, found.half),
            Answer::Longest(None) => write!(f, "none"),
            Answer::Blocks(blocks) => write!(f, "blocks {blocks}"),
        }
    }
}

// Its number in document 01, and what it says besides.
#[derive(Clone, Copy)]
pub struct Reply {
    number: u8,
    answer: Option<Answer>,
}

impl fmt::Display for Reply {
    fn fmt<W: fmt::Write>(&self, f: &mut fmt::Formatter<W>) -> fmt::Result {
        write!(f, "reply {}", self.number)?;
        if let Some(answer) = self.answer {
            write!(f, ", {answer}")?;
        }
        Ok(())
    }
}

// Document 01's number of a refusal, which the lines say by themselves: the finder's replies are types.
pub trait Numbered {
    fn number(self) -> u8;
}

impl Numbered for TextTooLong {
    fn number(self) -> u8 {
        1
    }
}

impl Numbered for Refusal {
    fn number(self) -> u8 {
        match self {
            Refusal::TextTooLong => 1,
            Refusal::WorkTooShort => 2,
        }
    }
}

impl Numbered for PlaceRefusal {
    fn number(self) -> u8 {
        match self {
            PlaceRefusal::TextTooLong => 1,
            PlaceRefusal::NoSuchPlace => 4,
        }
    }
}

impl Reply {
    fn answered(number: u8, answer: Answer) -> Reply {
        Reply {
            number,
            answer: Some(answer),
        }
    }

    fn refused(refusal: impl Numbered) -> Reply {
        Reply {
            number: refusal.number(),
            answer: None,
        }
    }
}

impl<E: Numbered> From<Result<Answer, E>> for Reply {
    fn from(said: Result<Answer, E>) -> Reply {
        match said {
            Ok(answer) => Reply::answered(0, answer),
            Err(refusal) => Reply::refused(refusal),
        }
    }
}

impl From<Listing> for Reply {
    fn from(listing: Listing) -> Reply {
        match listing {
            Listing::Finished(totals) => Reply::answered(0, Answer::Totals(totals)),
            Listing::Full(totals) => Reply::answered(3, Answer::Totals(totals)),
            Listing::TextTooLong => Reply::refused(Refusal::TextTooLong),
            Listing::WorkTooShort => Reply::refused(Refusal::WorkTooShort),
        }
    }
}
