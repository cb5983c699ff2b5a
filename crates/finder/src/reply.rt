// What the entries answer. specs/Replies.antt has document 01's number and values of each case.
ghost use Rattle.std.specs.Prelude.{◌≡◌};
ghost use Rattle.finder.specs.Replies.{refused_list};
ghost use Rattle.finder.specs.declared.reply.Refusal.TheVariants as refusal;
ghost use Rattle.finder.specs.declared.reply.PlaceRefusal.TheVariants as place;

// A length over the limit. The room question refuses for nothing else.
#[derive(Clone, Copy, Debug, PartialEq, Eq)]
pub struct TextTooLong;

// Why a search of a text is refused.
#[derive(Clone, Copy, Debug, PartialEq, Eq)]
pub enum Refusal {
    TextTooLong,
    WorkTooShort,
}

// Why the test of a place is refused.
#[derive(Clone, Copy, Debug, PartialEq, Eq)]
pub enum PlaceRefusal {
    TextTooLong,
    // The half is 0, or its two copies go past the end of the text.
    NoSuchPlace,
}

impl From<TextTooLong> for Refusal {
    ghost from_gives = { λ _ r. r ≡ refusal.TextTooLong };

    fn from(_long: TextTooLong) -> Refusal {
        Refusal::TextTooLong
    }
}

impl From<TextTooLong> for PlaceRefusal {
    ghost from_gives = { λ _ r. r ≡ place.TextTooLong };

    fn from(_long: TextTooLong) -> PlaceRefusal {
        PlaceRefusal::TextTooLong
    }
}

// A repetition by its start and half length.
#[derive(Clone, Copy, Debug, PartialEq, Eq)]
pub struct Repetition {
    pub start: usize,
    pub half: usize,
}

#[derive(Clone, Copy, Debug, PartialEq, Eq)]
pub struct Totals {
    pub blocks: u32,
    pub comparisons: u32,
}

// The list of a text. One enum and no Result: document 01 has one reply in which finished and full hold the same totals, and the
// refusals are cases without.
#[derive(Clone, Copy, Debug, PartialEq, Eq)]
pub enum Listing {
    Finished(Totals),
    // There are more blocks than the report has room for: the totals of the full list.
    Full(Totals),
    TextTooLong,
    WorkTooShort,
}

impl From<Refusal> for Listing {
    ghost from_gives = { λ e r. r ≡ refused_list e };

    fn from(refusal: Refusal) -> Listing {
        match refusal {
            Refusal::TextTooLong => Listing::TextTooLong,
            Refusal::WorkTooShort => Listing::WorkTooShort,
        }
    }
}
