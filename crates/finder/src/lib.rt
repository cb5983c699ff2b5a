// The finder of repetitions. Its entries ask nothing of their caller: what they can't do they refuse, and a refusal for the
// text or the work space changes no lent memory.
#![tactic(auto)]

mod depth;
mod letters;
mod part_tables;
mod parts;
mod place;
mod reading;
pub mod reply;
mod search;
mod tally;

ghost use Rattle.std.specs.Prelude.{◌<◌, ◌≤◌, MatchResult};
ghost use Rattle.repetition.specs.Limits.{length_limit};
ghost use Rattle.finder.specs.Promises.{ListPromise, PlacePromise, FreePromise, LongestPromise, RoomPromise};

use crate::reply::{Listing, PlaceRefusal, Refusal, Repetition, TextTooLong};

#[derive(Clone, Copy)]
pub struct Finder;

impl Finder {
    // Letters that a text may have.
    pub const LENGTH_LIMIT: usize = 16_384;
    // The depth of a text of so many letters.
    pub const GREATEST_DEPTH: usize = 14;
    // Numbers of a report that a block takes.
    pub const NUMBERS_PER_BLOCK: usize = 3;

    // The list of all repetitions, as blocks in the report.
    pub fn list(text: &[u8], work: &mut [u16], report: &mut [u16]) -> Listing
        ensures { ListPromise text.now work.old report.old
            result work.new report.new }
    {
        let room = report.len() / Self::NUMBERS_PER_BLOCK;
        match search::search(text, work, report) {
            Err(refusal) => Listing::from(refusal),
            Ok(tally) => {
                let totals = tally.totals();
                if totals.blocks as usize <= room {
                    Listing::Finished(totals)
                } else {
                    Listing::Full(totals)
                }
            }
        }
    }

    // Does the repetition with this start and half length stand in the text?
    #[tactic(auto, using(crate::proofs::Entries::place_long, crate::proofs::Entries::no_place, crate::proofs::Entries::place_answered))]
    pub fn stands(text: &[u8], start: u64, half: u64) -> Result<bool, PlaceRefusal>
        ensures { PlacePromise text.now start half result }
    {
        Self::within_limit(text.len())?;
        if !place::is_place(text.len(), start, half) {
            return Err(PlaceRefusal::NoSuchPlace);
        }
        let first = start as usize;
        let letters = half as usize;
        Ok(place::same(text, first, first + letters, letters))
    }

    // The longest repetition, if there is one.
    pub fn longest(text: &[u8], work: &mut [u16]) -> Result<Option<Repetition>, Refusal>
        ensures { LongestPromise text.now work.old result work.new }
    {
        Ok(search::search(text, work, &mut [])?.longest())
    }

    // Is the text free of repetitions?
    pub fn is_free(text: &[u8], work: &mut [u16]) -> Result<bool, Refusal>
        ensures { FreePromise text.now work.old result work.new }
    {
        Ok(Self::longest(text, work)?.is_none())
    }

    // The blocks that the list of a text of n letters may need room for.
    #[tactic(auto, using(crate::proofs::Entries::room_long, crate::proofs::Entries::room_fits, crate::proofs::Entries::room_promise))]
    pub fn room(n: usize) -> Result<u32, TextTooLong>
        ensures { RoomPromise n result }
    {
        Self::within_limit(n)?;
        Ok((n * depth::depth_of(n)) as u32)
    }

    // The test of a length that the entries share.
    fn within_limit(n: usize) -> Result<(), TextTooLong>
        ensures { MatchResult result (λ _. n ≤ length_limit) (λ _. length_limit < n) }
    {
        if Self::LENGTH_LIMIT < n {
            return Err(TextTooLong);
        }
        Ok(())
    }
}
