// The C interface: an exported function for each entry of the finder, and one for the version. An entry's result is document 01's
// number of the reply, and the reply's values go to the front of the answer that the caller lends. An answer too short for them is
// refused before all else.
#![tactic(auto)]

mod number;
mod version;

ghost use Rattle.std.specs.Prelude.{◌≡◌};
ghost use Rattle.finder.specs.Replies.{totals_values};
ghost use Rattle.porthwynna.specs.Promises.{ListCall, PlaceCall, FreeCall, LongestCall, RoomCall, VersionCall};

use crate::number::Numbered;
use finder::Finder;
use finder::reply::{Listing, Totals};

// The exports are written out one by one: a function for all would take each call as a closure over the memory that is lent.

// The list of all repetitions, as blocks in the report. Into the answer: number of blocks K, comparisons C.
#[unsafe(no_mangle)]
pub extern "C" fn porthwynna_list(
    text: &[u8],
    work: &mut [u16],
    report: &mut [u16],
    answer: &mut [u32],
) -> u32
    ensures { ListCall text.now work.old report.old answer.old
        result work.new report.new answer.new }
{
    let Some(values) = answer.first_chunk_mut() else {
        return number::ANSWER_TOO_SHORT;
    };
    match Finder::list(text, work, report) {
        Listing::Finished(totals) => {
            *values = values_of(totals);
            number::DONE
        }
        Listing::Full(totals) => {
            *values = values_of(totals);
            number::FULL
        }
        Listing::TextTooLong => number::TEXT_TOO_LONG,
        Listing::WorkTooShort => number::WORK_TOO_SHORT,
    }
}

fn values_of(totals: Totals) -> [u32; 2]
    ensures { result ≡ totals_values totals }
{
    [totals.blocks, totals.comparisons]
}

// Does the repetition with this start and half length stand in the text? Into the answer: 1 for yes, 0 for no.
#[unsafe(no_mangle)]
pub extern "C" fn porthwynna_stands(text: &[u8], start: u64, half: u64, answer: &mut [u32]) -> u32
    ensures { PlaceCall text.now start half answer.old result answer.new }
{
    let Some(values) = answer.first_chunk_mut() else {
        return number::ANSWER_TOO_SHORT;
    };
    match Finder::stands(text, start, half) {
        Ok(stands) => {
            *values = [u32::from(stands)];
            number::DONE
        }
        Err(refusal) => refusal.number(),
    }
}

// Is the text free of repetitions? Into the answer: 1 for yes, 0 for no.
#[unsafe(no_mangle)]
pub extern "C" fn porthwynna_is_free(text: &[u8], work: &mut [u16], answer: &mut [u32]) -> u32
    ensures { FreeCall text.now work.old answer.old
        result work.new answer.new }
{
    let Some(values) = answer.first_chunk_mut() else {
        return number::ANSWER_TOO_SHORT;
    };
    match Finder::is_free(text, work) {
        Ok(free) => {
            *values = [u32::from(free)];
            number::DONE
        }
        Err(refusal) => refusal.number(),
    }
}

// The longest repetition. Into the answer: its start and half; 0 and 0 where the text has none, since no repetition has half 0.
#[unsafe(no_mangle)]
pub extern "C" fn porthwynna_longest(text: &[u8], work: &mut [u16], answer: &mut [u32]) -> u32
    ensures { LongestCall text.now work.old answer.old
        result work.new answer.new }
{
    let Some(values) = answer.first_chunk_mut() else {
        return number::ANSWER_TOO_SHORT;
    };
    match Finder::longest(text, work) {
        Ok(Some(found)) => {
            *values = [found.start as u32, found.half as u32];
            number::DONE
        }
        Ok(None) => {
            *values = [0, 0];
            number::DONE
        }
        Err(refusal) => refusal.number(),
    }
}

// The blocks that the list of a text of n letters may need room for. Into the answer: n times D.
#[unsafe(no_mangle)]
pub extern "C" fn porthwynna_room(n: usize, answer: &mut [u32]) -> u32
    ensures { RoomCall n answer.old result answer.new }
{
    let Some(values) = answer.first_chunk_mut() else {
        return number::ANSWER_TOO_SHORT;
    };
    match Finder::room(n) {
        Ok(blocks) => {
            *values = [blocks];
            number::DONE
        }
        Err(too_long) => too_long.number(),
    }
}

// The version that the library is built as, as one number: 10000 for each major version, 100 for each minor one, and the patch.
#[unsafe(no_mangle)]
pub extern "C" fn porthwynna_version() -> u32
    ensures { VersionCall result }
{
    10000 * version::MAJOR + 100 * version::MINOR + version::PATCH
}
