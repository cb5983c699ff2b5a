// One text: what each entry of the finder answers, against what is right.
use crate::blocks::Blocks;
use crate::counts::Counts;
use crate::order;
use crate::places::Seen;
use crate::texts::{MOST_LETTERS, Text};
use finder::Finder;
use finder::reply::{Listing, Repetition, Totals};

// The depth of MOST_LETTERS.
const MOST_DEPTH: usize = 4;

fn totals_of(listing: Listing) -> Totals {
    match listing {
        Listing::Finished(totals) | Listing::Full(totals) => totals,
        Listing::TextTooLong | Listing::WorkTooShort => Totals {
            blocks: 0,
            comparisons: 0,
        },
    }
}

// The first repetition listed of those with the greatest half.
fn longest_of(list: &[u16], greatest_half: Option<usize>) -> Option<Repetition> {
    let half = greatest_half?;
    let block = Blocks(list).find(|block| usize::from(block.half) == half)?;
    Some(Repetition {
        start: usize::from(block.first),
        half,
    })
}

fn try_entries(text: Text, work: &mut [u16], report: &mut [u16]) -> Counts {
    let letters = text.letters.len();
    let listing = Finder::list(text.letters, work, report);
    let longest = Finder::longest(text.letters, work);
    let freedom = Finder::is_free(text.letters, work);
    let room = Finder::room(letters);
    let totals = totals_of(listing);
    let numbers = Finder::NUMBERS_PER_BLOCK * totals.blocks as usize;
    let list = &report[..numbers.min(report.len())];
    let starts = Blocks(list).fold(0u64, |all, block| all.wrapping_add(block.starts() as u64));
    let Seen {
        mut counts,
        greatest_half,
    } = Seen::of(text, list);
    let repetitions = counts.repetitions.0;
    let first = longest_of(list, greatest_half);
    counts.judge(&[
        matches!(listing, Listing::Finished(_)),
        totals.blocks <= text.block_bound(),
        u64::from(totals.comparisons) <= text.comparison_bound(),
        starts == repetitions,
        order::are_of_one_class(list, letters),
        order::are_in_order(list, letters),
        first.map(|found| found.half) == greatest_half,
        longest == Ok(first),
        freedom == Ok(repetitions == 0),
        room == Ok(text.block_bound()),
    ]);
    counts.texts += 1;
    counts.blocks += u64::from(totals.blocks);
    counts.comparisons += u64::from(totals.comparisons);
    counts
}

// Lends just the work space and the room that the text needs.
pub fn try_text(text: Text) -> Counts {
    let mut work = [0u16; 2 * MOST_LETTERS];
    let mut report = [0u16; Finder::NUMBERS_PER_BLOCK * MOST_LETTERS * MOST_DEPTH];
    let needed = 2 * text.letters.len();
    let room = Finder::NUMBERS_PER_BLOCK * text.block_bound() as usize;
    let room = room.min(report.len());
    try_entries(text, &mut work[..needed], &mut report[..room])
}
