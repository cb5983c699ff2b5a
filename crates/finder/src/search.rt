// The search of a text: refused if the text is too long or the work space too short; else all blocks, and then the work
// space is cleared.
ghost use Rattle.std.specs.Prelude.{◌≡◌, ◌*◌, ◌≤◌, length, replicate};
ghost use Rattle.repetition.specs.Memory.{over};
ghost use Rattle.tables.specs.Letters.{both_ways};
ghost use Rattle.finder.specs.Searching.{searched, searching, CanSearch, SearchesAll};

use crate::parts::Part;
use crate::reply::Refusal;
use crate::tally::Tally;
use crate::{Finder, letters, parts};
use tables::text::Letters;

// Finds the blocks of a text that is not refused, and clears the work space. The text's letters go to the front of the buffer.
fn search_letters(text: &[u8], buffer: &mut [u16], work: &mut [u16], report: &mut [u16]) -> Tally
    requires { CanSearch text.now work.old × (2 * length text.now ≤ length buffer.old) }
    ensures searches_all { SearchesAll text.now work.old report.old
        result work.new report.new }
    ensures buffer_after { buffer.new ≡ over (both_ways text.now) buffer.old }
{
    let n = text.len();
    let end = 2 * n;
    let letters = &mut buffer[..end];
    letters::write_letters(text, letters);
    let whole = Part { from: 0, to: n };
    let tally = parts::find(
        &Letters::of(&letters[..]),
        work,
        report,
        whole,
        Tally::default(),
    );
    work.fill(0);
    tally
}

// The same with a buffer of its own. There is no heap, so it has room for the longest text.
// Inlined, it would have a refused call take the buffer's stack.
#[inline(never)]
fn search_whole(text: &[u8], work: &mut [u16], report: &mut [u16]) -> Tally
    requires { CanSearch text.now work.old }
    ensures { SearchesAll text.now work.old report.old
        result work.new report.new }
{
    let mut buffer = [0u16; 2 * Finder::LENGTH_LIMIT];
    search_letters(text, &mut buffer, work, report)
}

#[tactic(auto, using(crate::proofs::Searches::searched_long, crate::proofs::Searches::searched_short))]
pub fn search(text: &[u8], work: &mut [u16], report: &mut [u16]) -> Result<Tally, Refusal>
    ensures { searched result work.new report.new
        ≡ searching text.now work.old report.old }
{
    let n = text.len();
    Finder::within_limit(n)?;
    let numbers = 2 * n;
    // A test and a slice: the contract of `get_mut` at a range says nothing of what the whole slice ends as.
    if work.len() < numbers {
        return Err(Refusal::WorkTooShort);
    }
    Ok(search_whole(text, &mut work[..numbers], report))
}
