// The output: a header and a line for each block, or one line that says why there is no list.
ghost use Rattle.std.specs.Prelude.{◌≡◌, ◌+◌, ◌*◌, ◌≤◌, ◌++◌, length};
ghost use mathlib.Core.List.{flat_map};
ghost use Rattle.arrayvec.specs.ArrayString.{array_string_len};
ghost use Rattle.listing.specs.Output.{header};
ghost use Rattle.listing.specs.Promises.{OutputPromise};
ghost use Rattle.listing.specs.Parts.{numbers_line, HasRoom, line_room, header_room, output_room};

use crate::letters::{BLOCK_LIMIT, put_count, put_number};
use arrayvec::ArrayString;
use finder::Finder;
use finder::reply::{Listing, Totals};

// Bytes that an input may have.
pub const TEXT_LIMIT: usize = 4_096;

// The numbers of a block, as they stand in a report: half, first start, last start.
type Numbers = [u16; Finder::NUMBERS_PER_BLOCK];

#[tactic(auto, using(crate::proofs::Decimals::five_digits))]
fn put_block<const CAP: usize>(out: &mut ArrayString<CAP>, block: &Numbers)
    requires { HasRoom CAP out.old line_room }
    ensures puts { out.new.bytes ≡ out.old.bytes ++ numbers_line block.now }
    ensures short { array_string_len out.new ≤ array_string_len out.old + line_room }
{
    let [half, first, last] = *block;
    put_number(out, half, " ");
    put_number(out, first, " ");
    put_number(out, last, "\n");
}

fn put_blocks<const CAP: usize>(out: &mut ArrayString<CAP>, blocks: &[Numbers])
    requires { HasRoom CAP out.old (line_room * length blocks.now) }
    ensures puts { out.new.bytes ≡ out.old.bytes ++ flat_map numbers_line blocks.now }
    ensures short { array_string_len out.new ≤ array_string_len out.old + line_room * length blocks.now }
{
    for block in blocks {
        put_block(out, block);
    }
}

fn put_header<const CAP: usize>(out: &mut ArrayString<CAP>, totals: Totals)
    requires { HasRoom CAP out.old header_room }
    ensures puts { out.new.bytes ≡ out.old.bytes ++ header totals.blocks totals.comparisons }
    ensures short { array_string_len out.new ≤ array_string_len out.old + header_room }
{
    put_count(out, "repetitions ", totals.blocks, " ");
    put_count(out, "comparisons ", totals.comparisons, "\n");
}

// Puts the whole output for a text.
#[tactic(auto, using(crate::proofs::Outputs::output_too_long))]
pub fn put_output<const CAP: usize>(text: &[u8], out: &mut ArrayString<CAP>)
    requires { HasRoom CAP out.old output_room }
    ensures { OutputPromise text.now out.old.bytes out.new.bytes }
{
    if TEXT_LIMIT < text.len() {
        out.push_str("refused 1\n");
        return;
    }
    let mut work = [0u16; 2 * TEXT_LIMIT];
    let mut report = [0u16; Finder::NUMBERS_PER_BLOCK * BLOCK_LIMIT];
    match Finder::list(text, &mut work, &mut report) {
        Listing::Finished(totals) => {
            put_header(out, totals);
            let (blocks, _) = report.as_chunks();
            put_blocks(out, &blocks[..totals.blocks as usize]);
        }
        Listing::Full(totals) => put_count(out, "refused 3 blocks ", totals.blocks, "\n"),
        // Neither comes here: the text is within the finder's limit, and has its work space.
        Listing::TextTooLong => unreachable!(),
        Listing::WorkTooShort => unreachable!(),
    }
}
