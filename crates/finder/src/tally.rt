// What is kept while the blocks of a text are found: the report that is lent, and a tally by value.
ghost use Rattle.std.specs.Prelude.{◌≡◌, ◌+◌, ◌<◌, ◌^◌};
ghost use Rattle.finder.specs.Kept.{the_block, counted, compared, the_totals, the_longest, with_block, kept, put, CanWrite, CanPut};

use crate::Finder;
use crate::reply::{Repetition, Totals};

// Blocks and comparisons so far, and half and start of the longest repetition so far. A half of 0: there is none yet. An
// `Option<Repetition>` in place of the two takes 3.8% more instructions and 3% more time on a text of one letter.
#[derive(Clone, Copy, Default)]
pub struct Tally {
    pub blocks: u32,
    pub comparisons: u32,
    pub half: usize,
    pub start: usize,
}

// All starts from first to last, with one half length.
#[derive(Clone, Copy)]
pub struct Block {
    pub half: usize,
    pub first: usize,
    pub last: usize,
}

impl Tally {
    // With so many comparisons.
    pub fn compared(self, comparisons: u32) -> Tally
        ensures { result ≡ compared self comparisons }
    {
        Tally {
            comparisons,
            ..self
        }
    }

    // With one block more.
    #[tactic(auto, unfolding(crate::specs::Kept::counted))]
    pub fn counted(self, block: Block) -> Tally
        requires { self.blocks + 1 < 2 ^ 32 }
        ensures { result ≡ counted self (the_block block) }
    {
        let blocks = self.blocks + 1;
        if self.half < block.half {
            return Tally {
                blocks,
                half: block.half,
                start: block.first,
                ..self
            };
        }
        Tally { blocks, ..self }
    }

    pub fn totals(self) -> Totals
        ensures { result ≡ the_totals self }
    {
        Totals {
            blocks: self.blocks,
            comparisons: self.comparisons,
        }
    }

    // The longest repetition, if there is one.
    pub fn longest(self) -> Option<Repetition>
        ensures { result ≡ the_longest self }
    {
        if self.half == 0 {
            return None;
        }
        Some(Repetition {
            start: self.start,
            half: self.half,
        })
    }
}

// Writes a block that comes after so many others, if it fits. No other function writes a report.
fn write(report: &mut [u16], blocks: u32, block: Block)
    requires { CanWrite (the_block block) }
    ensures { report.new ≡ with_block blocks (the_block block) report.old }
{
    let at = Finder::NUMBERS_PER_BLOCK * blocks as usize;
    // Three stores: an array of the three and `copy_from_slice` take 9% more time on a text of one letter.
    if at + Finder::NUMBERS_PER_BLOCK <= report.len() {
        report[at] = block.half as u16;
        report[at + 1] = block.first as u16;
        report[at + 2] = block.last as u16;
    }
}

// Puts a block into the report, if it fits, and into the tally. The two are no struct: one that holds a lent report asks a clause
// about the loan of each function that takes it.
#[tactic(auto, unfolding(crate::specs::Kept::put))]
pub fn put(report: &mut [u16], tally: Tally, block: Block) -> Tally
    requires { CanPut tally (the_block block) }
    ensures { kept report.new result ≡ put (kept report.old tally) (the_block block) }
{
    write(report, tally.blocks, block);
    tally.counted(block)
}
