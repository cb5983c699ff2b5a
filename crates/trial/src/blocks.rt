// The listed blocks, read from the numbers of a report: half, first start and last start of each.
ghost use Rattle.std.specs.Prelude.{length};
ghost use Rattle.std.specs.Iterator.{at_most};

// As a report has it, in 16 bits. The finder's own block is private to it, and has other numbers.
#[derive(Clone, Copy)]
pub struct Block {
    pub half: u16,
    pub first: u16,
    pub last: u16,
}

impl Block {
    pub fn holds(self, start: usize, half: usize) -> bool {
        usize::from(self.half) == half
            && usize::from(self.first) <= start
            && start <= usize::from(self.last)
    }

    // None if the first comes after the last.
    pub fn starts(self) -> usize {
        (self.first..=self.last).count()
    }
}

// The blocks that these numbers list.
#[derive(Drop)]
pub struct Blocks<'a>(pub &'a [u16]);

impl Iterator for Blocks<'_> {
    type Item = Block;

    ghost remaining = { λ s. at_most (length s.0.now) };

    fn next(&mut self) -> Option<Block> {
        let [half, first, last, rest @ ..] = self.0 else {
            return None;
        };
        self.0 = rest;
        Some(Block {
            half: *half,
            first: *first,
            last: *last,
        })
    }
}
