// What is right of a text, found from its letters alone and by nothing of the finder.
use crate::texts::Text;

impl Text<'_> {
    // Does a repetition stand there? None if the text has no such place.
    pub fn stands(self, start: usize, half: usize) -> Option<bool> {
        if half == 0 {
            return None;
        }
        let rest = self.letters.get(start..)?;
        let one = rest.get(..half)?;
        let other = rest.get(half..)?.get(..half)?;
        Some(one == other)
    }

    // The bound on its blocks: its letters times their depth, the smallest number of doublings of 1 that come to as many.
    pub fn block_bound(self) -> u32 {
        let letters = self.letters.len() as u32;
        letters * letters.next_power_of_two().trailing_zeros()
    }

    // The bound on its comparisons: four times as many.
    pub fn comparison_bound(self) -> u64 {
        4 * u64::from(self.block_bound())
    }
}
