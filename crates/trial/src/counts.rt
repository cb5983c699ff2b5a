// What is counted. A count wraps past 64 bits, which no run comes near.
use std::fmt;
use std::num::Wrapping;
use std::ops::AddAssign;

type Count = Wrapping<u64>;

#[derive(Clone, Copy, Default)]
pub struct Counts {
    pub texts: Count,
    pub places: Count,
    pub repetitions: Count,
    pub blocks: Count,
    pub comparisons: Count,
    pub disagreed: Count,
}

impl Counts {
    // Counts the answers that disagreed with what is right: those that are false.
    pub fn judge(&mut self, agreed: &[bool]) {
        self.disagreed += agreed.iter().filter(|agrees| !**agrees).count() as u64;
    }
}

impl AddAssign for Counts {
    fn add_assign(&mut self, more: Counts) {
        self.texts += more.texts;
        self.places += more.places;
        self.repetitions += more.repetitions;
        self.blocks += more.blocks;
        self.comparisons += more.comparisons;
        self.disagreed += more.disagreed;
    }
}

impl fmt::Display for Counts {
    fn fmt<W: fmt::Write>(&self, f: &mut fmt::Formatter<W>) -> fmt::Result {
        let Counts {
            texts,
            places,
            repetitions,
            blocks,
            comparisons,
            disagreed,
        } = *self;
        write!(
            f,
            "{texts} texts, {places} places, {repetitions} repetitions, "
        )?;
        write!(
            f,
            "{blocks} blocks, {comparisons} comparisons, {disagreed} disagreed"
        )
    }
}
