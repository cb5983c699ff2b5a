// The place test and the list against what is right, at every place of a text and some outside it: starts and halves go from 0
// to one more than the text has letters.
use crate::blocks::Blocks;
use crate::counts::Counts;
use crate::texts::Text;
use finder::Finder;
use finder::reply::PlaceRefusal;

// What was seen at the places of a text.
#[derive(Clone, Copy, Default)]
pub struct Seen {
    pub counts: Counts,
    pub greatest_half: Option<usize>,
}

impl Seen {
    pub fn of(text: Text, list: &[u16]) -> Seen {
        let mut seen = Seen::default();
        for start in 0..text.letters.len() + 2 {
            for half in 0..text.letters.len() + 2 {
                seen.try_place(text, list, start, half);
            }
        }
        seen
    }

    fn try_place(&mut self, text: Text, list: &[u16], start: usize, half: usize) {
        let stands = text.stands(start, half);
        let said = Finder::stands(text.letters, start as u64, half as u64);
        let holding = Blocks(list)
            .filter(|block| block.holds(start, half))
            .count();
        self.counts.places += 1;
        if stands == Some(true) {
            self.counts.repetitions += 1;
            self.greatest_half = self.greatest_half.max(Some(half));
        }
        let listed = usize::from(stands == Some(true));
        self.counts.judge(&[
            said == stands.ok_or(PlaceRefusal::NoSuchPlace),
            holding == listed,
        ]);
    }
}
