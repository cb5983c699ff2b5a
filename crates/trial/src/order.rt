// Document 01's order of the list, found by going down from the whole text into the pieces.
use crate::blocks::{Block, Blocks};

// The turns in which the repetitions of a part are listed.
#[derive(Clone, Copy, PartialEq, Eq, PartialOrd, Ord)]
enum Turn {
    RightOnes,
    LeftOnes,
    LeftPiece,
    RightPiece,
}

// Not the finder's struct, which can't have methods here.
#[derive(Clone, Copy)]
struct Repetition {
    start: u16,
    half: u16,
}

impl Repetition {
    // Its turn in a part that is cut there and that it lies in.
    fn turn(self, cut: usize) -> Turn {
        let start = usize::from(self.start);
        let half = usize::from(self.half);
        if start + 2 * half <= cut {
            Turn::LeftPiece
        } else if start >= cut {
            Turn::RightPiece
        } else if start + half >= cut {
            Turn::RightOnes
        } else {
            Turn::LeftOnes
        }
    }

    // Is it listed before the other? Neither is if they are of one part, class and half.
    fn is_before(self, other: Repetition, letters: usize) -> bool {
        let mut from = 0;
        let mut to = letters;
        // A while: no index is counted, the part shrinks to the piece that holds both.
        while to - from >= 2 {
            let cut = from + (to - from).div_ceil(2);
            let turn = self.turn(cut);
            let other_turn = other.turn(cut);
            if turn != other_turn {
                return turn < other_turn;
            }
            match turn {
                Turn::LeftPiece => to = cut,
                Turn::RightPiece => from = cut,
                Turn::RightOnes | Turn::LeftOnes => return self.half < other.half,
            }
        }
        false
    }
}

impl Block {
    fn at(self, start: u16) -> Repetition {
        Repetition {
            start,
            half: self.half,
        }
    }

    // Are its starts in order, and its repetitions of one part and class?
    fn is_of_one_class(self, letters: usize) -> bool {
        let first = self.at(self.first);
        let last = self.at(self.last);
        self.first <= self.last
            && !first.is_before(last, letters)
            && !last.is_before(first, letters)
    }
}

pub fn are_of_one_class(list: &[u16], letters: usize) -> bool {
    Blocks(list).all(|block| block.is_of_one_class(letters))
}

// Is each block listed before the next?
pub fn are_in_order(list: &[u16], letters: usize) -> bool {
    Blocks(list).is_sorted_by(|one, next| {
        one.at(one.first).is_before(next.at(next.first), letters)
    })
}
