// The blocks of a part, read from its match tables without a look at the text.
ghost use Rattle.std.specs.Prelude.{◌≡◌, ◌^◌, ◌≤◌, ◌<◌, IfSome, option_map, option_to_list};
ghost use Rattle.repetition.specs.Limits.{length_limit};
ghost use Rattle.finder.specs.Kept.{the_block, CanWrite, kept, put_all};
ghost use Rattle.finder.specs.Reading.{right_reach, left_reach, reach_of, cut_off, most_of, around_reach};
ghost use Rattle.finder.specs.Reading.{read_half, read_all, Inside, CanReach, CanPutHalf, CanReadAll};

use crate::part_tables::PartTables;
use crate::tally;
use crate::tally::{Block, Tally};

#[derive(Clone, Copy)]
pub enum Class {
    Right,
    Left,
}

// How far letters agree with those a half length on: so many back from a place, and so many on from it.
#[derive(Clone, Copy)]
pub struct Reach {
    pub place: usize,
    pub back: usize,
    pub on: usize,
}

impl Reach {
    // Cut off at half - 1: a right repetition ends at most 2p - 1 letters after the cut, a left one starts at most 2p - 1
    // before it and has its centre before it.
    fn cut_off(self, class: Class, half: usize) -> Reach
        requires { 1 ≤ half }
        ensures { result ≡ cut_off class half self }
    {
        let on = self.on.min(half - 1);
        match class {
            Class::Right => Reach { on, ..self },
            Class::Left => Reach {
                back: self.back.min(half - 1),
                on,
                ..self
            },
        }
    }

    // The block of a half, if there is one.
    #[tactic(auto, using(crate::proofs::Reaches::no_block, crate::proofs::Reaches::one_block))]
    fn block(self, half: usize) -> Option<Block>
        requires { Inside self × half ≤ length_limit }
        ensures found { option_to_list (option_map the_block result) ≡ around_reach half self }
        ensures fits { IfSome result (λ b. CanWrite (the_block b)) }
    {
        if self.back + self.on < half {
            return None;
        }
        Some(Block {
            half,
            first: self.place - self.back,
            last: self.place + self.on - half,
        })
    }
}

impl PartTables<'_> {
    // A right repetition's reach, from the first and the third table. Of the first table v's whole length has no entry.
    #[tactic(auto, unfolding(crate::specs::Reading::right_reach))]
    fn right_reach(&self, half: usize) -> Reach
        requires { CanReach self.now Class.Right half }
        ensures read { result ≡ right_reach self.now half }
        ensures fits { (result.back < 2 ^ 16) × (result.on < 2 ^ 16) }
    {
        Reach {
            place: self.cut,
            back: usize::from(self.v_back_against_u_back[self.v_itself.len() - half]),
            on: self
                .v_itself
                .get(half)
                .map_or(0, |length| usize::from(*length)),
        }
    }

    // A left repetition's reach, from the second and the fourth table.
    #[tactic(auto, unfolding(crate::specs::Reading::left_reach))]
    fn left_reach(&self, half: usize) -> Reach
        requires { CanReach self.now Class.Left half }
        ensures read { result ≡ left_reach self.now half }
        ensures fits { (result.back < 2 ^ 16) × (result.on < 2 ^ 16) }
    {
        Reach {
            place: self.cut - half,
            back: usize::from(self.u_back_itself[half]),
            on: usize::from(self.u_against_v[self.u_back_itself.len() - half]),
        }
    }

    // A `match` on the class, here and below: a trait with an impl for each would need a ghost member for each function, and laws.
    fn reach(&self, class: Class, half: usize) -> Reach
        requires { CanReach self.now class half }
        ensures read { result ≡ reach_of self.now class half }
        ensures fits { (result.back < 2 ^ 16) × (result.on < 2 ^ 16) }
    {
        match class {
            Class::Right => self.right_reach(half),
            Class::Left => self.left_reach(half),
        }
    }

    // The greatest half that a class can have in the part.
    fn greatest_half(&self, class: Class) -> usize
        ensures { result ≡ most_of self.now class }
    {
        match class {
            Class::Right => self.v_itself.len(),
            Class::Left => self.u_back_itself.len() - 1,
        }
    }

    // Puts the block of one class and half, if there is one. For most halves there is none, and the uncut reach tells.
    fn put_half(&self, class: Class, half: usize, report: &mut [u16], tally: Tally) -> Tally
        requires { CanPutHalf self.now class half tally }
        ensures { kept report.new result ≡ put_all (kept report.old tally) (read_half self.now class half) }
    {
        let reach = self.reach(class, half);
        if reach.back + reach.on < half {
            return tally;
        }
        match reach.cut_off(class, half).block(half) {
            Some(block) => tally::put(report, tally, block),
            None => tally,
        }
    }

    // Puts the blocks of one class, by rising half.
    pub fn put_class(&self, class: Class, report: &mut [u16], tally: Tally) -> Tally
        requires { CanReadAll self.now class tally }
        ensures { kept report.new result ≡ put_all (kept report.old tally) (read_all self.now class) }
    {
        let most = self.greatest_half(class);
        let mut all = tally;
        // By hand: a `for` over `1..=most` takes 1.2 percent more instructions on a unary text, and 1.8 on prose.
        let mut half = 1;
        'halves: while half <= most {
            all = self.put_half(class, half, report, all);
            half += 1;
        }
        all
    }
}
