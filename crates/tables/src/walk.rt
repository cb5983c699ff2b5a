// The walk that fills a match table by the counting rule of document 01.
ghost use Rattle.std.specs.Prelude.{◌≡◌, ◌+◌, ◌-◌, ◌<◌, ◌≤◌, length, get_or};
ghost use Rattle.repetition.specs.Comparisons.{scanned};
ghost use Rattle.tables.specs.Letters.{backward_at};
ghost use Rattle.tables.specs.Walks.{itself_at, against_at, table_of, walk_of, knowing, room_of, with_entry};
ghost use Rattle.tables.specs.Walks.{CanScanAt, CanFill, Fills};
ghost use Rattle.tables.specs.Progress.{Walked, Seeking, GoesOn};

use crate::look;
use std::cmp;

// So many letters from a place on. Not a slice of them: with slices a list takes 2 to 7 percent more instructions.
#[derive(Clone, Copy)]
pub struct Piece {
    pub from: usize,
    pub size: usize,
}

impl Piece {
    // The same piece read backward, as it lies in letters that end at this place.
    pub fn backward(self, end: usize) -> Piece
        requires { self.from + self.size ≤ end }
        ensures { result ≡ backward_at self end }
    {
        Piece {
            from: end - (self.from + self.size),
            size: self.size,
        }
    }

    // Fills the table of the piece against itself. That of one letter has no position, which is seen before a walk is begun.
    #[tactic(auto, using(crate::proofs::Fills::one_letter_cost, crate::proofs::Fills::one_letter_put))]
    pub fn fill_itself(self, letters: &[u16], work: &mut [u16], at: usize, count: u32) -> u32
        requires { CanFill letters.now work.old (itself_at self at) count }
        ensures { Fills letters.now work.old (itself_at self at) count result work.new }
    {
        if self.size < 2 {
            return count;
        }
        TableAt::itself(self, at).fill(letters, work, count)
    }
}

// A table to be filled, and its place in the work space: the entry of position i is the number at + i.
#[derive(Clone, Copy)]
pub struct TableAt {
    pub pattern: Piece,
    pub walked: Piece,
    // The first position that is walked: 1 in a table against itself, else 0.
    pub first: usize,
    // Where the pattern's own table stands.
    pub own: usize,
    pub at: usize,
}

// The record, a position k and an end e, and what the walk has cost so far.
#[derive(Clone, Copy, Default)]
pub struct Walk {
    pub k: usize,
    pub e: usize,
    pub cost: u32,
}

// Where a walk stops, at its end or for a scan: the position, how many letters are known to be the same there, and what the walk
// has cost so far. Not an Option of a position, with the cost beside it: with that, a list over four letters takes 5 percent more
// instructions.
#[derive(Clone, Copy)]
pub struct Stop {
    pub i: usize,
    pub known: usize,
    pub cost: u32,
}

// Letters and work space are lent to each method: a struct that held them with the table would owe, for each,
// `ensures { self.new.work.ghost_name ≡ self.old.work.ghost_name }` and two clauses more.
impl TableAt {
    // A piece against itself: the table is its own.
    fn itself(piece: Piece, at: usize) -> TableAt
        ensures { result ≡ itself_at piece at }
    {
        TableAt {
            pattern: piece,
            walked: piece,
            first: 1,
            own: at,
            at,
        }
    }

    // A piece against another, the pattern, whose own table stands elsewhere.
    pub fn against(walked: Piece, pattern: Piece, own: usize, at: usize) -> TableAt
        ensures { result ≡ against_at walked pattern own at }
    {
        TableAt {
            pattern,
            walked,
            first: 0,
            own,
            at,
        }
    }

    // How many letters a scan at position i may pass: what is left of the walked piece, and no more than the pattern has.
    fn room_at(self, i: usize) -> usize
        requires { i ≤ self.walked.size }
        ensures { result ≡ room_of self i }
    {
        cmp::min(self.walked.size - i, self.pattern.size)
    }

    // The pattern's own match length where a record at k puts position i.
    fn own_length(self, work: &[u16], i: usize, k: usize) -> usize
        requires { (k ≤ i) × (self.own + (i - k) < length work.now) }
        ensures { result ≡ get_or work.now (self.own + (i - k)) 0 }
    {
        usize::from(work[self.own + (i - k)])
    }

    // Finds the match length of position i by a scan. The first `known` letters are known to be the same.
    fn scan_at(self, letters: &[u16], work: &mut [u16], i: usize, known: usize, cost: u32) -> Walk
        requires { CanScanAt letters.now work.old self i (knowing i known cost) }
        ensures result_value { walk_of result ≡ scanned (table_of letters.now self) i (knowing i known cost) }
        ensures work_after { work.new ≡ with_entry letters.now self i work.old }
    {
        let scanned = look::scan(
            letters,
            self.walked.from + i,
            self.pattern.from,
            self.room_at(i),
            known,
            cost,
        );
        let len = scanned.found;
        work[self.at + i] = len as u16;
        Walk {
            k: i,
            e: i + len,
            cost: scanned.count,
        }
    }

    // Walks on from position i where no record reaches: each position whose first letter does not match has the match length 0,
    // by one look.
    fn seek(self, letters: &[u16], work: &mut [u16], i: usize, cost: u32) -> Stop
        requires { Seeking letters.now work.old self i cost }
        ensures { GoesOn letters.now work.old self i result work.new }
    {
        let mut looks = cost;
        for on in i..self.walked.size {
            let seen = look::look(letters, self.walked.from + on, self.pattern.from, looks);
            looks = seen.count;
            if seen.found {
                return Stop {
                    i: on,
                    known: 1,
                    cost: looks,
                };
            }
            work[self.at + on] = 0;
        }
        Stop {
            i: self.walked.size,
            known: 0,
            cost: looks,
        }
    }

    // Walks on from position i to the next one that needs a scan: over free positions as far as the record reaches, and from there
    // on by looks.
    fn follow(self, letters: &[u16], work: &mut [u16], i: usize, walk: Walk) -> Stop
        requires { Walked letters.now work.old self i (walk_of walk) }
        ensures { GoesOn letters.now work.old self i result work.new }
    {
        for on in i..walk.e {
            let known = walk.e - on;
            let own = self.own_length(&work[..], on, walk.k);
            if known <= own {
                return Stop {
                    i: on,
                    known,
                    cost: walk.cost,
                };
            }
            work[self.at + on] = own as u16;
        }
        self.seek(letters, work, cmp::max(i, walk.e), walk.cost)
    }

    // Fills the table. The count of comparisons is raised by what the walk costs. A loop that breaks, and not a
    // `while` with a call of `follow` before it: a tenth more instructions, since `follow` is then no longer inlined.
    pub fn fill(self, letters: &[u16], work: &mut [u16], count: u32) -> u32
        requires { CanFill letters.now work.old self count }
        ensures { Fills letters.now work.old self count result work.new }
    {
        let mut walk = Walk::default();
        let mut i = self.first;
        let cost = loop {
            let stop = self.follow(letters, work, i, walk);
            if self.walked.size <= stop.i {
                break stop.cost;
            }
            walk = self.scan_at(letters, work, stop.i, stop.known, stop.cost);
            i = stop.i + 1;
        };
        count + cost
    }
}
