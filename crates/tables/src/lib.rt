// The match tables of a part: the one function that looks at the letters, the scan, the walk that fills a table, and here the
// four tables of a part in the work space. The letters are a text's, and after them the same letters reversed.
#![tactic(auto)]

mod look;
mod part;
pub mod text;
mod walk;

ghost use Rattle.std.specs.Prelude.{◌≤◌};
ghost use Rattle.repetition.specs.Limits.{length_limit};
ghost use Rattle.tables.specs.Parts.{CanFillPart};
ghost use Rattle.tables.specs.Promises.{CutPromise, TablesPromise};

use crate::text::Letters;
use crate::walk::TableAt;
pub use part::CutPart;

// Where a part is cut.
pub fn cut_at(from: usize, to: usize) -> usize
    requires { (from ≤ to) × (to ≤ length_limit) }
    ensures { CutPromise from to result }
{
    from + (to - from + 1) / 2
}

// Fills the four tables of a part, in document 01's order. The count of comparisons is raised by the part's.
pub fn fill_tables(letters: &Letters, work: &mut [u16], part: CutPart, count: u32) -> u32
    requires { CanFillPart letters.now work.old part count }
    ensures { TablesPromise letters.now work.old part count result work.new }
{
    let both_ways = letters.both_ways;
    let end = both_ways.len();
    let u = part.u();
    let v = part.v();
    let u_back = u.backward(end);
    let v_back = v.backward(end);
    let third = part.letters();
    let fourth = third + v.size;
    let after_first = v.fill_itself(both_ways, work, 0, count);
    let after_second = u_back.fill_itself(both_ways, work, v.size, after_first);
    let after_third = TableAt::against(v_back, u_back, v.size, third).fill(
        both_ways,
        work,
        after_second,
    );
    TableAt::against(u, v, 0, fourth).fill(both_ways, work, after_third)
}
