// The parts of a text: each is cut, its blocks are put, and then its left and its right piece are treated the same way.
ghost use Rattle.std.specs.Prelude.{[], ◌∷◌};
ghost use Rattle.repetition.specs.Cutting.{parts};
ghost use Rattle.finder.specs.Finding.{CanFindPart, CanFind, Finds};

use crate::part_tables::PartTables;
use crate::reading::Class;
use crate::tally::Tally;
use tables::CutPart;
use tables::text::Letters;

// The letters from a place up to another, which is not in it.
#[derive(Clone, Copy)]
pub struct Part {
    pub from: usize,
    pub to: usize,
}

// Finds the blocks of a part of two letters or more, and counts its comparisons.
// Inlined, it would cost the calls for one letter, half of all, what a part needs: 2 percent more instructions on prose.
#[inline(never)]
fn find_part(
    letters: &Letters,
    work: &mut [u16],
    report: &mut [u16],
    part: CutPart,
    tally: Tally,
) -> Tally
    requires { CanFindPart letters.now work.old part tally }
    ensures { Finds letters.now work.old report.old (part ∷ []) tally result work.new report.new }
{
    let count = tables::fill_tables(letters, work, part, tally.comparisons);
    let tables = PartTables::of(part, &work[..]);
    let with_right = tables.put_class(Class::Right, report, tally.compared(count));
    tables.put_class(Class::Left, report, with_right)
}

// Finds the blocks of a part and of its pieces, down to one letter, and counts their comparisons.
// What travels together stays apart: a struct that holds a `&mut` costs each function that takes it a clause about its name.
#[tactic(auto, using(crate::proofs::Finds::found_none, crate::proofs::Finds::tables_none))]
pub fn find(
    letters: &Letters,
    work: &mut [u16],
    report: &mut [u16],
    part: Part,
    tally: Tally,
) -> Tally
    requires { CanFind letters.now work.old part.from part.to tally }
    ensures { Finds letters.now work.old report.old
        (parts part.from part.to) tally result work.new report.new }
{
    let from = part.from;
    let to = part.to;
    if to - from < 2 {
        return tally;
    }
    let cut_part = CutPart::new(from, to);
    let cut = cut_part.cut();
    let here = find_part(letters, work, report, cut_part, tally);
    let with_left = find(letters, work, report, Part { from, to: cut }, here);
    find(letters, work, report, Part { from: cut, to }, with_left)
}
