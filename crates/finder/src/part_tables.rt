// The four match tables of a part, where they stand in the work space.
ghost use Rattle.std.specs.Prelude.{◌≡◌, ◌+◌, ◌*◌, ◌≤◌, length};
ghost use Rattle.repetition.specs.Limits.{length_limit};
ghost use Rattle.tables.specs.Parts.{letters};

use tables::CutPart;

// The tables of a part that is cut into u and v: v against itself, u backward against itself, v backward against u backward, and
// u against v.
#[derive(Clone, Copy)]
pub struct PartTables<'a> {
    pub cut: usize,
    pub v_itself: &'a [u16],
    pub u_back_itself: &'a [u16],
    pub v_back_against_u_back: &'a [u16],
    pub u_against_v: &'a [u16],
    pub ghost v_sizes: { length v_back_against_u_back.now ≡ length v_itself.now },
    pub ghost u_sizes: { length u_against_v.now ≡ length u_back_itself.now },
    pub ghost u_inside: { (1 ≤ length u_back_itself.now) × (length u_back_itself.now ≤ cut) },
    pub ghost v_inside: { cut + length v_itself.now ≤ length_limit },
}

impl<'a> PartTables<'a> {
    ghost use Rattle.finder.specs.Reading.{StandIn};

    // The tables as they stand one after the other at the front of the work space.
    pub fn of(part: CutPart, work: &'a [u16]) -> PartTables<'a>
        requires { 2 * letters part ≤ length work.now }
        ensures { StandIn work.now part result }
    {
        let letters_v = part.letters_v();
        let letters = part.letters();
        PartTables {
            cut: part.cut(),
            v_itself: &work[..letters_v],
            u_back_itself: &work[letters_v..letters],
            v_back_against_u_back: &work[letters..letters + letters_v],
            u_against_v: &work[letters + letters_v..2 * letters],
        }
    }
}
