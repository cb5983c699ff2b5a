// A part of two letters or more, with its cut worked out once.
ghost use Rattle.std.specs.Prelude.{◌≡◌, ◌+◌, ◌-◌, ◌≤◌};
ghost use Rattle.repetition.specs.Limits.{length_limit};
ghost use Rattle.repetition.specs.Cutting.{cut_of};
ghost use Rattle.tables.specs.Parts.{part, letters, letters_u, letters_v, piece_u, piece_v, WellCut};

use crate::cut_at;
use crate::walk::Piece;
use std::marker::Model;

#[derive(Clone, Copy)]
pub struct CutPart {
    from: usize,
    cut: usize,
    to: usize,
}

impl Model for CutPart {
    ghost use Rattle.std.specs.Prelude.{◌≡◌};
    ghost use Rattle.std.proofs.Common.{sym, ap};
    ghost use Rattle.repetition.specs.Cutting.{Part, cut_of};
    ghost use Rattle.tables.specs.Parts.{part, WellCut};

    ghost Value = { Part };

    ghost view = { λ a. part a.from a.to };

    ghost invariant = { λ a. (a.cut ≡ cut_of (part a.from a.to)) × WellCut (part a.from a.to) };

    ghost inverse = { λ q. record { from = q.from; cut = cut_of q; to = q.to } };

    ghost inverse_ok = { λ a h. ap (λ c. record { from = a.from; cut = c; to = a.to }) (sym h.0) };
}

impl CutPart {
    // The part from a place up to another.
    pub fn new(from: usize, to: usize) -> CutPart
        requires { (from + 2 ≤ to) × (to ≤ length_limit) }
        ensures { result ≡ part from to }
    {
        CutPart {
            from,
            cut: cut_at(from, to),
            to,
        }
    }

    // Where it begins.
    pub fn from(self) -> usize
        ensures place { result ≡ self.from }
        ensures well_cut { WellCut self }
    {
        self.from
    }

    // Where it ends: the first place that is not in it.
    pub fn to(self) -> usize
        ensures place { result ≡ self.to }
        ensures well_cut { WellCut self }
    {
        self.to
    }

    pub fn cut(self) -> usize
        ensures place { result ≡ cut_of self }
        ensures well_cut { WellCut self }
    {
        self.cut
    }

    pub fn letters(self) -> usize
        ensures number { result ≡ letters self }
        ensures well_cut { WellCut self }
    {
        self.to - self.from
    }

    pub fn letters_u(self) -> usize
        ensures number { result ≡ letters_u self }
        ensures well_cut { WellCut self }
    {
        self.cut - self.from
    }

    pub fn letters_v(self) -> usize
        ensures number { result ≡ letters_v self }
        ensures well_cut { WellCut self }
    {
        self.to - self.cut
    }

    // The left piece, as it lies in the text.
    pub(crate) fn u(self) -> Piece
        ensures piece { result ≡ piece_u self }
        ensures well_cut { WellCut self }
    {
        Piece {
            from: self.from,
            size: self.letters_u(),
        }
    }

    // The right piece.
    pub(crate) fn v(self) -> Piece
        ensures piece { result ≡ piece_v self }
        ensures well_cut { WellCut self }
    {
        Piece {
            from: self.cut,
            size: self.letters_v(),
        }
    }
}
