// The letters of a text, and after them the same letters reversed. A piece of the text read backward is then a piece of these.
ghost use Rattle.std.specs.Prelude.{◌≡◌};
ghost use Rattle.tables.specs.Letters.{text_of, BothWays};

use std::marker::Model;

#[derive(Drop)]
pub struct Letters<'a> {
    pub(crate) both_ways: &'a [u16],
}

impl<'a> Model for Letters<'a> {
    ghost use Rattle.std.specs.Prelude.{ℕ, List};
    ghost use Rattle.tables.specs.Letters.{text_of, BothWays};

    ghost Value = { List ℕ };

    ghost view = { λ a. text_of a.both_ways.now };

    ghost invariant = { λ a. BothWays a.both_ways.now };
}

impl<'a> Letters<'a> {
    // The letters that stand in a slice, forward and then reversed.
    pub fn of(both_ways: &'a [u16]) -> Letters<'a>
        requires { BothWays both_ways.now }
        ensures { result ≡ text_of both_ways.now }
    {
        Letters { both_ways }
    }
}
