// The letters of a text, as the search has them.
ghost use Rattle.std.specs.Prelude.{◌≡◌, ◌*◌, length};
ghost use Rattle.tables.specs.Letters.{both_ways};

// Writes a text's letters, as 16-bit numbers, and after them the same letters reversed.
#[tactic(auto, unfolding(tables::specs::Letters::both_ways))]
pub fn write_letters(text: &[u8], letters: &mut [u16])
    requires { length letters.old ≡ 2 * length text.now }
    ensures { letters.new ≡ both_ways text.now }
{
    let (forward, backward) = letters.split_at_mut(text.len());
    // Not a `zip`: the invariant would be about what its iterator still lends, and not about the letters.
    for (i, letter) in text.iter().enumerate() {
        let letter = u16::from(*letter);
        forward[i] = letter;
        backward[text.len() - 1 - i] = letter;
    }
}
