// The texts over an alphabet. A text's number has its letters as digits, the first letter the lowest.
ghost use Rattle.std.specs.Prelude.{◌≤◌, length};
ghost use Rattle.trial.specs.declared.texts.TheConstants.{MOST_LETTERS};

// Letters that a text may have here.
pub const MOST_LETTERS: usize = 12;

#[derive(Clone, Copy)]
pub struct Text<'a> {
    pub letters: &'a [u8],
    ghost short: { length letters.now ≤ MOST_LETTERS },
}

impl<'a> Text<'a> {
    // Spells the text with this number into the space. None if the number has too many digits.
    pub fn spell(number: usize, alphabet: &[u8], space: &'a mut [u8]) -> Option<Text<'a>>
        requires { length space.old ≤ MOST_LETTERS }
    {
        if alphabet.is_empty() {
            return None;
        }
        let mut rest = number;
        for letter in space.iter_mut() {
            *letter = alphabet[rest % alphabet.len()];
            rest /= alphabet.len();
        }
        if rest == 0 {
            Some(Text { letters: space })
        } else {
            None
        }
    }
}
