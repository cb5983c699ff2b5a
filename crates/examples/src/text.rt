// A text, and how the lines name it.
use std::fmt;

#[derive(Clone, Copy)]
pub enum Text<'a> {
    Word(&'a str),
    Named(&'a str, &'a [u8]),
}

impl<'a> Text<'a> {
    pub fn bytes(self) -> &'a [u8] {
        match self {
            Text::Word(word) => word.as_bytes(),
            Text::Named(_, bytes) => bytes,
        }
    }
}

impl fmt::Display for Text<'_> {
    fn fmt<W: fmt::Write>(&self, f: &mut fmt::Formatter<W>) -> fmt::Result {
        match *self {
            Text::Word(word) => write!(f, "\"{word}\""),
            Text::Named(name, _) => write!(f, "{name}"),
        }
    }
}
