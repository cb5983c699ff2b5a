// How numbers are printed: each after a space, or, where they may be many, by their runs of equal ones.
ghost use Rattle.std.specs.Prelude.{length};
ghost use Rattle.std.specs.Iterator.{at_most};

use std::fmt;

#[derive(Clone, Copy)]
pub struct Numbers<'a>(pub &'a [u16]);

impl fmt::Display for Numbers<'_> {
    fn fmt<W: fmt::Write>(&self, f: &mut fmt::Formatter<W>) -> fmt::Result {
        for number in self.0 {
            write!(f, " {number}")?;
        }
        Ok(())
    }
}

// A number, and how often it stands in a row.
#[derive(Clone, Copy)]
pub struct Run {
    times: usize,
    number: u16,
}

#[derive(Clone, Copy)]
pub struct Runs<'a>(pub &'a [u16]);

impl Iterator for Runs<'_> {
    type Item = Run;

    ghost remaining = { λ s. at_most (length s.0.now) };

    fn next(&mut self) -> Option<Run> {
        let (first, rest) = self.0.split_first()?;
        let more = rest.iter().take_while(|number| *number == first).count();
        self.0 = &rest[more..];
        Some(Run {
            times: 1 + more,
            number: *first,
        })
    }
}

impl fmt::Display for Runs<'_> {
    fn fmt<W: fmt::Write>(&self, f: &mut fmt::Formatter<W>) -> fmt::Result {
        for (i, run) in self.enumerate() {
            if i != 0 {
                write!(f, ",")?;
            }
            write!(f, " {} of {}", run.times, run.number)?;
        }
        Ok(())
    }
}
