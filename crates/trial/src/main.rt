// Tries the finder on many short texts, against a check of its own that goes letter by letter, and for the order of the list
// piece by piece. The line of a run says what was tried and how many answers disagreed. A failed write ends it.
#![tactic(auto)]

mod blocks;
mod brute;
mod counts;
mod entries;
mod order;
mod places;
mod texts;

ghost use Rattle.std.specs.Prelude.{◌≤◌, length};

use crate::counts::Counts;
use crate::texts::{MOST_LETTERS, Text};
use std::io;

// Prints the line of a run over all texts that fit into the space: of each length, every number up to the first that spells none.
fn run(rt: &impl Print, name: &str, alphabet: &[u8], space: &mut [u8]) -> io::Result<()>
    requires { length space.old ≤ MOST_LETTERS }
{
    let mut counts = Counts::default();
    for letters in 0..=space.len() {
        for number in 0..usize::MAX {
            let Some(text) = Text::spell(number, alphabet, &mut space[..letters]) else {
                break;
            };
            counts += entries::try_text(text);
        }
    }
    println!(rt; "{name}, up to {}: {counts}", space.len())
}

fn main(rt: HostRuntime) -> io::Result<()> {
    run(&rt, "letters a b", b"ab", &mut [0; MOST_LETTERS])?;
    run(&rt, "bytes 0 255", &[0, 255], &mut [0; 10])?;
    run(&rt, "letters a b c", b"abc", &mut [0; 7])?;
    run(&rt, "bytes 0 97 255", &[0, 97, 255], &mut [0; 7])
}
