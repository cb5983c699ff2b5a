// Runs the examples of document 01, and more at the same edges, on the compiled finder: a line for each says what was asked and
// what came back. A report is full of 7 and a work space of 9 before the call, so that what is kept can be seen.
#![tactic(auto)]

mod ask;
mod long;
mod reply;
mod say;
mod text;

use crate::text::Text::{Named, Word};
use std::io;

// Document 01's list examples. The work space has one number more than is needed, and the report three more than the blocks take.
fn lists(rt: &impl Print) -> io::Result<()> {
    ask::list(rt, Word(""), &mut [9; 1], &mut [7; 3])?;
    ask::list(rt, Word("a"), &mut [9; 3], &mut [7; 3])?;
    ask::list(rt, Word("aa"), &mut [9; 5], &mut [7; 6])?;
    ask::list(rt, Word("ab"), &mut [9; 5], &mut [7; 3])?;
    ask::list(rt, Word("aba"), &mut [9; 7], &mut [7; 3])?;
    ask::list(rt, Word("abab"), &mut [9; 9], &mut [7; 6])?;
    ask::list(rt, Word("aaaa"), &mut [9; 9], &mut [7; 15])?;
    ask::list(rt, Word("ababc"), &mut [9; 11], &mut [7; 6])?;
    ask::list(rt, Word("abcabcab"), &mut [9; 17], &mut [7; 9])
}

// Texts full of 0 and of 255: no byte can serve as an end character.
fn all_bytes(rt: &impl Print) -> io::Result<()> {
    ask::list(
        rt,
        Named("bytes 0 0 0 0", &[0; 4]),
        &mut [9; 9],
        &mut [7; 15],
    )?;
    ask::list(
        rt,
        Named("bytes 255 255 255 255", &[255; 4]),
        &mut [9; 9],
        &mut [7; 15],
    )?;
    ask::list(
        rt,
        Named("bytes 0 255 0 255", &[0, 255, 0, 255]),
        &mut [9; 9],
        &mut [7; 6],
    )
}

// Reports and work spaces at the edge of too short.
fn short_memory(rt: &impl Print) -> io::Result<()> {
    ask::list(rt, Word("aaaa"), &mut [9; 8], &mut [7; 12])?;
    ask::list(rt, Word("aaaa"), &mut [9; 8], &mut [7; 11])?;
    ask::list(rt, Word("aaaa"), &mut [9; 8], &mut [7; 7])?;
    ask::list(rt, Word("aaaa"), &mut [9; 8], &mut [7; 2])?;
    ask::list(rt, Word("aaaa"), &mut [9; 7], &mut [7; 12])?;
    ask::list(rt, Word("a"), &mut [9; 1], &mut [7; 3])
}

fn places(rt: &impl Print) -> io::Result<()> {
    for (start, half) in [(0, 2), (1, 1), (1, 2), (0, 0), (4, 0)] {
        ask::stands(rt, Word("abab"), start, half)?;
    }
    ask::stands(rt, Word(""), 0, 1)
}

// Starts and halves at the ends of 64 bits. In the third and fourth, start and twice the half add up to 0 and 4 past 64 bits.
fn far_places(rt: &impl Print) -> io::Result<()> {
    for (start, half) in [
        (u64::MAX, 1),
        (0, u64::MAX),
        (0, 1 << 63),
        (u64::MAX - 1, 3),
        (u64::MAX, u64::MAX),
        (u64::MAX, 0),
    ] {
        ask::stands(rt, Word("abab"), start, half)?;
    }
    Ok(())
}

fn freedom(rt: &impl Print) -> io::Result<()> {
    ask::is_free(rt, Word(""), &mut [9; 1])?;
    ask::is_free(rt, Word("aa"), &mut [9; 5])?;
    ask::is_free(rt, Word("ab"), &mut [9; 5])?;
    ask::is_free(rt, Word("ab"), &mut [9; 3])
}

fn longest(rt: &impl Print) -> io::Result<()> {
    ask::longest(rt, Word("aa"), &mut [9; 5])?;
    ask::longest(rt, Word("ab"), &mut [9; 5])?;
    ask::longest(rt, Word("aaaa"), &mut [9; 9])?;
    ask::longest(rt, Word("abcabcab"), &mut [9; 17])?;
    ask::longest(rt, Word("aa"), &mut [9; 3])
}

fn rooms(rt: &impl Print) -> io::Result<()> {
    for n in [0, 1, 2, 3, 16_384, 16_385, usize::MAX] {
        ask::room(rt, n)?;
    }
    Ok(())
}

fn main(rt: HostRuntime) -> io::Result<()> {
    lists(&rt)?;
    all_bytes(&rt)?;
    short_memory(&rt)?;
    places(&rt)?;
    far_places(&rt)?;
    freedom(&rt)?;
    longest(&rt)?;
    rooms(&rt)?;
    long::limit(&rt)?;
    long::past_limit(&rt)
}
