// Texts at the limit of length, and one byte past it.
use crate::ask;
use crate::text::Text::Named;
use finder::Finder;
use std::io;

const LIMIT: usize = Finder::LENGTH_LIMIT;

// How often 2 divides 1, 2, 3, 4, 5, 6, 7, 8, ..: the text 0 1 0 2 0 1 0 3 .., which has no repetition at all.
fn fill_with_twos(text: &mut [u8]) {
    for (i, letter) in text.iter_mut().enumerate() {
        *letter = (i + 1).trailing_zeros() as u8;
    }
}

// The report has room for one block.
pub fn limit(rt: &impl Print) -> io::Result<()> {
    let zeros = Named("16384 bytes 0", &[0; LIMIT]);
    ask::list(rt, zeros, &mut [9; 2 * LIMIT + 1], &mut [7; 4])?;
    let full = Named("16384 bytes 255", &[255; LIMIT]);
    ask::list(rt, full, &mut [9; 2 * LIMIT + 1], &mut [7; 4])?;
    let mut bytes = [0; LIMIT];
    fill_with_twos(&mut bytes);
    let twos = Named("16384 bytes 0 1 0 2 0 1 0 3 ..", &bytes);
    ask::list(rt, twos, &mut [9; 2 * LIMIT], &mut [7; 3])?;
    ask::is_free(rt, twos, &mut [9; 2 * LIMIT])?;
    ask::longest(rt, zeros, &mut [9; 2 * LIMIT])?;
    ask::stands(rt, zeros, 0, 8_192)?;
    ask::list(rt, zeros, &mut [9; 2 * LIMIT - 1], &mut [7; 3])
}

pub fn past_limit(rt: &impl Print) -> io::Result<()> {
    let zeros = Named("16385 bytes 0", &[0; LIMIT + 1]);
    ask::list(rt, zeros, &mut [9; 2 * LIMIT + 2], &mut [7; 3])?;
    ask::list(rt, zeros, &mut [9; 0], &mut [7; 3])?;
    ask::stands(rt, zeros, 0, 0)?;
    ask::is_free(rt, zeros, &mut [9; 0])?;
    ask::longest(rt, zeros, &mut [9; 0])
}
