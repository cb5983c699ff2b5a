// Reading the text.
ghost use Rattle.std.specs.Io.{ReadsAtMost};

use std::io::{self, Read};

// Reads until the input ends or the buffer is full, in as many pieces as it comes in. Answers the text's length.
pub fn read_text<R: Read>(reader: &mut R, buffer: &mut [u8]) -> io::Result<usize>
    ensures { ReadsAtMost result buffer.new }
{
    let mut n = 0;
    // Not a `for`: a step is as long as the piece that was read.
    while n < buffer.len() {
        let got = reader.read(&mut buffer[n..])?;
        if got == 0 {
            break;
        }
        n += got;
    }
    Ok(n)
}
