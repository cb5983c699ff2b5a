// An output, and the numbers that are put into it.
ghost use Rattle.std.specs.Prelude.{◌≡◌, ◌+◌, ◌≤◌, ◌++◌, length};
ghost use Rattle.arrayvec.specs.ArrayString.{array_string_len};
ghost use Rattle.listing.specs.Output.{decimal};
ghost use Rattle.listing.specs.Parts.{HasRoom, count_digits};

use arrayvec::ArrayString;
use itoa::{Buffer, Integer};

// Blocks that a list may have.
pub const BLOCK_LIMIT: usize = 2_000;
// Letters of the longest output: a header of 46, and a line of 18 for each block.
const ROOM: usize = 46 + 18 * BLOCK_LIMIT;

pub type Output = ArrayString<ROOM>;

// Puts a number in decimal, and a word after it. Not by `write!`, whose contract doesn't say that it succeeds where it fits.
pub fn put_number<N: Integer, const CAP: usize>(out: &mut ArrayString<CAP>, value: N, after: &str)
    requires { HasRoom CAP out.old (length (N.text value) + length after.now) }
    ensures puts { out.new.bytes ≡ out.old.bytes ++ (N.text value ++ after.now) }
    ensures short { array_string_len out.new ≤ array_string_len out.old + (N.MAX_STR_LEN + length after.now) }
{
    out.push_str(Buffer::new().format(value));
    out.push_str(after);
}

// Puts a word, a number after it, and a word after that.
pub fn put_count<const CAP: usize>(
    out: &mut ArrayString<CAP>,
    before: &str,
    value: u32,
    after: &str,
)
    requires { HasRoom CAP out.old (length before.now + (count_digits + length after.now)) }
    ensures puts { out.new.bytes ≡ out.old.bytes ++ (before.now ++ (decimal value ++ after.now)) }
    ensures short { array_string_len out.new ≤ array_string_len out.old + (length before.now + (count_digits + length after.now)) }
{
    out.push_str(before);
    put_number(out, value, after);
}
