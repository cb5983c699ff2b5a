// The test of one place.
ghost use Rattle.std.specs.Prelude.{◌≡◌, ◌&&◌, ◌+◌, ◌*◌, ◌≤◌, leb, length};
ghost use Rattle.finder.specs.Places.{same_letters};

// Is the half at least 1, and do its two copies end in a text of n letters? No sum is made that could wrap.
pub fn is_place(n: usize, start: u64, half: u64) -> bool
    ensures { result ≡ leb 1 half && leb (start + 2 * half) n }
{
    let end = n as u64;
    1 <= half && start <= end && half <= (end - start) / 2
}

// Are so many letters the same at two places?
pub fn same(text: &[u8], a: usize, b: usize, letters: usize) -> bool
    requires { (a + letters ≤ length text.now) × (b + letters ≤ length text.now) }
    ensures { result ≡ same_letters text.now a b letters }
{
    &text[a..a + letters] == &text[b..b + letters]
}
