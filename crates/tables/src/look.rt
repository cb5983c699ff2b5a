// The one function that looks at the letters, and the scan that finds a match length by it.
ghost use Rattle.std.specs.Prelude.{◌≡◌, ◌+◌, ◌<◌, ◌^◌, length};
ghost use Rattle.tables.specs.Looks.{looked, CanScan, scan_of};

// What was found, and the count of looks with those in it that found it.
#[derive(Clone, Copy)]
pub struct Counted<T> {
    pub found: T,
    pub count: u32,
}

// One comparison: are the letters at two places equal?
pub fn look(letters: &[u16], i: usize, j: usize, count: u32) -> Counted<bool>
    requires { (i < length letters.now) × (j < length letters.now) × (count + 1 < 2 ^ 32) }
    ensures { result ≡ looked letters.now i j count }
{
    Counted {
        found: letters[i] == letters[j],
        count: count + 1,
    }
}

// How many letters are the same from two places on, with room for so many letters. The first `known` are known to be the same and
// are not looked at. Document 01 asks for a loop whose `break` yields the length, at an end or a mismatch.
pub fn scan(
    letters: &[u16],
    a: usize,
    b: usize,
    room: usize,
    known: usize,
    count: u32,
) -> Counted<usize>
    requires { CanScan letters.now a b room known count }
    ensures { result ≡ scan_of letters.now a b room known count }
{
    let mut looks = count;
    let mut on = known;
    let found = loop {
        if room <= on {
            break on;
        }
        let seen = look(letters, a + on, b + on, looks);
        looks = seen.count;
        if !seen.found {
            break on;
        }
        on += 1;
    };
    Counted {
        found,
        count: looks,
    }
}
