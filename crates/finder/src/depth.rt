// The depth of a length, from the table of fifteen limits.
ghost use Rattle.std.specs.Prelude.{◌≡◌, ◌≤◌, leb, position};
ghost use Rattle.repetition.specs.Limits.{limits, length_limit, depth};

use crate::Finder;

const LIMITS: [usize; Finder::GREATEST_DEPTH + 1] = [
    1, 2, 4, 8, 16, 32, 64, 128, 256, 512, 1024, 2048, 4096, 8192, 16384,
];

// The place of the first limit that is at least n, if there is one.
fn limit_at_least(n: usize) -> Option<usize>
    ensures { result ≡ position (λ l. leb n l) limits }
{
    LIMITS.iter().position(|limit| n <= *limit)
}

#[tactic(auto, using(crate::proofs::Depths::depth_found))]
pub fn depth_of(n: usize) -> usize
    requires { n ≤ length_limit }
    ensures { result ≡ depth n }
{
    limit_at_least(n).unwrap()
}
