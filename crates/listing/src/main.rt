// The listing program: prints the list of all repetitions of standard input, as document 01 has it under "Examples".
// It reads to the end of the input, or to the first byte past its limit, before it prints anything. A read or a write that fails
// ends it with an error, which names the stream.
#![tactic(auto)]

mod input;
mod letters;
mod output;

use crate::letters::Output;
use anyhow::anyhow;
use std::io::Write;

fn main(rt: HostRuntime) -> anyhow::Result<()> {
    // One byte more than a text may have, by which a longer input is known.
    let mut text = [0u8; output::TEXT_LIMIT + 1];
    let read = input::read_text(&mut rt.stdin(), &mut text);
    let n = read.map_err(|error| anyhow!("standard input: {error}"))?;
    let mut out = Output::new();
    output::put_output(&text[..n], &mut out);
    let written = rt.stdout().write_all(out.as_str().as_bytes());
    written.map_err(|error| anyhow!("standard output: {error}"))
}
