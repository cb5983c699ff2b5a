// One example in a line: what an entry of the finder was asked, and what came back. A failed write ends it.
use crate::reply::{Answer, Reply};
use crate::say::{Numbers, Runs};
use crate::text::Text;
use finder::Finder;
use std::io;

// The list, with all that report and work space hold afterwards.
pub fn list(rt: &impl Print, text: Text, work: &mut [u16], report: &mut [u16]) -> io::Result<()> {
    let reply = Reply::from(Finder::list(text.bytes(), work, report));
    print!(rt;
        "list {text}, work of {}, report of {}: {reply}",
        work.len(),
        report.len()
    )?;
    println!(rt; "; report{}; work{}", Numbers(report), Runs(work))
}

pub fn stands(rt: &impl Print, text: Text, start: u64, half: u64) -> io::Result<()> {
    let reply = Reply::from(Finder::stands(text.bytes(), start, half).map(Answer::YesOrNo));
    println!(rt; "place in {text}, start {start}, half {half}: {reply}")
}

// This and the next are two: one for both would take a word, a call and a constructor.
pub fn is_free(rt: &impl Print, text: Text, work: &mut [u16]) -> io::Result<()> {
    let reply = Reply::from(Finder::is_free(text.bytes(), work).map(Answer::YesOrNo));
    println!(rt;
        "free {text}, work of {}: {reply}; work{}",
        work.len(),
        Runs(work)
    )
}

pub fn longest(rt: &impl Print, text: Text, work: &mut [u16]) -> io::Result<()> {
    let reply = Reply::from(Finder::longest(text.bytes(), work).map(Answer::Longest));
    println!(rt;
        "longest {text}, work of {}: {reply}; work{}",
        work.len(),
        Runs(work)
    )
}

pub fn room(rt: &impl Print, n: usize) -> io::Result<()> {
    let reply = Reply::from(Finder::room(n).map(Answer::Blocks));
    println!(rt; "room for {n}: {reply}")
}
