// Runs the files of vectors that its arguments name; data/format.txt says what a line holds. For each file it prints the lines that differ
// from what is answered or can't be read, and how many agree and differ.
#![tactic(auto)]

mod calls;
mod matches;

use std::env::Env;
use std::io;
use std::io::Read;
use std::rt::Files;
use vector_lines::shown::Line;
use vector_lines::text::{self, Fields};

// The most bytes of a file.
const FILE: usize = 262144;

// How many lines agree, and how many differ.
#[derive(Clone, Copy, Debug, Default, PartialEq, Eq)]
struct Tally {
    agree: u64,
    differ: u64,
}

impl Tally {
    fn count(&mut self, agrees: bool) {
        let n = if agrees {
            &mut self.agree
        } else {
            &mut self.differ
        };
        *n = n.saturating_add(1);
    }
}

// A line that can't be read is shown whole.
fn print_difference(rt: &impl Print, line: &[u8], answered: Option<Line>) -> io::Result<()> {
    match answered {
        None => {
            rt.write_all(b"can't be read: ")?;
            rt.write_all(line)?;
        }
        Some(outcome) => {
            let (label, _) = text::cut(line, b' ');
            let (_, stated) = text::cut(line, b'=');
            rt.write_all(label)?;
            rt.write_all(b": stated")?;
            rt.write_all(stated)?;
            rt.write_all(b"; answered")?;
            rt.write_all(outcome.as_slice())?;
        }
    }
    rt.write_all(b"\n")
}

// Whether what is answered is what the line states. An outcome that fills its room may be cut, and counts as another.
fn run_vector(rt: &impl Print, line: &[u8]) -> io::Result<bool> {
    let (call, stated) = text::cut(line, b'=');
    let (_label, call) = text::cut(call, b' ');
    let (name, fields) = text::cut(call, b' ');
    let answered = calls::answer(name, Fields::of(fields), Fields::of(stated));
    if let Some(outcome) = &answered
        && !outcome.is_full()
        && outcome.as_slice() == stated
    {
        return Ok(true);
    }
    print_difference(rt, line, answered)?;
    Ok(false)
}

// An empty line and one with # are no vectors.
fn run_lines(rt: &impl Print, text: &[u8]) -> io::Result<Tally> {
    let mut tally = Tally::default();
    for line in text.split(|b| *b == b'\n') {
        if !matches!(line, [] | [b'#', ..]) {
            tally.count(run_vector(rt, line)?);
        }
    }
    Ok(tally)
}

fn print_tally(rt: &impl Print, name: &[u8], tally: Tally) -> io::Result<()> {
    let Tally { agree, differ } = tally;
    rt.write_all(name)?;
    println!(rt; ": {agree} agree, {differ} differ")
}

// The vectors of an open file, read into a space that must be longer.
fn run_space<R: Read>(
    rt: &impl Print,
    name: &[u8],
    reader: &mut R,
    space: &mut [u8],
) -> io::Result<()> {
    let n = input::fill(reader, space)?;
    if n == space.len() {
        rt.write_all(name)?;
        return rt.write_all(b": too long\n");
    }
    let tally = run_lines(rt, &space[..n])?;
    print_tally(rt, name, tally)
}

fn file_space() -> [u8; FILE] {
    [0u8; FILE]
}

fn run_open<R: Read>(rt: &impl Print, name: &[u8], reader: &mut R) -> io::Result<()> {
    let mut space = file_space();
    run_space(rt, name, reader, &mut space)
}

fn run_file<R: Files + Print>(rt: &R, name: &[u8]) -> io::Result<()> {
    let Ok(mut reader) = input::open(rt, name) else {
        rt.write_all(name)?;
        return rt.write_all(b": can't be opened\n");
    };
    run_open(rt, name, &mut reader)
}

fn run_argument<R: Files + Env + Print>(rt: &R, k: usize) -> io::Result<()> {
    let mut name = [0u8; input::NAME_ROOM];
    let n = input::argument(rt, k, &mut name);
    run_file(rt, &name[..n])
}

fn main(rt: HostRuntime) -> io::Result<()> {
    let n = input::argument_count(&rt);
    for k in 1..n {
        run_argument(&rt, k)?;
    }
    Ok(())
}
