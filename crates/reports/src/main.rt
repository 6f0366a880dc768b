// Reports on files that are accepted, on files that are refused, and on the largest ones. Each takes four arguments: its label, and the
// names of its files. stated.txt has for each report, in the same order, its label, the text that it must have, and an empty line.
// files.txt says what each file holds.
#![tactic(auto)]

ghost use Rattle.std.specs.Prelude.{◌≤◌, length};

use std::env::Env;
use std::io;
use std::rt::Files;

// More than stated.txt has.
const STATED_ROOM: usize = 131072;

// How many bytes the first block takes, the empty line after it among them.
fn block_end(stated: &[u8]) -> usize
    ensures { result ≤ length stated.now }
{
    for i in 1..stated.len() {
        if stated[i - 1] == b'\n' && stated[i] == b'\n' {
            return i + 1;
        }
    }
    stated.len()
}

// What follows a text and the end of a line at the front of a block; `None` where the block has others there.
fn rest_after<'a>(block: &'a [u8], text: &[u8]) -> Option<&'a [u8]> {
    block.strip_prefix(text)?.strip_prefix(b"\n")
}

// Whether a block has this label and this text, and no more.
fn agrees(block: &[u8], label: &[u8], text: &[u8]) -> bool {
    let Some(rest) = rest_after(block, label) else {
        return false;
    };
    rest_after(rest, text).is_some_and(|left| left.is_empty())
}

// Writes whether a report is as stated, and both where it is not.
fn tell(rt: &impl Print, block: &[u8], label: &[u8], text: &[u8]) -> io::Result<bool> {
    rt.write_all(label)?;
    if agrees(block, label, text) {
        rt.write_all(b": as stated\n")?;
        return Ok(true);
    }
    rt.write_all(b": not as stated\nstated:\n")?;
    rt.write_all(block)?;
    rt.write_all(b"reported:\n")?;
    rt.write_all(text)?;
    Ok(false)
}

// Compares the report of these arguments with a block.
fn compare<R: Files + Env + Print>(
    rt: &R,
    label: usize,
    table: usize,
    rules: usize,
    states: usize,
    block: &[u8],
) -> io::Result<bool> {
    let mut first = [0u8; input::NAME_ROOM];
    let mut second = [0u8; input::NAME_ROOM];
    let mut third = [0u8; input::NAME_ROOM];
    let mut fourth = [0u8; input::NAME_ROOM];
    let l = input::argument(rt, label, &mut first);
    let t = input::argument(rt, table, &mut second);
    let r = input::argument(rt, rules, &mut third);
    let s = input::argument(rt, states, &mut fourth);
    let mut text = [0u8; report_lines::REPORT_ROOM];
    let size = report_files::read_report(rt, &second[..t], &third[..r], &fourth[..s], &mut text);
    tell(rt, block, &first[..l], &text[..size])
}

// Compares all reports, and writes how many are as stated and whether more is stated.
fn compare_all<R: Files + Env + Print>(rt: &R, stated: &[u8]) -> io::Result<()> {
    let n = input::argument_count(rt);
    let mut rest = stated;
    let mut at: usize = 1;
    let mut agreed: u64 = 0;
    while at < n {
        if n - at < 4 {
            break;
        }
        let end = block_end(rest);
        if compare(rt, at, at + 1, at + 2, at + 3, &rest[..end])? {
            agreed += 1;
        }
        rest = &rest[end..];
        at += 4;
    }
    println!(rt; "{agreed} reports as stated")?;
    if 0 < rest.len() {
        println!(rt; "more is stated")?;
    }
    Ok(())
}

fn main(rt: HostRuntime) -> io::Result<()> {
    let mut space = [0u8; STATED_ROOM];
    let mut stated = input::open(&rt, b"stated.txt")?;
    let size = input::fill(&mut stated, &mut space)?;
    compare_all(&rt, &space[..size])?;
    report_files::report(&rt, b"table.bin", b"rules.bin", b"states.bin")?;
    report_files::report(&rt, b"table.bin", b"missing.bin", b"states.bin")?;
    report_files::report(&rt, b"table_200.bin", b"rules_64.bin", b"states_most.bin")
}
