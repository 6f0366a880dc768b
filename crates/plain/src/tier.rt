// The match of a plain rule, in one loop.
ghost use Rattle.std.specs.Prelude.{◌≡◌, ◌^◌, ◌<◌, ◌≤◌, length, set};
ghost use Rattle.std.specs.Int.Bits.{bit_or};
ghost use Rattle.answers.specs.Part.{bound_part};
ghost use Rattle.term.specs.Code.{variables};
ghost use Rattle.term.specs.Limits.{longest_pattern};
ghost use Rattle.parts.specs.Packed.{packed};
ghost use Rattle.plain.specs.Bytes.{leaves_of, list_of, symbol_of, turn_of, TurnWithin, tiering_of, tier_on};

use crate::check::with;
use crate::runs::{is_leaf, runs_among};
use answers::Part;
use parts::PARTS;
use term::{Code, LIST, Language, VARIABLES, extents};

// What one turn of the tier does: a node fails, its children are entered, a list's run name has its length noted, a name takes the node of so many
// bytes, a run name takes its run.
#[derive(Clone, Copy, Debug, PartialEq, Eq)]
pub enum Turn {
    Fails,
    Enters(usize),
    Notes(u8, u8),
    TakesNode(u8, usize),
    TakesRun(u8),
}

// The count, and which variables are assigned, where all nodes of the pattern hold.
#[derive(Clone, Copy, Debug, PartialEq, Eq)]
pub struct Tiering {
    pub count: u32,
    pub assigned: Option<u64>,
}

// A list against a list: where the numbers of children differ, a run name takes what its other child patterns leave.
fn list_step(table: &[u8], q: &[u8], r: &[u8]) -> Turn
    ensures is { result ≡ list_of table.now q.now r.now }
    ensures within { TurnWithin q.now r.now result }
{
    if q.len() < 2 {
        return Turn::Fails;
    }
    if r.len() < 2 {
        return Turn::Fails;
    }
    let n = q[1];
    let m = r[1];
    if n == m {
        return Turn::Enters(2);
    }
    let runs = runs_among(table, &q[2..], n);
    if runs.number == 0 {
        return Turn::Fails;
    }
    if m < n - 1 {
        return Turn::Fails;
    }
    Turn::Notes(runs.variable, m - (n - 1))
}

// A symbol: its children are entered. Pattern and record start at the pair in q and r.
fn symbol_step(language: &Language<'_>, q: &[u8], r: &[u8], b: u8) -> Turn
    requires { 0 < length q.now }
    ensures is { result ≡ symbol_of language.now.table.now language.now.classes.now q.now r.now b }
    ensures within { TurnWithin q.now r.now result }
{
    if r.is_empty() {
        return Turn::Fails;
    }
    if !term::same_symbol(language.classes, b, r[0]) {
        return Turn::Fails;
    }
    if term::entry_of(language.table, b) == LIST {
        return list_step(language.table, q, r);
    }
    Turn::Enters(1)
}

// The pattern node that starts q, set against the record's bytes r.
fn step_at(language: &Language<'_>, q: &[u8], r: &[u8]) -> Turn
    requires { 0 < length q.now }
    ensures is { result ≡ turn_of language.now.table.now language.now.classes.now q.now r.now }
    ensures within { TurnWithin q.now r.now result }
{
    match term::decode(q[0]) {
        Code::Symbol(b) => symbol_step(language, q, r, b),
        Code::Name(v) => Turn::TakesNode(v, term::extent(language.table, r)),
        Code::Run(v) => Turn::TakesRun(v),
        Code::Complement | Code::Refused => Turn::Fails,
    }
}

// The variable v takes n elements of so many bytes.
fn take(parts: &mut [u64; PARTS], assigned: u64, v: u8, node: usize, size: usize, n: u8) -> u64
    requires { v < variables }
    ensures { (result ≡ bit_or assigned (2 ^ v)) × (parts.new ≡ set parts.old v (packed (bound_part node size n))) }
{
    parts[usize::from(v)] = parts::packed(Part::bound(node, size, n));
    with(assigned, v)
}

// How many nodes at the start of q are symbols without children that hold, each against the byte of r at its place.
fn leaves(language: &Language<'_>, q: &[u8], r: &[u8]) -> usize
    ensures is { result ≡ leaves_of language.now.table.now language.now.classes.now q.now r.now }
    ensures within { (result ≤ length q.now) × (result ≤ length r.now) }
{
    for n in 0..q.len() {
        if r.len() <= n {
            return n;
        }
        if !is_leaf(language.table, term::decode(q[n])) {
            return n;
        }
        if !term::same_symbol(language.classes, q[n], r[n]) {
            return n;
        }
    }
    q.len()
}

// A plain pattern against a record. A run name's length is known from the moment that its list is entered, so no open node is kept.
pub(crate) fn tier(
    language: &Language<'_>,
    pattern: &[u8],
    record: &[u8],
    parts: &mut [u64; PARTS],
) -> Tiering
    requires { length pattern.now ≤ longest_pattern }
    ensures is { result ≡ tiering_of (tier_on language.now.table.now language.now.classes.now pattern.now «record».now parts.old) }
    ensures parts { parts.new ≡ (tier_on language.now.table.now language.now.classes.now pattern.now «record».now parts.old).parts }
{
    let mut lengths = [1u8; VARIABLES];
    let mut at = 0;
    let mut node = 0;
    let mut count = 0;
    let mut assigned = 0;
    while at < pattern.len() {
        let turn = step_at(language, &pattern[at..], &record[node..]);
        count += 1;
        match turn {
            Turn::Fails => {
                return Tiering {
                    count,
                    assigned: None,
                };
            }
            Turn::Enters(width) => {
                at += width;
                node += width;
                let n = leaves(language, &pattern[at..], &record[node..]);
                at += n;
                node += n;
                count += n as u32;
            }
            Turn::Notes(v, n) => {
                let i = usize::from(v);
                lengths[i] = n;
                at += 2;
                node += 2;
            }
            Turn::TakesNode(v, size) => {
                assigned = take(parts, assigned, v, node, size, 1);
                at += 1;
                node += size;
            }
            Turn::TakesRun(v) => {
                let i = usize::from(v);
                let n = lengths[i];
                let size = extents(language.table, &record[node..], n);
                assigned = take(parts, assigned, v, node, size, n);
                at += 1;
                node += size;
            }
        }
    }
    Tiering {
        count,
        assigned: Some(assigned),
    }
}
