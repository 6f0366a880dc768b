// One turn of the search on bytes: what comes of the next pair of pattern and record.
#![tactic(auto)]

ghost use Rattle.std.specs.Prelude.{◌≡◌, ◌≤◌, ◌<◌, length, drop};
ghost use Rattle.steps.specs.Turn.{stands_of, over_step, symbol_step, assigned_step, name_step, run_step};
ghost use Rattle.steps.specs.Turn.{complement_step, pair_step, part_for, plain_step_from, step_from};

use answers::Part;
use parts::{PARTS, part_of};
use term::{Code, LIST, bytes_of, decode, entry_of, extent, same, same_symbol};

// Where the pairs of a level stop: at a failure, for want of allowance, with no pair left, or at a run name.
#[derive(Clone, Copy)]
pub enum Stop {
    Failure,
    NoAllowance,
    NoPair,
    RunName(u8),
}

// What one turn does: it stops, a pair fails, a node is over, a node is entered, a pair holds, a name is bound, a complement is put by.
#[derive(Clone, Copy)]
pub enum Step {
    Stops(Stop),
    Fails,
    Closes,
    Opens(u8, u8, usize),
    Passes(u8, usize),
    Binds(u8, usize),
    PutsBy(usize, usize),
}

// Whether the bytes of a part stand at the start of r.
pub fn stands(table: &[u8], classes: &[u8], record: &[u8], part: Part, r: &[u8]) -> bool
    ensures { result ≡ stands_of table.now classes.now «record».now part r.now }
{
    let n = part.length as usize;
    if r.len() < n {
        return false;
    }
    same(table, classes, bytes_of(record, part), &r[..n])
}

// A node with no child pattern left: an element left over is a failure.
fn over(outermost: bool, elements: u8) -> Step
    ensures { result ≡ over_step outermost elements }
{
    if 0 < elements {
        return Step::Stops(Stop::Failure);
    }
    if outermost {
        return Step::Stops(Stop::NoPair);
    }
    Step::Closes
}

// A symbol: its children are entered. Pattern and record start at the pair in q and r.
fn symbol(table: &[u8], classes: &[u8], q: &[u8], r: &[u8], b: u8) -> Step
    requires { 0 < length r.now }
    ensures { result ≡ symbol_step table.now classes.now q.now r.now b }
{
    if !same_symbol(classes, b, r[0]) {
        return Step::Fails;
    }
    let entry = entry_of(table, b);
    if entry == 0 {
        return Step::Passes(1, 1);
    }
    if entry != LIST {
        return Step::Opens(entry, entry, 1);
    }
    if q.len() < 2 {
        return Step::Fails;
    }
    if r.len() < 2 {
        return Step::Fails;
    }
    Step::Opens(q[1], r[1], 2)
}

// An assigned name or run name: the elements there must be its own.
fn assigned_step(
    table: &[u8],
    classes: &[u8],
    record: &[u8],
    part: Part,
    r: &[u8],
    elements: u8,
) -> Step
    ensures { result ≡ assigned_step table.now classes.now «record».now part r.now elements }
{
    if elements < part.elements {
        return Step::Fails;
    }
    if stands(table, classes, record, part, r) {
        return Step::Passes(part.elements, part.length as usize);
    }
    Step::Fails
}

// A name: an unassigned one takes the node, an assigned one must equal it.
fn name(
    table: &[u8],
    classes: &[u8],
    record: &[u8],
    r: &[u8],
    v: u8,
    part: Part,
    elements: u8,
) -> Step
    ensures { result ≡ name_step table.now classes.now «record».now r.now v part elements }
{
    if part.is_absent() {
        return Step::Binds(v, extent(table, r));
    }
    assigned_step(table, classes, record, part, r, elements)
}

// A run name: an unassigned one leaves a choice, an assigned one tries its own length only.
fn run_name(
    table: &[u8],
    classes: &[u8],
    record: &[u8],
    v: u8,
    part: Part,
    r: &[u8],
    elements: u8,
    left: u32,
) -> Step
    ensures { result ≡ run_step table.now classes.now «record».now v part r.now elements left }
{
    if part.is_absent() {
        return Step::Stops(Stop::RunName(v));
    }
    if left == 0 {
        return Step::Stops(Stop::NoAllowance);
    }
    assigned_step(table, classes, record, part, r, elements)
}

// A complement is put by. The last child pattern of a level is all that is left of it, and where its node ends does not matter.
fn complement_step(table: &[u8], q: &[u8], r: &[u8], last: bool) -> Step
    ensures { result ≡ complement_step last table.now q.now r.now }
{
    if last {
        return Step::PutsBy(q.len(), 0);
    }
    Step::PutsBy(extent(table, q), extent(table, r))
}

// A pattern node, the last of its level or not, is set against a record node.
fn pair(
    table: &[u8],
    classes: &[u8],
    record: &[u8],
    q: &[u8],
    r: &[u8],
    parts: &[u64; PARTS],
    assigned: u64,
    code: Code,
    last: bool,
    elements: u8,
) -> Step
    requires { 0 < length r.now }
    ensures { result ≡ pair_step last code table.now classes.now «record».now q.now r.now (part_for code assigned parts.now) elements }
{
    match code {
        Code::Symbol(b) => symbol(table, classes, q, r, b),
        Code::Name(v) => name(
            table,
            classes,
            record,
            r,
            v,
            part_of(parts, assigned, v),
            elements,
        ),
        Code::Run(_) => Step::Fails,
        Code::Complement => complement_step(table, q, r, last),
        Code::Refused => Step::Fails,
    }
}

// The record from a byte on: nothing where it ends before.
fn rest_of(record: &[u8], node: usize) -> &[u8]
    ensures { result.now ≡ drop node «record».now }
{
    if record.len() < node {
        return &record[..0];
    }
    &record[node..]
}

// The next child pattern is no run name.
fn plain(
    table: &[u8],
    classes: &[u8],
    pattern: &[u8],
    record: &[u8],
    parts: &[u64; PARTS],
    assigned: u64,
    code: Code,
    last: bool,
    elements: u8,
    at: usize,
    node: usize,
    left: u32,
) -> Step
    requires { at ≤ length pattern.now }
    ensures { result ≡ plain_step_from last code table.now classes.now pattern.now «record».now assigned parts.now elements at node left }
{
    if elements == 0 {
        return Step::Stops(Stop::Failure);
    }
    if record.len() <= node {
        return Step::Stops(Stop::Failure);
    }
    if left == 0 {
        return Step::Stops(Stop::NoAllowance);
    }
    pair(
        table,
        classes,
        record,
        &pattern[at..],
        &record[node..],
        parts,
        assigned,
        code,
        last,
        elements,
    )
}

// What the next turn does in a node, a level's outermost or not, with so many child patterns and elements left: from a byte of the pattern and one of
// the record on. (Handed on as parts, these take registers that the loops within need.)
pub fn step_of(
    table: &[u8],
    classes: &[u8],
    pattern: &[u8],
    record: &[u8],
    parts: &[u64; PARTS],
    assigned: u64,
    outermost: bool,
    children: u8,
    elements: u8,
    at: usize,
    node: usize,
    left: u32,
) -> Step
    ensures { result ≡ step_from outermost table.now classes.now pattern.now «record».now assigned parts.now children elements at node left }
{
    if children == 0 {
        return over(outermost, elements);
    }
    if pattern.len() <= at {
        return Step::Stops(Stop::Failure);
    }
    let code = decode(pattern[at]);
    match code {
        Code::Run(v) => run_name(
            table,
            classes,
            record,
            v,
            part_of(parts, assigned, v),
            rest_of(record, node),
            elements,
            left,
        ),
        Code::Symbol(_) | Code::Name(_) | Code::Complement => {
            plain(
                table,
                classes,
                pattern,
                record,
                parts,
                assigned,
                code,
                outermost & (children == 1),
                elements,
                at,
                node,
                left,
            )
        }
        Code::Refused => Step::Stops(Stop::Failure),
    }
}
