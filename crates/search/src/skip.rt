// Lengths of a run name after which the next element can't hold: they are counted, and not tried.
ghost use Rattle.std.specs.Prelude.{◌≡◌, false, ◌+◌, ◌*◌, ◌^◌, ◌≤◌, ◌<◌, length};
ghost use Rattle.term.specs.Limits.{longest_record};
ghost use Rattle.search.specs.State.{place};
ghost use Rattle.search.specs.Inner.Skips.{skipped, SkipsTo, Skips, Lengthened, Lengthens};

use crate::place::Place;
use answers::Part;
use parts::{PARTS, part_of};
use skips::{affordable, chain, seek};
use term::{Code, bytes_of, decode, extent, same_symbol};

// What the next child pattern tells of the elements that it can hold of: nothing; that it may fail behind the first symbol, as it starts with a
// chain of them; or the code that it starts with.
#[derive(Clone, Copy)]
pub enum Want {
    Anything,
    Chain,
    Code(u8),
}

// Lengths of a run name that are passed over, the byte behind the last of their elements, whether those after them fail too, and what is counted.
// (No Option in place of `over`: the other fields are read either way.)
#[derive(Clone, Copy)]
pub struct Skipped {
    pub lengths: u8,
    pub node: usize,
    pub over: bool,
    pub count: u32,
}

impl Skipped {
    // No length is passed over.
    fn none(node: usize) -> Skipped
        ensures { result ≡ skipped 0 node false 0 }
    {
        Skipped {
            lengths: 0,
            node,
            over: false,
            count: 0,
        }
    }
}

// With n elements more, of so many bytes.
fn longer(x: u64, n: u8, size: usize) -> u64
    requires { (x < 2 ^ 48) × (size ≤ longest_record) }
    ensures { result ≡ x + 65536 * size + 4294967296 * n }
{
    x + 65536 * size as u64 + 4294967296 * n as u64
}

// The lengths after which the next element fails against x, a chain of so many symbols or a part; with none left, a plain child pattern fails.
fn skip_to(
    table: &[u8],
    classes: &[u8],
    record: &[u8],
    symbols: u8,
    x: &[u8],
    plain: bool,
    elements: u8,
    node: usize,
    left: u32,
) -> Skipped
    requires { (node ≤ length «record».now) × (length «record».now ≤ longest_record) }
    ensures { SkipsTo table.now classes.now «record».now symbols x.now plain elements node left result }
{
    let k = seek(
        table,
        classes,
        symbols,
        x,
        &record[node..],
        affordable(symbols, elements, left),
    );
    Skipped {
        lengths: k.elements,
        node: node + k.size,
        over: plain & (k.elements == elements),
        count: k.count,
    }
}

// The lengths that fail at once: the next child pattern starts with a chain of symbols, or is a name or run name that is assigned, and does not stand
// there.
fn skip(
    table: &[u8],
    classes: &[u8],
    pattern: &[u8],
    record: &[u8],
    parts: &[u64; PARTS],
    assigned: u64,
    children: u8,
    elements: u8,
    at: usize,
    node: usize,
    left: u32,
) -> Skipped
    requires { (node ≤ length «record».now) × (length «record».now ≤ longest_record) }
    ensures { Skips table.now classes.now pattern.now «record».now assigned parts.now (place children elements at node) left result }
{
    if children == 0 || pattern.len() <= at {
        return Skipped::none(node);
    }
    let code = decode(pattern[at]);
    match code {
        Code::Symbol(_) => skip_to(
            table,
            classes,
            record,
            chain(table, &pattern[at..]),
            &pattern[at..],
            true,
            elements,
            node,
            left,
        ),
        Code::Name(v) => skip_to(
            table,
            classes,
            record,
            0,
            bytes_of(record, part_of(parts, assigned, v)),
            true,
            elements,
            node,
            left,
        ),
        Code::Run(v) => skip_to(
            table,
            classes,
            record,
            0,
            bytes_of(record, part_of(parts, assigned, v)),
            false,
            elements,
            node,
            left,
        ),
        Code::Complement | Code::Refused => Skipped::none(node),
    }
}

// What the next child pattern tells of its elements, by its code where it is a symbol, or a name or run name that is assigned some bytes.
pub(crate) fn wanted(
    table: &[u8],
    pattern: &[u8],
    parts: &[u64; PARTS],
    assigned: u64,
    children: u8,
    at: usize,
) -> Want {
    if children == 0 || pattern.len() <= at {
        return Want::Anything;
    }
    let b = pattern[at];
    let code = decode(b);
    match code {
        Code::Symbol(_) => wanted_symbol(chain(table, &pattern[at..]), b),
        Code::Name(v) => wanted_part(part_of(parts, assigned, v), b),
        Code::Run(v) => wanted_part(part_of(parts, assigned, v), b),
        Code::Complement | Code::Refused => Want::Anything,
    }
}

fn wanted_symbol(symbols: u8, b: u8) -> Want {
    if 1 < symbols {
        return Want::Chain;
    }
    Want::Code(b)
}

fn wanted_part(part: Part, b: u8) -> Want {
    if part.length == 0 {
        return Want::Anything;
    }
    Want::Code(b)
}

// Whether it is worth to look for lengths that fail at once: not where the symbol wanted stands at the node.
fn scans(classes: &[u8], record: &[u8], want: Want, node: usize) -> bool {
    match want {
        Want::Anything => false,
        Want::Chain => true,
        Want::Code(b) => record.len() <= node || !same_symbol(classes, b, record[node]),
    }
}

// The lengths that fail at once, where it is worth to look for them.
pub(crate) fn skip_where(
    table: &[u8],
    classes: &[u8],
    pattern: &[u8],
    record: &[u8],
    parts: &[u64; PARTS],
    assigned: u64,
    want: Want,
    place: Place,
    left: u32,
) -> Skipped
    requires { (place.node ≤ length «record».now) × (length «record».now ≤ longest_record) }
    ensures { Skips table.now classes.now pattern.now «record».now assigned parts.now place left result }
{
    if !scans(classes, record, want, place.node) {
        return Skipped::none(place.node);
    }
    skip(
        table,
        classes,
        pattern,
        record,
        parts,
        assigned,
        place.children,
        place.elements,
        place.at,
        place.node,
        left,
    )
}

// What is left of the lengths of a run name after one that failed.
#[derive(Clone, Copy)]
pub struct Lengthening {
    pub place: Place,
    pub left: u32,
    pub over: bool,
}

// The variable v is given one element more, and those that the lengths passed over have.
pub(crate) fn lengthen(
    table: &[u8],
    classes: &[u8],
    pattern: &[u8],
    record: &[u8],
    parts: &mut [u64; PARTS],
    assigned: u64,
    v: usize,
    want: Want,
    place: Place,
    left: u32,
) -> Lengthening
    requires { Lengthened (length «record».now) parts.old v place }
    ensures { Lengthens table.now classes.now pattern.now «record».now assigned parts.old v place left parts.new result }
{
    let at = place.node;
    let node = at + extent(table, &record[at..]);
    let one = place.behind(1, node);
    let k = skip_where(
        table, classes, pattern, record, parts, assigned, want, one, left,
    );
    parts[v] = longer(parts[v], 1 + k.lengths, k.node - at);
    Lengthening {
        place: one.behind(k.lengths, k.node),
        left: left - k.count,
        over: k.over,
    }
}
