// Elements of a list that are passed over together: those that do not start with given symbols or bytes.
#![tactic(auto)]

ghost use Rattle.std.specs.Prelude.{◌≡◌, ◌*◌, ◌≤◌, ◌<◌, length};
ghost use Rattle.term.specs.Code.{decode_of};
ghost use Rattle.term.specs.Extent.{extent_of};
ghost use Rattle.skips.specs.Passed.{leaf_at, alike_of, most_symbols, is_symbol, ends_chain, chain_of, differs_at, passed_over, passed_of, Passes, dearest_of, affordable_of};

use term::{Code, LIST, class_of, decode, entry_of, extent, same, same_symbol};

// A chain has no more symbols.
const MOST_SYMBOLS: u8 = 255;

// How many elements are passed over, their bytes, and what is counted for them.
#[derive(Clone, Copy)]
pub struct Passed {
    pub elements: u8,
    pub size: usize,
    pub count: u32,
}

impl Passed {
    // Each counts its length and one pair.
    fn at_one_pair(elements: u8, size: usize) -> Passed
        ensures { result ≡ passed_over elements size (2 * elements) }
    {
        Passed {
            elements,
            size,
            count: 2 * elements as u32,
        }
    }
}

// The number of bytes of the term at the start of s; most elements are symbols without children.
fn element(table: &[u8], s: &[u8]) -> usize
    ensures is { result ≡ extent_of table.now s.now }
    ensures within { result ≤ length s.now }
{
    if 0 < s.len() && entry_of(table, s[0]) == 0 {
        return 1;
    }
    extent(table, s)
}

// Whether the byte at i is a symbol without children.
fn leaf(table: &[u8], s: &[u8], i: usize) -> bool
    ensures { result ≡ leaf_at table.now s.now i }
{
    i < s.len() && entry_of(table, s[i]) == 0
}

// The same as `element`, where most have none or up to two children, which have none. (With two callers, neither would be compiled into its own.)
fn small_element(table: &[u8], s: &[u8]) -> usize
    ensures is { result ≡ extent_of table.now s.now }
    ensures within { result ≤ length s.now }
{
    if 0 < s.len() {
        let entry = entry_of(table, s[0]);
        if entry == 0 {
            return 1;
        }
        if entry == 1 && leaf(table, s, 1) {
            return 2;
        }
        if entry == 2 && leaf(table, s, 1) && leaf(table, s, 2) {
            return 3;
        }
    }
    extent(table, s)
}

fn is_symbol(b: u8) -> bool
    ensures { result ≡ is_symbol (decode_of b) }
{
    matches!(decode(b), Code::Symbol(_))
}

// Whether no symbol after b is of its chain: b has no children, or is a list.
fn ends(table: &[u8], b: u8) -> bool
    ensures { result ≡ ends_chain table.now b }
{
    let entry = entry_of(table, b);
    (entry == 0) | (entry == LIST)
}

// The symbols at the start of q, each but the first the first child of the one before.
pub fn chain(table: &[u8], q: &[u8]) -> u8
    ensures { result ≡ chain_of table.now most_symbols q.now }
{
    for n in 0..MOST_SYMBOLS {
        let i = usize::from(n);
        if q.len() <= i || !is_symbol(q[i]) {
            return n;
        }
        if ends(table, q[i]) {
            return n + 1;
        }
    }
    MOST_SYMBOLS
}

// The pairs counted where y is set against so many symbols of x, a chain: up to and with the first that differs, 0 where none does.
fn differs(classes: &[u8], symbols: u8, x: &[u8], y: &[u8]) -> u8
    ensures { result ≡ differs_at classes.now symbols x.now y.now }
{
    for n in 0..symbols {
        let i = usize::from(n);
        if x.len() <= i || y.len() <= i {
            return 0;
        }
        if !same_symbol(classes, x[i], y[i]) {
            return n + 1;
        }
    }
    0
}

// Whether so many bytes at the start of y may be those whose first and last are of these classes: most that differ do there.
fn alike(classes: &[u8], first: u8, last: u8, size: usize, y: &[u8]) -> bool
    requires { 0 < size }
    ensures { result ≡ alike_of classes.now first last size y.now }
{
    if y.len() < size {
        return false;
    }
    if first != class_of(classes, y[0]) {
        return false;
    }
    last == class_of(classes, y[size - 1])
}

// The elements at the start of r, at most so many, of which none starts with x.
fn seek_part(table: &[u8], classes: &[u8], x: &[u8], r: &[u8], most: u8) -> Passed
    ensures { result ≡ passed_of table.now classes.now 0 x.now r.now most }
{
    let size = x.len();
    if size == 0 {
        return Passed::at_one_pair(0, 0);
    }
    let first = class_of(classes, x[0]);
    let last = class_of(classes, x[size - 1]);
    let mut at: usize = 0;
    for n in 0..most {
        if r.len() <= at {
            return Passed::at_one_pair(n, at);
        }
        if alike(classes, first, last, size, &r[at..])
            && same(table, classes, x, &r[at..at + size])
        {
            return Passed::at_one_pair(n, at);
        }
        at += small_element(table, &r[at..]);
    }
    Passed::at_one_pair(most, at)
}

// The elements at the start of r, at most so many, that all differ from so many symbols of x, a chain. (With one loop for both, three run names take
// 17 % more instructions.)
fn seek_chain(table: &[u8], classes: &[u8], symbols: u8, x: &[u8], r: &[u8], most: u8) -> Passed
    requires { 0 < symbols }
    ensures { result ≡ passed_of table.now classes.now symbols x.now r.now most }
{
    let mut size: usize = 0;
    let mut count: u32 = 0;
    for elements in 0..most {
        if r.len() <= size {
            return Passed {
                elements,
                size,
                count,
            };
        }
        let rest = &r[size..];
        let pairs = differs(classes, symbols, x, rest);
        if pairs == 0 {
            return Passed {
                elements,
                size,
                count,
            };
        }
        count += 1 + pairs as u32;
        size += element(table, rest);
    }
    Passed {
        elements: most,
        size,
        count,
    }
}

// The elements at the start of r, at most so many, that all fail against x: a chain of so many symbols, or where they are 0 a part. One symbol is a part
// of one byte.
pub fn seek(table: &[u8], classes: &[u8], symbols: u8, x: &[u8], r: &[u8], most: u8) -> Passed
    ensures is { result ≡ passed_of table.now classes.now symbols x.now r.now most }
    ensures few { result.elements ≤ most }
    ensures passes { Passes table.now classes.now symbols x.now r.now result.elements result.size result.count }
{
    if symbols == 0 {
        return seek_part(table, classes, x, r, most);
    }
    if symbols == 1 && 0 < x.len() {
        return seek_part(table, classes, &x[..1], r, most);
    }
    seek_chain(table, classes, symbols, x, r, most)
}

// The most that is counted for an element: its length, and the pairs up to the one that fails.
fn dearest(symbols: u8) -> u32
    ensures { result ≡ dearest_of symbols }
{
    if symbols == 0 {
        return 2;
    }
    1 + symbols as u32
}

// As many elements as an allowance has for, at the most that is counted for each.
pub fn affordable(symbols: u8, elements: u8, left: u32) -> u8
    ensures is { result ≡ affordable_of symbols elements left }
    ensures fits { (result ≤ elements) × (dearest_of symbols * result ≤ left) }
{
    let each = dearest(symbols);
    if each * elements as u32 <= left {
        return elements;
    }
    (left / each) as u8
}
