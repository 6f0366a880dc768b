// Symbol tables, class lists and codes: what they stand for, which are accepted, where a term ends, and when two parts are the same.
#![tactic(auto)]

ghost use Rattle.std.specs.Prelude.{◌≡◌, true, false, [], ◌≤◌, ◌<◌, length};
ghost use Rattle.term.specs.Table.{entry_accepted, table_accepted};
ghost use Rattle.term.specs.Code.{decode_of};
ghost use Rattle.term.specs.Extent.{kids_of, entry_of, span_of, extent_of};
ghost use Rattle.term.specs.Class.{class_of, entry_classed, classes_accepted};
ghost use Rattle.term.specs.Same.{count_next, same_byte, same_part, Compares};
ghost use Rattle.term.specs.Part.{part_bytes};

use answers::Part;

// The most symbols that a table has.
pub const LARGEST_TABLE: usize = 200;

// The most bytes of a record.
pub const LONGEST_RECORD: usize = 4096;

// The most bytes of a pattern.
pub const LONGEST_PATTERN: usize = 256;

// The deepest nesting; the root has 1.
pub const NESTING: u8 = 32;

// The names are the variables below this.
pub const NAMES: u8 = 32;

// Names and run names: the run names come after the names.
pub const VARIABLES: usize = 48;

// The entry of a list symbol in a table.
pub const LIST: u8 = 255;

// The most children of any other symbol.
const MOST_CHILDREN: u8 = 8;

// What a byte of a pattern stands for. A name or a run name holds its variable's number.
#[derive(Clone, Copy, Debug, PartialEq, Eq)]
pub enum Code {
    Symbol(u8),
    Name(u8),
    Run(u8),
    Complement,
    Refused,
}

// The editions of the rule language (document 02, L6).
#[derive(Clone, Copy, Debug, PartialEq, Eq)]
pub enum Edition {
    One,
    Two,
}

// The language of records and patterns: an edition, a table, and a class list, which is empty where no symbols are alike.
#[derive(Clone, Copy)]
pub struct Language<'a> {
    pub edition: Edition,
    pub table: &'a [u8],
    pub classes: &'a [u8],
}

pub fn decode(b: u8) -> Code
    ensures { result ≡ decode_of b }
{
    match b {
        0..=199 => Code::Symbol(b),
        200..=231 => Code::Name(b - 200),
        232..=247 => Code::Run(b - 200),
        248 => Code::Complement,
        _ => Code::Refused,
    }
}

fn accepts_entry(b: u8) -> bool
    ensures { result ≡ entry_accepted b }
{
    b <= MOST_CHILDREN || b == LIST
}

pub fn check_table(table: &[u8]) -> bool
    ensures { result ≡ table_accepted table.now }
{
    if LARGEST_TABLE < table.len() {
        return false;
    }
    // No early exit, so that many entries are checked at a time.
    let mut accepted = true;
    for entry in table {
        accepted &= accepts_entry(*entry);
    }
    accepted
}

// The class of a symbol: its entry, or itself where the list has none.
pub fn class_of(classes: &[u8], b: u8) -> u8
    ensures { result ≡ class_of classes.now b }
{
    let i = usize::from(b);
    if i < classes.len() {
        return classes[i];
    }
    b
}

// Whether two symbols are of one class.
pub fn same_symbol(classes: &[u8], x: u8, y: u8) -> bool
    ensures { result ≡ same_byte classes.now false x y }
{
    x == y || (!classes.is_empty() && class_of(classes, x) == class_of(classes, y))
}

// Whether an entry is not above its own index and its own class, with the same table byte.
fn accepts_class(table: &[u8], classes: &[u8], i: usize) -> bool
    requires { (i < length classes.now) × (length classes.now ≡ length table.now) }
    ensures { result ≡ entry_classed table.now classes.now i }
{
    let class = classes[i];
    let c = usize::from(class);
    c <= i && classes[c] == class && table[c] == table[i]
}

pub fn check_classes(table: &[u8], classes: &[u8]) -> bool
    ensures { result ≡ classes_accepted table.now classes.now }
{
    if classes.len() != table.len() {
        return false;
    }
    for i in 0..table.len() {
        if !accepts_class(table, classes, i) {
            return false;
        }
    }
    true
}

// The children of a code that is no symbol of the table: a complement has one.
fn kids_of(code: Code) -> u8
    ensures { result ≡ kids_of code }
{
    match code {
        Code::Complement => 1,
        Code::Symbol(_) | Code::Name(_) | Code::Run(_) | Code::Refused => 0,
    }
}

// The entry of a code: its number of children, or 255 for a list.
pub fn entry_of(table: &[u8], b: u8) -> u8
    ensures { result ≡ entry_of table.now b }
{
    let i = usize::from(b);
    if i < table.len() {
        return table[i];
    }
    kids_of(decode(b))
}

// The number of bytes of so many terms or patterns at the start of s, or all of s where s ends before them.
pub fn extents(table: &[u8], s: &[u8], count: u8) -> usize
    ensures is { result ≡ span_of table.now s.now false count }
    ensures within { result ≤ length s.now }
{
    let mut at: usize = 0;
    // The earliest place at which they can end: each tree still to come takes a byte at least.
    let mut end = usize::from(count);
    while at < end {
        if s.len() <= end {
            return s.len();
        }
        let entry = entry_of(table, s[at]);
        if entry == LIST {
            end = end + 1 + usize::from(s[at + 1]);
            at += 2;
        } else {
            end += usize::from(entry);
            at += 1;
        }
    }
    at
}

// The same of one.
pub fn extent(table: &[u8], s: &[u8]) -> usize
    ensures is { result ≡ extent_of table.now s.now }
    ensures within { result ≤ length s.now }
{
    extents(table, s, 1)
}

// Whether x and y have the same bytes.
fn same_bytes(x: &[u8], y: &[u8]) -> bool
    requires { length x.now ≡ length y.now }
    ensures { result ≡ same_part [] [] true x.now y.now }
{
    for at in 0..x.len() {
        if x[at] != y[at] {
            return false;
        }
    }
    true
}

// Whether two bytes of two parts are the same: symbols by class, a list's number of children as it is.
fn same_byte(classes: &[u8], counting: bool, x: u8, y: u8) -> bool
    ensures { result ≡ same_byte classes.now counting x y }
{
    if counting {
        return x == y;
    }
    same_symbol(classes, x, y)
}

// Whether the byte after x is a list's number of children, where x is one or not.
pub fn count_next(table: &[u8], counting: bool, x: u8) -> bool
    ensures { result ≡ count_next table.now counting x }
{
    if counting {
        return false;
    }
    let i = usize::from(x);
    i < table.len() && table[i] == LIST
}

// Whether two parts of records are the same up to class.
pub fn same(table: &[u8], classes: &[u8], x: &[u8], y: &[u8]) -> bool
    ensures is { result ≡ same_part table.now classes.now false x.now y.now }
    ensures demand { Compares table.now classes.now x.now y.now result }
{
    if x.len() != y.len() {
        return false;
    }
    if classes.len() == 0 {
        return same_bytes(x, y);
    }
    let mut counting = false;
    for i in 0..x.len() {
        if !same_byte(classes, counting, x[i], y[i]) {
            return false;
        }
        counting = count_next(table, counting, x[i]);
    }
    true
}

// The bytes of a part of a record: none where it does not lie within the record.
pub fn bytes_of(bytes: &[u8], p: Part) -> &[u8]
    ensures { result.now ≡ part_bytes bytes.now p }
{
    let start = p.offset as usize;
    let end = start + p.length as usize;
    if end <= bytes.len() {
        return &bytes[start..end];
    }
    &bytes[..0]
}
