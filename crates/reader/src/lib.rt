// The checks of a node, and the readers of records and patterns: which bytes are accepted, and where what they stand for ends.
#![tactic(auto)]

ghost use Rattle.std.specs.Prelude.{◌≡◌, true, false, ◌-◌};
ghost use Rattle.term.specs.Code.{code_in};
ghost use Rattle.term.specs.Language.{simple};
ghost use Rattle.term.specs.Lent.{language_by};
ghost use Rattle.term.specs.Limits.{nesting, longest};
ghost use Rattle.term.specs.Splicing.{in_list, directly, unspliced};
ghost use Rattle.reader.specs.Brought.{simply, bringing, brought_accepted, language_of};
ghost use Rattle.reader.specs.Lent.{brought_of};
ghost use Rattle.reader.specs.Node.{opened, list_node, unless_unspliced, unless_deep, code_node, node_at};
ghost use Rattle.reader.specs.Frame.{frame};
ghost use Rattle.reader.specs.Simple.{read_in, told_in};
ghost use Rattle.reader.specs.Reading.{shown, read_tree, read_whole, childless, SurelyRead, read_record, read_pattern};

use answers::Refusal;
use term::{Code, Edition, LIST, LONGEST_PATTERN, LONGEST_RECORD, Language, NESTING, decode};

// The most frames around a tree that is being read.
pub const FRAMES: usize = NESTING as usize;

// So many nodes with children are not nested too deep, nor are their children.
const FEW_PARENTS: u8 = NESTING - 1;

// A node that passed its checks: the number of its own bytes and of its children, the list that these stand in, and the nesting left for them.
#[derive(Clone, Copy)]
pub struct Open {
    pub size: usize,
    pub kids: u8,
    pub inside: Option<u8>,
    pub low: u8,
}

// What a call brings: an edition, a table and, where symbols are alike, a class list.
#[derive(Clone, Copy)]
pub struct Brought<'a> {
    pub edition: Edition,
    pub table: &'a [u8],
    pub list: Option<&'a [u8]>,
}

// Trees that are still to be read: how many, the nesting left for them, and the list that they stand in directly.
#[derive(Clone, Copy)]
pub struct Frame {
    pub count: u8,
    pub left: u8,
    pub stand: Option<u8>,
}

fn code_in(records: bool, b: u8) -> Code
    ensures { result ≡ code_in records b }
{
    if records { Code::Symbol(b) } else { decode(b) }
}

fn wide(b: u8) -> usize
    ensures { result ≡ b }
{
    b as usize
}

// A node of one byte.
fn plain_node(kids: u8, left: u8) -> Result<Open, Refusal>
    ensures { result ≡ unless_deep left (Ok (opened 1 kids None (left - 1))) }
{
    if left == 0 {
        return Err(Refusal::Deep);
    }
    Ok(Open {
        size: 1,
        kids,
        inside: None,
        low: left - 1,
    })
}

// A complement: its child has its own nesting.
fn complement_node(left: u8) -> Result<Open, Refusal>
    ensures { result ≡ unless_deep left (Ok (opened 1 1 None left)) }
{
    if left == 0 {
        return Err(Refusal::Deep);
    }
    Ok(Open {
        size: 1,
        kids: 1,
        inside: None,
        low: left,
    })
}

// A run name that is no child of a list.
fn stray_node(left: u8) -> Result<Open, Refusal>
    ensures { result ≡ unless_deep left (Err Refusal.Stray) }
{
    if left == 0 {
        return Err(Refusal::Deep);
    }
    Err(Refusal::Stray)
}

// Whether a node stands as a direct child of a list.
pub fn in_list(stand: Option<u8>) -> bool
    ensures { result ≡ in_list stand }
{
    stand.is_some()
}

// Whether a list of symbol b stands directly in a list of the same symbol, up to class.
fn is_direct(classes: &[u8], stand: Option<u8>, b: u8) -> bool
    ensures { result ≡ directly classes.now stand (Some b) }
{
    match stand {
        Some(s) => term::same_symbol(classes, s, b),
        None => false,
    }
}

// Whether a list of symbol b is to be spliced there. Of these functions, those that are SIMPLE read edition 1, whatever the language's is.
fn is_unspliced<const SIMPLE: bool>(language: &Language<'_>, stand: Option<u8>, b: u8) -> bool
    ensures { result ≡ unspliced (read_in SIMPLE (language_by language.now)).edition (read_in SIMPLE (language_by language.now)).classes stand (Some b) }
{
    if SIMPLE {
        return false;
    }
    match language.edition {
        Edition::One => false,
        Edition::Two => is_direct(language.classes, stand, b),
    }
}

// The node of a list symbol, which is to be spliced there or not.
fn list_node(s: &[u8], left: u8, b: u8, to_splice: bool) -> Result<Open, Refusal>
    ensures { result ≡ unless_deep left (unless_unspliced to_splice (list_node b (left - 1) s.now)) }
{
    if left == 0 {
        return Err(Refusal::Deep);
    }
    if to_splice {
        return Err(Refusal::Unspliced);
    }
    if s.len() < 2 {
        return Err(Refusal::Short);
    }
    Ok(Open {
        size: 2,
        kids: s[1],
        inside: Some(b),
        low: left - 1,
    })
}

// The node of a symbol.
fn symbol_node<const SIMPLE: bool>(
    language: &Language<'_>,
    s: &[u8],
    stand: Option<u8>,
    left: u8,
    b: u8,
) -> Result<Open, Refusal>
    ensures { result ≡ code_node (read_in SIMPLE (language_by language.now)) stand left s.now (Code.Symbol b) }
{
    let i = wide(b);
    if language.table.len() <= i {
        return Err(Refusal::BadCode);
    }
    let entry = language.table[i];
    // Most nodes have no children: asked first, they take the shortest way.
    if entry == 0 {
        return plain_node(0, left);
    }
    if entry == LIST {
        return list_node(s, left, b, is_unspliced::<SIMPLE>(language, stand, b));
    }
    plain_node(entry, left)
}

// The node at the start of s.
fn node_in<const SIMPLE: bool>(
    language: &Language<'_>,
    s: &[u8],
    records: bool,
    stand: Option<u8>,
    left: u8,
) -> Result<Open, Refusal>
    ensures { result ≡ node_at (read_in SIMPLE (language_by language.now)) records stand left s.now }
{
    if s.len() == 0 {
        return Err(Refusal::Short);
    }
    let code = code_in(records, s[0]);
    match code {
        Code::Symbol(b) => symbol_node::<SIMPLE>(language, s, stand, left, b),
        Code::Name(_) => plain_node(0, left),
        Code::Run(_) => {
            if in_list(stand) {
                return plain_node(0, left);
            }
            stray_node(left)
        }
        Code::Complement => complement_node(left),
        Code::Refused => Err(Refusal::BadCode),
    }
}

// The node at the start of s, in the language of an edition, a table and a class list.
pub fn node_at(
    language: &Language<'_>,
    s: &[u8],
    records: bool,
    stand: Option<u8>,
    left: u8,
) -> Result<Open, Refusal>
    ensures { result ≡ node_at (language_by language.now) records stand left s.now }
{
    node_in::<false>(language, s, records, stand, left)
}

impl Frame {
    pub const EMPTY: Frame = Frame {
        count: 0,
        left: 0,
        stand: None,
    };

    pub fn of(count: u8, left: u8, stand: Option<u8>) -> Frame
        ensures { result ≡ frame count left stand }
    {
        Frame { count, left, stand }
    }
}

// Of the list that trees stand in, edition 1 asks nothing in a record, and in a pattern, for a run name, no more than whether there is one. So its frames keep no symbol.
fn told<const SIMPLE: bool, const RECORDS: bool>(stand: Option<u8>) -> Option<u8>
    ensures { result ≡ told_in SIMPLE RECORDS stand }
{
    if SIMPLE && RECORDS {
        return None;
    }
    match stand {
        Some(b) => Some(if SIMPLE { 0 } else { b }),
        None => None,
    }
}

// The tree at the start of s, a record's or, without RECORDS, a pattern's. Still to be read are the trees of `top`, and then those of the frames around it, the innermost first.
// A node without children changes the count alone and goes straight on, so that compiled code has a loop of its own for these.
fn read_tree<const SIMPLE: bool, const RECORDS: bool>(
    language: &Language<'_>,
    s: &[u8],
) -> Result<usize, Refusal>
    ensures { result ≡ shown (read_tree (read_in SIMPLE (language_by language.now)) RECORDS nesting None s.now) }
{
    let mut around = [Frame::EMPTY; FRAMES];
    let mut depth: usize = 0;
    let mut top = Frame::of(1, NESTING, None);
    let mut rest = s;
    loop {
        let Open {
            size,
            kids,
            inside,
            low,
        } = node_in::<SIMPLE>(language, rest, RECORDS, top.stand, top.left)?;
        rest = &rest[size..];
        if 0 < kids {
            if 1 < top.count {
                top.count -= 1;
                around[depth] = top;
                depth += 1;
            }
            top = Frame::of(kids, low, told::<SIMPLE, RECORDS>(inside));
            continue;
        }
        if 1 < top.count {
            top.count -= 1;
            continue;
        }
        if depth == 0 {
            return Ok(s.len() - rest.len());
        }
        depth -= 1;
        let Frame { count, left, stand } = around[depth];
        top = Frame::of(count, left, told::<SIMPLE, RECORDS>(stand));
    }
}

fn longest_of(records: bool) -> usize
    ensures { result ≡ longest records }
{
    if records {
        LONGEST_RECORD
    } else {
        LONGEST_PATTERN
    }
}

// Whether a symbol of the table has no children.
fn is_childless(table: &[u8], b: u8) -> bool
    ensures { result ≡ childless table.now b }
{
    let i = wide(b);
    if table.len() <= i {
        return false;
    }
    table[i] == 0
}

// Whether s is surely a pattern of edition 1: a symbol without children needs no frames.
fn is_leaf(table: &[u8], s: &[u8]) -> bool
    ensures { SurelyRead false (simple table.now) s.now result }
{
    if s.len() != 1 {
        return false;
    }
    let code = decode(s[0]);
    match code {
        Code::Symbol(b) => is_childless(table, b),
        Code::Name(_) => false,
        Code::Run(_) => false,
        Code::Complement => false,
        Code::Refused => false,
    }
}

// The whole of s as one tree. It is compiled into no caller, so that what these try before it needs no frames.
#[inline(never)]
fn read_whole<const SIMPLE: bool, const RECORDS: bool>(
    language: &Language<'_>,
    s: &[u8],
) -> Result<usize, Refusal>
    ensures { result ≡ shown (read_whole RECORDS (read_in SIMPLE (language_by language.now)) s.now) }
{
    if longest_of(RECORDS) < s.len() {
        return Err(Refusal::Long);
    }
    let end = read_tree::<SIMPLE, RECORDS>(language, s)?;
    if end < s.len() {
        return Err(Refusal::Spare);
    }
    Ok(end)
}

// Whether s is surely a record of edition 1: with fewer than 32 lists and other nodes that have children, a tree is not nested deeper than 32 and needs no frames.
fn is_shallow(table: &[u8], s: &[u8]) -> bool
    ensures { SurelyRead true (simple table.now) s.now result }
{
    if LONGEST_RECORD < s.len() {
        return false;
    }
    let mut at: usize = 0;
    // The earliest place at which it can end: each tree still to come takes a byte at least.
    let mut end: usize = 1;
    let mut parents: u8 = 0;
    while at < end {
        if s.len() < end {
            return false;
        }
        let entry_at = wide(s[at]);
        if table.len() <= entry_at {
            return false;
        }
        let entry = table[entry_at];
        if entry == 0 {
            at = at + 1;
            continue;
        }
        if parents == FEW_PARENTS {
            return false;
        }
        parents = parents + 1;
        if entry < LIST {
            at = at + 1;
            end = end + wide(entry);
            continue;
        }
        if s.len() <= end {
            return false;
        }
        end = end + 1 + wide(s[at + 1]);
        at = at + 2;
    }
    at == s.len()
}

impl<'a> Brought<'a> {
    // Edition 1, without a class list.
    pub fn simply(table: &'a [u8]) -> Brought<'a>
        ensures { brought_of result ≡ simply table.now }
    {
        Brought {
            edition: Edition::One,
            table,
            list: None,
        }
    }

    // An edition, and a class list.
    pub fn bringing(edition: Edition, table: &'a [u8], classes: &'a [u8]) -> Brought<'a>
        ensures { brought_of result ≡ bringing edition table.now classes.now }
    {
        Brought {
            edition,
            table,
            list: Some(classes),
        }
    }

    // Whether the class list is accepted, if the call brings one.
    pub fn accepts_list(&self) -> bool
        ensures { result ≡ brought_accepted (brought_of self.now) }
    {
        match self.list {
            Some(classes) => term::check_classes(self.table, classes),
            None => true,
        }
    }

    // The language of the call: one that brings no class list has an empty one.
    pub fn language(&self) -> Language<'a>
        ensures { language_by result ≡ language_of (brought_of self.now) }
    {
        Language {
            edition: self.edition,
            table: self.table,
            classes: self.list.unwrap_or(&self.table[..0]),
        }
    }
}

// Reads a record in edition 1, by an accepted table.
pub fn read_record(table: &[u8], bytes: &[u8]) -> Result<usize, Refusal>
    ensures { result ≡ shown (read_record (simple table.now) bytes.now) }
{
    if is_shallow(table, bytes) {
        return Ok(bytes.len());
    }
    read_whole::<true, true>(
        &Language {
            edition: Edition::One,
            table,
            classes: &[],
        },
        bytes,
    )
}

// Reads a pattern likewise.
pub fn read_pattern(table: &[u8], bytes: &[u8]) -> Result<usize, Refusal>
    ensures { result ≡ shown (read_pattern (simple table.now) bytes.now) }
{
    if is_leaf(table, bytes) {
        return Ok(bytes.len());
    }
    read_whole::<true, false>(
        &Language {
            edition: Edition::One,
            table,
            classes: &[],
        },
        bytes,
    )
}

// The same in a language whose table is accepted, and whose class list is, or empty. Edition 1 never looks at the class list.
pub fn read_record_in(language: &Language<'_>, bytes: &[u8]) -> Result<usize, Refusal>
    ensures { result ≡ shown (read_record (language_by language.now) bytes.now) }
{
    match language.edition {
        Edition::One => read_record(language.table, bytes),
        Edition::Two => read_whole::<false, true>(language, bytes),
    }
}

pub fn read_pattern_in(language: &Language<'_>, bytes: &[u8]) -> Result<usize, Refusal>
    ensures { result ≡ shown (read_pattern (language_by language.now) bytes.now) }
{
    match language.edition {
        Edition::One => read_pattern(language.table, bytes),
        Edition::Two => read_whole::<false, false>(language, bytes),
    }
}
