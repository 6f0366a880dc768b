// The converter to edition 2: an edition 1 record or pattern, spliced.
#![tactic(auto)]

ghost use Rattle.std.specs.Prelude.{◌≡◌, true, false, ◌+◌, ◌≤◌, ◌<◌, length, set, Option, Some, None, IfSome};
ghost use Rattle.answers.specs.Shown.{refusal_number, size_told};
ghost use Rattle.term.specs.Table.{table_accepted};
ghost use Rattle.term.specs.Language.{simple};
ghost use Rattle.splice.specs.Splicing.{in_list, same_list};
ghost use Rattle.reader.specs.Lent.{brought_of};
ghost use Rattle.reader.specs.Reading.{shown, read_whole};
ghost use Rattle.splice.specs.Converting.{converted, output_after};
ghost use Rattle.splice.specs.Call.{call, shown_of};
ghost use Rattle.splice.specs.Demands.{Demanded};
ghost use Rattle.splice.specs.Pass.{farthest, head_of, stored, narrow_node, node_put, PutWithin, Puts, Stores, PutsNode, StoresNode};

use answers::Refusal;
use reader::Brought;
use term::{Edition, LIST, Language, check_table, class_of, entry_of};

// The most elements that a list's byte can tell.
const MOST_ELEMENTS: usize = 255;

// A node's own bytes: how many, its number of children, and its class if it is a list.
#[derive(Clone, Copy)]
struct Head {
    size: usize,
    kids: u8,
    class: Option<u8>,
}

// What trees come to when they are spliced: their bytes, the bytes put, and the number of elements.
#[derive(Clone, Copy)]
struct Put {
    used: usize,
    put: usize,
    elements: usize,
}

impl Put {
    const NOTHING: Put = Put {
        used: 0,
        put: 0,
        elements: 0,
    };
}

// The node at the start of s, if its own bytes are there.
fn head_of(language: &Language<'_>, s: &[u8]) -> Option<Head>
    ensures is { result ≡ head_of language.now.table.now language.now.classes.now s.now }
    ensures within { IfSome result (λ h. (0 < h.size) × (h.size ≤ length s.now)) }
{
    let b = *s.first()?;
    let entry = entry_of(language.table, b);
    if entry != LIST {
        return Some(Head {
            size: 1,
            kids: entry,
            class: None,
        });
    }
    let kids = *s.get(1)?;
    Some(Head {
        size: 2,
        kids,
        class: Some(class_of(language.classes, b)),
    })
}

// Whether a list stands directly in a list of its class: `around` is the class of the list around, if there is one.
pub fn is_direct(around: Option<u8>, class: Option<u8>) -> bool
    ensures { result ≡ same_list around class }
{
    around.is_some() && around == class
}

// Stores a byte where there is room.
pub fn store(out: &mut [u8], at: usize, b: u8)
    ensures { out.new ≡ set out.old at b }
{
    if at < out.len() {
        out[at] = b;
    }
}

// Stores a list's number of children, and answers whether a byte can tell it; other nodes store none.
pub fn store_number(out: &mut [u8], at: usize, list: bool, n: usize) -> bool
    ensures told { result ≡ narrow_node list n }
    ensures stores { out.new ≡ stored list out.old at n }
{
    if !list {
        return true;
    }
    if MOST_ELEMENTS < n {
        return false;
    }
    store(out, at, n as u8);
    true
}

// What a node comes to by what its children came to; its number of children is stored. `None` if a byte can't tell it.
fn close_node(out: &mut [u8], at: usize, head: Head, inside: Put) -> Option<Put>
    requires { (at ≤ farthest) × (head.size + inside.used ≤ farthest) × (inside.put ≤ inside.used) }
    ensures is { result ≡ node_put head inside }
    ensures stores { out.new ≡ stored (in_list head.class) out.old (at + 1) inside.elements }
{
    if !store_number(out, at + 1, head.class.is_some(), inside.elements) {
        return None;
    }
    Some(Put {
        used: head.size + inside.used,
        put: head.size + inside.put,
        elements: 1,
    })
}

// Puts the tree at the start of s, spliced, at a place in the output: a node that stays, its own bytes, then its children. `None` if a byte can't
// tell each list's number of elements.
#[cycle(put_node_put_trees)]
fn put_node(language: &Language<'_>, s: &[u8], out: &mut [u8], at: usize, head: Head) -> Option<Put>
    requires is { Some head ≡ head_of language.now.table.now language.now.classes.now s.now }
    requires within { (0 < head.size) × (head.size ≤ length s.now) × (at + length s.now ≤ farthest) }
    ensures is { PutsNode language.now.table.now language.now.classes.now s.now result }
    ensures within { IfSome result (λ r. (0 < r.used) × PutWithin s.now r) }
    ensures stores { StoresNode language.now.table.now language.now.classes.now s.now at out.old out.new }
{
    store(out, at, s[0]);
    if head.kids == 0 {
        return close_node(out, at, head, Put::NOTHING);
    }
    let inside = put_trees(
        language,
        &s[head.size..],
        out,
        at + head.size,
        head.kids,
        head.class,
    )?;
    close_node(out, at, head, inside)
}

// Puts so many trees at the start of s, spliced, at a place in the output; where there is no room, nothing. `around` is the class of the list that
// they stand in.
#[cycle(put_node_put_trees)]
fn put_trees(
    language: &Language<'_>,
    s: &[u8],
    out: &mut [u8],
    at: usize,
    count: u8,
    around: Option<u8>,
) -> Option<Put>
    requires { at + length s.now ≤ farthest }
    ensures is { Puts language.now.table.now language.now.classes.now s.now count around result }
    ensures within { IfSome result (PutWithin s.now) }
    ensures stores { Stores language.now.table.now language.now.classes.now s.now count around at out.old out.new }
{
    let mut trees = usize::from(count);
    let mut done = Put::NOTHING;
    while 0 < trees {
        let rest = &s[done.used..];
        let head = head_of(language, rest)?;
        if is_direct(around, head.class) {
            trees = trees - 1 + usize::from(head.kids);
            done.used += head.size;
            continue;
        }
        let node = put_node(language, rest, out, at + done.put, head)?;
        done.used += node.used;
        done.put += node.put;
        done.elements += node.elements;
        trees -= 1;
    }
    Some(done)
}

fn read_entry(records: bool, table: &[u8], bytes: &[u8]) -> Result<usize, Refusal>
    ensures { result ≡ shown (read_whole records (simple table.now) bytes.now) }
{
    if records {
        reader::read_record(table, bytes)
    } else {
        reader::read_pattern(table, bytes)
    }
}

// Splices an edition 1 record or pattern into the front of the output, or leaves the output as it is.
fn splice_brought(
    records: bool,
    brought: &Brought<'_>,
    bytes: &[u8],
    output: &mut [u8],
) -> Result<usize, Refusal>
    ensures answer { result ≡ shown_of (call records brought.now.table.now (brought_of brought.now).list (length output.old) bytes.now) }
    ensures contents { output.new ≡ output_after output.old (call records brought.now.table.now (brought_of brought.now).list (length output.old) bytes.now) }
    ensures demand { Demanded records brought.now.table.now (brought_of brought.now).list bytes.now output.old (refusal_number result) (size_told result) output.new }
{
    if !check_table(brought.table) {
        return Err(Refusal::Table);
    }
    if !brought.accepts_list() {
        return Err(Refusal::Class);
    }
    splice_checked(records, &brought.language(), bytes, output)
}

// The same with a table and a class list that passed their checks. A pass with no room for what it puts tells the length.
fn splice_checked(
    records: bool,
    language: &Language<'_>,
    bytes: &[u8],
    output: &mut [u8],
) -> Result<usize, Refusal>
    requires { table_accepted language.now.table.now ≡ true }
    ensures answer { result ≡ shown_of (converted records language.now.classes.now language.now.table.now (length output.old) bytes.now) }
    ensures contents { output.new ≡ output_after output.old (converted records language.now.classes.now language.now.table.now (length output.old) bytes.now) }
{
    read_entry(records, language.table, bytes)?;
    let plan = put_trees(language, bytes, &mut [], 0, 1, None).ok_or(Refusal::Long)?;
    if output.len() < plan.put {
        return Err(Refusal::Full);
    }
    put_trees(language, bytes, output, 0, 1, None);
    Ok(plan.put)
}

// Splices an edition 1 record into the front of the output, or leaves the output as it is.
pub fn splice_record(table: &[u8], bytes: &[u8], output: &mut [u8]) -> Result<usize, Refusal>
    ensures answer { result ≡ shown_of (call true table.now None (length output.old) bytes.now) }
    ensures contents { output.new ≡ output_after output.old (call true table.now None (length output.old) bytes.now) }
    ensures demand { Demanded true table.now None bytes.now output.old (refusal_number result) (size_told result) output.new }
{
    splice_brought(true, &Brought::simply(table), bytes, output)
}

// A pattern likewise.
pub fn splice_pattern(table: &[u8], bytes: &[u8], output: &mut [u8]) -> Result<usize, Refusal>
    ensures answer { result ≡ shown_of (call false table.now None (length output.old) bytes.now) }
    ensures contents { output.new ≡ output_after output.old (call false table.now None (length output.old) bytes.now) }
    ensures demand { Demanded false table.now None bytes.now output.old (refusal_number result) (size_told result) output.new }
{
    splice_brought(false, &Brought::simply(table), bytes, output)
}

// The same up to class, by a class list.
pub fn splice_record_in(
    table: &[u8],
    classes: &[u8],
    bytes: &[u8],
    output: &mut [u8],
) -> Result<usize, Refusal>
    ensures answer { result ≡ shown_of (call true table.now (Some classes.now) (length output.old) bytes.now) }
    ensures contents { output.new ≡ output_after output.old (call true table.now (Some classes.now) (length output.old) bytes.now) }
    ensures demand { Demanded true table.now (Some classes.now) bytes.now output.old (refusal_number result) (size_told result) output.new }
{
    let brought = Brought::bringing(Edition::One, table, classes);
    splice_brought(true, &brought, bytes, output)
}

pub fn splice_pattern_in(
    table: &[u8],
    classes: &[u8],
    bytes: &[u8],
    output: &mut [u8],
) -> Result<usize, Refusal>
    ensures answer { result ≡ shown_of (call false table.now (Some classes.now) (length output.old) bytes.now) }
    ensures contents { output.new ≡ output_after output.old (call false table.now (Some classes.now) (length output.old) bytes.now) }
    ensures demand { Demanded false table.now (Some classes.now) bytes.now output.old (refusal_number result) (size_told result) output.new }
{
    let brought = Brought::bringing(Edition::One, table, classes);
    splice_brought(false, &brought, bytes, output)
}
