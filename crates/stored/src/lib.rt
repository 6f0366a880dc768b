// The stored form of records, in which lists tell their length: the move from the old form to it and back.
#![tactic(auto)]

ghost use Rattle.std.specs.Prelude.{◌≡◌, false, ◌+◌, ◌≤◌, length, None};
ghost use Rattle.std.proofs.lemmas.List.Edits.{sets};
ghost use Rattle.answers.specs.Shown.{refusal_number, size_told};
ghost use Rattle.term.specs.Language.{simple};
ghost use Rattle.term.specs.Lent.{language_by};
ghost use Rattle.term.specs.Limits.{nesting, longest_record};
ghost use Rattle.reader.specs.Brought.{simply, bringing};
ghost use Rattle.reader.specs.Lent.{brought_of};
ghost use Rattle.reader.specs.Reading.{shown};
ghost use Rattle.stored.specs.Form.{longest_stored};
ghost use Rattle.stored.specs.Reading.{stored_node, read_stored_tree, read_form};
ghost use Rattle.stored.specs.Move.{storing, restoring, moved, output_after};
ghost use Rattle.stored.specs.Passes.{stretched, stripped, own_of, own_size, stored_size, Stands, agrees_at, with_told, record_trees, stored_trees, Putting};
ghost use Rattle.stored.specs.Demands.{StoreDemanded, RestoreDemanded};

use answers::Refusal;
use reader::{Brought, FRAMES, Frame, Open};
use sheet::WORD;
use splice::store as put_byte;
use term::{Edition, Language, NESTING};

// The most bytes of a stored record.
pub const LONGEST_STORED: usize = 8192;

// A list's length, a word, stands behind its symbol and its number of children.
const BEFORE: usize = 2;

// Trees that are still to be read or put, and the place where the first of them starts.
#[derive(Clone, Copy)]
struct Level {
    frame: Frame,
    start: usize,
}

impl Level {
    const NONE: Level = Level {
        frame: Frame::EMPTY,
        start: 0,
    };

    // A whole record: one tree, with all the nesting left.
    const ROOT: Level = Level {
        frame: Frame {
            count: 1,
            left: NESTING,
            stand: None,
        },
        start: 0,
    };
}

// The checks of a node of the stored form.
fn stored_node(
    language: &Language<'_>,
    s: &[u8],
    stand: Option<u8>,
    left: u8,
) -> Result<Open, Refusal>
    ensures { result ≡ stored_node (language_by language.now) stand left s.now }
{
    let node = reader::node_at(language, s, true, stand, left)?;
    if !reader::in_list(node.inside) {
        return Ok(node);
    }
    let size = node.size + WORD;
    if s.len() < size {
        return Err(Refusal::Short);
    }
    Ok(Open { size, ..node })
}

// Whether a list tells the length of its children, which start and end at these places; other nodes tell none.
fn agrees(s: &[u8], list: bool, start: usize, end: usize) -> bool
    requires { Stands list start end (length s.now) }
    ensures { result ≡ agrees_at s.now list start end }
{
    if list {
        let told = u16::from_le_bytes([s[start - WORD], s[start - 1]]);
        return usize::from(told) == end - start;
    }
    true
}

// The tree of the stored form at the start of s. Still to be read are the trees of `top`, and then those of the levels around it, the innermost
// last. A leaf takes no level.
fn read_tree(language: &Language<'_>, s: &[u8]) -> Result<usize, Refusal>
    ensures { result ≡ shown (read_stored_tree (language_by language.now) nesting None s.now) }
{
    let mut around = [Level::NONE; FRAMES];
    let mut depth: usize = 0;
    let mut top = Level::ROOT;
    let mut at: usize = 0;
    loop {
        let Frame { count, left, stand } = top.frame;
        if count == 0 {
            if !agrees(s, reader::in_list(stand), top.start, at) {
                return Err(Refusal::Length);
            }
            if depth == 0 {
                return Ok(at);
            }
            depth -= 1;
            top = around[depth];
            continue;
        }
        let Open {
            size,
            kids,
            inside,
            low,
        } = stored_node(language, &s[at..], stand, left)?;
        let list = reader::in_list(inside);
        at += size;
        top.frame.count -= 1;
        if list | (0 < kids) {
            around[depth] = top;
            depth += 1;
            top = Level {
                frame: Frame::of(kids, low, inside),
                start: at,
            };
        }
    }
}

// The whole of s as one tree of the stored form.
fn read_form(language: &Language<'_>, s: &[u8]) -> Result<usize, Refusal>
    ensures { result ≡ shown (read_form (language_by language.now) s.now) }
{
    if LONGEST_STORED < s.len() {
        return Err(Refusal::Long);
    }
    let end = read_tree(language, s)?;
    if end < s.len() {
        return Err(Refusal::Spare);
    }
    Ok(end)
}

// Puts the old form of a stored record to the front of the output, as far as it has room, and tells its length.
fn strip(table: &[u8], s: &[u8], output: &mut [u8]) -> usize
    requires { length s.now ≤ longest_stored }
    ensures size { result ≡ length (stripped table.now s.now 0) }
    ensures contents { output.new ≡ sets output.old 0 (stripped table.now s.now 0) }
{
    let mut to: usize = 0;
    let mut at: usize = 0;
    while at < s.len() {
        let b = s[at];
        put_byte(output, to, b);
        if !term::count_next(table, false, b) {
            at += 1;
            to += 1;
            continue;
        }
        if s.len() <= at + 1 {
            return to + 1;
        }
        put_byte(output, to + 1, s[at + 1]);
        at += BEFORE + WORD;
        to += 2;
    }
    to
}

// Writes the old form of a stored record to the front of the output, or leaves the output as it is. What is put nowhere tells the length.
fn restore_brought(
    brought: &Brought<'_>,
    stored: &[u8],
    output: &mut [u8],
) -> Result<usize, Refusal>
    ensures answer { result ≡ moved (restoring (brought_of brought.now) stored.now) (length output.old) }
    ensures contents { output.new ≡ output_after (restoring (brought_of brought.now) stored.now) output.old }
    ensures demand { RestoreDemanded (brought_of brought.now) stored.now output.old (refusal_number result) (size_told result) output.new }
{
    if !term::check_table(brought.table) {
        return Err(Refusal::Table);
    }
    if !brought.accepts_list() {
        return Err(Refusal::Class);
    }
    read_form(&brought.language(), stored)?;
    let size = strip(brought.table, stored, &mut []);
    if term::LONGEST_RECORD < size {
        return Err(Refusal::Long);
    }
    if output.len() < size {
        return Err(Refusal::Full);
    }
    strip(brought.table, stored, output);
    Ok(size)
}

// In edition 1, without a class list.
pub fn restore(table: &[u8], stored: &[u8], output: &mut [u8]) -> Result<usize, Refusal>
    ensures answer { result ≡ moved (restoring (simply table.now) stored.now) (length output.old) }
    ensures contents { output.new ≡ output_after (restoring (simply table.now) stored.now) output.old }
    ensures demand { RestoreDemanded (simply table.now) stored.now output.old (refusal_number result) (size_told result) output.new }
{
    restore_brought(&Brought::simply(table), stored, output)
}

// In an edition, with a class list.
pub fn restore_in(
    edition: Edition,
    table: &[u8],
    classes: &[u8],
    stored: &[u8],
    output: &mut [u8],
) -> Result<usize, Refusal>
    ensures answer { result ≡ moved (restoring (bringing edition table.now classes.now) stored.now) (length output.old) }
    ensures contents { output.new ≡ output_after (restoring (bringing edition table.now classes.now) stored.now) output.old }
    ensures demand { RestoreDemanded (bringing edition table.now classes.now) stored.now output.old (refusal_number result) (size_told result) output.new }
{
    restore_brought(&Brought::bringing(edition, table, classes), stored, output)
}

// The length of the stored form of a record.
fn stored_length(table: &[u8], s: &[u8]) -> usize
    requires { length s.now ≤ longest_record }
    ensures { result ≡ stretched table.now s.now false }
{
    let mut size: usize = 0;
    let mut counting = false;
    for i in 0..s.len() {
        counting = term::count_next(table, counting, s[i]);
        if counting {
            size += WORD;
        }
        size += 1;
    }
    size
}

// Puts the symbol of a node and, for a list, its number of children; answers where its children come, behind a list's length.
fn put_own(s: &[u8], list: bool, output: &mut [u8], at: usize) -> usize
    requires { (own_size list ≤ length s.now) × (at + stored_size list ≤ length output.old) }
    ensures end { result ≡ at + stored_size list }
    ensures contents { output.new ≡ sets output.old at (own_of list s.now) }
{
    output[at] = s[0];
    if list {
        output[at + 1] = s[1];
        return at + BEFORE + WORD;
    }
    at + 1
}

// Puts the length of a list's children, which start and end at these places, in front of them; other nodes tell none.
fn put_length(list: bool, output: &mut [u8], start: usize, end: usize)
    requires { Stands list start end (length output.old) × (end ≤ longest_stored) }
    ensures { output.new ≡ with_told list output.old start end }
{
    if list {
        let told = ((end - start) as u16).to_le_bytes();
        output[start - WORD] = told[0];
        output[start - 1] = told[1];
    }
}

// Puts a record in the stored form: a node's own bytes, its children, and then, for a list, their length. The levels are those of the reader. What
// is accepted in edition 2 is so in edition 1, which compares no lists.
fn put_tree(table: &[u8], s: &[u8], output: &mut [u8])
    requires { Putting (simple table.now) s.now (length output.old) }
    ensures { output.new ≡ sets output.old 0 (stored_trees table.now (record_trees (simple table.now) nesting None 1 s.now)) }
{
    let language = Brought::simply(table).language();
    let mut around = [Level::NONE; FRAMES];
    let mut depth: usize = 0;
    let mut top = Level::ROOT;
    let mut at: usize = 0;
    let mut end: usize = 0;
    loop {
        let Frame { count, left, stand } = top.frame;
        if count == 0 {
            put_length(reader::in_list(stand), output, top.start, end);
            if depth == 0 {
                return;
            }
            depth -= 1;
            top = around[depth];
            continue;
        }
        let Ok(node) = reader::node_at(&language, &s[at..], true, stand, left) else {
            return;
        };
        let list = reader::in_list(node.inside);
        end = put_own(&s[at..], list, output, end);
        at += node.size;
        top.frame.count -= 1;
        if list | (0 < node.kids) {
            around[depth] = top;
            depth += 1;
            top = Level {
                frame: Frame::of(node.kids, node.low, node.inside),
                start: end,
            };
        }
    }
}

// Writes the stored form of a record to the front of the output, or leaves the output as it is.
fn store_brought(brought: &Brought<'_>, record: &[u8], output: &mut [u8]) -> Result<usize, Refusal>
    ensures answer { result ≡ moved (storing (brought_of brought.now) «record».now) (length output.old) }
    ensures contents { output.new ≡ output_after (storing (brought_of brought.now) «record».now) output.old }
    ensures demand { StoreDemanded (brought_of brought.now) «record».now output.old (refusal_number result) (size_told result) output.new }
{
    if !term::check_table(brought.table) {
        return Err(Refusal::Table);
    }
    if !brought.accepts_list() {
        return Err(Refusal::Class);
    }
    reader::read_record_in(&brought.language(), record)?;
    let size = stored_length(brought.table, record);
    if output.len() < size {
        return Err(Refusal::Full);
    }
    put_tree(brought.table, record, output);
    Ok(size)
}

// In edition 1, without a class list.
pub fn store(table: &[u8], record: &[u8], output: &mut [u8]) -> Result<usize, Refusal>
    ensures answer { result ≡ moved (storing (simply table.now) «record».now) (length output.old) }
    ensures contents { output.new ≡ output_after (storing (simply table.now) «record».now) output.old }
    ensures demand { StoreDemanded (simply table.now) «record».now output.old (refusal_number result) (size_told result) output.new }
{
    store_brought(&Brought::simply(table), record, output)
}

// In an edition, with a class list.
pub fn store_in(
    edition: Edition,
    table: &[u8],
    classes: &[u8],
    record: &[u8],
    output: &mut [u8],
) -> Result<usize, Refusal>
    ensures answer { result ≡ moved (storing (bringing edition table.now classes.now) «record».now) (length output.old) }
    ensures contents { output.new ≡ output_after (storing (bringing edition table.now classes.now) «record».now) output.old }
    ensures demand { StoreDemanded (bringing edition table.now classes.now) «record».now output.old (refusal_number result) (size_told result) output.new }
{
    store_brought(&Brought::bringing(edition, table, classes), record, output)
}
