// Replacement: a template with the parts of a rule's first answer put in, looked at or written to an output.
#![tactic(auto)]

ghost use Rattle.std.specs.Prelude.{◌≡◌, ◌+◌, ◌*◌, ◌≤◌, ◌<◌, length, None};
ghost use Rattle.std.proofs.lemmas.List.Edits.{sets};
ghost use Rattle.term.specs.Lent.{language_by};
ghost use Rattle.term.specs.Limits.{longest_pattern, nesting};
ghost use Rattle.parts.specs.Shown.{answer_width};
ghost use Rattle.reader.specs.Brought.{simply, bringing};
ghost use Rattle.reader.specs.Lent.{brought_of};
ghost use Rattle.matcher.specs.Call.{check_of};
ghost use Rattle.matcher.specs.Demands.{terms_in};
ghost use Rattle.replace.specs.Call.{checked, look_of, apply_of, output_of};
ghost use Rattle.replace.specs.Demands.{Demanded, LookDemanded, Looks, Applies};
ghost use Rattle.replace.specs.Splice.{listed_in};
ghost use Rattle.replace.specs.Filling.{longest_part, part_room, farthest, own_bytes, MarksFree, MarksLoose, TellsLoose, part_in, TellsNesting, ChildrenOf, TellsStored, PlacedBytes, placed_terms, PutsEach, Puts, Fills, Stores, FillsTree, StoresTree, FillsNode, StoresNode, FilledWithin, Measures, LooksInto, ShortWhereBound};

use answers::{Answer, Applied, Part, Refusal};
use matcher::{ANSWER_WIDTH, check_rule};
use parts::ENTRY_WIDTH;
use reader::Brought;
use splice::{is_direct, store, store_number};
use term::{
    Code, Edition, LIST, LONGEST_PATTERN, LONGEST_RECORD, Language, NESTING, VARIABLES, decode,
    entry_of, extent,
};

// A list's own bytes: its symbol and its number of children.
const LIST_BYTES: usize = 2;

// What trees are filled to: so many bytes and elements.
#[derive(Clone, Copy)]
struct Filled {
    length: usize,
    elements: usize,
}

// What is put into a template: parts of a record, which the answer of a match tells.
#[derive(Clone, Copy)]
struct Matched<'a> {
    bytes: &'a [u8],
    answer: &'a [u16],
}

// The bytes of a node's own: its code's and, for a list, its number of children.
fn own_size(table: &[u8], b: u8) -> usize
    ensures { result ≡ own_bytes table.now b }
{
    if entry_of(table, b) == LIST {
        LIST_BYTES
    } else {
        1
    }
}

// Which variables stand in a pattern outside complements.
fn free_in(table: &[u8], pattern: &[u8]) -> [bool; VARIABLES]
    ensures { MarksFree table.now pattern.now result }
{
    let mut free = [false; VARIABLES];
    let mut at: usize = 0;
    while at < pattern.len() {
        let b = pattern[at];
        match decode(b) {
            Code::Symbol(_) => at += own_size(table, b),
            Code::Name(v) | Code::Run(v) => {
                free[usize::from(v)] = true;
                at += 1;
            }
            Code::Complement => at += extent(table, &pattern[at..]),
            Code::Refused => return free,
        }
    }
    free
}

// Whether a pattern has a complement, or a variable that is not marked.
fn is_unmarked(table: &[u8], pattern: &[u8], free: [bool; VARIABLES]) -> bool
    ensures { MarksLoose table.now pattern.now free result }
{
    let mut at: usize = 0;
    while at < pattern.len() {
        let b = pattern[at];
        match decode(b) {
            Code::Symbol(_) => at += own_size(table, b),
            Code::Name(v) | Code::Run(v) => {
                if !free[usize::from(v)] {
                    return true;
                }
                at += 1;
            }
            Code::Complement | Code::Refused => return true,
        }
    }
    false
}

// Whether a template, accepted as a pattern, has a complement, or a name or run name that is not free in the accepted rule.
pub fn is_loose(table: &[u8], rule: &[u8], template: &[u8]) -> bool
    ensures { TellsLoose table.now rule.now template.now result }
{
    is_unmarked(table, template, free_in(table, rule))
}

// All checks in order.
fn check_input(
    brought: &Brought<'_>,
    rule: &[u8],
    template: &[u8],
    record: &[u8],
) -> Result<(), Refusal>
    ensures { result ≡ check_of (checked (brought_of brought.now) rule.now template.now «record».now) }
{
    check_rule(brought, rule, ANSWER_WIDTH)?;
    let language = brought.language();
    reader::read_pattern_in(&language, template)?;
    if is_loose(brought.table, rule, template) {
        return Err(Refusal::Loose);
    }
    reader::read_record_in(&language, record)?;
    Ok(())
}

// The part of the record that the answer has for a variable.
fn part_of<'a>(record: &'a [u8], answer: &[u16], v: u8) -> &'a [u8]
    ensures is { result.now ≡ part_in «record».now answer.now v }
    ensures short { length result.now ≤ longest_part }
{
    let i = ENTRY_WIDTH * usize::from(v);
    if answer.len() <= i + 1 {
        return &record[..0];
    }
    let p = Part {
        offset: answer[i],
        length: answer[i + 1],
        elements: 0,
    };
    term::bytes_of(record, p)
}

// How many terms the answer has for a variable.
fn terms_of(answer: &[u16], v: u8) -> usize
    ensures is { result ≡ terms_in answer.now v }
    ensures few { result ≤ longest_part }
{
    let i = ENTRY_WIDTH * usize::from(v) + 2;
    if answer.len() <= i {
        return 0;
    }
    usize::from(answer[i])
}

// The bytes of a tree's children, where t is the tree.
fn children_of<'a>(table: &[u8], t: &'a [u8]) -> &'a [u8]
    ensures is { ChildrenOf table.now t.now result.now }
    ensures within { length result.now ≤ length t.now }
    ensures less { 0 < length t.now → length result.now < length t.now }
{
    if t.len() < 2 {
        return &t[..0];
    }
    let own = own_size(table, t[0]);
    &t[own..]
}

// Whether the terms of a part of a record nest at most so deep.
fn terms_nest(table: &[u8], s: &[u8], left: u8) -> bool
    ensures { TellsNesting table.now s.now left result }
{
    // A term nests at most as deep as it has bytes.
    if s.len() <= usize::from(left) {
        return true;
    }
    if left == 0 {
        return false;
    }
    let mut at: usize = 0;
    while at < s.len() {
        let n = extent(table, &s[at..]);
        let inside = children_of(table, &s[at..at + n]);
        if !terms_nest(table, inside, left - 1) {
            return false;
        }
        at += n;
    }
    true
}

// Stores the bytes of s one after the other, as far as there is room.
fn store_all(out: &mut [u8], at: usize, s: &[u8])
    requires { at + length s.now ≤ farthest + part_room }
    ensures { out.new ≡ sets out.old at s.now }
{
    for i in 0..s.len() {
        store(out, at + i, s[i]);
    }
}

// The class of a symbol that is a list; in edition 1 no list counts as one.
fn listed(language: &Language<'_>, b: u8) -> Option<u8>
    ensures { result ≡ listed_in (language_by language.now) b }
{
    if let Edition::One = language.edition {
        return None;
    }
    if !term::count_next(language.table, false, b) {
        return None;
    }
    Some(term::class_of(language.classes, b))
}

// Puts the terms of a part at a place in the output, if they nest at most so deep.
fn put_terms(table: &[u8], s: &[u8], out: &mut [u8], at: usize, left: u8) -> bool
    requires { at + length s.now ≤ farthest + part_room }
    ensures { TellsStored table.now s.now left at out.old result out.new }
{
    if !terms_nest(table, s, left) {
        return false;
    }
    if out.len() <= at {
        return true;
    }
    store_all(out, at, s);
    true
}

// The bytes of a term as a child: its children's where it is a list directly inside one of its class.
fn placed_bytes<'a>(table: &[u8], direct: bool, t: &'a [u8]) -> &'a [u8]
    ensures is { PlacedBytes table.now direct t.now result.now }
    ensures within { length result.now ≤ length t.now }
{
    if direct {
        return children_of(table, t);
    }
    t
}

// How many terms they are.
fn placed_terms(direct: bool, t: &[u8]) -> usize
    ensures is { result ≡ placed_terms direct t.now }
    ensures few { result ≤ 255 }
{
    if !direct {
        return 1;
    }
    if t.len() < 2 {
        return 0;
    }
    usize::from(t[1])
}

// Puts the terms of a part, each as a child of what stands around: a list of a class, or no list.
fn put_each(
    language: &Language<'_>,
    part: &[u8],
    around: Option<u8>,
    out: &mut [u8],
    at: usize,
    left: u8,
) -> Option<Filled>
    requires { (at ≤ farthest) × (length part.now ≤ longest_part) }
    ensures is { PutsEach language.now.table.now (listed_in (language_by language.now)) around part.now left at out.old result out.new }
    ensures within { FilledWithin (length part.now) result }
{
    let mut used: usize = 0;
    let mut put: usize = 0;
    let mut elements: usize = 0;
    while used < part.len() {
        let n = extent(language.table, &part[used..]);
        let inner = listed(language, part[used]);
        let direct = is_direct(around, inner);
        let t = &part[used..used + n];
        let s = placed_bytes(language.table, direct, t);
        if !put_terms(language.table, s, out, at + put, left) {
            return None;
        }
        put += s.len();
        elements += placed_terms(direct, t);
        used += n;
    }
    Some(Filled {
        length: put,
        elements,
    })
}

// Puts the terms that the answer has for a variable at a place in the output.
fn fill_part(
    language: &Language<'_>,
    matched: &Matched<'_>,
    v: u8,
    around: Option<u8>,
    out: &mut [u8],
    at: usize,
    left: u8,
) -> Option<Filled>
    requires { at ≤ farthest }
    ensures is { Puts language.now.table.now (listed_in (language_by language.now)) around matched.now.bytes.now matched.now.answer.now v left at out.old result out.new }
    ensures within { FilledWithin longest_part result }
{
    let part = part_of(matched.bytes, matched.answer, v);
    match around {
        Some(_) => put_each(language, part, around, out, at, left),
        None => {
            if !put_terms(language.table, part, out, at, left) {
                return None;
            }
            Some(Filled {
                length: part.len(),
                elements: terms_of(matched.answer, v),
            })
        }
    }
}

// Puts a symbol of a template with what stands below it. `None` if what it is filled to nests too deep, or a list has more elements than a byte
// can tell.
#[cycle(fill_fill_node_fill_tree)]
fn fill_node(
    language: &Language<'_>,
    matched: &Matched<'_>,
    t: &[u8],
    out: &mut [u8],
    at: usize,
    left: u8,
) -> Option<Filled>
    requires { (0 < length t.now) × (at + part_room * length t.now ≤ farthest) }
    ensures is { FillsNode language.now.table.now (listed_in (language_by language.now)) t.now matched.now.bytes.now matched.now.answer.now left result }
    ensures within { FilledWithin (part_room * length t.now) result }
    ensures stores { StoresNode language.now.table.now (listed_in (language_by language.now)) t.now matched.now.bytes.now matched.now.answer.now left at out.old out.new }
{
    if left == 0 {
        return None;
    }
    let b = t[0];
    let own = own_size(language.table, b);
    let inside = children_of(language.table, t);
    let inner = listed(language, b);
    store(out, at, b);
    let Filled { length, elements } = fill(
        language,
        matched,
        inside,
        inner,
        out,
        at + own,
        left - 1,
    )?;
    if !store_number(out, at + 1, own == LIST_BYTES, elements) {
        return None;
    }
    Some(Filled {
        length: own + length,
        elements: 1,
    })
}

// Puts a tree of a template.
#[cycle(fill_fill_node_fill_tree)]
fn fill_tree(
    language: &Language<'_>,
    matched: &Matched<'_>,
    t: &[u8],
    around: Option<u8>,
    out: &mut [u8],
    at: usize,
    left: u8,
) -> Option<Filled>
    requires { (0 < length t.now) × (at + part_room * length t.now ≤ farthest) }
    ensures is { FillsTree language.now.table.now (listed_in (language_by language.now)) around t.now matched.now.bytes.now matched.now.answer.now left result }
    ensures within { FilledWithin (part_room * length t.now) result }
    ensures stores { StoresTree language.now.table.now (listed_in (language_by language.now)) around t.now matched.now.bytes.now matched.now.answer.now left at out.old out.new }
{
    match decode(t[0]) {
        Code::Symbol(_) => fill_node(language, matched, t, out, at, left),
        Code::Name(v) | Code::Run(v) => fill_part(language, matched, v, around, out, at, left),
        Code::Complement | Code::Refused => None,
    }
}

// Puts the trees of a template at a place in the output, with the answer's parts for their variables; where there is no room, nothing.
#[cycle(fill_fill_node_fill_tree)]
fn fill(
    language: &Language<'_>,
    matched: &Matched<'_>,
    s: &[u8],
    around: Option<u8>,
    out: &mut [u8],
    at: usize,
    left: u8,
) -> Option<Filled>
    requires { at + part_room * length s.now ≤ farthest }
    ensures is { Fills language.now.table.now (listed_in (language_by language.now)) around s.now matched.now.bytes.now matched.now.answer.now left result }
    ensures within { FilledWithin (part_room * length s.now) result }
    ensures stores { Stores language.now.table.now (listed_in (language_by language.now)) around s.now matched.now.bytes.now matched.now.answer.now left at out.old out.new }
{
    let mut used: usize = 0;
    let mut put: usize = 0;
    let mut count: usize = 0;
    while used < s.len() {
        let n = extent(language.table, &s[used..]);
        let t = &s[used..used + n];
        let Filled { length, elements } = fill_tree(
            language,
            matched,
            t,
            around,
            out,
            at + put,
            left,
        )?;
        put += length;
        count += elements;
        used += n;
    }
    Some(Filled {
        length: put,
        elements: count,
    })
}

// Puts the whole template to the front of the output.
fn fill_whole(
    language: &Language<'_>,
    matched: &Matched<'_>,
    template: &[u8],
    out: &mut [u8],
) -> Option<Filled>
    requires { length template.now ≤ longest_pattern }
    ensures is { Fills language.now.table.now (listed_in (language_by language.now)) None template.now matched.now.bytes.now matched.now.answer.now nesting result }
    ensures stores { Stores language.now.table.now (listed_in (language_by language.now)) None template.now matched.now.bytes.now matched.now.answer.now nesting 0 out.old out.new }
{
    fill(language, matched, template, None, out, 0, NESTING)
}

// The answer where the rule is bound, by what the template is filled to: a pass with no room for what it puts.
fn measured(
    language: &Language<'_>,
    matched: &Matched<'_>,
    template: &[u8],
    count: u32,
) -> Result<Applied, Refusal>
    requires { length template.now ≤ longest_pattern }
    ensures { Measures (language_by language.now) template.now matched.now.bytes.now matched.now.answer.now count result }
{
    let filled = fill_whole(language, matched, template, &mut []).ok_or(Refusal::Outgrown)?;
    if LONGEST_RECORD < filled.length {
        return Err(Refusal::Outgrown);
    }
    Ok(Applied::Bound(count, filled.length))
}

// A look at bytes as they are, whose answer buffer is lent.
fn look_into(
    language: &Language<'_>,
    rule: &[u8],
    template: &[u8],
    record: &[u8],
    allowance: u32,
    answer: &mut [u16],
) -> Result<Applied, Refusal>
    requires { answer_width ≤ length answer.old }
    ensures is { LooksInto (language_by language.now) rule.now template.now «record».now allowance result answer.new }
    ensures short { ShortWhereBound template.now result }
{
    if LONGEST_PATTERN < template.len() {
        return Err(Refusal::Long);
    }
    let answered = matcher::match_checked(
        language.table,
        language.classes,
        rule,
        record,
        allowance,
        answer,
    )?;
    match answered {
        Answer::Bound(count) => {
            let matched = Matched {
                bytes: record,
                answer,
            };
            measured(language, &matched, template, count)
        }
        Answer::None(count) => Ok(Applied::None(count)),
        Answer::Spent(count) => Ok(Applied::Spent(count)),
    }
}

// A look at bytes as they are: of a table, a rule, a template of it and a record that passed their checks, with a class list that did, or an
// empty one, it is the look with every check.
pub fn look_checked(
    language: &Language<'_>,
    rule: &[u8],
    template: &[u8],
    record: &[u8],
    allowance: u32,
) -> Result<Applied, Refusal>
    ensures { Looks (language_by language.now) rule.now template.now «record».now allowance result }
{
    let mut answer = [0u16; ANSWER_WIDTH];
    look_into(language, rule, template, record, allowance, &mut answer)
}

// Applying to bytes as they are; where they passed their checks, what it writes is an accepted record.
pub fn apply_checked(
    language: &Language<'_>,
    rule: &[u8],
    template: &[u8],
    record: &[u8],
    allowance: u32,
    output: &mut [u8],
) -> Result<Applied, Refusal>
    ensures { Applies (language_by language.now) rule.now template.now «record».now allowance output.old result output.new }
{
    let mut answer = [0u16; ANSWER_WIDTH];
    let looked = look_into(language, rule, template, record, allowance, &mut answer)?;
    let Applied::Bound(_, length) = looked else {
        return Ok(looked);
    };
    if output.len() < length {
        return Err(Refusal::Full);
    }
    let matched = Matched {
        bytes: record,
        answer: &answer,
    };
    fill_whole(language, &matched, template, output);
    Ok(looked)
}

// A look with every check, in the language that the call brings.
fn look_brought(
    brought: &Brought<'_>,
    rule: &[u8],
    template: &[u8],
    record: &[u8],
    allowance: u32,
) -> Result<Applied, Refusal>
    ensures is { result ≡ look_of (brought_of brought.now) rule.now template.now «record».now allowance }
    ensures demand { LookDemanded (brought_of brought.now) rule.now template.now «record».now allowance result }
{
    check_input(brought, rule, template, record)?;
    look_checked(&brought.language(), rule, template, record, allowance)
}

// Applying with every check, likewise.
pub fn apply_brought(
    brought: &Brought<'_>,
    rule: &[u8],
    template: &[u8],
    record: &[u8],
    allowance: u32,
    output: &mut [u8],
) -> Result<Applied, Refusal>
    ensures is { result ≡ apply_of (brought_of brought.now) rule.now template.now «record».now allowance (length output.old) }
    ensures contents { output.new ≡ output_of (brought_of brought.now) rule.now template.now «record».now allowance output.old }
    ensures demand { Demanded (brought_of brought.now) rule.now template.now «record».now output.old allowance result output.new }
{
    check_input(brought, rule, template, record)?;
    apply_checked(
        &brought.language(),
        rule,
        template,
        record,
        allowance,
        output,
    )
}

// What applying would answer with an output of 4,096 bytes.
pub fn look(
    table: &[u8],
    rule: &[u8],
    template: &[u8],
    record: &[u8],
    allowance: u32,
) -> Result<Applied, Refusal>
    ensures is { result ≡ look_of (simply table.now) rule.now template.now «record».now allowance }
    ensures demand { LookDemanded (simply table.now) rule.now template.now «record».now allowance result }
{
    look_brought(&Brought::simply(table), rule, template, record, allowance)
}

// The same in an edition, up to class by a class list.
pub fn look_in(
    edition: Edition,
    table: &[u8],
    classes: &[u8],
    rule: &[u8],
    template: &[u8],
    record: &[u8],
    allowance: u32,
) -> Result<Applied, Refusal>
    ensures is { result ≡ look_of (bringing edition table.now classes.now) rule.now template.now «record».now allowance }
    ensures demand { LookDemanded (bringing edition table.now classes.now) rule.now template.now «record».now allowance result }
{
    let brought = Brought::bringing(edition, table, classes);
    look_brought(&brought, rule, template, record, allowance)
}

// Writes the template, with the parts of the rule's first answer put in, to the front of the output.
pub fn apply(
    table: &[u8],
    rule: &[u8],
    template: &[u8],
    record: &[u8],
    allowance: u32,
    output: &mut [u8],
) -> Result<Applied, Refusal>
    ensures is { result ≡ apply_of (simply table.now) rule.now template.now «record».now allowance (length output.old) }
    ensures contents { output.new ≡ output_of (simply table.now) rule.now template.now «record».now allowance output.old }
    ensures demand { Demanded (simply table.now) rule.now template.now «record».now output.old allowance result output.new }
{
    let brought = Brought::simply(table);
    apply_brought(&brought, rule, template, record, allowance, output)
}

// The same in an edition, up to class by a class list.
pub fn apply_in(
    edition: Edition,
    table: &[u8],
    classes: &[u8],
    rule: &[u8],
    template: &[u8],
    record: &[u8],
    allowance: u32,
    output: &mut [u8],
) -> Result<Applied, Refusal>
    ensures is { result ≡ apply_of (bringing edition table.now classes.now) rule.now template.now «record».now allowance (length output.old) }
    ensures contents { output.new ≡ output_of (bringing edition table.now classes.now) rule.now template.now «record».now allowance output.old }
    ensures demand { Demanded (bringing edition table.now classes.now) rule.now template.now «record».now output.old allowance result output.new }
{
    let brought = Brought::bringing(edition, table, classes);
    apply_brought(&brought, rule, template, record, allowance, output)
}
