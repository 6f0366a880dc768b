// The least example of a pattern: the accepted records of at most six bytes in order, without those that need no search.
#![tactic(auto)]

ghost use Rattle.std.specs.Prelude.{◌≡◌, suc, ◌≤◌, length, replicate};
ghost use Rattle.term.specs.Table.{largest_table};
ghost use Rattle.example.specs.Call.{largest_size, example_by, output_by, example_of, output_of};
ghost use Rattle.example.specs.Inner.{DownBy, FrontAt, Marks, IsFree, Standing, FindsTwins, NeedlessBy, LooksAt, Cleared, SharesWithin, StopsWithin, TriesOne, TriesNext, TriesLength, TriesSizes, ShowsExample};
ghost use Rattle.example.specs.Demands.{Demanded, Called};
ghost use Rattle.example.specs.Trial.{shows};
ghost use Rattle.reader.specs.Brought.{simply, bringing};
ghost use Rattle.reader.specs.Lent.{brought_of};
ghost use Rattle.term.specs.Lent.{language_by};
ghost use Rattle.example.specs.Odometer.{fit_of, step_of, Advances, ProbedWithin};

use answers::{Answer, Applied, Refusal};
use reader::Brought;
use term::{Edition, Language};

// The most bytes that an example may have.
pub const LARGEST_SIZE: usize = 6;

// How many bytes there are, and the last one.
const BYTES: usize = 256;

const LAST_BYTE: u8 = 255;

// A byte of a pattern from this one on is no symbol.
const FIRST_NAME: u8 = 200;

// What stands for a symbol that is marked.
const MARK: u8 = 1;

// Marks each byte of the pattern, by its class.
#[inline(always)]
fn keep_symbols(classes: &[u8], pattern: &[u8]) -> [u8; BYTES]
    ensures { Marks classes.now pattern.now result }
{
    let mut kept = [0u8; BYTES];
    for b in pattern {
        kept[usize::from(term::class_of(classes, *b))] = MARK;
    }
    kept
}

// Whether a symbol is its own class and not marked.
fn is_free(classes: &[u8], kept: &[u8; BYTES], s: u8) -> bool
    ensures { IsFree classes.now kept.now s result }
{
    term::class_of(classes, s) == s && kept[usize::from(s)] == 0
}

// Notes for a symbol one more than the next smaller twin, if it has one, and that it is the last one of its table byte.
fn note_twin(
    table: &[u8],
    classes: &[u8],
    kept: &[u8; BYTES],
    s: u8,
    last: &mut [u8; BYTES],
    lower: &mut [u8; BYTES],
)
    requires s_in_bounds { suc s ≤ length table.now }
    requires s_bound { suc s ≤ largest_table }
    requires standing { Standing table.now classes.now kept.now s last.old lower.old }
    ensures { Standing table.now classes.now kept.now (suc s) last.new lower.new }
{
    if !is_free(classes, kept, s) {
        return;
    }
    let i = usize::from(s);
    let e = usize::from(table[i]);
    lower[i] = last[e];
    last[e] = s + 1;
}

// For each symbol one more than the next smaller twin; 0 where there is none.
#[inline(always)]
fn find_twins(table: &[u8], classes: &[u8], kept: &[u8; BYTES]) -> [u8; BYTES]
    requires table_len_bound { length table.now ≤ largest_table }
    ensures { FindsTwins table.now classes.now kept.now result }
{
    let mut last = [0u8; BYTES];
    let mut lower = [0u8; BYTES];
    for s in 0..table.len() as u8 {
        note_twin(table, classes, kept, s, &mut last, &mut lower);
    }
    lower
}

// Whether a symbol that comes next makes a record needless, by those seen before it.
fn is_needless(classes: &[u8], lower: &[u8; BYTES], seen: &[u8; BYTES], b: u8) -> bool
    ensures { NeedlessBy classes.now lower.now seen.now b result }
{
    if term::class_of(classes, b) != b {
        return true;
    }
    let i = usize::from(b);
    let a = usize::from(lower[i]);
    0 < a && seen[i] != MARK && seen[a - 1] != MARK
}

// After a node of which so many trees are still to come: where the next one stands, and how many; none where the bytes left are too few.
fn fit(size: usize, at: usize, trees: usize) -> Option<(usize, usize)>
    requires { at ≤ size }
    ensures { result ≡ fit_of size at trees }
{
    if size - at < trees {
        return None;
    }
    Some((at, trees))
}

// The node at a place, with the trees that are to come from there on; each takes a byte at least.
fn step_over(table: &[u8], s: &[u8], at: usize, trees: usize) -> Option<(usize, usize)>
    requires at_in_bounds { suc at ≤ length s.now }
    requires le_trees { 1 ≤ trees }
    requires trees_bound { trees ≤ suc (length s.now) }
    ensures { result ≡ step_of table.now s.now at trees }
{
    let entry = term::entry_of(table, s[at]);
    if entry == term::LIST {
        if s.len() - at < 2 {
            return None;
        }
        return fit(s.len(), at + 2, trees - 1 + usize::from(s[at + 1]));
    }
    fit(s.len(), at + 1, trees - 1 + usize::from(entry))
}

// The node at each place in turn, and the symbols seen before it: whether a record can begin so, and whether one that does is needed. If not, every
// record from s on which begins with as many of its bytes as are told can be passed over.
fn look_at(table: &[u8], classes: &[u8], lower: &[u8; BYTES], s: &[u8]) -> Option<usize>
    ensures looks_at { LooksAt table.now classes.now lower.now s.now result }
    ensures probed_within { ProbedWithin (length s.now) result }
{
    let mut seen = [0u8; BYTES];
    let mut at: usize = 0;
    let mut trees: usize = 1;
    // A list's node has two bytes, so the next one is not always a byte on.
    while at < s.len() {
        let b = s[at];
        let i = usize::from(b);
        if table.len() <= i {
            return Some(at);
        }
        if trees == 0 {
            return Some(at);
        }
        if is_needless(classes, lower, &seen, b) {
            return Some(at + 1);
        }
        seen[i] = MARK;
        let Some((next, left)) = step_over(table, s, at, trees) else {
            return Some(at + 1);
        };
        at = next;
        trees = left;
    }
    None
}

// The next string that differs within its first k bytes; false where there is none, and then all bytes are 0.
fn advance(s: &mut [u8], k: usize) -> bool
    requires { k ≤ length s.old }
    ensures { Advances s.old k result s.new }
{
    for i in (0..s.len()).rev() {
        let b = s[i];
        if i < k && b < LAST_BYTE {
            s[i] = b + 1;
            return true;
        }
        s[i] = 0;
    }
    false
}

// How far on the first children of a node of the pattern and of one of the record stand, where both have one.
fn down_from(table: &[u8], pattern: &[u8], i: usize, s: &[u8], at: usize) -> Option<usize>
    requires i_in_bounds { suc i ≤ length pattern.now }
    requires at_in_bounds { suc at ≤ length s.now }
    ensures { DownBy table.now pattern.now i s.now at result }
{
    let b = usize::from(pattern[i]);
    if table.len() <= b {
        return None;
    }
    let entry = table[b];
    if entry == 0 {
        return None;
    }
    if entry != term::LIST {
        return Some(1);
    }
    if pattern.len() - i < 2 || s.len() - at < 2 {
        return None;
    }
    if pattern[i + 1] == 0 || s[at + 1] == 0 {
        return None;
    }
    Some(2)
}

// Pattern and record, gone down by first children as far as they are of like classes: where they are not, every record with these bytes fails
// with that pair, if the allowance has it.
fn front_at(table: &[u8], classes: &[u8], pattern: &[u8], s: &[u8], allowance: u32) -> Option<usize>
    ensures front_at { FrontAt table.now classes.now pattern.now s.now allowance result }
    ensures probed_within { ProbedWithin (length s.now) result }
{
    let mut i: usize = 0;
    let mut at: usize = 0;
    let mut left = allowance;
    // First children stand one or two bytes on.
    while at < s.len() {
        if left == 0 {
            return None;
        }
        if pattern.len() <= i {
            return None;
        }
        let p = pattern[i];
        if FIRST_NAME <= p {
            return None;
        }
        if !term::same_symbol(classes, p, s[at]) {
            return Some(at + 1);
        }
        left -= 1;
        let step = down_from(table, pattern, i, s, at)?;
        i += step;
        at += step;
    }
    None
}

// What candidates are tried with: a language, a pattern, the next smaller twin of each symbol, and the allowance of each search.
#[derive(Clone, Copy)]
struct Search<'a> {
    language: Language<'a>,
    pattern: &'a [u8],
    lower: [u8; BYTES],
    allowance: u32,
}

// What a candidate ends the search with: bound, with its count, or spent.
#[derive(Clone, Copy, Debug, PartialEq, Eq)]
enum End {
    Bound(u32),
    Spent,
}

// How the search ends, and the length of the candidate that ends it.
#[derive(Clone, Copy, Debug, PartialEq, Eq)]
struct Stop {
    end: End,
    length: usize,
}

// A string, if it is an accepted record: passed over, unless it ends the search.
fn try_one(search: &Search<'_>, s: &[u8]) -> Result<(), End>
    ensures { TriesOne (language_by search.now.language) search.now.pattern.now s.now search.now.allowance result }
{
    let Language { table, classes, .. } = search.language;
    if reader::read_record_in(&search.language, s).is_err() {
        return Ok(());
    }
    let mut answer = [0u16; matcher::ANSWER_WIDTH];
    match matcher::match_checked(
        table,
        classes,
        search.pattern,
        s,
        search.allowance,
        &mut answer,
    ) {
        Ok(Answer::Bound(n)) => Err(End::Bound(n)),
        Ok(Answer::Spent(_)) => Err(End::Spent),
        Ok(Answer::None(_)) => Ok(()),
        Err(_) => Ok(()),
    }
}

// A string, unless its front or a look at it is enough; where it is passed over, so are all that share as many bytes as are told.
fn try_next(search: &Search<'_>, s: &[u8]) -> Result<usize, End>
    ensures tries_next { TriesNext (language_by search.now.language) search.now.lower search.now.pattern.now s.now search.now.allowance result }
    ensures shared_in_bounds { SharesWithin (length s.now) result }
{
    let Language { table, classes, .. } = search.language;
    if let Some(k) = front_at(table, classes, search.pattern, s, search.allowance) {
        return Ok(k);
    }
    if let Some(k) = look_at(table, classes, &search.lower, s) {
        return Ok(k);
    }
    try_one(search, s)?;
    Ok(s.len())
}

// All strings of as many bytes as s has, which holds zeros; s is where it stops.
fn try_length(search: &Search<'_>, s: &mut [u8]) -> Result<(), End>
    requires s_value { s.old ≡ replicate (length s.old) 0 }
    ensures tries_length { TriesLength (language_by search.now.language) search.now.lower search.now.pattern.now search.now.allowance (length s.old) result s.new }
    ensures cleared { Cleared result s.new }
{
    loop {
        let shared = try_next(search, s)?;
        if !advance(s, shared) {
            return Ok(());
        }
    }
}

// The sizes up to a given one, as long as all strings of a size are over; s is where it stops, in its first bytes.
fn try_sizes(search: &Search<'_>, size: usize, s: &mut [u8; LARGEST_SIZE]) -> Result<(), Stop>
    requires s_value { s.old ≡ replicate largest_size 0 }
    requires size_le_largest_size { size ≤ largest_size }
    ensures tries_sizes { TriesSizes (language_by search.now.language) search.now.lower search.now.pattern.now search.now.allowance size result s.new }
    ensures length_le_size { StopsWithin size result }
{
    for length in 1..=size {
        if let Err(end) = try_length(search, &mut s[..length]) {
            return Err(Stop { end, length });
        }
    }
    Ok(())
}

// A record to the front of the output, if it has the room.
fn put_example(s: &[u8], count: u32, output: &mut [u8]) -> Result<Applied, Refusal>
    ensures value { result ≡ example_by (shows s.now count) (length output.old) }
    ensures output_value { output.new ≡ output_by (shows s.now count) output.old }
{
    let n = s.len();
    if output.len() < n {
        return Err(Refusal::Full);
    }
    output[..n].copy_from_slice(s);
    Ok(Applied::Bound(count, n))
}

// The least example of a pattern that passed its checks, as table and class list did.
fn example_checked(
    language: &Language<'_>,
    pattern: &[u8],
    size: usize,
    allowance: u32,
    output: &mut [u8],
) -> Result<Applied, Refusal>
    requires table_len_bound { length language.now.table.now ≤ largest_table }
    requires size_le_largest_size { size ≤ largest_size }
    ensures { ShowsExample (language_by language.now) pattern.now size allowance output.old result output.new }
{
    let Language { table, classes, .. } = *language;
    let kept = keep_symbols(classes, pattern);
    let search = Search {
        language: *language,
        pattern,
        lower: find_twins(table, classes, &kept),
        allowance,
    };
    let mut s = [0u8; LARGEST_SIZE];
    let Err(stop) = try_sizes(&search, size, &mut s) else {
        return Err(Refusal::NoExample);
    };
    match stop.end {
        End::Bound(count) => put_example(&s[..stop.length], count, output),
        End::Spent => Ok(Applied::Spent(allowance)),
    }
}

// With every check, in the language that the call brings.
fn example_brought(
    brought: &Brought<'_>,
    pattern: &[u8],
    size: u32,
    allowance: u32,
    output: &mut [u8],
) -> Result<Applied, Refusal>
    ensures { Called (brought_of brought.now) pattern.now size allowance output.old result output.new }
{
    let most = size as usize;
    if LARGEST_SIZE < most {
        return Err(Refusal::Long);
    }
    matcher::check_rule(brought, pattern, matcher::ANSWER_WIDTH)?;
    example_checked(&brought.language(), pattern, most, allowance, output)
}

// The least record of at most so many bytes that satisfies the pattern, to the front of the output.
pub fn example(
    table: &[u8],
    pattern: &[u8],
    size: u32,
    allowance: u32,
    output: &mut [u8],
) -> Result<Applied, Refusal>
    ensures is { result ≡ example_of (simply table.now) pattern.now size allowance (length output.old) }
    ensures contents { output.new ≡ output_of (simply table.now) pattern.now size allowance output.old }
    ensures demand { Demanded (simply table.now) pattern.now size allowance output.old result output.new }
{
    example_brought(&Brought::simply(table), pattern, size, allowance, output)
}

// The same in an edition, up to class by a class list.
pub fn example_in(
    edition: Edition,
    table: &[u8],
    classes: &[u8],
    pattern: &[u8],
    size: u32,
    allowance: u32,
    output: &mut [u8],
) -> Result<Applied, Refusal>
    ensures is { result ≡ example_of (bringing edition table.now classes.now) pattern.now size allowance (length output.old) }
    ensures contents { output.new ≡ output_of (bringing edition table.now classes.now) pattern.now size allowance output.old }
    ensures demand { Demanded (bringing edition table.now classes.now) pattern.now size allowance output.old result output.new }
{
    let brought = Brought::bringing(edition, table, classes);
    example_brought(&brought, pattern, size, allowance, output)
}
