// The match of one pattern against one record: the checks, the search, and the answer in the caller's buffer.
#![tactic(auto)]

ghost use Rattle.std.specs.Prelude.{◌≡◌, [], ◌≤◌, length};
ghost use Rattle.reader.specs.Brought.{simply, bringing};
ghost use Rattle.reader.specs.Lent.{brought_of};
ghost use Rattle.link.specs.OnBytes.{replied_by, following_on_bytes};
ghost use Rattle.matcher.specs.Call.{rule_checked, checked, check_of, answer_of, buffer_of, answer_on_bytes, buffer_on_bytes, told};
ghost use Rattle.matcher.specs.Next.{told_next, next_of, next_buffer_of};
ghost use Rattle.search.specs.Following.{next_pass, shown_pass};
ghost use Rattle.matcher.specs.Demands.{Demanded, Called, AsChecked, NextDemanded, NextCalled};

use answers::{Answer, Refusal};
use reader::Brought;
use search::Finding;
use term::Edition;

// How many numbers an answer has.
pub const ANSWER_WIDTH: usize = parts::ANSWER_WIDTH;

// The checks up to the pattern's, in order, for a buffer of so many numbers.
#[inline(always)]
pub fn check_rule(brought: &Brought<'_>, pattern: &[u8], width: usize) -> Result<(), Refusal>
    ensures { result ≡ check_of (rule_checked (brought_of brought.now) pattern.now width) }
{
    if width < ANSWER_WIDTH {
        return Err(Refusal::Narrow);
    }
    if !term::check_table(brought.table) {
        return Err(Refusal::Table);
    }
    if !brought.accepts_list() {
        return Err(Refusal::Class);
    }
    reader::read_pattern_in(&brought.language(), pattern)?;
    Ok(())
}

// All checks in order.
#[inline(always)]
fn check_input(
    brought: &Brought<'_>,
    pattern: &[u8],
    record: &[u8],
    width: usize,
) -> Result<(), Refusal>
    ensures { result ≡ check_of (checked (brought_of brought.now) pattern.now «record».now width) }
{
    check_rule(brought, pattern, width)?;
    reader::read_record_in(&brought.language(), record)?;
    Ok(())
}

// A search that ends with so much of the allowance left.
fn ended(outcome: Finding, allowance: u32, left: u32) -> Answer
    requires { left ≤ allowance }
    ensures { Ok result ≡ told (replied_by outcome allowance left []) }
{
    match outcome {
        Finding::Found => Answer::Bound(allowance - left),
        Finding::Failed => Answer::None(allowance - left),
        Finding::Spent => Answer::Spent(allowance),
    }
}

// The match of bytes as they are: of a pattern and a record that passed their checks by this table, with a class list that did, or an empty
// one, it is the match with every check. Only the buffer is checked here.
pub fn match_checked(
    table: &[u8],
    classes: &[u8],
    pattern: &[u8],
    record: &[u8],
    allowance: u32,
    answer: &mut [u16],
) -> Result<Answer, Refusal>
    ensures is { result ≡ answer_on_bytes table.now classes.now pattern.now «record».now allowance (length answer.old) }
    ensures buffer { answer.new ≡ buffer_on_bytes table.now classes.now pattern.now «record».now allowance answer.old }
    ensures demand { AsChecked table.now classes.now pattern.now «record».now answer.old allowance result answer.new }
{
    if answer.len() < ANSWER_WIDTH {
        return Err(Refusal::Narrow);
    }
    let end = search::search(table, classes, pattern, record, allowance, answer);
    Ok(ended(end.outcome, allowance, end.left))
}

// The match with every check, in the language that the call brings.
#[inline(always)]
fn match_brought(
    brought: &Brought<'_>,
    pattern: &[u8],
    record: &[u8],
    allowance: u32,
    answer: &mut [u16],
) -> Result<Answer, Refusal>
    ensures { Called (brought_of brought.now) pattern.now «record».now answer.old allowance result answer.new }
{
    check_input(brought, pattern, record, answer.len())?;
    let language = brought.language();
    match_checked(
        language.table,
        language.classes,
        pattern,
        record,
        allowance,
        answer,
    )
}

// The match of a pattern against a record, with every check.
pub fn match_one(
    table: &[u8],
    pattern: &[u8],
    record: &[u8],
    allowance: u32,
    answer: &mut [u16],
) -> Result<Answer, Refusal>
    ensures is { result ≡ answer_of (simply table.now) pattern.now «record».now allowance (length answer.old) }
    ensures buffer { answer.new ≡ buffer_of (simply table.now) pattern.now «record».now allowance answer.old }
    ensures demand { Demanded (simply table.now) pattern.now «record».now answer.old allowance result answer.new }
{
    match_brought(&Brought::simply(table), pattern, record, allowance, answer)
}

// The same in an edition, up to class by a class list.
pub fn match_in(
    edition: Edition,
    table: &[u8],
    classes: &[u8],
    pattern: &[u8],
    record: &[u8],
    allowance: u32,
    answer: &mut [u16],
) -> Result<Answer, Refusal>
    ensures is { result ≡ answer_of (bringing edition table.now classes.now) pattern.now «record».now allowance (length answer.old) }
    ensures buffer { answer.new ≡ buffer_of (bringing edition table.now classes.now) pattern.now «record».now allowance answer.old }
    ensures demand { Demanded (bringing edition table.now classes.now) pattern.now «record».now answer.old allowance result answer.new }
{
    let brought = Brought::bringing(edition, table, classes);
    match_brought(&brought, pattern, record, allowance, answer)
}

// The answer after the one with the given run lengths, of bytes as they are.
fn next_checked(
    table: &[u8],
    classes: &[u8],
    pattern: &[u8],
    record: &[u8],
    given: &[u16],
    allowance: u32,
    answer: &mut [u16],
) -> Result<Answer, Refusal>
    ensures is { result ≡ told_next (following_on_bytes table.now classes.now pattern.now «record».now given.now allowance) }
    ensures buffer { answer.new ≡ shown_pass (next_pass table.now classes.now pattern.now «record».now given.now allowance) answer.old }
{
    let end = search::search_next(table, classes, pattern, record, given, allowance, answer);
    match end.known {
        Some(outcome) => Ok(ended(outcome, allowance, end.left)),
        None => Err(Refusal::Unknown),
    }
}

// The same with every check, in the language that the call brings.
fn next_brought(
    brought: &Brought<'_>,
    pattern: &[u8],
    record: &[u8],
    given: &[u16],
    allowance: u32,
    answer: &mut [u16],
) -> Result<Answer, Refusal>
    ensures { NextCalled (brought_of brought.now) pattern.now «record».now given.now answer.old allowance result answer.new }
{
    check_input(brought, pattern, record, answer.len())?;
    let language = brought.language();
    next_checked(
        language.table,
        language.classes,
        pattern,
        record,
        given,
        allowance,
        answer,
    )
}

// The answer after the one with the given run lengths: one for each free run name, in elements, in order of their first places outside
// complements. With every check.
pub fn next(
    table: &[u8],
    pattern: &[u8],
    record: &[u8],
    given: &[u16],
    allowance: u32,
    answer: &mut [u16],
) -> Result<Answer, Refusal>
    ensures is { result ≡ next_of (simply table.now) pattern.now «record».now given.now allowance (length answer.old) }
    ensures buffer { answer.new ≡ next_buffer_of (simply table.now) pattern.now «record».now given.now allowance answer.old }
    ensures demand { NextDemanded (simply table.now) pattern.now «record».now given.now answer.old allowance result answer.new }
{
    let brought = Brought::simply(table);
    next_brought(&brought, pattern, record, given, allowance, answer)
}

// The same in an edition, up to class by a class list.
pub fn next_in(
    edition: Edition,
    table: &[u8],
    classes: &[u8],
    pattern: &[u8],
    record: &[u8],
    given: &[u16],
    allowance: u32,
    answer: &mut [u16],
) -> Result<Answer, Refusal>
    ensures is { result ≡ next_of (bringing edition table.now classes.now) pattern.now «record».now given.now allowance (length answer.old) }
    ensures buffer { answer.new ≡ next_buffer_of (bringing edition table.now classes.now) pattern.now «record».now given.now allowance answer.old }
    ensures demand { NextDemanded (bringing edition table.now classes.now) pattern.now «record».now given.now answer.old allowance result answer.new }
{
    next_brought(
        &Brought::bringing(edition, table, classes),
        pattern,
        record,
        given,
        allowance,
        answer,
    )
}
