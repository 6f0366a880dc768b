// The plain tier: rules without complements, with no name or run name twice and at most one run name in a list. One loop over the pattern's bytes
// beside a place in the record; nothing is tried twice.
#![tactic(auto)]

mod check;
mod runs;
mod tier;

ghost use Rattle.std.specs.Prelude.{◌≡◌, ◌≤◌, length, Ok};
ghost use Rattle.term.specs.Limits.{longest_pattern};
ghost use Rattle.reader.specs.Brought.{simply, bringing};
ghost use Rattle.reader.specs.Lent.{brought_of};
ghost use Rattle.plain.specs.Bytes.{may_hold, root_may_hold, tier_on, no_parts, told_ending, shown_ending};
ghost use Rattle.plain.specs.Call.{plain_of, plain_buffer_of};
ghost use Rattle.plain.specs.Demands.{PlainDemanded, PlainCalled};

use crate::check::is_plain;
use crate::tier::tier;
use answers::{Answer, Refusal};
use matcher::check_rule;
use parts::PARTS;
use reader::Brought;
use term::{Code, Edition, Language};

// A symbol may hold where it is the record's; any other code may hold.
fn may_hold(classes: &[u8], code: Code, r: u8) -> bool
    ensures { result ≡ may_hold classes.now code r }
{
    match code {
        Code::Symbol(b) => term::same_symbol(classes, b, r),
        _ => true,
    }
}

// Whether the first node may hold, by its code alone.
fn root_may_hold(classes: &[u8], pattern: &[u8], record: &[u8]) -> bool
    ensures { result ≡ root_may_hold classes.now pattern.now «record».now }
{
    if pattern.is_empty() {
        return true;
    }
    if record.is_empty() {
        return true;
    }
    may_hold(classes, term::decode(pattern[0]), record[0])
}

// The match of bytes as they are.
fn match_checked(
    language: &Language<'_>,
    pattern: &[u8],
    record: &[u8],
    answer: &mut [u16],
) -> Answer
    requires { length pattern.now ≤ longest_pattern }
    ensures is { Ok result ≡ told_ending (tier_on language.now.table.now language.now.classes.now pattern.now «record».now no_parts) }
    ensures buffer { answer.new ≡ shown_ending (tier_on language.now.table.now language.now.classes.now pattern.now «record».now no_parts) answer.old }
{
    let mut parts = [0u64; PARTS];
    let end = tier(language, pattern, record, &mut parts);
    match end.assigned {
        Some(assigned) => {
            parts::show(&parts, assigned, answer);
            Answer::Bound(end.count)
        }
        None => Answer::None(end.count),
    }
}

// The match of a plain pattern against a record with every check, in the language that the call brings.
fn match_plain_brought(
    brought: &Brought<'_>,
    pattern: &[u8],
    record: &[u8],
    answer: &mut [u16],
) -> Result<Answer, Refusal>
    ensures { PlainCalled (brought_of brought.now) pattern.now «record».now answer.old result answer.new }
{
    check_rule(brought, pattern, answer.len())?;
    if !is_plain(brought.table, pattern) {
        return Err(Refusal::NotPlain);
    }
    let language = brought.language();
    reader::read_record_in(&language, record)?;
    if !root_may_hold(language.classes, pattern, record) {
        return Ok(Answer::None(1));
    }
    Ok(match_checked(&language, pattern, record, answer))
}

// The match of a plain pattern against a record.
pub fn match_plain(
    table: &[u8],
    pattern: &[u8],
    record: &[u8],
    answer: &mut [u16],
) -> Result<Answer, Refusal>
    ensures is { result ≡ plain_of (simply table.now) pattern.now «record».now (length answer.old) }
    ensures buffer { answer.new ≡ plain_buffer_of (simply table.now) pattern.now «record».now answer.old }
    ensures demand { PlainDemanded (simply table.now) pattern.now «record».now answer.old result answer.new }
{
    match_plain_brought(&Brought::simply(table), pattern, record, answer)
}

// The same in an edition, up to class by a class list.
pub fn match_plain_in(
    edition: Edition,
    table: &[u8],
    classes: &[u8],
    pattern: &[u8],
    record: &[u8],
    answer: &mut [u16],
) -> Result<Answer, Refusal>
    ensures is { result ≡ plain_of (bringing edition table.now classes.now) pattern.now «record».now (length answer.old) }
    ensures buffer { answer.new ≡ plain_buffer_of (bringing edition table.now classes.now) pattern.now «record».now answer.old }
    ensures demand { PlainDemanded (bringing edition table.now classes.now) pattern.now «record».now answer.old result answer.new }
{
    let brought = Brought::bringing(edition, table, classes);
    match_plain_brought(&brought, pattern, record, answer)
}
