// A rule sheet against one record: its rules are tried in order, up to the first that is bound or spent.
#![tactic(auto)]

ghost use Rattle.std.specs.Prelude.{◌≡◌, length, Some, None};
ghost use Rattle.reader.specs.Lent.{brought_of};
ghost use Rattle.sheet.specs.Check.{edition_of};
ghost use Rattle.rules.specs.Call.{in_sheet, checked, check_of, answer_of, buffer_of, answer_on_bytes, buffer_on_bytes};
ghost use Rattle.rules.specs.Demands.{Demanded, Called};

use answers::{Answer, Fault, Refusal, RuleAnswer};
use reader::Brought;

// The checks in order, for a buffer of so many numbers: the number of rules, or the refusal.
fn check_input(
    brought: &Brought<'_>,
    sheet: &[u8],
    record: &[u8],
    width: usize,
) -> Result<usize, Fault>
    requires { edition_of sheet.now ≡ (brought_of brought.now).edition }
    ensures { result ≡ check_of (checked (brought_of brought.now) sheet.now «record».now width) }
{
    if width < matcher::ANSWER_WIDTH {
        return Err(Fault::at(Refusal::Narrow, 0));
    }
    let rules = sheet::check_contents(false, None, brought, sheet)?;
    reader::read_record_in(&brought.language(), record)?;
    Ok(rules)
}

// The match of bytes as they are: of a rule sheet and a record that passed their checks by this table, with a class list that did, or an empty
// one, it is the match with every check. Only the buffer is checked here.
pub fn match_rules_checked(
    table: &[u8],
    classes: &[u8],
    sheet: &[u8],
    record: &[u8],
    allowance: u32,
    answer: &mut [u16],
) -> Result<RuleAnswer, Fault>
    ensures is { result ≡ answer_on_bytes table.now classes.now sheet.now «record».now allowance (length answer.old) }
    ensures buffer { answer.new ≡ buffer_on_bytes table.now classes.now sheet.now «record».now allowance answer.old }
{
    if answer.len() < matcher::ANSWER_WIDTH {
        return Err(Fault::at(Refusal::Narrow, 0));
    }
    let rules = usize::from(sheet::count(sheet));
    let mut sum = 0;
    for i in 0..rules {
        let rule = sheet::part_at(sheet, i);
        let own = matcher::match_checked(table, classes, rule, record, allowance, answer);
        match own {
            Ok(Answer::Bound(n)) => return Ok(RuleAnswer::Bound(i, sum + u64::from(n))),
            Ok(Answer::Spent(n)) => return Ok(RuleAnswer::Spent(i, sum + u64::from(n))),
            Ok(Answer::None(n)) => sum += u64::from(n),
            Err(r) => return Err(Fault::at(r, i)),
        }
    }
    Ok(RuleAnswer::None(sum))
}

// A rule sheet against a record with every check, by what the call brings, which has the sheet's edition.
fn match_rules_brought(
    brought: &Brought<'_>,
    sheet: &[u8],
    record: &[u8],
    allowance: u32,
    answer: &mut [u16],
) -> Result<RuleAnswer, Fault>
    requires { edition_of sheet.now ≡ (brought_of brought.now).edition }
    ensures { Called (brought_of brought.now) sheet.now «record».now answer.old allowance result answer.new }
{
    check_input(brought, sheet, record, answer.len())?;
    let language = brought.language();
    match_rules_checked(
        language.table,
        language.classes,
        sheet,
        record,
        allowance,
        answer,
    )
}

// A rule sheet against a record.
pub fn match_rules(
    table: &[u8],
    sheet: &[u8],
    record: &[u8],
    allowance: u32,
    answer: &mut [u16],
) -> Result<RuleAnswer, Fault>
    ensures is { result ≡ answer_of (in_sheet sheet.now table.now None) sheet.now «record».now allowance (length answer.old) }
    ensures buffer { answer.new ≡ buffer_of (in_sheet sheet.now table.now None) sheet.now «record».now allowance answer.old }
    ensures demand { Demanded (in_sheet sheet.now table.now None) sheet.now «record».now answer.old allowance result answer.new }
{
    let brought = Brought {
        edition: sheet::edition_of(sheet),
        table,
        list: None,
    };
    match_rules_brought(&brought, sheet, record, allowance, answer)
}

// The same up to class, by a class list.
pub fn match_rules_in(
    table: &[u8],
    classes: &[u8],
    sheet: &[u8],
    record: &[u8],
    allowance: u32,
    answer: &mut [u16],
) -> Result<RuleAnswer, Fault>
    ensures is { result ≡ answer_of (in_sheet sheet.now table.now (Some classes.now)) sheet.now «record».now allowance (length answer.old) }
    ensures buffer { answer.new ≡ buffer_of (in_sheet sheet.now table.now (Some classes.now)) sheet.now «record».now allowance answer.old }
    ensures demand { Demanded (in_sheet sheet.now table.now (Some classes.now)) sheet.now «record».now answer.old allowance result answer.new }
{
    let brought = Brought::bringing(sheet::edition_of(sheet), table, classes);
    match_rules_brought(&brought, sheet, record, allowance, answer)
}
