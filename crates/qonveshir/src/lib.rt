// The C interface, `include/qonveshir.h`: the library's calls, with their answers as numbers.
#![tactic(auto)]

mod example_calls;
mod game_calls;
mod stations;

ghost use Rattle.std.specs.Prelude.{◌≡◌, true, false, ◌≤◌, length};
ghost use Rattle.answers.specs.Answers.{applied_length};
ghost use Rattle.answers.specs.Shown.{fault_index};
ghost use Rattle.reader.specs.Brought.{simply};
ghost use Rattle.cost.specs.Call.{cost_of};
ghost use Rattle.cost.specs.Demands.{Demanded as CostDemanded};
ghost use Rattle.matcher.specs.Call.{answer_of, buffer_of};
ghost use Rattle.matcher.specs.Demands.{DemandedOf, NextDemandedOf};
ghost use Rattle.matcher.specs.Next.{next_of, next_buffer_of};
ghost use Rattle.plain.specs.Call.{plain_of, plain_buffer_of};
ghost use Rattle.rules.specs.Call.{in_sheet, answer_of as rules_answer, buffer_of as rules_buffer};
ghost use Rattle.rules.specs.Demands.{DemandedOf as RulesDemandedOf};
ghost use Rattle.sheet.specs.Entry.{place_of};
ghost use Rattle.sheet.specs.Contents.{check_rules, check_states};
ghost use Rattle.writing.specs.Writing.{writing, output_after};
ghost use Rattle.writing.specs.Demands.{Demanded as SheetDemanded};
ghost use Rattle.stored.specs.Demands.{StoreDemanded, RestoreDemanded};
ghost use Rattle.stored.specs.Move.{storing, restoring, moved, output_after as output_moved};
ghost use Rattle.splice.specs.Call.{call, shown_of};
ghost use Rattle.splice.specs.Converting.{output_after as output_spliced};
ghost use Rattle.splice.specs.Demands.{Demanded as SpliceDemanded};
ghost use Rattle.replace.specs.Call.{look_of, apply_of, output_of};
ghost use Rattle.replace.specs.Demands.{DemandedOf as ApplyDemandedOf, LookDemandedOf};
ghost use Rattle.qonveshir.specs.Demands.{PlainDemandedOf};
ghost use Rattle.qonveshir.specs.Edition.{told_by, no_edition, none_written};
ghost use Rattle.qonveshir.specs.Told.{match_in, match_left, MatchDemandedIn, next_in, next_left, NextDemandedIn};
ghost use Rattle.qonveshir.specs.Told.{plain_in, plain_left, PlainDemandedIn, cost_in, CostDemandedIn, write_in, write_left, WriteDemandedIn};
ghost use Rattle.qonveshir.specs.Told.{store_in, store_left, StoreDemandedIn, restore_in, restore_left, RestoreDemandedIn};
ghost use Rattle.qonveshir.specs.Told.{apply_in, apply_left, ApplyDemandedIn, look_in, LookDemandedIn};
ghost use Rattle.qonveshir.specs.Shown.{largest, outcome, part_shown, answer_shown, rules_shown, writing_shown, check_shown, place_shown, cost_shown, move_shown};
ghost use Rattle.qonveshir.specs.Shown.{as_written, applied_shown};

use answers::{Applied, Fault, Refusal, Shown};
use byte_answers::Place;
use term::Edition;

// Document 01's number, 0 where nothing is refused; the index of the rule shown or of the entry at fault, else 0; and the count.
#[repr(C)]
#[derive(Clone, Copy)]
pub struct Outcome {
    pub number: u32,
    pub index: u32,
    pub count: u64,
}

// Where an entry lies in its sheet, or the number of the refusal.
#[repr(C)]
#[derive(Clone, Copy)]
pub struct Part {
    pub number: u32,
    pub offset: u32,
    pub length: u32,
}

// Document 01's number, 0 where nothing is refused; the length of the result, 0 unless bound; and the count.
#[repr(C)]
#[derive(Clone, Copy)]
pub struct Written {
    pub number: u32,
    pub length: u32,
    pub count: u64,
}

// An answer as its number, index and count.
fn outcome_of<A: Shown + Copy>(answer: A) -> Outcome
    requires { A.shown_index answer ≤ largest }
    ensures { result ≡ outcome (A.shown_number answer) (A.shown_index answer) (A.shown_count answer) }
{
    Outcome {
        number: u32::from(answer.number()),
        index: answer.index() as u32,
        count: answer.count(),
    }
}

// A check has no count.
fn check_shown(checked: Result<usize, Fault>) -> Outcome
    requires { fault_index checked ≤ largest }
    ensures { result ≡ check_shown checked }
{
    Outcome {
        count: 0,
        ..outcome_of(checked)
    }
}

fn place_shown(place: Result<Place, Refusal>) -> Part
    ensures { result ≡ place_shown place }
{
    let (offset, length) = match place {
        Ok(p) => (p.offset, p.length),
        Err(_) => (0, 0),
    };
    Part {
        number: u32::from(place.number()),
        offset: u32::from(offset),
        length: u32::from(length),
    }
}

fn applied_shown(applied: Result<Applied, Refusal>) -> Written
    requires { applied_length applied ≤ largest }
    ensures { result ≡ applied_shown applied }
{
    let length = match applied {
        Ok(a) => a.length(),
        Err(_) => 0,
    };
    Written {
        number: u32::from(applied.number()),
        length: length as u32,
        count: applied.count(),
    }
}

fn edition_of(number: u32) -> Option<Edition>
    ensures { result ≡ told_by number }
{
    match number {
        1 => Some(Edition::One),
        2 => Some(Edition::Two),
        _ => None,
    }
}

// Any other number is 9, before all other checks.
fn no_edition() -> Outcome
    ensures { result ≡ no_edition }
{
    outcome_of(Refusal::Directory)
}

fn none_written() -> Written
    ensures { result ≡ none_written }
{
    applied_shown(Err(Refusal::Directory))
}

// One pattern against one record.
#[unsafe(no_mangle)]
pub extern "C" fn qonveshir_match(
    table: &[u8],
    pattern: &[u8],
    record: &[u8],
    allowance: u32,
    answer: &mut [u16],
) -> Outcome
    ensures is { result ≡ answer_shown (answer_of (simply table.now) pattern.now «record».now allowance (length answer.old)) }
    ensures buffer { answer.new ≡ buffer_of (simply table.now) pattern.now «record».now allowance answer.old }
    ensures demand { DemandedOf (simply table.now) pattern.now «record».now answer.old allowance answer.new }
{
    outcome_of(matcher::match_one(table, pattern, record, allowance, answer))
}

// The same in an edition, up to class.
#[unsafe(no_mangle)]
pub extern "C" fn qonveshir_match_in(
    edition: u32,
    table: &[u8],
    classes: &[u8],
    pattern: &[u8],
    record: &[u8],
    allowance: u32,
    answer: &mut [u16],
) -> Outcome
    ensures is { result ≡ match_in edition table.now classes.now pattern.now «record».now allowance (length answer.old) }
    ensures buffer { answer.new ≡ match_left edition table.now classes.now pattern.now «record».now allowance answer.old }
    ensures demand { MatchDemandedIn edition table.now classes.now pattern.now «record».now answer.old allowance answer.new }
{
    let Some(edition) = edition_of(edition) else {
        return no_edition();
    };
    outcome_of(matcher::match_in(edition, table, classes, pattern, record, allowance, answer))
}

// The answer after the one with the given run lengths.
#[unsafe(no_mangle)]
pub extern "C" fn qonveshir_next(
    table: &[u8],
    pattern: &[u8],
    record: &[u8],
    given: &[u16],
    allowance: u32,
    answer: &mut [u16],
) -> Outcome
    ensures is { result ≡ answer_shown (next_of (simply table.now) pattern.now «record».now given.now allowance (length answer.old)) }
    ensures buffer { answer.new ≡ next_buffer_of (simply table.now) pattern.now «record».now given.now allowance answer.old }
    ensures demand { NextDemandedOf (simply table.now) pattern.now «record».now given.now answer.old allowance answer.new }
{
    outcome_of(matcher::next(table, pattern, record, given, allowance, answer))
}

// The same in an edition, up to class.
#[unsafe(no_mangle)]
pub extern "C" fn qonveshir_next_in(
    edition: u32,
    table: &[u8],
    classes: &[u8],
    pattern: &[u8],
    record: &[u8],
    given: &[u16],
    allowance: u32,
    answer: &mut [u16],
) -> Outcome
    ensures is { result ≡ next_in edition table.now classes.now pattern.now «record».now given.now allowance (length answer.old) }
    ensures buffer { answer.new ≡ next_left edition table.now classes.now pattern.now «record».now given.now allowance answer.old }
    ensures demand { NextDemandedIn edition table.now classes.now pattern.now «record».now given.now answer.old allowance answer.new }
{
    let Some(edition) = edition_of(edition) else {
        return no_edition();
    };
    outcome_of(matcher::next_in(
        edition, table, classes, pattern, record, given, allowance, answer,
    ))
}

// One plain pattern against one record, without an allowance.
#[unsafe(no_mangle)]
pub extern "C" fn qonveshir_match_plain(
    table: &[u8],
    pattern: &[u8],
    record: &[u8],
    answer: &mut [u16],
) -> Outcome
    ensures is { result ≡ answer_shown (plain_of (simply table.now) pattern.now «record».now (length answer.old)) }
    ensures buffer { answer.new ≡ plain_buffer_of (simply table.now) pattern.now «record».now answer.old }
    ensures demand { PlainDemandedOf (simply table.now) pattern.now «record».now answer.old answer.new }
{
    outcome_of(plain::match_plain(table, pattern, record, answer))
}

// The same in an edition, up to class.
#[unsafe(no_mangle)]
pub extern "C" fn qonveshir_match_plain_in(
    edition: u32,
    table: &[u8],
    classes: &[u8],
    pattern: &[u8],
    record: &[u8],
    answer: &mut [u16],
) -> Outcome
    ensures is { result ≡ plain_in edition table.now classes.now pattern.now «record».now (length answer.old) }
    ensures buffer { answer.new ≡ plain_left edition table.now classes.now pattern.now «record».now answer.old }
    ensures demand { PlainDemandedIn edition table.now classes.now pattern.now «record».now answer.old answer.new }
{
    let Some(edition) = edition_of(edition) else {
        return no_edition();
    };
    outcome_of(plain::match_plain_in(edition, table, classes, pattern, record, answer))
}

// A rule sheet against one record.
#[unsafe(no_mangle)]
pub extern "C" fn qonveshir_match_rules(
    table: &[u8],
    rules: &[u8],
    record: &[u8],
    allowance: u32,
    answer: &mut [u16],
) -> Outcome
    ensures is { result ≡ rules_shown (rules_answer (in_sheet rules.now table.now None) rules.now «record».now allowance (length answer.old)) }
    ensures buffer { answer.new ≡ rules_buffer (in_sheet rules.now table.now None) rules.now «record».now allowance answer.old }
    ensures demand { RulesDemandedOf (in_sheet rules.now table.now None) rules.now «record».now answer.old allowance answer.new }
{
    outcome_of(rules::match_rules(table, rules, record, allowance, answer))
}

// The same up to class; the sheet tells the edition.
#[unsafe(no_mangle)]
pub extern "C" fn qonveshir_match_rules_in(
    table: &[u8],
    classes: &[u8],
    rules: &[u8],
    record: &[u8],
    allowance: u32,
    answer: &mut [u16],
) -> Outcome
    ensures is { result ≡ rules_shown (rules_answer (in_sheet rules.now table.now (Some classes.now)) rules.now «record».now allowance (length answer.old)) }
    ensures buffer { answer.new ≡ rules_buffer (in_sheet rules.now table.now (Some classes.now)) rules.now «record».now allowance answer.old }
    ensures demand { RulesDemandedOf (in_sheet rules.now table.now (Some classes.now)) rules.now «record».now answer.old allowance answer.new }
{
    outcome_of(rules::match_rules_in(table, classes, rules, record, allowance, answer))
}

// Writes a sheet of joined records.
#[unsafe(no_mangle)]
pub extern "C" fn qonveshir_write_sheet(
    table: &[u8],
    records: &[u8],
    lengths: &[u16],
    output: &mut [u8],
) -> Outcome
    ensures is { result ≡ writing_shown (writing (simply table.now) records.now lengths.now (length output.old)) }
    ensures contents { output.new ≡ output_after (simply table.now) records.now lengths.now output.old }
    ensures demand { SheetDemanded (simply table.now) records.now lengths.now output.old result.number result.count output.new }
{
    outcome_of(writing::write_sheet(table, records, lengths, output))
}

// The same in an edition, with a class list.
#[unsafe(no_mangle)]
pub extern "C" fn qonveshir_write_sheet_in(
    edition: u32,
    table: &[u8],
    classes: &[u8],
    records: &[u8],
    lengths: &[u16],
    output: &mut [u8],
) -> Outcome
    ensures is { result ≡ write_in edition table.now classes.now records.now lengths.now (length output.old) }
    ensures contents { output.new ≡ write_left edition table.now classes.now records.now lengths.now output.old }
    ensures demand { WriteDemandedIn edition table.now classes.now records.now lengths.now output.old result.number result.count output.new }
{
    let Some(edition) = edition_of(edition) else {
        return no_edition();
    };
    outcome_of(writing::write_sheet_in(edition, table, classes, records, lengths, output))
}

// Where an entry lies in its sheet.
#[unsafe(no_mangle)]
pub extern "C" fn qonveshir_entry(sheet: &[u8], index: u32) -> Part
    ensures { result ≡ place_shown (place_of sheet.now index) }
{
    place_shown(sheet::place_of(sheet, index as usize))
}

// Checks a sheet of at most 64 patterns.
#[unsafe(no_mangle)]
pub extern "C" fn qonveshir_check_rules(table: &[u8], sheet: &[u8]) -> Outcome
    ensures { result ≡ check_shown (check_rules table.now None sheet.now) }
{
    check_shown(sheet::check_rules(table, sheet))
}

// The same with a class list.
#[unsafe(no_mangle)]
pub extern "C" fn qonveshir_check_rules_in(table: &[u8], classes: &[u8], sheet: &[u8]) -> Outcome
    ensures { result ≡ check_shown (check_rules table.now (Some classes.now) sheet.now) }
{
    check_shown(sheet::check_rules_in(table, classes, sheet))
}

// Checks a sheet of records.
#[unsafe(no_mangle)]
pub extern "C" fn qonveshir_check_states(table: &[u8], sheet: &[u8]) -> Outcome
    ensures { result ≡ check_shown (check_states table.now None sheet.now) }
{
    check_shown(sheet::check_states(table, sheet))
}

// The same with a class list.
#[unsafe(no_mangle)]
pub extern "C" fn qonveshir_check_states_in(table: &[u8], classes: &[u8], sheet: &[u8]) -> Outcome
    ensures { result ≡ check_shown (check_states table.now (Some classes.now) sheet.now) }
{
    check_shown(sheet::check_states_in(table, classes, sheet))
}

// What a pattern can cost at most.
#[unsafe(no_mangle)]
pub extern "C" fn qonveshir_cost(table: &[u8], pattern: &[u8]) -> Outcome
    ensures is { result ≡ cost_shown (cost_of (simply table.now) pattern.now) }
    ensures demand { CostDemanded (simply table.now) pattern.now (cost_of (simply table.now) pattern.now) }
{
    outcome_of(cost::cost_of(table, pattern))
}

// The same in an edition, with a class list.
#[unsafe(no_mangle)]
pub extern "C" fn qonveshir_cost_in(
    edition: u32,
    table: &[u8],
    classes: &[u8],
    pattern: &[u8],
) -> Outcome
    ensures is { result ≡ cost_in edition table.now classes.now pattern.now }
    ensures demand { CostDemandedIn edition table.now classes.now pattern.now }
{
    let Some(edition) = edition_of(edition) else {
        return no_edition();
    };
    outcome_of(cost::cost_in(edition, table, classes, pattern))
}

// Writes the stored form of a record.
#[unsafe(no_mangle)]
pub extern "C" fn qonveshir_store(table: &[u8], record: &[u8], output: &mut [u8]) -> Outcome
    ensures shown { result ≡ move_shown (moved (storing (simply table.now) «record».now) (length output.old)) }
    ensures contents { output.new ≡ output_moved (storing (simply table.now) «record».now) output.old }
    ensures demand { StoreDemanded (simply table.now) «record».now output.old result.number result.count output.new }
{
    outcome_of(stored::store(table, record, output))
}

// The same in an edition, with a class list.
#[unsafe(no_mangle)]
pub extern "C" fn qonveshir_store_in(
    edition: u32,
    table: &[u8],
    classes: &[u8],
    record: &[u8],
    output: &mut [u8],
) -> Outcome
    ensures shown { result ≡ store_in edition table.now classes.now «record».now (length output.old) }
    ensures contents { output.new ≡ store_left edition table.now classes.now «record».now output.old }
    ensures demand { StoreDemandedIn edition table.now classes.now «record».now output.old result.number result.count output.new }
{
    let Some(edition) = edition_of(edition) else {
        return no_edition();
    };
    outcome_of(stored::store_in(edition, table, classes, record, output))
}

// Writes the old form of a stored record.
#[unsafe(no_mangle)]
pub extern "C" fn qonveshir_restore(table: &[u8], stored: &[u8], output: &mut [u8]) -> Outcome
    ensures shown { result ≡ move_shown (moved (restoring (simply table.now) stored.now) (length output.old)) }
    ensures contents { output.new ≡ output_moved (restoring (simply table.now) stored.now) output.old }
    ensures demand { RestoreDemanded (simply table.now) stored.now output.old result.number result.count output.new }
{
    outcome_of(stored::restore(table, stored, output))
}

// The same in an edition, with a class list.
#[unsafe(no_mangle)]
pub extern "C" fn qonveshir_restore_in(
    edition: u32,
    table: &[u8],
    classes: &[u8],
    stored: &[u8],
    output: &mut [u8],
) -> Outcome
    ensures shown { result ≡ restore_in edition table.now classes.now stored.now (length output.old) }
    ensures contents { output.new ≡ restore_left edition table.now classes.now stored.now output.old }
    ensures demand { RestoreDemandedIn edition table.now classes.now stored.now output.old result.number result.count output.new }
{
    let Some(edition) = edition_of(edition) else {
        return no_edition();
    };
    outcome_of(stored::restore_in(edition, table, classes, stored, output))
}

// Splices an edition 1 record.
#[unsafe(no_mangle)]
pub extern "C" fn qonveshir_splice_record(table: &[u8], record: &[u8], output: &mut [u8]) -> Outcome
    ensures shown { result ≡ move_shown (shown_of (call true table.now None (length output.old) «record».now)) }
    ensures contents { output.new ≡ output_spliced output.old (call true table.now None (length output.old) «record».now) }
    ensures demand { SpliceDemanded true table.now None «record».now output.old result.number result.count output.new }
{
    outcome_of(splice::splice_record(table, record, output))
}

// The same up to class.
#[unsafe(no_mangle)]
pub extern "C" fn qonveshir_splice_record_in(
    table: &[u8],
    classes: &[u8],
    record: &[u8],
    output: &mut [u8],
) -> Outcome
    ensures shown { result ≡ move_shown (shown_of (call true table.now (Some classes.now) (length output.old) «record».now)) }
    ensures contents { output.new ≡ output_spliced output.old (call true table.now (Some classes.now) (length output.old) «record».now) }
    ensures demand { SpliceDemanded true table.now (Some classes.now) «record».now output.old result.number result.count output.new }
{
    outcome_of(splice::splice_record_in(table, classes, record, output))
}

// Splices an edition 1 pattern.
#[unsafe(no_mangle)]
pub extern "C" fn qonveshir_splice_pattern(
    table: &[u8],
    pattern: &[u8],
    output: &mut [u8],
) -> Outcome
    ensures shown { result ≡ move_shown (shown_of (call false table.now None (length output.old) pattern.now)) }
    ensures contents { output.new ≡ output_spliced output.old (call false table.now None (length output.old) pattern.now) }
    ensures demand { SpliceDemanded false table.now None pattern.now output.old result.number result.count output.new }
{
    outcome_of(splice::splice_pattern(table, pattern, output))
}

// The same up to class.
#[unsafe(no_mangle)]
pub extern "C" fn qonveshir_splice_pattern_in(
    table: &[u8],
    classes: &[u8],
    pattern: &[u8],
    output: &mut [u8],
) -> Outcome
    ensures shown { result ≡ move_shown (shown_of (call false table.now (Some classes.now) (length output.old) pattern.now)) }
    ensures contents { output.new ≡ output_spliced output.old (call false table.now (Some classes.now) (length output.old) pattern.now) }
    ensures demand { SpliceDemanded false table.now (Some classes.now) pattern.now output.old result.number result.count output.new }
{
    outcome_of(splice::splice_pattern_in(table, classes, pattern, output))
}

// Writes a template with the parts of a rule's first answer put in.
#[unsafe(no_mangle)]
pub extern "C" fn qonveshir_apply(
    table: &[u8],
    pattern: &[u8],
    template: &[u8],
    record: &[u8],
    allowance: u32,
    output: &mut [u8],
) -> Written
    ensures is { result ≡ applied_shown (apply_of (simply table.now) pattern.now template.now «record».now allowance (length output.old)) }
    ensures contents { output.new ≡ output_of (simply table.now) pattern.now template.now «record».now allowance output.old }
    ensures demand { ApplyDemandedOf (simply table.now) pattern.now template.now «record».now output.old allowance output.new }
{
    applied_shown(replace::apply(table, pattern, template, record, allowance, output))
}

// The same in an edition, up to class.
#[unsafe(no_mangle)]
pub extern "C" fn qonveshir_apply_in(
    edition: u32,
    table: &[u8],
    classes: &[u8],
    pattern: &[u8],
    template: &[u8],
    record: &[u8],
    allowance: u32,
    output: &mut [u8],
) -> Written
    ensures is { result ≡ apply_in edition table.now classes.now pattern.now template.now «record».now allowance (length output.old) }
    ensures contents { output.new ≡ apply_left edition table.now classes.now pattern.now template.now «record».now allowance output.old }
    ensures demand { ApplyDemandedIn edition table.now classes.now pattern.now template.now «record».now output.old allowance output.new }
{
    let Some(edition) = edition_of(edition) else {
        return none_written();
    };
    applied_shown(replace::apply_in(
        edition, table, classes, pattern, template, record, allowance, output,
    ))
}

// What applying would show with an output of 4,096 bytes; nothing is written.
#[unsafe(no_mangle)]
pub extern "C" fn qonveshir_look(
    table: &[u8],
    pattern: &[u8],
    template: &[u8],
    record: &[u8],
    allowance: u32,
) -> Written
    ensures is { result ≡ applied_shown (look_of (simply table.now) pattern.now template.now «record».now allowance) }
    ensures demand { LookDemandedOf (simply table.now) pattern.now template.now «record».now allowance }
{
    applied_shown(replace::look(table, pattern, template, record, allowance))
}

// The same in an edition, up to class.
#[unsafe(no_mangle)]
pub extern "C" fn qonveshir_look_in(
    edition: u32,
    table: &[u8],
    classes: &[u8],
    pattern: &[u8],
    template: &[u8],
    record: &[u8],
    allowance: u32,
) -> Written
    ensures is { result ≡ look_in edition table.now classes.now pattern.now template.now «record».now allowance }
    ensures demand { LookDemandedIn edition table.now classes.now pattern.now template.now «record».now allowance }
{
    let Some(edition) = edition_of(edition) else {
        return none_written();
    };
    applied_shown(replace::look_in(
        edition, table, classes, pattern, template, record, allowance,
    ))
}
