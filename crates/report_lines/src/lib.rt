// The text of the report: which refusal or which lines, and the bytes of each.
#![tactic(auto)]

ghost use Rattle.std.specs.Prelude.{◌≡◌, ◌+◌, ◌≤◌, ◌<◌, [], length, is_some, option_copied, None};
ghost use Rattle.std.specs.Option.{unwrap_or};
ghost use Rattle.std.proofs.lemmas.List.Edits.{sets};
ghost use Rattle.output.specs.Decimal.{decimal};
ghost use Rattle.sheet.specs.Check.{entry_count};
ghost use Rattle.sheet.specs.Entry.{shown_entry};
ghost use Rattle.sheet.specs.Contents.{check_contents};
ghost use Rattle.call.specs.Call.{answer_width};
ghost use Rattle.rules.specs.Call.{in_sheet, answer_of};
ghost use Rattle.report_lines.specs.Line.{line, none_word, dash, answer_line, file_word, refusal_line};
ghost use Rattle.report_lines.specs.Verdict.{readable, verdict_on, FilesAccepted};
ghost use Rattle.report_lines.specs.Report.{allowance, lines, report_on, report_room, front};

use answers::{Fault, Refusal, RuleAnswer, Shown};
use reader::Brought;
use term::Edition;

// What the rules are allowed on each state.
const ALLOWANCE: u32 = 100000;

// The lines of the longest report, its header among them, and the bytes of the longest line.
const MOST_LINES: usize = 6554;

const LINE_ROOM: usize = 22;

// The room that every report has its place in.
pub const REPORT_ROOM: usize = MOST_LINES * LINE_ROOM;

// The files of a report.
#[derive(Clone, Copy, Debug, PartialEq, Eq)]
pub enum File {
    Table,
    Rules,
    States,
}

// A refusal, and the file that is at fault.
#[derive(Clone, Copy, Debug, PartialEq, Eq)]
struct FileFault {
    file: File,
    fault: Fault,
}

// The bytes of a file, of which there are none where it could not be read.
fn bytes_in(file: Option<&[u8]>) -> &[u8]
    ensures { result.now ≡ unwrap_or (option_copied file.entry) [] }
{
    match file {
        Some(bytes) => bytes,
        None => b"",
    }
}

// Checks a sheet of records or of patterns: whether its file could be read, then what it holds.
fn check_file(
    records: bool,
    only: Option<Edition>,
    table: &[u8],
    sheet: Option<&[u8]>,
) -> Result<usize, Fault>
    ensures { result ≡ readable (is_some (option_copied sheet.entry)) (check_contents records only table.now None (unwrap_or (option_copied sheet.entry) [])) }
{
    match sheet {
        Some(bytes) => sheet::check_contents(records, only, &Brought::simply(table), bytes),
        None => Err(Fault::at(Refusal::Unread, 0)),
    }
}

// Checks the files in order: the number of states, each of which has a line, or the first refusal.
fn check_files(
    table: Option<&[u8]>,
    rules: Option<&[u8]>,
    states: Option<&[u8]>,
) -> Result<usize, FileFault>
    ensures { result ≡ verdict_on (option_copied table.entry) (option_copied rules.entry) (option_copied states.entry) }
{
    let Some(table) = table else {
        return Err(FileFault {
            file: File::Table,
            fault: Fault::at(Refusal::Unread, 0),
        });
    };
    if !term::check_table(table) {
        return Err(FileFault {
            file: File::Table,
            fault: Fault::at(Refusal::Table, 0),
        });
    }
    if let Err(fault) = check_file(false, None, table, rules) {
        return Err(FileFault {
            file: File::Rules,
            fault,
        });
    }
    let only = Some(sheet::edition_of(bytes_in(rules)));
    match check_file(true, only, table, states) {
        Ok(n) => Ok(n),
        Err(fault) => Err(FileFault {
            file: File::States,
            fault,
        }),
    }
}

// Puts the line of a state by the rule that is shown, and answers where it ends.
fn put_ruled(out: &mut [u8], at: usize, state: usize, rule: usize, word: &[u8], sum: u64) -> usize
    requires { at + length (line (decimal state) (decimal rule) word.now (decimal sum)) ≤ length out.old }
    ensures out_value { out.new ≡ sets out.old at (line (decimal state) (decimal rule) word.now (decimal sum)) }
    ensures value { result ≡ at + length (line (decimal state) (decimal rule) word.now (decimal sum)) }
{
    let mut end = output::put_decimal(out, at, state as u64, b' ');
    end = output::put_decimal(out, end, rule as u64, b' ');
    end = output::put_field(out, end, word, b' ');
    output::put_decimal(out, end, sum, b'\n')
}

// Puts the line of a state that no rule is shown for, and answers where it ends.
fn put_none(out: &mut [u8], at: usize, state: usize, sum: u64) -> usize
    requires { at + length (line (decimal state) dash none_word (decimal sum)) ≤ length out.old }
    ensures out_value { out.new ≡ sets out.old at (line (decimal state) dash none_word (decimal sum)) }
    ensures value { result ≡ at + length (line (decimal state) dash none_word (decimal sum)) }
{
    let mut end = output::put_decimal(out, at, state as u64, b' ');
    end = output::put_field(out, end, b"-", b' ');
    end = output::put_field(out, end, b"none", b' ');
    output::put_decimal(out, end, sum, b'\n')
}

// Puts the line of a state by what the rules answer on it, and answers where it ends.
fn put_answer(out: &mut [u8], at: usize, state: usize, answer: Result<RuleAnswer, Fault>) -> usize
    requires { at + length (answer_line state answer) ≤ length out.old }
    ensures out_value { out.new ≡ sets out.old at (answer_line state answer) }
    ensures value { result ≡ at + length (answer_line state answer) }
{
    let Ok(answer) = answer else {
        return at;
    };
    match answer {
        RuleAnswer::Bound(rule, sum) => put_ruled(out, at, state, rule, b"bound", sum),
        RuleAnswer::None(sum) => put_none(out, at, state, sum),
        RuleAnswer::Spent(rule, sum) => put_ruled(out, at, state, rule, b"spent", sum),
    }
}

// What the rules answer on the state of an index, in files that were checked before.
fn match_state(table: &[u8], rules: &[u8], states: &[u8], state: usize) -> Result<RuleAnswer, Fault>
    requires files_accepted { FilesAccepted table.now rules.now states.now (entry_count states.now) }
    requires state_bound { state < entry_count states.now }
    ensures { result ≡ answer_of (in_sheet rules.now table.now None) rules.now (shown_entry states.now state) allowance answer_width }
{
    let mut answer = [0u16; matcher::ANSWER_WIDTH];
    rules::match_rules_checked(
        table,
        b"",
        rules,
        sheet::part_at(states, state),
        ALLOWANCE,
        &mut answer,
    )
}

// Puts the report on n states, of files that were checked before, and answers its length.
fn put_lines(table: &[u8], rules: &[u8], states: &[u8], n: usize, out: &mut [u8]) -> usize
    requires files_accepted { FilesAccepted table.now rules.now states.now n }
    requires report_room_in_bounds { report_room ≤ length out.old }
    ensures out_value { out.new ≡ sets out.old 0 (lines table.now rules.now states.now) }
    ensures value { result ≡ length (lines table.now rules.now states.now) }
{
    let mut at = output::put_field(out, 0, b"state rule word count", b'\n');
    for state in 0..n {
        let answer = match_state(table, rules, states, state);
        at = put_answer(out, at, state, answer);
    }
    at
}

// The word of a file.
fn word_of(file: File) -> &'static [u8]
    ensures { result.now ≡ file_word file }
{
    match file {
        File::Table => b"table",
        File::Rules => b"rules",
        File::States => b"states",
    }
}

// Puts the line of a refusal, and answers its length.
fn put_refusal(out: &mut [u8], refused: FileFault) -> usize
    requires { length (refusal_line refused.fault.refusal refused.file refused.fault.index) ≤ length out.old }
    ensures out_value { out.new ≡ sets out.old 0 (refusal_line refused.fault.refusal refused.file refused.fault.index) }
    ensures value { result ≡ length (refusal_line refused.fault.refusal refused.file refused.fault.index) }
{
    let mut end = output::put_field(out, 0, b"refused", b' ');
    end = output::put_decimal(out, end, u64::from(refused.fault.number()), b' ');
    end = output::put_field(out, end, word_of(refused.file), b' ');
    output::put_decimal(out, end, refused.fault.index as u64, b'\n')
}

// Puts the report on the bytes of three files, none where a file could not be read, to the front of the output, and answers its length.
pub fn put_report(
    table: Option<&[u8]>,
    rules: Option<&[u8]>,
    states: Option<&[u8]>,
    out: &mut [u8; REPORT_ROOM],
) -> usize
    ensures size { result ≡ length (report_on (option_copied table.entry) (option_copied rules.entry) (option_copied states.entry)) }
    ensures contents { out.new ≡ front (report_on (option_copied table.entry) (option_copied rules.entry) (option_copied states.entry)) out.old }
{
    match check_files(table, rules, states) {
        Ok(n) => put_lines(bytes_in(table), bytes_in(rules), bytes_in(states), n, out),
        Err(refused) => put_refusal(out, refused),
    }
}
