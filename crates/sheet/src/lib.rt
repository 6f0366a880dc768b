// Sheets of patterns or of records: how they are checked, and read entry by entry.
#![tactic(auto)]

ghost use Rattle.std.specs.Prelude.{◌≡◌, true, ◌+◌, ◌≤◌, ◌<◌, length};
ghost use Rattle.answers.specs.Shown.{fault_number, size_told};
ghost use Rattle.byte_answers.specs.Answers.{place_offset};
ghost use Rattle.term.specs.Lent.{language_by};
ghost use Rattle.reader.specs.Lent.{brought_of};
ghost use Rattle.sheet.specs.Word.{word_at};
ghost use Rattle.sheet.specs.Sheet.{past_pairs};
ghost use Rattle.sheet.specs.Check.{entry_count, edition_of, offset_at, length_at, entries_follow, check_sheet, allowed, check_among};
ghost use Rattle.sheet.specs.Entry.{entries, check_entry, place_of, shown_entry, part_at, part_offset, points_into};
ghost use Rattle.sheet.specs.Contents.{read_entry, check_each, few, check_contents, check_states, check_rules};
ghost use Rattle.sheet.specs.Demands.{OneReading};

use answers::{Fault, Refusal};
use byte_answers::Place;
use reader::Brought;
use term::{Edition, Language};

// The most bytes of a sheet.
pub const LONGEST_SHEET: usize = 32768;

// The most entries of a rule sheet.
const MOST_RULES: usize = 64;

// A sheet of edition 2 adds this to its count.
pub const EDITION_MARK: u16 = 32768;

// The bytes of a 16-bit number.
pub const WORD: usize = 2;

// The bytes of a pair in the directory, an offset and a length.
pub const PAIR: usize = 4;

// The 16-bit number at a place, low byte first.
fn word_at(s: &[u8], at: usize) -> u16
    requires { at + 1 < length s.now }
    ensures { result ≡ word_at s.now at }
{
    u16::from(s[at]) + 256 * u16::from(s[at + 1])
}

// The number of entries that a sheet tells, be it accepted or not.
pub fn count(sheet: &[u8]) -> u16
    ensures { result ≡ entry_count sheet.now }
{
    match sheet {
        [] => 0,
        [only] => u16::from(*only),
        _ => word_at(sheet, 0) % EDITION_MARK,
    }
}

// The edition that a sheet tells, be it accepted or not.
pub fn edition_of(sheet: &[u8]) -> Edition
    ensures { result ≡ edition_of sheet.now }
{
    if sheet.len() < WORD || word_at(sheet, 0) < EDITION_MARK {
        return Edition::One;
    }
    Edition::Two
}

// The offset and the length of an index in the directory.
fn offset_at(sheet: &[u8], index: usize) -> u16
    requires { past_pairs (index + 1) ≤ length sheet.now }
    ensures { result ≡ offset_at sheet.now index }
{
    word_at(sheet, WORD + PAIR * index)
}

fn length_at(sheet: &[u8], index: usize) -> u16
    requires { past_pairs (index + 1) ≤ length sheet.now }
    ensures { result ≡ length_at sheet.now index }
{
    word_at(sheet, WORD + PAIR * index + WORD)
}

// Whether the entries follow the directory of n pairs and each other, and end with the sheet.
fn entries_follow(sheet: &[u8], n: usize) -> bool
    requires { past_pairs n ≤ length sheet.now }
    ensures { result ≡ entries_follow sheet.now n 0 (past_pairs n) }
{
    let mut at = WORD + PAIR * n;
    for i in 0..n {
        if usize::from(offset_at(sheet, i)) != at {
            return false;
        }
        let length = usize::from(length_at(sheet, i));
        if length == 0 {
            return false;
        }
        at += length;
    }
    at == sheet.len()
}

// Checks a sheet of any entries.
pub fn check_sheet(sheet: &[u8]) -> Result<usize, Fault>
    ensures is { result ≡ check_sheet sheet.now }
    ensures demand { OneReading sheet.now (fault_number result) (size_told result) }
{
    if LONGEST_SHEET < sheet.len() {
        return Err(Fault::at(Refusal::Long, 0));
    }
    if sheet.len() < WORD {
        return Err(Fault::at(Refusal::Directory, 0));
    }
    let n = usize::from(count(sheet));
    if sheet.len() < WORD + PAIR * n {
        return Err(Fault::at(Refusal::Directory, 0));
    }
    if entries_follow(sheet, n) {
        return Ok(n);
    }
    Err(Fault::at(Refusal::Directory, 0))
}

// The part that the pair of an index tells, without the other checks: for callers that checked the sheet before.
pub fn part_at(sheet: &[u8], index: usize) -> &[u8]
    ensures bytes { result.now ≡ part_at sheet.now index }
    ensures place { result.ref_ptr ≡ points_into sheet.entry (part_offset sheet.now index) }
{
    if sheet.len() < WORD || (sheet.len() - WORD) / PAIR <= index {
        return &sheet[..0];
    }
    let start = usize::from(offset_at(sheet, index));
    let end = start + usize::from(length_at(sheet, index));
    if sheet.len() < end {
        return &sheet[..0];
    }
    &sheet[start..end]
}

// Checks a sheet and an index.
pub fn check_entry(sheet: &[u8], index: usize) -> Result<usize, Fault>
    ensures { result ≡ check_entry sheet.now index }
{
    let n = check_sheet(sheet)?;
    if index < n {
        return Ok(n);
    }
    Err(Fault::at(Refusal::Directory, 0))
}

// An entry as a part of the sheet, or an empty part where the check of sheet and index refuses.
pub fn entry(sheet: &[u8], index: usize) -> &[u8]
    ensures bytes { result.now ≡ shown_entry sheet.now index }
    ensures place { result.ref_ptr ≡ points_into sheet.entry (place_offset (place_of sheet.now index)) }
{
    match check_entry(sheet, index) {
        Ok(_) => part_at(sheet, index),
        Err(_) => &sheet[..0],
    }
}

// Where an entry lies, or the refusal of the check of sheet and index.
pub fn place_of(sheet: &[u8], index: usize) -> Result<Place, Refusal>
    ensures { result ≡ place_of sheet.now index }
{
    match check_entry(sheet, index) {
        Ok(_) => Ok(Place::at(offset_at(sheet, index), length_at(sheet, index))),
        Err(fault) => Err(fault.refusal),
    }
}

// Whether a sheet may be of this edition: of any, or only of that of the sheets before it.
fn allows(only: Option<Edition>, edition: Edition) -> bool
    ensures { result ≡ allowed only edition }
{
    match only {
        Some(wanted) => wanted == edition,
        None => true,
    }
}

// Checks a sheet of any entries, of any edition or only of this one.
pub fn check_among(only: Option<Edition>, sheet: &[u8]) -> Result<usize, Fault>
    ensures { result ≡ check_among only sheet.now }
{
    let n = check_sheet(sheet)?;
    if allows(only, edition_of(sheet)) {
        return Ok(n);
    }
    Err(Fault::at(Refusal::Directory, 0))
}

fn read_entry(records: bool, language: &Language<'_>, bytes: &[u8]) -> Result<usize, Refusal>
    ensures { result ≡ read_entry records (language_by language.now) bytes.now }
{
    if records {
        return reader::read_record_in(language, bytes);
    }
    reader::read_pattern_in(language, bytes)
}

// Each of the n entries of a checked sheet, in order.
fn check_entries(
    records: bool,
    language: &Language<'_>,
    sheet: &[u8],
    n: usize,
) -> Result<usize, Fault>
    requires { check_sheet sheet.now ≡ Ok n }
    ensures { result ≡ check_each records (language_by language.now) 0 (entries sheet.now) }
{
    for i in 0..n {
        if let Err(r) = read_entry(records, language, part_at(sheet, i)) {
            return Err(Fault::at(r, i));
        }
    }
    Ok(n)
}

// Whether a sheet may hold so many entries.
fn few(records: bool, n: usize) -> bool
    ensures { result ≡ few records n }
{
    records || n <= MOST_RULES
}

// Checks what a sheet holds, in the language that the call brings; its edition is the sheet's own.
pub fn check_contents(
    records: bool,
    only: Option<Edition>,
    brought: &Brought<'_>,
    sheet: &[u8],
) -> Result<usize, Fault>
    ensures { result ≡ check_contents records only (brought_of brought.now).table (brought_of brought.now).list sheet.now }
{
    if !term::check_table(brought.table) {
        return Err(Fault::at(Refusal::Table, 0));
    }
    if !brought.accepts_list() {
        return Err(Fault::at(Refusal::Class, 0));
    }
    let n = check_among(only, sheet)?;
    if !few(records, n) {
        return Err(Fault::at(Refusal::Long, 0));
    }
    let language = Language {
        edition: edition_of(sheet),
        ..brought.language()
    };
    check_entries(records, &language, sheet, n)
}

// Checks a sheet of records.
pub fn check_states(table: &[u8], sheet: &[u8]) -> Result<usize, Fault>
    ensures { result ≡ check_states table.now None sheet.now }
{
    check_contents(true, None, &Brought::simply(table), sheet)
}

// Checks a sheet of at most 64 patterns.
pub fn check_rules(table: &[u8], sheet: &[u8]) -> Result<usize, Fault>
    ensures { result ≡ check_rules table.now None sheet.now }
{
    check_contents(false, None, &Brought::simply(table), sheet)
}

// The same with a class list.
pub fn check_states_in(table: &[u8], classes: &[u8], sheet: &[u8]) -> Result<usize, Fault>
    ensures { result ≡ check_states table.now (Some classes.now) sheet.now }
{
    let brought = Brought::bringing(edition_of(sheet), table, classes);
    check_contents(true, None, &brought, sheet)
}

pub fn check_rules_in(table: &[u8], classes: &[u8], sheet: &[u8]) -> Result<usize, Fault>
    ensures { result ≡ check_rules table.now (Some classes.now) sheet.now }
{
    let brought = Brought::bringing(edition_of(sheet), table, classes);
    check_contents(false, None, &brought, sheet)
}
