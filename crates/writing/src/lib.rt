// The writer of sheets: records that come joined, with their lengths, are checked and put as a sheet to the front of a lent output.
#![tactic(auto)]

ghost use Rattle.std.specs.Prelude.{◌≡◌, ◌+◌, ◌≤◌, ◌<◌, leb, length, true};
ghost use Rattle.std.proofs.lemmas.List.Edits.{sets};
ghost use Rattle.answers.specs.Shown.{fault_number, size_told};
ghost use Rattle.term.specs.Lent.{language_by};
ghost use Rattle.reader.specs.Brought.{simply, bringing};
ghost use Rattle.reader.specs.Lent.{brought_of};
ghost use Rattle.sheet.specs.Word.{word_bytes, word};
ghost use Rattle.sheet.specs.Sheet.{past_pairs, edition_mark, marked, directory, sheet_bytes};
ghost use Rattle.sheet.specs.Check.{longest_sheet};
ghost use Rattle.sheet.specs.Contents.{check_each};
ghost use Rattle.writing.specs.Writing.{split, sum, lengths_accepted, sheet_length, check_records, writing, output_after};
ghost use Rattle.writing.specs.Demands.{Demanded, Called};

use answers::{Fault, Refusal};
use reader::Brought;
use sheet::{EDITION_MARK, LONGEST_SHEET, PAIR, WORD};
use term::{Edition, Language};

// Whether no length is 0 and together they are `total`.
fn lengths_accepted(lengths: &[u16], total: usize) -> bool
    ensures { result ≡ lengths_accepted lengths.now total }
{
    let mut left = total;
    for length in lengths {
        let n = usize::from(*length);
        if n == 0 || left < n {
            return false;
        }
        left -= n;
    }
    left == 0
}

// Whether n records of so many bytes are not too long for a sheet.
fn fits_sheet(n: usize, total: usize) -> bool
    ensures { result ≡ leb (sheet_length n total) longest_sheet }
{
    n <= LONGEST_SHEET && total <= LONGEST_SHEET && WORD + PAIR * n + total <= LONGEST_SHEET
}

// Each record, in order.
fn check_each(language: &Language<'_>, records: &[u8], lengths: &[u16]) -> Result<usize, Fault>
    requires { length records.now ≡ sum lengths.now }
    ensures { result ≡ check_each true (language_by language.now) 0 (split records.now lengths.now) }
{
    let mut rest = records;
    for (i, length) in lengths.iter().enumerate() {
        let (record, after) = rest.split_at(usize::from(*length));
        if let Err(r) = reader::read_record_in(language, record) {
            return Err(Fault::at(r, i));
        }
        rest = after;
    }
    Ok(lengths.len())
}

// The checks of a writing but for the output's room.
fn check_records(brought: &Brought<'_>, records: &[u8], lengths: &[u16]) -> Result<usize, Fault>
    ensures { result ≡ check_records (brought_of brought.now) records.now lengths.now }
{
    if !term::check_table(brought.table) {
        return Err(Fault::at(Refusal::Table, 0));
    }
    if !brought.accepts_list() {
        return Err(Fault::at(Refusal::Class, 0));
    }
    if !lengths_accepted(lengths, records.len()) {
        return Err(Fault::at(Refusal::Directory, 0));
    }
    if !fits_sheet(lengths.len(), records.len()) {
        return Err(Fault::at(Refusal::Long, 0));
    }
    check_each(&brought.language(), records, lengths)
}

// The count of a sheet of n entries, with the mark of its edition.
fn marked_count(edition: Edition, n: u16) -> u16
    requires { n < edition_mark }
    ensures { result ≡ marked edition n }
{
    match edition {
        Edition::One => n,
        Edition::Two => EDITION_MARK + n,
    }
}

fn put_word(output: &mut [u8], at: usize, n: u16)
    requires { at + word_bytes ≤ length output.old }
    ensures { output.new ≡ sets output.old at (word n) }
{
    output[at..at + WORD].copy_from_slice(&n.to_le_bytes());
}

// The pairs of entries of these lengths.
fn put_directory(lengths: &[u16], output: &mut [u8])
    requires lengths_in_bounds { past_pairs (length lengths.now) ≤ length output.old }
    requires lengths_bound { past_pairs (length lengths.now) + sum lengths.now ≤ longest_sheet }
    ensures { output.new ≡ sets output.old word_bytes (directory (past_pairs (length lengths.now)) lengths.now) }
{
    let mut at = (WORD + PAIR * lengths.len()) as u16;
    for (i, length) in lengths.iter().enumerate() {
        put_word(output, WORD + PAIR * i, at);
        put_word(output, WORD + PAIR * i + WORD, *length);
        at += *length;
    }
}

// The sheet of records that passed their checks, into an output that has the room.
fn put_sheet(edition: Edition, records: &[u8], lengths: &[u16], output: &mut [u8])
    requires records_len { length records.now ≡ sum lengths.now }
    requires records_bound { sheet_length (length lengths.now) (length records.now) ≤ longest_sheet }
    requires records_in_bounds { sheet_length (length lengths.now) (length records.now) ≤ length output.old }
    ensures { output.new ≡ sets output.old 0 (sheet_bytes edition (split records.now lengths.now)) }
{
    let n = lengths.len();
    put_word(output, 0, marked_count(edition, n as u16));
    put_directory(lengths, output);
    output::put_bytes(output, WORD + PAIR * n, records);
}

// Writes the sheet of these records to the front of the output, or leaves the output as it is.
fn write_brought(
    brought: &Brought<'_>,
    records: &[u8],
    lengths: &[u16],
    output: &mut [u8],
) -> Result<usize, Fault>
    ensures { Called (brought_of brought.now) records.now lengths.now output.old result output.new }
{
    check_records(brought, records, lengths)?;
    let size = WORD + PAIR * lengths.len() + records.len();
    if size <= output.len() {
        put_sheet(brought.edition, records, lengths, output);
        return Ok(size);
    }
    Err(Fault::at(Refusal::Full, 0))
}

// Writes the sheet of these records to the front of the output, or leaves the output as it is.
pub fn write_sheet(
    table: &[u8],
    records: &[u8],
    lengths: &[u16],
    output: &mut [u8],
) -> Result<usize, Fault>
    ensures answer { result ≡ writing (simply table.now) records.now lengths.now (length output.old) }
    ensures contents { output.new ≡ output_after (simply table.now) records.now lengths.now output.old }
    ensures demand { Demanded (simply table.now) records.now lengths.now output.old (fault_number result) (size_told result) output.new }
{
    write_brought(&Brought::simply(table), records, lengths, output)
}

// The same in an edition, with a class list.
pub fn write_sheet_in(
    edition: Edition,
    table: &[u8],
    classes: &[u8],
    records: &[u8],
    lengths: &[u16],
    output: &mut [u8],
) -> Result<usize, Fault>
    ensures answer { result ≡ writing (bringing edition table.now classes.now) records.now lengths.now (length output.old) }
    ensures contents { output.new ≡ output_after (bringing edition table.now classes.now) records.now lengths.now output.old }
    ensures demand { Demanded (bringing edition table.now classes.now) records.now lengths.now output.old (fault_number result) (size_told result) output.new }
{
    let brought = Brought::bringing(edition, table, classes);
    write_brought(&brought, records, lengths, output)
}
