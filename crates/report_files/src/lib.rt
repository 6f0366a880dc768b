// The report on three files: opens and reads them, and writes what `report_lines` makes of their bytes. What is read and written no
// contract can say.
#![tactic(auto)]

ghost use Rattle.std.specs.Prelude.{◌≡◌, ◌+◌, ◌≤◌, length, take, IfSome, option_copied};
ghost use Rattle.report_lines.specs.Report.{front};
ghost use Rattle.report_files.specs.Files.{room_of, room_start, name_of, in_room, files_room};
ghost use Rattle.report_files.specs.Loading.{LoadOf, Loads, loaded_report, Reported};

use report_lines::File;
use std::io;
use std::io::Read;
use std::rt::Files;

// One byte more than a table or a sheet may have, so that a longer file is refused by its own check.
const TABLE_ROOM: usize = term::LARGEST_TABLE + 1;

const SHEET_ROOM: usize = sheet::LONGEST_SHEET + 1;

// The room for all files.
const FILES_ROOM: usize = TABLE_ROOM + SHEET_ROOM + SHEET_ROOM;

// A file, and how many bytes lie in its room; none where it could not be read.
#[derive(Clone, Copy, Debug, PartialEq, Eq)]
struct Loaded {
    file: File,
    size: Option<usize>,
}

// The bytes that there is room for of each file.
fn room_of(file: File) -> usize
    ensures { result ≡ room_of file }
{
    match file {
        File::Table => TABLE_ROOM,
        File::Rules | File::States => SHEET_ROOM,
    }
}

// Where they start.
fn start_of(file: File) -> usize
    ensures { result ≡ room_start file }
{
    match file {
        File::Table => 0,
        File::Rules => TABLE_ROOM,
        File::States => TABLE_ROOM + SHEET_ROOM,
    }
}

// The name of a file, of three.
fn name_of<'a>(file: File, table: &'a [u8], rules: &'a [u8], states: &'a [u8]) -> &'a [u8]
    ensures { result.now ≡ name_of file table.now rules.now states.now }
{
    match file {
        File::Table => table,
        File::Rules => rules,
        File::States => states,
    }
}

// Reads until the buffer is full or the file ends.
fn read_all<R: Read>(file: File, reader: &mut R, buffer: &mut [u8]) -> Loaded
    ensures { LoadOf result file (length buffer.old) }
{
    Loaded {
        file,
        size: input::fill(reader, buffer).ok(),
    }
}

// Reads a file of three names into its room.
fn load<'a, R: Files>(
    rt: &R,
    file: File,
    table: &'a [u8],
    rules: &'a [u8],
    states: &'a [u8],
    files: &mut [u8],
) -> Loaded
    requires { length files.old ≡ files_room }
    ensures { Loads result file files.old files.new }
{
    let Ok(mut reader) = input::open(rt, name_of(file, table, rules, states)) else {
        return Loaded { file, size: None };
    };
    let start = start_of(file);
    let end = start + room_of(file);
    read_all(file, &mut reader, &mut files[start..end])
}

// The first bytes in the room of a file; none where it could not be read.
fn bytes_of(file: File, size: Option<usize>, files: &[u8]) -> Option<&[u8]>
    requires size_bound { IfSome size (λ n. n ≤ room_of file) }
    requires files_len { length files.now ≡ files_room }
    ensures { option_copied result ≡ in_room file size files.now }
{
    let start = start_of(file);
    let end = start + size?;
    Some(&files[start..end])
}

// Puts the report on three files that were loaded, and answers its length.
fn put_loaded(
    t: Loaded,
    r: Loaded,
    s: Loaded,
    files: &[u8],
    out: &mut [u8; report_lines::REPORT_ROOM],
) -> usize
    requires table_loaded { LoadOf t File.Table (room_of File.Table) }
    requires rules_loaded { LoadOf r File.Rules (room_of File.Rules) }
    requires states_loaded { LoadOf s File.States (room_of File.States) }
    requires files_len { length files.now ≡ files_room }
    ensures value { result ≡ length (loaded_report t r s files.now) }
    ensures out_value { out.new ≡ front (loaded_report t r s files.now) out.old }
{
    report_lines::put_report(
        bytes_of(File::Table, t.size, files),
        bytes_of(File::Rules, r.size, files),
        bytes_of(File::States, s.size, files),
        out,
    )
}

// Puts the report on the files of these names, and answers its length. A name that is no text, in UTF-8, names no file that can be read.
pub fn read_report<'a, R: Files>(
    rt: &R,
    table: &'a [u8],
    rules: &'a [u8],
    states: &'a [u8],
    out: &mut [u8; report_lines::REPORT_ROOM],
) -> usize
    ensures { Reported result out.old out.new }
{
    let mut files = [0u8; FILES_ROOM];
    let t = load(rt, File::Table, table, rules, states, &mut files);
    let r = load(rt, File::Rules, table, rules, states, &mut files);
    let s = load(rt, File::States, table, rules, states, &mut files);
    put_loaded(t, r, s, &files, out)
}

// The first n bytes, or all of them.
fn first(bytes: &[u8], n: usize) -> &[u8]
    ensures { result.now ≡ take n bytes.now }
{
    if n < bytes.len() {
        return &bytes[0..n];
    }
    bytes
}

// The report on the files of these names, to standard output. An error is the output's; a file that can't be read is the report's own matter.
pub fn report<'a, R: Files + Print>(
    rt: &R,
    table: &'a [u8],
    rules: &'a [u8],
    states: &'a [u8],
) -> io::Result<()> {
    let mut text = [0u8; report_lines::REPORT_ROOM];
    let size = read_report(rt, table, rules, states, &mut text);
    rt.write_all(first(&text, size))
}
