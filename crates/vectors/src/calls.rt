// The calls by their names, each with its fields in the order of its parameters. Lengths are a list; the edition, the index, the allowance
// and the length of an answer buffer or an output are numbers.
//
// A function that is called `with` something reads the fields of the calls of one kind and shows what the call that it is handed answers, one
// that is called `of` something finds the call: none where it has no such call or its fields can't be read.
use crate::matches;
use answers::{Fault, Refusal};
use term::Language;
use vector_lines::forms::Told;
use vector_lines::shown::{self, Line, Refused, Reply};
use vector_lines::text::{self, Fields};

fn show_checked(checked: Result<usize, Fault>) -> Line {
    shown::show_size(b" accepted", checked)
}

fn show_read(read: Result<usize, Refusal>) -> Line {
    shown::show_size(b" read", read)
}

fn with_bytes<F: FnOnce(&[u8]) -> Line>(mut fields: Fields<'_>, call: F) -> Option<Line>
    requires { F.IsAlwaysCallable call }
{
    let bytes = fields.bytes()?;
    fields.end()?;
    Some(call(bytes.as_slice()))
}

fn of_bytes(name: &[u8], fields: Fields<'_>) -> Option<Line> {
    match name {
        b"check_table" => with_bytes(fields, |table| {
            shown::show_accepted(term::check_table(table), Refusal::Table)
        }),
        b"check_sheet" => with_bytes(fields, |sheet| show_checked(sheet::check_sheet(sheet))),
        b"edition_of" => with_bytes(
            fields,
            |sheet| shown::show_edition(sheet::edition_of(sheet)),
        ),
        _ => None,
    }
}

fn with_table<F: FnOnce(&[u8], &[u8]) -> Line>(mut fields: Fields<'_>, call: F) -> Option<Line>
    requires { F.IsAlwaysCallable call }
{
    let table = fields.bytes()?;
    let bytes = fields.bytes()?;
    fields.end()?;
    Some(call(table.as_slice(), bytes.as_slice()))
}

// Bytes that are read by a table.
fn of_reading(name: &[u8], fields: Fields<'_>) -> Option<Line> {
    match name {
        b"read_record" => with_table(fields, |t, bytes| show_read(reader::read_record(t, bytes))),
        b"read_pattern" => with_table(fields, |t, bytes| show_read(reader::read_pattern(t, bytes))),
        b"extent" => with_table(
            fields,
            |t, bytes| shown::show_number(term::extent(t, bytes)),
        ),
        b"cost_of" => with_table(fields, |t, bytes| Reply::of(cost::cost_of(t, bytes)).show()),
        _ => None,
    }
}

// A class list or a sheet that is checked by a table.
fn of_check(name: &[u8], fields: Fields<'_>) -> Option<Line> {
    match name {
        b"check_classes" => with_table(fields, |table, classes| {
            shown::show_accepted(term::check_classes(table, classes), Refusal::Class)
        }),
        b"check_states" => with_table(
            fields,
            |t, sheet| show_checked(sheet::check_states(t, sheet)),
        ),
        b"check_rules" => with_table(
            fields,
            |t, sheet| show_checked(sheet::check_rules(t, sheet)),
        ),
        _ => None,
    }
}

// The same of bytes and sheets in a language with a class list.
fn with_language<F: FnOnce(&Language<'_>, &[u8]) -> Line>(
    mut fields: Fields<'_>,
    call: F,
) -> Option<Line>
    requires { F.IsAlwaysCallable call }
{
    let told = Told::in_edition(&mut fields)?;
    let bytes = fields.bytes()?;
    fields.end()?;
    Some(call(&told.language(), bytes.as_slice()))
}

fn of_reading_in(name: &[u8], fields: Fields<'_>) -> Option<Line> {
    match name {
        b"read_record_in" => with_language(fields, |language, bytes| {
            show_read(reader::read_record_in(language, bytes))
        }),
        b"read_pattern_in" => with_language(fields, |language, bytes| {
            show_read(reader::read_pattern_in(language, bytes))
        }),
        b"cost_in" => with_language(fields, |l, bytes| {
            Reply::of(cost::cost_in(l.edition, l.table, l.classes, bytes)).show()
        }),
        _ => None,
    }
}

fn with_classes<F: FnOnce(&[u8], &[u8], &[u8]) -> Line>(
    mut fields: Fields<'_>,
    call: F,
) -> Option<Line>
    requires { F.IsAlwaysCallable call }
{
    let told = Told::by_class(&mut fields)?;
    let sheet = fields.bytes()?;
    fields.end()?;
    Some(call(told.table(), told.classes(), sheet.as_slice()))
}

fn of_check_in(name: &[u8], fields: Fields<'_>) -> Option<Line> {
    match name {
        b"check_states_in" => with_classes(fields, |table, classes, sheet| {
            show_checked(sheet::check_states_in(table, classes, sheet))
        }),
        b"check_rules_in" => with_classes(fields, |table, classes, sheet| {
            show_checked(sheet::check_rules_in(table, classes, sheet))
        }),
        _ => None,
    }
}

fn with_index<F: FnOnce(&[u8], usize) -> Line>(mut fields: Fields<'_>, call: F) -> Option<Line>
    requires { F.IsAlwaysCallable call }
{
    let sheet = fields.bytes()?;
    let index = fields.number()? as usize;
    fields.end()?;
    Some(call(sheet.as_slice(), index))
}

fn of_index(name: &[u8], fields: Fields<'_>) -> Option<Line> {
    match name {
        b"check_entry" => with_index(fields, |s, i| show_checked(sheet::check_entry(s, i))),
        b"entry" => with_index(fields, |s, i| shown::show_bytes(sheet::entry(s, i))),
        b"place_of" => with_index(fields, |s, i| shown::show_place(sheet::place_of(s, i))),
        b"part_at" => with_index(fields, |s, i| shown::show_bytes(sheet::part_at(s, i))),
        _ => None,
    }
}

// Two parts of records by a table and a class list, or an empty one.
fn of_parts(mut fields: Fields<'_>) -> Option<Line> {
    let told = Told::by_class(&mut fields)?;
    let first = fields.bytes()?;
    let second = fields.bytes()?;
    fields.end()?;
    let same = term::same(
        told.table(),
        told.classes(),
        first.as_slice(),
        second.as_slice(),
    );
    Some(shown::show_same(same))
}

// A call that writes into an output of so many bytes. What it writes is stated after a word and a number.
fn with_output<E: Refused + Drop, F: FnOnce(&mut [u8]) -> Result<usize, E>>(
    mut fields: Fields<'_>,
    stated: Fields<'_>,
    call: F,
) -> Option<Line>
    requires { F.IsAlwaysCallable call }
{
    let room = fields.room(text::ROOM)?;
    fields.end()?;
    let mut output = shown::blank();
    let written = call(&mut output[..room]);
    Some(shown::show_written(written, &output, stated.field(3)))
}

// Joined records and their lengths, which are written as a sheet.
fn of_writing(name: &[u8], mut fields: Fields<'_>, stated: Fields<'_>) -> Option<Line> {
    let told = match name {
        b"write_sheet" => Told::simply(&mut fields)?,
        b"write_sheet_in" => Told::in_edition(&mut fields)?,
        _ => return None,
    };
    let records = fields.bytes()?;
    let lengths = fields.list()?;
    let (records, lengths) = (records.as_slice(), lengths.as_slice());
    let table = told.table();
    with_output(fields, stated, |output| match &told.classes {
        None => writing::write_sheet(table, records, lengths, output),
        Some(classes) => {
            writing::write_sheet_in(
                told.edition,
                table,
                classes.as_slice(),
                records,
                lengths,
                output,
            )
        }
    })
}

// Bytes that are moved to their other form.
fn with_move<F: FnOnce(&Language<'_>, &[u8], &mut [u8]) -> Result<usize, Refusal>>(
    told: &Told,
    mut fields: Fields<'_>,
    stated: Fields<'_>,
    call: F,
) -> Option<Line>
    requires { F.IsAlwaysCallable call }
{
    let language = told.language();
    let bytes = fields.bytes()?;
    with_output(
        fields,
        stated,
        |output| call(&language, bytes.as_slice(), output),
    )
}

fn of_store(name: &[u8], mut fields: Fields<'_>, stated: Fields<'_>) -> Option<Line> {
    match name {
        b"store" => {
            let told = Told::simply(&mut fields)?;
            with_move(
                &told,
                fields,
                stated,
                |l, bytes, output| stored::store(l.table, bytes, output),
            )
        }
        b"restore" => {
            let told = Told::simply(&mut fields)?;
            with_move(
                &told,
                fields,
                stated,
                |l, bytes, output| stored::restore(l.table, bytes, output),
            )
        }
        b"store_in" => {
            let told = Told::in_edition(&mut fields)?;
            with_move(&told, fields, stated, |l, bytes, output| {
                stored::store_in(l.edition, l.table, l.classes, bytes, output)
            })
        }
        b"restore_in" => {
            let told = Told::in_edition(&mut fields)?;
            with_move(&told, fields, stated, |l, bytes, output| {
                stored::restore_in(l.edition, l.table, l.classes, bytes, output)
            })
        }
        _ => None,
    }
}

// The converter is not told the edition.
fn of_splice(name: &[u8], mut fields: Fields<'_>, stated: Fields<'_>) -> Option<Line> {
    match name {
        b"splice_record" => {
            let told = Told::simply(&mut fields)?;
            with_move(&told, fields, stated, |l, bytes, output| {
                splice::splice_record(l.table, bytes, output)
            })
        }
        b"splice_pattern" => {
            let told = Told::simply(&mut fields)?;
            with_move(&told, fields, stated, |l, bytes, output| {
                splice::splice_pattern(l.table, bytes, output)
            })
        }
        b"splice_record_in" => {
            let told = Told::by_class(&mut fields)?;
            with_move(&told, fields, stated, |l, bytes, output| {
                splice::splice_record_in(l.table, l.classes, bytes, output)
            })
        }
        b"splice_pattern_in" => {
            let told = Told::by_class(&mut fields)?;
            with_move(&told, fields, stated, |l, bytes, output| {
                splice::splice_pattern_in(l.table, l.classes, bytes, output)
            })
        }
        _ => None,
    }
}

// A call on one part or several.
fn of_any_parts(name: &[u8], fields: Fields<'_>) -> Option<Line> {
    if matches!(name, b"same") {
        return of_parts(fields);
    }
    of_bytes(name, fields)
        .or_else(|| of_reading(name, fields))
        .or_else(|| of_check(name, fields))
        .or_else(|| of_reading_in(name, fields))
        .or_else(|| of_check_in(name, fields))
        .or_else(|| of_index(name, fields))
}

// What is answered to the call of this name.
pub fn answer(name: &[u8], fields: Fields<'_>, stated: Fields<'_>) -> Option<Line> {
    of_any_parts(name, fields)
        .or_else(|| matches::answer(name, fields, stated))
        .or_else(|| of_store(name, fields, stated))
        .or_else(|| of_splice(name, fields, stated))
        .or_else(|| of_writing(name, fields, stated))
        .or_else(|| state_calls::answer(name, fields, stated))
}
