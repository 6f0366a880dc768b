// One call in several forms: an outcome that the library gives in another form or edition too must be the same there.
use crate::shown::{Line, put};
use crate::text::{Bytes, Fields};
use answers::Refusal;
use reader::Brought;
use term::{Edition, Language};

// The most symbols that a class list names here.
const SYMBOLS: usize = 256;

// The language of a call as its line has it: the table alone, or a class list too and the edition.
#[derive(Drop)]
pub struct Told {
    pub edition: Edition,
    pub table: Bytes,
    pub classes: Option<Bytes>,
}

impl Told {
    // The table alone.
    pub fn simply(fields: &mut Fields<'_>) -> Option<Told> {
        Some(Told {
            edition: Edition::One,
            table: fields.bytes()?,
            classes: None,
        })
    }

    // Table and class list, of a call that is not told the edition.
    pub fn by_class(fields: &mut Fields<'_>) -> Option<Told> {
        Some(Told {
            edition: Edition::One,
            table: fields.bytes()?,
            classes: Some(fields.bytes()?),
        })
    }

    // The same where an empty list stands for none.
    pub fn by_class_if_any(fields: &mut Fields<'_>) -> Option<Told> {
        Some(Told {
            edition: Edition::One,
            table: fields.bytes()?,
            classes: Some(fields.bytes()?).filter(|list| !list.is_empty()),
        })
    }

    pub fn in_edition(fields: &mut Fields<'_>) -> Option<Told> {
        Some(Told {
            edition: fields.edition()?,
            table: fields.bytes()?,
            classes: Some(fields.bytes()?),
        })
    }

    pub fn table(&self) -> &[u8] {
        self.table.as_slice()
    }

    // The class list, or the empty one.
    pub fn classes(&self) -> &[u8] {
        match &self.classes {
            Some(list) => list.as_slice(),
            None => &[],
        }
    }

    pub fn language(&self) -> Language<'_> {
        Language {
            edition: self.edition,
            table: self.table(),
            classes: self.classes(),
        }
    }
}

// A call with what it has after its language. `stated` is the outcome that its line states.
pub trait Call {
    fn once(&self, brought: &Brought<'_>, stated: Fields<'_>) -> Line;

    // The call in edition 2, where it must come to the same as in edition 1.
    fn once_more(&self, _table: &[u8], _classes: &[u8], _stated: Fields<'_>) -> Option<Line> {
        None
    }
}

// What a call shows, beside what it shows in another form; `difference` says that this is not the same.
fn beside(mut first: Line, second: &Line, difference: &[u8]) -> Line {
    if first.as_slice() != second.as_slice() {
        put(&mut first, difference);
    }
    first
}

// A call with a class list in edition 1, and in edition 2.
fn in_both<C: Call>(call: &C, table: &[u8], classes: &[u8], stated: Fields<'_>) -> Line {
    let first = call.once(&Brought::bringing(Edition::One, table, classes), stated);
    match call.once_more(table, classes, stated) {
        Some(second) => beside(first, &second, b", another in edition 2"),
        None => first,
    }
}

// Each symbol is its own class.
fn single() -> [u8; SYMBOLS] {
    let mut classes = [0; SYMBOLS];
    for b in 0..=u8::MAX {
        classes[usize::from(b)] = b;
    }
    classes
}

// A call in its simple form, and the same with the list of single classes.
fn in_simple_form<C: Call>(call: &C, table: &[u8], stated: Fields<'_>) -> Line {
    let classes = single();
    let classes = &classes[..table.len().min(SYMBOLS)];
    let simple = call.once(&Brought::simply(table), stated);
    let by_class = in_both(call, table, classes, stated);
    beside(
        simple,
        &by_class,
        b", another by single classes or in edition 2",
    )
}

// The outcome of a call in its language, in every form that it is the same in.
pub fn show<C: Call>(call: &C, told: &Told, stated: Fields<'_>) -> Line {
    let table = told.table();
    match (&told.classes, told.edition) {
        (None, _) => in_simple_form(call, table, stated),
        (Some(classes), Edition::One) => in_both(call, table, classes.as_slice(), stated),
        (Some(classes), Edition::Two) => {
            call.once(
                &Brought::bringing(Edition::Two, table, classes.as_slice()),
                stated,
            )
        }
    }
}

// What is not spliced can't be read in edition 2.
pub fn is_unspliced_pattern(table: &[u8], classes: &[u8], pattern: &[u8]) -> bool {
    let language = in_two(table, classes);
    matches!(
        reader::read_pattern_in(&language, pattern),
        Err(Refusal::Unspliced)
    )
}

pub fn is_unspliced_record(table: &[u8], classes: &[u8], record: &[u8]) -> bool {
    let language = in_two(table, classes);
    matches!(
        reader::read_record_in(&language, record),
        Err(Refusal::Unspliced)
    )
}

fn in_two<'a>(table: &'a [u8], classes: &'a [u8]) -> Language<'a> {
    Language {
        edition: Edition::Two,
        table,
        classes,
    }
}
