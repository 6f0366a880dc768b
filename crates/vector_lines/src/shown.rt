// Outcomes as text: each word and number with a blank before it.
use crate::text;
use answers::{Applied, Fault, Played, Refusal, Shown};
use arrayvec::ArrayVec;
use byte_answers::Place;
use std::io::Write;
use term::{Edition, VARIABLES};

// The entries of an answer buffer.
const ENTRIES: usize = 64;

// The numbers of the buffer.
pub const BUFFER: usize = parts::ENTRY_WIDTH * ENTRIES;

// The names of an answer come first, then its run names.
const NAMES: usize = 32;

// The offset of a name or run name that is not free.
const ABSENT: u16 = 65535;

// What stands everywhere in an answer buffer before a call; no part has a number as large.
pub const UNTOUCHED: u16 = 43690;

// What stands everywhere in an output before a call; no record has this code.
const BLANK: u8 = 250;

// The most bytes of an outcome.
pub const ROOM: usize = 4096;

// An outcome as text. What has no more room is cut.
pub type Line = ArrayVec<u8, ROOM>;

// Puts the text after what is there, as far as there is room.
pub fn put(out: &mut Line, text: &[u8]) {
    let _ = out.write_all(text);
}

// The outcome of one text.
pub fn show(text: &[u8]) -> Line {
    let mut out = Line::new();
    put(&mut out, text);
    out
}

// A word and a number after it.
fn put_number(out: &mut Line, word: &[u8], value: u64) {
    put(out, word);
    let _ = write!(out, " {value}");
}

pub fn show_number(value: usize) -> Line {
    let mut out = Line::new();
    put_number(&mut out, b"", value as u64);
    out
}

// Bytes in hexadecimal, - for none.
fn put_bytes(out: &mut Line, bytes: &[u8]) {
    if bytes.is_empty() {
        return put(out, b" -");
    }
    put(out, b" ");
    for byte in bytes {
        let _ = write!(out, "{byte:02X}");
    }
}

pub fn show_bytes(bytes: &[u8]) -> Line {
    let mut out = Line::new();
    put_bytes(&mut out, bytes);
    out
}

// A number that must be 0 and is then not shown.
fn put_zero(out: &mut Line, word: &[u8], value: u64) {
    if value != 0 {
        put_number(out, word, value);
    }
}

// Why something is refused, with the index of the entry at fault where it has one.
pub trait Refused: Shown + Copy {
    fn put(self, out: &mut Line);
}

impl Refused for Refusal {
    fn put(self, out: &mut Line) {
        put_number(out, b" refused", u64::from(self.number()));
    }
}

impl Refused for Fault {
    fn put(self, out: &mut Line) {
        put_number(out, b" refused", u64::from(self.number()));
        put_number(out, b"", self.index() as u64);
    }
}

// What an answer is shown by: document 01's number, the index of a rule where the answer is a sheet's, and the count.
#[derive(Clone, Copy)]
pub struct Reply {
    number: u8,
    index: Option<usize>,
    count: u64,
}

impl Reply {
    pub fn of<A: Shown + Copy>(answer: A) -> Reply {
        Reply {
            number: answer.number(),
            index: None,
            count: answer.count(),
        }
    }

    // The same of a rule sheet.
    pub fn of_sheet<A: Shown + Copy>(answer: A) -> Reply {
        Reply {
            number: answer.number(),
            index: Some(answer.index()),
            count: answer.count(),
        }
    }

    fn put(self, out: &mut Line) {
        let Reply {
            number,
            index,
            count,
        } = self;
        match number {
            0 => put(out, b" bound"),
            10 => put(out, b" none"),
            11 => put(out, b" spent"),
            _ => put_number(out, b" refused", u64::from(number)),
        }
        if let Some(i) = index {
            let _ = write!(out, " {i}");
        }
        match number {
            0 | 10 | 11 => put_number(out, b"", count),
            // A refusal's is 0.
            _ => put_zero(out, b" count", count),
        }
    }

    pub fn show(self) -> Line {
        let mut out = Line::new();
        self.put(&mut out);
        out
    }

    // With the buffer that was lent for the parts.
    pub fn show_parts(self, buffer: &[u16; BUFFER]) -> Line {
        let mut out = self.show();
        for (k, entry) in buffer.chunks_exact(parts::ENTRY_WIDTH).enumerate() {
            put_entry(&mut out, self.number == 0, k, entry);
        }
        out
    }
}

// An entry of the buffer. Those of a bound answer are shown but for the absent mark, all others must be as they were.
fn put_entry(out: &mut Line, bound: bool, k: usize, entry: &[u16]) {
    match *entry {
        [ABSENT, 0, 0] if bound && k < VARIABLES => {}
        [offset, length, terms] if bound && k < VARIABLES => {
            let (sign, place) = if k < NAMES {
                ('?', k)
            } else {
                ('@', k - NAMES)
            };
            let _ = write!(out, " {sign}{place}={offset}+{length}:{terms}");
        }
        [UNTOUCHED, UNTOUCHED, UNTOUCHED] => {}
        _ => put(out, b" changed"),
    }
}

// Accepted, or refused with this number.
pub fn show_accepted(accepted: bool, refusal: Refusal) -> Line {
    let mut out = Line::new();
    if accepted {
        put(&mut out, b" accepted");
    } else {
        refusal.put(&mut out);
    }
    out
}

pub fn show_same(same: bool) -> Line {
    if same {
        show(b" same")
    } else {
        show(b" different")
    }
}

pub fn show_edition(edition: Edition) -> Line {
    match edition {
        Edition::One => show(b" 1"),
        Edition::Two => show(b" 2"),
    }
}

// A length or a number of entries after a word.
pub fn show_size<E: Refused>(word: &[u8], size: Result<usize, E>) -> Line {
    let mut out = Line::new();
    match size {
        Ok(_) => put_number(&mut out, word, size.count()),
        Err(refused) => refused.put(&mut out),
    }
    out
}

pub fn show_place(place: Result<Place, Refusal>) -> Line {
    let mut out = Line::new();
    match place {
        Ok(Place { offset, .. }) => {
            let length = place.count();
            let _ = write!(out, " at {offset} {length}");
        }
        Err(refusal) => refusal.put(&mut out),
    }
    out
}

// An output before a call.
pub fn blank() -> [u8; text::ROOM] {
    [BLANK; text::ROOM]
}

// What is refused leaves the output.
fn put_unchanged(out: &mut Line, output: &[u8; text::ROOM]) {
    if output.iter().any(|b| *b != BLANK) {
        put(out, b" changed");
    }
}

// The output's first bytes, and what lies past them.
fn parts_of(output: &[u8; text::ROOM], length: usize) -> (&[u8], &[u8]) {
    output.split_at(length.min(text::ROOM))
}

pub fn written(output: &[u8; text::ROOM], length: usize) -> &[u8] {
    let (written, _) = parts_of(output, length);
    written
}

// What was written, in the words stated where those stand for it and what lies past it is as it was.
fn put_written(out: &mut Line, length: usize, output: &[u8; text::ROOM], stated: &[u8]) {
    let (written, past) = parts_of(output, length);
    if let Some(expected) = text::bytes(stated)
        && expected.as_slice() == written
        && past.iter().all(|b| *b == BLANK)
    {
        put(out, b" ");
        return put(out, stated);
    }
    put_bytes(out, written);
    put(out, b", another output");
}

// The length of what was written, and the bytes.
pub fn show_written<E: Refused>(
    written: Result<usize, E>,
    output: &[u8; text::ROOM],
    stated: &[u8],
) -> Line {
    let mut out = Line::new();
    match written {
        Ok(length) => {
            put_number(&mut out, b" written", written.count());
            put_written(&mut out, length, output, stated);
        }
        Err(refused) => {
            refused.put(&mut out);
            put_unchanged(&mut out, output);
        }
    }
    out
}

// The answer of a look. The length of a result that is not bound is 0.
pub fn show_look(looked: Result<Applied, Refusal>) -> Line {
    let mut out = Reply::of(looked).show();
    if let Ok(applied) = looked {
        let length = applied.length() as u64;
        match applied {
            Applied::Bound(_, _) => put_number(&mut out, b"", length),
            Applied::None(_) | Applied::Spent(_) => put_zero(&mut out, b" length", length),
        }
    }
    out
}

// The same of applying, and what it wrote.
pub fn show_applied(
    applied: Result<Applied, Refusal>,
    output: &[u8; text::ROOM],
    stated: &[u8],
) -> Line {
    let mut out = show_look(applied);
    match applied {
        Ok(Applied::Bound(_, length)) => put_written(&mut out, length, output, stated),
        _ => put_unchanged(&mut out, output),
    }
    out
}

// The answer of a game. None and spent have index 0, and spent alone a count.
pub fn show_played(played: Result<Played, Fault>) -> Line {
    let index = played.index() as u64;
    let count = played.count();
    let mut out = Line::new();
    match played.number() {
        0 => {
            put_number(&mut out, b" forced", index);
            put_zero(&mut out, b" count", count);
        }
        10 => {
            put(&mut out, b" none");
            put_zero(&mut out, b" index", index);
            put_zero(&mut out, b" count", count);
        }
        11 => {
            put_number(&mut out, b" spent", count);
            put_zero(&mut out, b" index", index);
        }
        number => {
            put_number(&mut out, b" refused", u64::from(number));
            put_number(&mut out, b"", index);
            put_zero(&mut out, b" count", count);
        }
    }
    out
}
