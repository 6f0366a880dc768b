// The calls on a station. After its language, if it has one, and its own fields a call has the station, which is how many are kept, eight names,
// nine lengths and the bytes of the records, and how many bytes are lent for those.
//
// After the call the station must be the one stated and all bytes those stated; what is refused must leave both.
ghost use Rattle.std.specs.Prelude.{◌≤◌};
ghost use Rattle.vector_lines.specs.declared.text.TheConstants.{ROOM};

use answers::{Applied, Refusal};
use reader::Brought;
use station::Station;
use vector_lines::forms::Call;
use vector_lines::shown::{self, Line, Refused};
use vector_lines::text::{Bytes, Fields, ROOM};

// A station and the bytes of its records.
#[derive(Clone, Copy)]
struct Held {
    station: Station,
    records: [u8; ROOM],
}

impl Held {
    fn read(fields: &mut Fields<'_>) -> Option<Held> {
        let station = Station {
            kept: fields.number_16()?,
            names: fields.array()?,
            lengths: fields.array()?,
        };
        let bytes = fields.bytes()?;
        let mut records = shown::blank();
        for (record, byte) in records.iter_mut().zip(bytes.as_slice()) {
            *record = *byte;
        }
        Some(Held { station, records })
    }

    // The station that is stated, if all that is left stands for one.
    fn stated(mut fields: Fields<'_>) -> Option<Held> {
        let held = Held::read(&mut fields)?;
        fields.end()?;
        Some(held)
    }

    fn is(&self, other: &Held) -> bool {
        self.station.kept == other.station.kept
            && self.station.names == other.station.names
            && self.station.lengths == other.station.lengths
            && self.records == other.records
    }

    // The station in the words stated where those stand for it.
    fn put(&self, out: &mut Line, stated: Fields<'_>) {
        match Held::stated(stated) {
            Some(other) if self.is(&other) => {
                shown::put(out, b" ");
                shown::put(out, stated.rest());
            }
            _ => shown::put(out, b", another station"),
        }
    }

    // What is not done leaves the station.
    fn put_changed(&self, out: &mut Line, before: &Held) {
        if !self.is(before) {
            shown::put(out, b" changed");
        }
    }

    // The station is stated after the word.
    fn show_done(&self, done: Result<(), Refusal>, before: &Held, stated: Fields<'_>) -> Line {
        let mut out = Line::new();
        match done {
            Ok(()) => {
                shown::put(&mut out, b" done");
                self.put(&mut out, stated.after(2));
            }
            Err(refusal) => {
                refusal.put(&mut out);
                self.put_changed(&mut out, before);
            }
        }
        out
    }

    // After an apply it is stated after the count and the length.
    fn show_applied(
        &self,
        applied: Result<Applied, Refusal>,
        before: &Held,
        stated: Fields<'_>,
    ) -> Line {
        let mut out = shown::show_look(applied);
        match applied {
            Ok(Applied::Bound(_, _)) => self.put(&mut out, stated.after(4)),
            _ => self.put_changed(&mut out, before),
        }
        out
    }
}

// A new station.
#[derive(Drop)]
pub struct New {
    record: Bytes,
    held: Held,
    lent: usize,
    ghost within: { lent ≤ ROOM },
}

impl New {
    pub fn read(fields: &mut Fields<'_>) -> Option<New> {
        Some(New {
            record: fields.bytes()?,
            held: Held::read(fields)?,
            lent: fields.room(ROOM)?,
        })
    }
}

impl Call for New {
    fn once(&self, brought: &Brought<'_>, stated: Fields<'_>) -> Line {
        let (edition, table) = (brought.edition, brought.table);
        let record = self.record.as_slice();
        let mut after = self.held;
        let records = &mut after.records[..self.lent];
        let done = match brought.list {
            None => station::new(table, record, &mut after.station, records),
            Some(classes) => {
                station::new_in(edition, table, classes, record, &mut after.station, records)
            }
        };
        after.show_done(done, &self.held, stated)
    }
}

// An apply.
#[derive(Drop)]
pub struct Apply {
    rule: Bytes,
    template: Bytes,
    allowance: u32,
    held: Held,
    lent: usize,
    ghost within: { lent ≤ ROOM },
}

impl Apply {
    pub fn read(fields: &mut Fields<'_>) -> Option<Apply> {
        Some(Apply {
            rule: fields.bytes()?,
            template: fields.bytes()?,
            allowance: fields.number()?,
            held: Held::read(fields)?,
            lent: fields.room(ROOM)?,
        })
    }
}

impl Call for Apply {
    fn once(&self, brought: &Brought<'_>, stated: Fields<'_>) -> Line {
        let (edition, table) = (brought.edition, brought.table);
        let (rule, template) = (self.rule.as_slice(), self.template.as_slice());
        let mut after = self.held;
        let records = &mut after.records[..self.lent];
        let applied = match brought.list {
            None => station::apply(
                table,
                rule,
                template,
                self.allowance,
                &mut after.station,
                records,
            ),
            Some(classes) => station::apply_in(
                edition,
                table,
                classes,
                rule,
                template,
                self.allowance,
                &mut after.station,
                records,
            ),
        };
        after.show_applied(applied, &self.held, stated)
    }
}

// A keep, or a return, with all its fields.
pub fn move_record(keeps: bool, mut fields: Fields<'_>, stated: Fields<'_>) -> Option<Line> {
    let name = fields.number_16()?;
    let before = Held::read(&mut fields)?;
    let lent = fields.room(ROOM)?;
    fields.end()?;
    let mut after = before;
    let records = &mut after.records[..lent];
    let done = if keeps {
        station::keep(name, &mut after.station, records)
    } else {
        station::return_to(name, &mut after.station, records)
    };
    Some(after.show_done(done, &before, stated))
}
