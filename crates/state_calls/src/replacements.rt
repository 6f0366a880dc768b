// The calls of replacement. After its language, a call has the rule, the template, the record, the allowance and, if it writes, the length
// of its output.
//
// A look must answer what applying with an output of a record's limit does. An outcome of edition 1 must be that of edition 2 if all is
// spliced, the result too.
ghost use Rattle.std.specs.Prelude.{◌≤◌};
ghost use Rattle.vector_lines.specs.declared.text.TheConstants.{ROOM};

use answers::{Applied, Refusal};
use reader::Brought;
use term::Edition;
use vector_lines::forms::{Call, is_unspliced_pattern, is_unspliced_record};
use vector_lines::shown::{self, Line};
use vector_lines::text::{Bytes, Fields, ROOM};

#[derive(Drop)]
pub struct Look {
    rule: Bytes,
    template: Bytes,
    record: Bytes,
    allowance: u32,
}

impl Look {
    pub fn read(fields: &mut Fields<'_>) -> Option<Look> {
        Some(Look {
            rule: fields.bytes()?,
            template: fields.bytes()?,
            record: fields.bytes()?,
            allowance: fields.number()?,
        })
    }

    fn look(&self, brought: &Brought<'_>) -> Result<Applied, Refusal> {
        let (edition, table) = (brought.edition, brought.table);
        let (rule, template) = (self.rule.as_slice(), self.template.as_slice());
        let record = self.record.as_slice();
        match brought.list {
            None => replace::look(table, rule, template, record, self.allowance),
            Some(classes) => replace::look_in(
                edition,
                table,
                classes,
                rule,
                template,
                record,
                self.allowance,
            ),
        }
    }

    fn apply(&self, brought: &Brought<'_>, output: &mut [u8]) -> Result<Applied, Refusal> {
        let (edition, table) = (brought.edition, brought.table);
        let (rule, template) = (self.rule.as_slice(), self.template.as_slice());
        let record = self.record.as_slice();
        match brought.list {
            None => replace::apply(table, rule, template, record, self.allowance, output),
            Some(classes) => replace::apply_in(
                edition,
                table,
                classes,
                rule,
                template,
                record,
                self.allowance,
                output,
            ),
        }
    }

    // Whether a look answers what applying does with an output of a record's limit.
    fn is_looked(&self, brought: &Brought<'_>) -> bool {
        let mut output = shown::blank();
        let applied = self.apply(brought, &mut output[0..term::LONGEST_RECORD]);
        self.look(brought) == applied
    }

    // Whether the result in edition 1 can't be that in edition 2: it is outgrown or not spliced.
    fn is_unlike(&self, table: &[u8], classes: &[u8]) -> bool {
        let mut output = shown::blank();
        let brought = Brought::bringing(Edition::One, table, classes);
        let applied = self.apply(&brought, &mut output[0..term::LONGEST_RECORD]);
        match applied {
            Ok(Applied::Bound(_, length)) => {
                is_unspliced_record(table, classes, shown::written(&output, length))
            }
            Err(Refusal::Outgrown) => true,
            _ => false,
        }
    }

    // Whether the call may come to something else in edition 2: its rule, its template, its record or its result is not spliced.
    fn differs(&self, table: &[u8], classes: &[u8]) -> bool {
        is_unspliced_pattern(table, classes, self.rule.as_slice())
            || is_unspliced_pattern(table, classes, self.template.as_slice())
            || is_unspliced_record(table, classes, self.record.as_slice())
            || self.is_unlike(table, classes)
    }
}

impl Call for Look {
    fn once(&self, brought: &Brought<'_>, _stated: Fields<'_>) -> Line {
        if !self.is_looked(brought) {
            return shown::show(b" another when looked at");
        }
        shown::show_look(self.look(brought))
    }

    fn once_more(&self, table: &[u8], classes: &[u8], stated: Fields<'_>) -> Option<Line> {
        if self.differs(table, classes) {
            return None;
        }
        Some(self.once(&Brought::bringing(Edition::Two, table, classes), stated))
    }
}

// A look, and an output of so many bytes.
#[derive(Drop)]
pub struct Apply {
    of: Look,
    room: usize,
    ghost within: { room ≤ ROOM },
}

impl Apply {
    pub fn read(fields: &mut Fields<'_>) -> Option<Apply> {
        Some(Apply {
            of: Look::read(fields)?,
            room: fields.room(ROOM)?,
        })
    }
}

impl Call for Apply {
    // The result is stated after a word, the count and the length.
    fn once(&self, brought: &Brought<'_>, stated: Fields<'_>) -> Line {
        if !self.of.is_looked(brought) {
            return shown::show(b" another when looked at");
        }
        let mut output = shown::blank();
        let applied = self.of.apply(brought, &mut output[..self.room]);
        shown::show_applied(applied, &output, stated.field(4))
    }

    fn once_more(&self, table: &[u8], classes: &[u8], stated: Fields<'_>) -> Option<Line> {
        if self.of.differs(table, classes) {
            return None;
        }
        Some(self.once(&Brought::bringing(Edition::Two, table, classes), stated))
    }
}
