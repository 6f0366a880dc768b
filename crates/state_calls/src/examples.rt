// The calls for the least example. After its language, a call has the pattern, the size, the allowance and the length of its output.
//
// An outcome of edition 1 must be that of edition 2 if pattern and example are spliced, unless it is spent, which a candidate of edition 1
// alone may be.
ghost use Rattle.std.specs.Prelude.{◌≤◌};
ghost use Rattle.vector_lines.specs.declared.text.TheConstants.{ROOM};

use answers::{Applied, Refusal};
use reader::Brought;
use term::Edition;
use vector_lines::forms::{Call, is_unspliced_pattern, is_unspliced_record};
use vector_lines::shown::{self, Line};
use vector_lines::text::{Bytes, Fields, ROOM};

#[derive(Drop)]
pub struct Example {
    pattern: Bytes,
    size: u32,
    allowance: u32,
    room: usize,
    ghost within: { room ≤ ROOM },
}

impl Example {
    pub fn read(fields: &mut Fields<'_>) -> Option<Example> {
        Some(Example {
            pattern: fields.bytes()?,
            size: fields.number()?,
            allowance: fields.number()?,
            room: fields.room(ROOM)?,
        })
    }

    fn found(&self, brought: &Brought<'_>, output: &mut [u8]) -> Result<Applied, Refusal> {
        let (edition, table) = (brought.edition, brought.table);
        let pattern = self.pattern.as_slice();
        match brought.list {
            None => example::example(table, pattern, self.size, self.allowance, output),
            Some(classes) => example::example_in(
                edition,
                table,
                classes,
                pattern,
                self.size,
                self.allowance,
                output,
            ),
        }
    }

    // Whether the example in edition 1 can't be that in edition 2: it is spent or not spliced.
    fn is_unlike(&self, table: &[u8], classes: &[u8]) -> bool {
        let mut output = shown::blank();
        let brought = Brought::bringing(Edition::One, table, classes);
        match self.found(&brought, &mut output[..example::LARGEST_SIZE]) {
            Ok(Applied::Bound(_, length)) => {
                is_unspliced_record(table, classes, shown::written(&output, length))
            }
            Ok(Applied::Spent(_)) => true,
            _ => false,
        }
    }
}

impl Call for Example {
    // The example is stated after a word, the count and the length.
    fn once(&self, brought: &Brought<'_>, stated: Fields<'_>) -> Line {
        let mut output = shown::blank();
        let found = self.found(brought, &mut output[..self.room]);
        shown::show_applied(found, &output, stated.field(4))
    }

    fn once_more(&self, table: &[u8], classes: &[u8], stated: Fields<'_>) -> Option<Line> {
        if is_unspliced_pattern(table, classes, self.pattern.as_slice())
            || self.is_unlike(table, classes)
        {
            return None;
        }
        Some(self.once(&Brought::bringing(Edition::Two, table, classes), stated))
    }
}
