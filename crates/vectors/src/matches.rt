// The calls of the match. After its language, a call has the rule or the sheet, the record, the given lengths if it takes any, then its
// numbers: the allowance if it takes one, and the width of the answer buffer.
//
// Each is run in every form and edition that it is the same in.
ghost use Rattle.std.specs.Prelude.{◌≤◌};
ghost use Rattle.vector_lines.specs.declared.shown.TheConstants.{BUFFER};

use answers::{Fault, Refusal};
use reader::Brought;
use term::Edition;
use vector_lines::forms::{self, Told, is_unspliced_pattern, is_unspliced_record};
use vector_lines::shown::{self, BUFFER, Line, Reply};
use vector_lines::text::{Bytes, Fields, Numbers};

// The calls, of either form.
#[derive(Clone, Copy, Debug, PartialEq, Eq)]
enum Kind {
    One,
    Next,
    Plain,
    Rules,
    Checked,
    RulesChecked,
}

// What a sheet of edition 2 has in the second byte of its count.
const MARK: u8 = 128;

#[derive(Drop)]
struct Call {
    kind: Kind,
    rule: Bytes,
    record: Bytes,
    given: Numbers,
    allowance: u32,
    width: usize,
    ghost within: { width ≤ BUFFER },
}

impl Call {
    #[inline(always)]
    fn read(kind: Kind, mut fields: Fields<'_>) -> Option<Call> {
        let rule = fields.bytes()?;
        let record = fields.bytes()?;
        let given = match kind {
            Kind::Next => fields.list()?,
            _ => Numbers::new(),
        };
        let allowance = match kind {
            Kind::Plain => 0,
            _ => fields.number()?,
        };
        let width = fields.room(BUFFER)?;
        fields.end()?;
        Some(Call {
            kind,
            rule,
            record,
            given,
            allowance,
            width,
        })
    }

    // In its simple form.
    fn simply(&self, table: &[u8], rule: &[u8], answer: &mut [u16]) -> Reply {
        let record = self.record.as_slice();
        let allowance = self.allowance;
        match self.kind {
            Kind::One => Reply::of(matcher::match_one(table, rule, record, allowance, answer)),
            Kind::Next => {
                let given = self.given.as_slice();
                Reply::of(matcher::next(table, rule, record, given, allowance, answer))
            }
            Kind::Plain => Reply::of(plain::match_plain(table, rule, record, answer)),
            Kind::Rules => {
                Reply::of_sheet(rules::match_rules(table, rule, record, allowance, answer))
            }
            Kind::Checked | Kind::RulesChecked => self.checked(table, &[], rule, answer),
        }
    }

    // With a class list, in an edition.
    fn by_class(
        &self,
        edition: Edition,
        table: &[u8],
        classes: &[u8],
        rule: &[u8],
        answer: &mut [u16],
    ) -> Reply {
        let record = self.record.as_slice();
        let allowance = self.allowance;
        match self.kind {
            Kind::One => Reply::of(matcher::match_in(
                edition, table, classes, rule, record, allowance, answer,
            )),
            Kind::Next => {
                let given = self.given.as_slice();
                Reply::of(matcher::next_in(
                    edition, table, classes, rule, record, given, allowance, answer,
                ))
            }
            Kind::Plain => Reply::of(plain::match_plain_in(
                edition, table, classes, rule, record, answer,
            )),
            Kind::Rules => Reply::of_sheet(rules::match_rules_in(
                table, classes, rule, record, allowance, answer,
            )),
            Kind::Checked | Kind::RulesChecked => self.checked(table, classes, rule, answer),
        }
    }

    // A call that checks nothing, with a class list or an empty one.
    fn checked(&self, table: &[u8], classes: &[u8], rule: &[u8], answer: &mut [u16]) -> Reply {
        let record = self.record.as_slice();
        let allowance = self.allowance;
        match self.kind {
            Kind::RulesChecked => Reply::of_sheet(rules::match_rules_checked(
                table, classes, rule, record, allowance, answer,
            )),
            _ => Reply::of(matcher::match_checked(table, classes, rule, record, allowance, answer)),
        }
    }

    // With this rule or sheet.
    fn with_rule(&self, brought: &Brought<'_>, rule: &[u8]) -> Line {
        let mut buffer = [shown::UNTOUCHED; BUFFER];
        let answer = &mut buffer[..self.width];
        let reply = match brought.list {
            None => self.simply(brought.table, rule, answer),
            Some(classes) => self.by_class(brought.edition, brought.table, classes, rule, answer),
        };
        reply.show_parts(&buffer)
    }

    // Whether the rule, or one of the sheet, is not spliced.
    fn is_unspliced(&self, table: &[u8], classes: &[u8], rule: &[u8]) -> bool {
        match self.kind {
            Kind::Rules => matches!(
                sheet::check_rules_in(table, classes, rule),
                Err(Fault {
                    refusal: Refusal::Unspliced,
                    ..
                })
            ),
            _ => is_unspliced_pattern(table, classes, rule),
        }
    }
}

impl forms::Call for Call {
    fn once(&self, brought: &Brought<'_>, _stated: Fields<'_>) -> Line {
        self.with_rule(brought, self.rule.as_slice())
    }

    // None where the rule or the record is not spliced; a call that checks nothing has no edition.
    fn once_more(&self, table: &[u8], classes: &[u8], _stated: Fields<'_>) -> Option<Line> {
        if matches!(self.kind, Kind::Checked | Kind::RulesChecked) {
            return None;
        }
        let rule = in_two(self.kind, self.rule.as_slice());
        let rule = rule.as_slice();
        if self.is_unspliced(table, classes, rule)
            || is_unspliced_record(table, classes, self.record.as_slice())
        {
            return None;
        }
        let brought = Brought::bringing(Edition::Two, table, classes);
        Some(self.with_rule(&brought, rule))
    }
}

// The rule or the sheet of a call in edition 2: a sheet is marked as one.
fn in_two(kind: Kind, rule: &[u8]) -> Bytes {
    let mut out = Bytes::new();
    let _ = out.try_extend_from_slice(rule);
    if kind == Kind::Rules
        && let Some(count) = out.get_mut(1)
    {
        *count |= MARK;
    }
    out
}

// A call in its simple form.
fn simply(kind: Kind, mut fields: Fields<'_>, stated: Fields<'_>) -> Option<Line> {
    let told = Told::simply(&mut fields)?;
    let call = Call::read(kind, fields)?;
    Some(forms::show(&call, &told, stated))
}

fn in_edition(kind: Kind, mut fields: Fields<'_>, stated: Fields<'_>) -> Option<Line> {
    let told = Told::in_edition(&mut fields)?;
    let call = Call::read(kind, fields)?;
    Some(forms::show(&call, &told, stated))
}

// A call with a class list after the table, which may be empty if it checks nothing: it is then in its simple form.
fn by_class(kind: Kind, mut fields: Fields<'_>, stated: Fields<'_>) -> Option<Line> {
    let told = match kind {
        Kind::Checked | Kind::RulesChecked => Told::by_class_if_any(&mut fields)?,
        _ => Told::by_class(&mut fields)?,
    };
    let call = Call::read(kind, fields)?;
    Some(forms::show(&call, &told, stated))
}

pub fn answer(name: &[u8], fields: Fields<'_>, stated: Fields<'_>) -> Option<Line> {
    match name {
        b"match_one" => simply(Kind::One, fields, stated),
        b"next" => simply(Kind::Next, fields, stated),
        b"match_plain" => simply(Kind::Plain, fields, stated),
        b"match_rules" => simply(Kind::Rules, fields, stated),
        b"match_in" => in_edition(Kind::One, fields, stated),
        b"next_in" => in_edition(Kind::Next, fields, stated),
        b"match_plain_in" => in_edition(Kind::Plain, fields, stated),
        b"match_rules_in" => by_class(Kind::Rules, fields, stated),
        b"match_checked" => by_class(Kind::Checked, fields, stated),
        b"match_rules_checked" => by_class(Kind::RulesChecked, fields, stated),
        _ => None,
    }
}
