// A station: its current record and eight kept ones. The small struct is lent to each call, and so are the bytes of the records.
// Each thin function takes the struct by `&mut`, has a function change a copy, and stores that back.
#![tactic(auto)]

ghost use Rattle.std.specs.Prelude.{◌≡◌, ◌+◌, ◌*◌, ◌≤◌, ◌<◌, length, take, drop, Ok};
ghost use Rattle.std.proofs.lemmas.List.Edits.{sets};
ghost use Rattle.answers.specs.Answers.{applied_length};
ghost use Rattle.reader.specs.Brought.{simply, bringing};
ghost use Rattle.reader.specs.Lent.{brought_of};
ghost use Rattle.station.specs.Slot.{apart, room, most_kept};
ghost use Rattle.station.specs.Demands.{Begins, Keeps, Returns, Applies};
ghost use Rattle.station.specs.Check.{place_of, distinct, all_fit, in_order, check_of};
ghost use Rattle.station.specs.Call.{outcome, with_record, named, lengthened, emptied, record_check, taken_up, fresh};

use answers::{Applied, Refusal};
use reader::Brought;
use term::{Edition, LONGEST_RECORD};

// The most records that are kept, and these with the current one.
pub const KEPT: usize = 8;

const RECORDS: usize = 9;

// The bytes that are lent for records: nine times 4,096.
pub const ROOM: usize = 36864;

// The longest record, as a length tells it.
const LONGEST: u16 = 4096;

// How many are kept, under which names, and the records' lengths, the current one's first.
#[repr(C)]
#[derive(Clone, Copy, Debug, PartialEq, Eq)]
pub struct Station {
    pub kept: u16,
    pub names: [u16; KEPT],
    pub lengths: [u16; RECORDS],
}

// A station as a call leaves it, with the call's answer.
#[derive(Clone, Copy, Debug, PartialEq, Eq)]
pub struct Changed<T> {
    pub answer: Result<T, Refusal>,
    pub station: Station,
}

// Where a name stands among others; their number where it is none of them.
fn place(names: &[u16], name: u16) -> usize
    ensures { result ≡ place_of name names.now }
{
    names.iter().position(|m| *m == name).unwrap_or(names.len())
}

// Whether no name is twice among them.
fn is_distinct(names: &[u16]) -> bool
    ensures { result ≡ distinct names.now }
{
    for i in 0..names.len() {
        let rest = &names[i + 1..];
        if place(rest, names[i]) < rest.len() {
            return false;
        }
    }
    true
}

// Whether each length is 1 to 4,096.
fn all_fit(lengths: &[u16]) -> bool
    ensures { result ≡ all_fit lengths.now }
{
    lengths.iter().all(|k| 0 < *k && *k <= LONGEST)
}

fn is_in_order(station: Station) -> bool
    ensures { result ≡ in_order station }
{
    let n = usize::from(station.kept);
    if KEPT < n {
        return false;
    }
    if !all_fit(&station.lengths[..n + 1]) {
        return false;
    }
    is_distinct(&station.names[..n])
}

// The checks of a station and of the number of bytes lent.
fn check(station: Station, lent: usize) -> Result<(), Refusal>
    ensures { result ≡ check_of station lent }
{
    if lent < ROOM {
        return Err(Refusal::Full);
    }
    if !is_in_order(station) {
        return Err(Refusal::Directory);
    }
    Ok(())
}

// Copies n bytes from a place to another.
fn copy_bytes(records: &mut [u8], from: usize, to: usize, n: usize)
    requires { (from + n ≤ length records.old) × (to + n ≤ length records.old) }
    ensures { records.new ≡ sets records.old to (take n (drop from records.old)) }
{
    records.copy_within(from..from + n, to);
}

// The station with a name at a place: one more is kept where the place is new.
fn named_at(station: Station, k: usize, name: u16) -> Station
    requires { (station.kept ≤ most_kept) × (k < most_kept) }
    ensures { result ≡ named station k name }
{
    let mut after = station;
    after.names[k] = name;
    if k < usize::from(after.kept) {
        return after;
    }
    after.kept += 1;
    after
}

// The station with another length for its i-th record.
fn lengthened_at(station: Station, i: usize, n: u16) -> Station
    requires { i ≤ most_kept }
    ensures { result ≡ lengthened station i n }
{
    let mut after = station;
    after.lengths[i] = n;
    after
}

// The bytes of a record, at the front.
fn put_current(bytes: &[u8], records: &mut [u8])
    requires { length bytes.now ≤ length records.old }
    ensures { records.new ≡ sets records.old 0 bytes.now }
{
    for i in 0..bytes.len() {
        records[i] = bytes[i];
    }
}

// A station with an accepted record, which keeps none.
fn begin(bytes: &[u8], station: Station, records: &mut [u8]) -> Changed<()>
    requires { (length bytes.now ≤ apart) × (room ≤ length records.old) }
    ensures { outcome result.answer result.station records.new ≡ with_record (Ok tt) (emptied station) records.old 0 bytes.now }
{
    put_current(bytes, records);
    let mut after = station;
    after.kept = 0;
    Changed {
        answer: Ok(()),
        station: lengthened_at(after, 0, bytes.len() as u16),
    }
}

// The checks of a new station's record.
#[inline(always)]
fn check_record(brought: &Brought<'_>, bytes: &[u8]) -> Result<(), Refusal>
    ensures { result ≡ record_check (brought_of brought.now) bytes.now }
{
    if !term::check_table(brought.table) {
        return Err(Refusal::Table);
    }
    if !brought.accepts_list() {
        return Err(Refusal::Class);
    }
    reader::read_record_in(&brought.language(), bytes)?;
    Ok(())
}

// A new station, on one by value.
#[inline(always)]
fn new_brought(
    brought: &Brought<'_>,
    bytes: &[u8],
    station: Station,
    records: &mut [u8],
) -> Changed<()>
    ensures { Begins (brought_of brought.now) bytes.now station records.old result.answer result.station records.new }
{
    if records.len() < ROOM {
        return Changed {
            answer: Err(Refusal::Full),
            station,
        };
    }
    if let Err(refused) = check_record(brought, bytes) {
        return Changed {
            answer: Err(refused),
            station,
        };
    }
    begin(bytes, station, records)
}

// New, on a station by value: the work of `new`.
pub fn new_by_value(table: &[u8], bytes: &[u8], station: Station, records: &mut [u8]) -> Changed<()>
    ensures { Begins (simply table.now) bytes.now station records.old result.answer result.station records.new }
{
    new_brought(&Brought::simply(table), bytes, station, records)
}

// The same in an edition, by a class list.
pub fn new_by_value_in(
    edition: Edition,
    table: &[u8],
    classes: &[u8],
    bytes: &[u8],
    station: Station,
    records: &mut [u8],
) -> Changed<()>
    ensures { Begins (bringing edition table.now classes.now) bytes.now station records.old result.answer result.station records.new }
{
    let brought = Brought::bringing(edition, table, classes);
    new_brought(&brought, bytes, station, records)
}

// Keep, on a station by value: the work of `keep`.
pub fn keep_by_value(name: u16, station: Station, records: &mut [u8]) -> Changed<()>
    ensures { Keeps name station records.old result.answer result.station records.new }
{
    if let Err(refused) = check(station, records.len()) {
        return Changed {
            answer: Err(refused),
            station,
        };
    }
    let n = usize::from(station.kept);
    let k = place(&station.names[..n], name);
    if KEPT <= k {
        return Changed {
            answer: Err(Refusal::Shelf),
            station,
        };
    }
    let length = station.lengths[0];
    copy_bytes(records, 0, LONGEST_RECORD * (k + 1), usize::from(length));
    let after = lengthened_at(named_at(station, k, name), k + 1, length);
    Changed {
        answer: Ok(()),
        station: after,
    }
}

// Return, on a station by value: the work of `return_to`.
pub fn return_by_value(name: u16, station: Station, records: &mut [u8]) -> Changed<()>
    ensures { Returns name station records.old result.answer result.station records.new }
{
    if let Err(refused) = check(station, records.len()) {
        return Changed {
            answer: Err(refused),
            station,
        };
    }
    let n = usize::from(station.kept);
    let k = place(&station.names[..n], name);
    if n <= k {
        return Changed {
            answer: Err(Refusal::NoName),
            station,
        };
    }
    let length = station.lengths[k + 1];
    copy_bytes(records, LONGEST_RECORD * (k + 1), 0, usize::from(length));
    let after = lengthened_at(station, 0, length);
    Changed {
        answer: Ok(()),
        station: after,
    }
}

// Room for a result.
fn scratch() -> [u8; LONGEST_RECORD]
    ensures { result ≡ fresh }
{
    [0u8; LONGEST_RECORD]
}

// The station after an apply of this answer, whose result is at the front of `output`.
fn take_up(
    answer: Result<Applied, Refusal>,
    output: &[u8],
    station: Station,
    records: &mut [u8],
) -> Changed<Applied>
    requires { (applied_length answer ≤ apart) × (length output.now ≡ apart) × (room ≤ length records.old) }
    ensures { outcome result.answer result.station records.new ≡ taken_up answer (take (applied_length answer) output.now) station records.old }
{
    let Ok(applied) = answer else {
        return Changed { answer, station };
    };
    let Applied::Bound(_, n) = applied else {
        return Changed { answer, station };
    };
    put_current(&output[..n], records);
    Changed {
        answer,
        station: lengthened_at(station, 0, n as u16),
    }
}

// Apply, on a station by value.
fn apply_brought(
    brought: &Brought<'_>,
    rule: &[u8],
    template: &[u8],
    allowance: u32,
    station: Station,
    records: &mut [u8],
) -> Changed<Applied>
    ensures { Applies (brought_of brought.now) rule.now template.now allowance station records.old result.answer result.station records.new }
{
    if let Err(refused) = check(station, records.len()) {
        return Changed {
            answer: Err(refused),
            station,
        };
    }
    let n = usize::from(station.lengths[0]);
    let mut result = scratch();
    let answer = replace::apply_brought(
        brought,
        rule,
        template,
        &records[..n],
        allowance,
        &mut result,
    );
    take_up(answer, &result, station, records)
}

// Apply, on a station by value: the work of `apply`.
pub fn apply_by_value(
    table: &[u8],
    rule: &[u8],
    template: &[u8],
    allowance: u32,
    station: Station,
    records: &mut [u8],
) -> Changed<Applied>
    ensures { Applies (simply table.now) rule.now template.now allowance station records.old result.answer result.station records.new }
{
    let brought = Brought::simply(table);
    apply_brought(&brought, rule, template, allowance, station, records)
}

// The same in an edition, up to class by a class list.
pub fn apply_by_value_in(
    edition: Edition,
    table: &[u8],
    classes: &[u8],
    rule: &[u8],
    template: &[u8],
    allowance: u32,
    station: Station,
    records: &mut [u8],
) -> Changed<Applied>
    ensures { Applies (bringing edition table.now classes.now) rule.now template.now allowance station records.old result.answer result.station records.new }
{
    let brought = Brought::bringing(edition, table, classes);
    apply_brought(&brought, rule, template, allowance, station, records)
}

// Makes a new station of an accepted record.
pub fn new(
    table: &[u8],
    bytes: &[u8],
    station: &mut Station,
    records: &mut [u8],
) -> Result<(), Refusal>
    ensures { Begins (simply table.now) bytes.now station.old records.old result station.new records.new }
{
    let changed = new_by_value(table, bytes, *station, records);
    *station = changed.station;
    changed.answer
}

// The same in an edition, by a class list.
pub fn new_in(
    edition: Edition,
    table: &[u8],
    classes: &[u8],
    bytes: &[u8],
    station: &mut Station,
    records: &mut [u8],
) -> Result<(), Refusal>
    ensures { Begins (bringing edition table.now classes.now) bytes.now station.old records.old result station.new records.new }
{
    let changed = new_by_value_in(edition, table, classes, bytes, *station, records);
    *station = changed.station;
    changed.answer
}

// Keeps the current record under a name.
pub fn keep(name: u16, station: &mut Station, records: &mut [u8]) -> Result<(), Refusal>
    ensures { Keeps name station.old records.old result station.new records.new }
{
    let changed = keep_by_value(name, *station, records);
    *station = changed.station;
    changed.answer
}

// Makes the record that is kept under a name the current one.
pub fn return_to(name: u16, station: &mut Station, records: &mut [u8]) -> Result<(), Refusal>
    ensures { Returns name station.old records.old result station.new records.new }
{
    let changed = return_by_value(name, *station, records);
    *station = changed.station;
    changed.answer
}

// Makes the result of a bound apply the current record.
pub fn apply(
    table: &[u8],
    rule: &[u8],
    template: &[u8],
    allowance: u32,
    station: &mut Station,
    records: &mut [u8],
) -> Result<Applied, Refusal>
    ensures { Applies (simply table.now) rule.now template.now allowance station.old records.old result station.new records.new }
{
    let changed = apply_by_value(table, rule, template, allowance, *station, records);
    *station = changed.station;
    changed.answer
}

// The same in an edition, up to class by a class list.
pub fn apply_in(
    edition: Edition,
    table: &[u8],
    classes: &[u8],
    rule: &[u8],
    template: &[u8],
    allowance: u32,
    station: &mut Station,
    records: &mut [u8],
) -> Result<Applied, Refusal>
    ensures { Applies (bringing edition table.now classes.now) rule.now template.now allowance station.old records.old result station.new records.new }
{
    let changed = apply_by_value_in(
        edition, table, classes, rule, template, allowance, *station, records,
    );
    *station = changed.station;
    changed.answer
}
