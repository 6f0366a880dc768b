// The search after a given answer: down with its lengths, and back with the lengths after them.
ghost use Rattle.std.specs.Prelude.{◌≡◌, false, ◌+◌, ◌-◌, ◌≤◌, ◌<◌, length, drop};
ghost use Rattle.term.specs.Extent.{span_of};
ghost use Rattle.term.specs.Limits.{longest_record, longest_pattern};
ghost use Rattle.parts.specs.Packed.{bit};
ghost use Rattle.search.specs.Inner.Memory.{Holding};
ghost use Rattle.search.specs.Inner.Lent.{input, lent, handed};
ghost use Rattle.search.specs.Spread.{past_of};
ghost use Rattle.search.specs.Inner.GivenReplies.{resumed_as, left_by, FurtherIs, GivenFollows, GivenIs, SpreadIs};
ghost use Rattle.search.specs.Inner.Bounds.{Short, Ready};
ghost use Rattle.search.specs.Inner.Halts.{PairsAre};

use crate::Finding;
use crate::halt::reported;
use crate::level::{MOST_ELEMENTS, level, start_level};
use crate::marks::{Marks, STACK};
use crate::place::Place;
use crate::skip::{Want, wanted};
use crate::walk::{Stopped, also};
use answers::Part;
use parts::{PARTS, is_assigned, packed};
use steps::Stop;
use term::{Code, LIST, VARIABLES, decode, entry_of, extent, extents};

// The given answer is known where the complements put by hold; the search goes on as after a failure.
fn resumed(outcome: Finding) -> Option<Finding>
    ensures { result ≡ resumed_as outcome }
{
    match outcome {
        Finding::Found => Some(Finding::Failed),
        Finding::Failed => None,
        Finding::Spent => Some(Finding::Spent),
    }
}

// Unknown lengths count nothing.
pub(crate) fn left_of(known: Option<Finding>, left: u32, allowance: u32) -> u32
    ensures { result ≡ left_by known left allowance }
{
    if known.is_some() { left } else { allowance }
}

// The bytes of the pattern node at the start of s, and of a complement those of its inside too.
fn past(table: &[u8], s: &[u8]) -> usize
    requires { 0 < length s.now }
    ensures { (result ≡ past_of table.now s.now) × (result ≤ length s.now + 1) }
{
    let code = decode(s[0]);
    match code {
        Code::Symbol(b) => {
            if entry_of(table, b) == LIST {
                return 2;
            }
            1
        }
        Code::Name(_) => 1,
        Code::Run(_) => 1,
        Code::Complement => extent(table, s),
        Code::Refused => 1,
    }
}

// The given lengths by run name, where there is one for each free run name.
pub(crate) fn spread(
    table: &[u8],
    pattern: &[u8],
    given: &[u16],
    lengths: &mut [u16; VARIABLES],
) -> bool
    requires { length pattern.now ≤ longest_pattern }
    ensures { SpreadIs table.now pattern.now given.now lengths.old lengths.new result }
{
    let mut at: usize = 0;
    let mut seen: u64 = 0;
    let mut rest = given;
    while at < pattern.len() {
        let code = decode(pattern[at]);
        at += past(table, &pattern[at..]);
        let Code::Run(v) = code else {
            continue;
        };
        if is_assigned(seen, v) {
            continue;
        }
        let Some((&first, others)) = rest.split_first() else {
            return false;
        };
        let i = usize::from(v);
        seen = also(seen, i);
        lengths[i] = first;
        rest = others;
    }
    rest.is_empty()
}

// The byte behind so many elements.
fn behind(table: &[u8], record: &[u8], node: usize, n: u8) -> usize
    requires { (node ≤ length «record».now) × (length «record».now ≤ longest_record) }
    ensures { (result ≡ node + span_of table.now (drop node «record».now) false n) × (result ≤ length «record».now) }
{
    node + extents(table, &record[node..], n)
}

// The lengths of an unassigned run name after n, which ends at a byte.
fn further(
    table: &[u8],
    classes: &[u8],
    pattern: &[u8],
    record: &[u8],
    parts: &mut [u64; PARTS],
    stack: &mut [u32; STACK],
    assigned: &mut u64,
    left: &mut u32,
    v: usize,
    n: u8,
    node: usize,
    marks: Marks,
    place: Place,
) -> Finding
    requires holding { Holding (length pattern.now) (length «record».now) assigned.old parts.old stack.old marks place }
    requires ready { Ready (length pattern.now) v place × (bit assigned.old v ≡ false) }
    requires n_le_elements { (n ≤ place.elements) × (place.node ≤ node) × (node ≤ length «record».now) }
    requires short { Short pattern.now «record».now }
    ensures { FurtherIs (input table classes pattern «record») (lent assigned left parts stack) v n (node - place.node) marks place result }
{
    if place.elements <= n {
        return Finding::Failed;
    }
    if *left == 0 {
        return Finding::Spent;
    }
    *left -= 1;
    let end = node + extent(table, &record[node..]);
    let next = place.passed(n + 1, 1, end - place.node);
    parts[v] = packed(Part::bound(place.node, end - place.node, n + 1));
    level(
        table,
        classes,
        pattern,
        record,
        parts,
        stack,
        assigned,
        left,
        v,
        false,
        0,
        wanted(table, pattern, parts, *assigned, next.children, next.at),
        marks.nodes(),
        marks.queue(),
        next.remaining(),
        next.next(),
    )
}

// The pairs that leave no choice, by a level that halts: while `walk` has one caller, it is compiled into `level`.
fn pairs(
    table: &[u8],
    classes: &[u8],
    pattern: &[u8],
    record: &[u8],
    parts: &mut [u64; PARTS],
    stack: &mut [u32; STACK],
    assigned: u64,
    left: u32,
    marks: Marks,
    start: Place,
) -> Stopped
    requires holding { Holding (length pattern.now) (length «record».now) assigned parts.old stack.old marks start }
    requires short { Short pattern.now «record».now }
    ensures { PairsAre (input table classes pattern «record») (handed assigned left parts stack) marks start parts.new stack.new result }
{
    let mut seen = assigned;
    let mut rest = left;
    let outcome = level(
        table,
        classes,
        pattern,
        record,
        parts,
        stack,
        &mut seen,
        &mut rest,
        VARIABLES,
        true,
        MOST_ELEMENTS,
        Want::Anything,
        marks.nodes(),
        marks.queue(),
        start.remaining(),
        start.next(),
    );
    reported(parts, outcome, rest, seen, marks.first)
}

// The rest of a level from a place, where each unassigned run name has its given length; and the search resumed after the answer that
// this comes to, if it does.
#[cycle(given_length_given_rest)]
pub(crate) fn given_rest(
    table: &[u8],
    classes: &[u8],
    pattern: &[u8],
    record: &[u8],
    given: &[u16; VARIABLES],
    parts: &mut [u64; PARTS],
    stack: &mut [u32; STACK],
    assigned: &mut u64,
    left: &mut u32,
    marks: Marks,
    start: Place,
) -> Option<Finding>
    requires holding { Holding (length pattern.now) (length «record».now) assigned.old parts.old stack.old marks start }
    requires short { Short pattern.now «record».now }
    ensures { GivenIs (input table classes pattern «record») given.now (lent assigned left parts stack) marks start result }
{
    let walked = pairs(
        table, classes, pattern, record, parts, stack, *assigned, *left, marks, start,
    );
    let stop = walked.stop;
    let ends = walked.marks;
    let end = walked.place;
    *left = walked.left;
    *assigned = walked.assigned;
    match stop {
        Stop::Failure => None,
        Stop::NoAllowance => Some(Finding::Spent),
        Stop::NoPair => resumed(start_level(
            table, classes, pattern, record, parts, stack, assigned, left, ends, end,
        )),
        Stop::RunName(v) => given_length(
            table,
            classes,
            pattern,
            record,
            given,
            parts,
            stack,
            assigned,
            left,
            usize::from(v),
            ends,
            end,
        ),
    }
}

// The given length of an unassigned run name, fitting or not; resumed, the lengths after it.
#[cycle(given_length_given_rest)]
fn given_length(
    table: &[u8],
    classes: &[u8],
    pattern: &[u8],
    record: &[u8],
    given: &[u16; VARIABLES],
    parts: &mut [u64; PARTS],
    stack: &mut [u32; STACK],
    assigned: &mut u64,
    left: &mut u32,
    v: usize,
    marks: Marks,
    place: Place,
) -> Option<Finding>
    requires holding { Holding (length pattern.now) (length «record».now) assigned.old parts.old stack.old marks place }
    requires ready { Ready (length pattern.now) v place × (bit assigned.old v ≡ false) }
    requires short { Short pattern.now «record».now }
    ensures { GivenFollows (input table classes pattern «record») given.now (lent assigned left parts stack) (Stop.RunName v) marks place result }
{
    if *left == 0 {
        return Some(Finding::Spent);
    }
    *left -= 1;
    let length = given[v];
    if (place.elements as u16) < length {
        return None;
    }
    let n = (length % 256) as u8;
    let node = behind(table, record, place.node, n);
    let past = place.passed(n, 1, node - place.node);
    let before = *assigned;
    *assigned = also(before, v);
    parts[v] = packed(Part::bound(place.node, node - place.node, n));
    let x = given_rest(
        table, classes, pattern, record, given, parts, stack, assigned, left, marks, past,
    );
    if x != Some(Finding::Failed) {
        return x;
    }
    *assigned = before;
    Some(further(
        table, classes, pattern, record, parts, stack, assigned, left, v, n, node, marks, place,
    ))
}
