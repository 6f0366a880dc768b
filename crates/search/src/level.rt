// The search of a level: its pairs, the lengths of its run names and its complements, each of which is a level of its own.
ghost use Rattle.std.specs.Prelude.{◌≡◌, length};
ghost use Rattle.search.specs.Inner.Memory.{put_by_in, Holding};
ghost use Rattle.search.specs.Inner.Lent.{input, lent};
ghost use Rattle.search.specs.Inner.Bounds.{Short, StopsAt, Unassigned};
ghost use Rattle.search.specs.Inner.Replies.{Resting, Testable, RestIs, FollowIs, ComplementIs, ComplementsAre};
ghost use Rattle.search.specs.Inner.Halts.{RestBy, BegunAt, LevelsAt};

use crate::first::at_once;
use crate::halt::report;
use crate::marks::{LAST, Marks, Nodes, Queue, STACK};
use crate::place::{Next, Place, Remaining};
use crate::skip::{Want, lengthen, skip_where, wanted};
use crate::walk::{also, onward};
use crate::{Finding, opposite};
use answers::Part;
use parts::{PARTS, packed};
use steps::Stop;
use term::VARIABLES;

// No node has more elements.
pub(crate) const MOST_ELEMENTS: u8 = 255;

// The variable v has a part of the elements before the place, and is given one element more while the rest of the level fails and more than `least`
// are left. At a level's start v is `VARIABLES`, for none, and `least` `MOST_ELEMENTS`: the number is a bit that no variable has, where an Option
// would be one more case of each fact about a level. A level that halts only reports where its pairs stop.
#[cycle(complement_complements_follow_lengths_level_rest_start_level)]
pub(crate) fn level(
    table: &[u8],
    classes: &[u8],
    pattern: &[u8],
    record: &[u8],
    parts: &mut [u64; PARTS],
    stack: &mut [u32; STACK],
    assigned: &mut u64,
    left: &mut u32,
    v: usize,
    halts: bool,
    least: u8,
    want: Want,
    nodes: Nodes,
    queue: Queue,
    remaining: Remaining,
    next: Next,
) -> Finding
    requires begun_at { BegunAt (length pattern.now) (length «record».now) assigned.old parts.old stack.old v halts least nodes queue remaining next }
    requires short { Short pattern.now «record».now }
    ensures { LevelsAt (input table classes pattern «record») (lent assigned left parts stack) v halts least nodes queue remaining next result }
{
    let marks = Marks::of(nodes, queue);
    let start = Place::of(remaining, next);
    let outside = *assigned;
    let seen = also(outside, v);
    let mut place = start;
    loop {
        *assigned = seen;
        let x = rest(
            table, classes, pattern, record, parts, stack, assigned, left, halts, marks, place,
        );
        if place.elements <= least {
            return x;
        }
        if x != Finding::Failed {
            return x;
        }
        if *left == 0 {
            return Finding::Spent;
        }
        let k = lengthen(
            table,
            classes,
            pattern,
            record,
            parts,
            outside,
            v,
            want,
            place,
            *left - 1,
        );
        *left = k.left;
        if k.over {
            return Finding::Failed;
        }
        place = k.place;
    }
}

// A level from a place, with these marks in use. (A function stores the slices that it hands on when it starts; the search calls `level` from
// here and from `lengths` only, so that none is stored where no call is made.)
#[cycle(complement_complements_follow_lengths_level_rest_start_level)]
pub(crate) fn start_level(
    table: &[u8],
    classes: &[u8],
    pattern: &[u8],
    record: &[u8],
    parts: &mut [u64; PARTS],
    stack: &mut [u32; STACK],
    assigned: &mut u64,
    left: &mut u32,
    marks: Marks,
    start: Place,
) -> Finding
    requires holding { Holding (length pattern.now) (length «record».now) assigned.old parts.old stack.old marks start }
    requires short { Short pattern.now «record».now }
    ensures { RestIs (input table classes pattern «record») (lent assigned left parts stack) marks start result }
{
    level(
        table,
        classes,
        pattern,
        record,
        parts,
        stack,
        assigned,
        left,
        VARIABLES,
        false,
        MOST_ELEMENTS,
        Want::Anything,
        marks.nodes(),
        marks.queue(),
        start.remaining(),
        start.next(),
    )
}

// The rest of a level from a place: the pairs that leave no choice, and what follows them, unless it halts there.
#[cycle(complement_complements_follow_lengths_level_rest_start_level)]
fn rest(
    table: &[u8],
    classes: &[u8],
    pattern: &[u8],
    record: &[u8],
    parts: &mut [u64; PARTS],
    stack: &mut [u32; STACK],
    assigned: &mut u64,
    left: &mut u32,
    halts: bool,
    marks: Marks,
    start: Place,
) -> Finding
    requires holding { Holding (length pattern.now) (length «record».now) assigned.old parts.old stack.old marks start }
    requires short { Short pattern.now «record».now }
    ensures { RestBy halts (input table classes pattern «record») (lent assigned left parts stack) marks start result }
{
    let w = onward(
        table, classes, pattern, record, parts, stack, *assigned, *left, halts, marks, start,
    );
    let stop = w.stop;
    let ends = w.marks;
    let end = w.place;
    *left = w.left;
    if let Stop::Failure = stop {
        return Finding::Failed;
    }
    *assigned = w.assigned;
    if halts {
        return report(parts, stop, ends, end);
    }
    follow(
        table, classes, pattern, record, parts, stack, assigned, left, stop, ends, end,
    )
}

// What comes where the pairs stop: nothing, the complements put by, or a run name's lengths.
#[cycle(complement_complements_follow_lengths_level_rest_start_level)]
fn follow(
    table: &[u8],
    classes: &[u8],
    pattern: &[u8],
    record: &[u8],
    parts: &mut [u64; PARTS],
    stack: &mut [u32; STACK],
    assigned: &mut u64,
    left: &mut u32,
    stop: Stop,
    marks: Marks,
    place: Place,
) -> Finding
    requires holding { Holding (length pattern.now) (length «record».now) assigned.old parts.old stack.old marks place }
    requires stops_at { StopsAt (length pattern.now) place stop × Unassigned assigned.old stop }
    requires short { Short pattern.now «record».now }
    ensures { FollowIs (input table classes pattern «record») (lent assigned left parts stack) stop marks place result }
{
    match stop {
        Stop::Failure => Finding::Failed,
        Stop::NoAllowance => Finding::Spent,
        Stop::NoPair => complements(
            table, classes, pattern, record, parts, stack, assigned, left, marks,
        ),
        Stop::RunName(v) => lengths(
            table, classes, pattern, record, parts, stack, assigned, left, v, marks, place,
        ),
    }
}

// The lengths of an unassigned run name; the first is counted here.
#[cycle(complement_complements_follow_lengths_level_rest_start_level)]
fn lengths(
    table: &[u8],
    classes: &[u8],
    pattern: &[u8],
    record: &[u8],
    parts: &mut [u64; PARTS],
    stack: &mut [u32; STACK],
    assigned: &mut u64,
    left: &mut u32,
    v: u8,
    marks: Marks,
    place: Place,
) -> Finding
    requires holding { Holding (length pattern.now) (length «record».now) assigned.old parts.old stack.old marks place }
    requires stops_at { StopsAt (length pattern.now) place (Stop.RunName v) × Unassigned assigned.old (Stop.RunName v) }
    requires short { Short pattern.now «record».now }
    ensures { FollowIs (input table classes pattern «record») (lent assigned left parts stack) (Stop.RunName v) marks place result }
{
    if *left == 0 {
        return Finding::Spent;
    }
    let past = place.passed(0, 1, 0);
    let want = wanted(table, pattern, parts, *assigned, past.children, past.at);
    let k = skip_where(
        table,
        classes,
        pattern,
        record,
        parts,
        *assigned,
        want,
        past,
        *left - 1,
    );
    *left = *left - 1 - k.count;
    if k.over {
        return Finding::Failed;
    }
    let first = past.behind(k.lengths, k.node);
    let i = usize::from(v);
    parts[i] = packed(Part::bound(place.node, k.node - place.node, k.lengths));
    level(
        table,
        classes,
        pattern,
        record,
        parts,
        stack,
        assigned,
        left,
        i,
        false,
        0,
        want,
        marks.nodes(),
        marks.queue(),
        first.remaining(),
        first.next(),
    )
}

// The inside of a complement is a level of its own, that starts from the assignments made so far.
#[cycle(complement_complements_follow_lengths_level_rest_start_level)]
fn complement(
    table: &[u8],
    classes: &[u8],
    pattern: &[u8],
    record: &[u8],
    parts: &mut [u64; PARTS],
    stack: &mut [u32; STACK],
    assigned: &mut u64,
    left: &mut u32,
    c: u32,
    marks: Marks,
) -> Finding
    requires testable { Testable (length pattern.now) (length «record».now) assigned.old parts.old stack.old marks (put_by_in c) }
    requires short { Short pattern.now «record».now }
    ensures { ComplementIs (input table classes pattern «record») (lent assigned left parts stack) (put_by_in c) marks result }
{
    let from = (c % 256) as usize + 1;
    let stop = from + (c / 256 % 256) as usize;
    let node = (c / 65536) as usize;
    let inside = &pattern[from..stop];
    let first = at_once(
        table, classes, inside, record, parts, *assigned, node, *left,
    );
    if let Some(outcome) = first {
        *left -= 1;
        return opposite(outcome);
    }
    opposite(start_level(
        table,
        classes,
        inside,
        record,
        parts,
        stack,
        assigned,
        left,
        marks.inside(),
        Place::start(node),
    ))
}

// The complements that were put by, in the order met.
#[cycle(complement_complements_follow_lengths_level_rest_start_level)]
fn complements(
    table: &[u8],
    classes: &[u8],
    pattern: &[u8],
    record: &[u8],
    parts: &mut [u64; PARTS],
    stack: &mut [u32; STACK],
    assigned: &mut u64,
    left: &mut u32,
    marks: Marks,
) -> Finding
    requires resting { Resting (length pattern.now) (length «record».now) assigned.old parts.old stack.old marks }
    requires short { Short pattern.now «record».now }
    ensures { ComplementsAre (input table classes pattern «record») (lent assigned left parts stack) marks result }
{
    let outside = *assigned;
    for i in marks.first..marks.waiting {
        let c = stack[LAST - i];
        let x = complement(
            table, classes, pattern, record, parts, stack, assigned, left, c, marks,
        );
        *assigned = outside;
        if x != Finding::Found {
            return x;
        }
    }
    Finding::Found
}
