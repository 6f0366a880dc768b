// The pairs of a level that leave no choice, and those up to a run name that does.
ghost use Rattle.std.specs.Prelude.{◌≡◌, ◌^◌, ◌≤◌, ◌<◌, length, set};
ghost use Rattle.std.specs.Int.Bits.{bit_or};
ghost use Rattle.answers.specs.Part.{bound_part};
ghost use Rattle.term.specs.Code.{variables};
ghost use Rattle.parts.specs.Packed.{packed};
ghost use Rattle.search.specs.Inner.Memory.{Holding};
ghost use Rattle.search.specs.Inner.Lent.{input, handed};
ghost use Rattle.search.specs.Inner.Bounds.{Short, Walks};
ghost use Rattle.search.specs.Inner.Onward.{Onward};

use crate::marks::{Marks, STACK, push_complement, push_frame};
use crate::place::Place;
use answers::Part;
use parts::{PARTS, packed};
use steps::{Step, Stop, step_of};
use term::extents;

// Where the pairs of a level stopped, the allowance left, and what the buffers then hold.
#[derive(Clone, Copy)]
pub struct Stopped {
    pub stop: Stop,
    pub left: u32,
    pub assigned: u64,
    pub marks: Marks,
    pub place: Place,
}

// The variable v is assigned too.
pub(crate) fn also(assigned: u64, v: usize) -> u64
    requires { v ≤ variables }
    ensures { result ≡ bit_or assigned (2 ^ v) }
{
    assigned | (1 << v)
}

// The variable v takes the elements of so many bytes.
fn bind(
    parts: &mut [u64; PARTS],
    assigned: u64,
    v: u8,
    node: usize,
    size: usize,
    elements: u8,
) -> u64
    requires { v < variables }
    ensures { (result ≡ bit_or assigned (2 ^ v)) × (parts.new ≡ set parts.old v (packed (bound_part node size elements))) }
{
    let i = usize::from(v);
    parts[i] = packed(Part::bound(node, size, elements));
    also(assigned, i)
}

// The pairs of a level that leave no choice.
fn walk(
    table: &[u8],
    classes: &[u8],
    pattern: &[u8],
    record: &[u8],
    parts: &mut [u64; PARTS],
    stack: &mut [u32; STACK],
    mut assigned: u64,
    mut left: u32,
    mut marks: Marks,
    mut place: Place,
) -> Stopped
    requires holding { Holding (length pattern.now) (length «record».now) assigned parts.old stack.old marks place }
    requires short { Short pattern.now «record».now }
    ensures { Walks (input table classes pattern «record») (handed assigned left parts stack) marks place parts.new stack.new result }
{
    let stop = loop {
        let step = step_of(
            table,
            classes,
            pattern,
            record,
            parts,
            assigned,
            marks.inner == 0,
            place.children,
            place.elements,
            place.at,
            place.node,
            left,
        );
        match step {
            Step::Stops(stop) => break stop,
            Step::Fails => {
                left -= 1;
                break Stop::Failure;
            }
            Step::Closes => {
                let f = stack[marks.inner - 1];
                place = place.reopened(f);
                marks = marks.closed(f);
            }
            Step::Opens(children, elements, width) => {
                left -= 1;
                marks = push_frame(stack, marks, place);
                place = place.entered(children, elements, width);
            }
            Step::Passes(elements, size) => {
                left -= 1;
                place = place.passed(elements, 1, size);
            }
            Step::Binds(v, size) => {
                left -= 1;
                assigned = bind(parts, assigned, v, place.node, size, 1);
                place = place.passed(1, 1, size);
            }
            Step::PutsBy(codes, size) => {
                left -= 1;
                marks = push_complement(stack, marks, place, codes);
                place = place.passed(1, codes, size);
            }
        }
    };
    Stopped {
        stop,
        left,
        assigned,
        marks,
        place,
    }
}

// The pairs of a level up to a run name that leaves a choice. One that is the last child pattern of its node takes all elements left: each shorter
// length leaves some over, and fails. All its lengths are counted. A level that halts stops at each run name.
pub(crate) fn onward(
    table: &[u8],
    classes: &[u8],
    pattern: &[u8],
    record: &[u8],
    parts: &mut [u64; PARTS],
    stack: &mut [u32; STACK],
    mut assigned: u64,
    mut left: u32,
    halts: bool,
    mut marks: Marks,
    mut place: Place,
) -> Stopped
    requires holding { Holding (length pattern.now) (length «record».now) assigned parts.old stack.old marks place }
    requires short { Short pattern.now «record».now }
    ensures { Onward halts (input table classes pattern «record») (handed assigned left parts stack) marks place parts.new stack.new result }
{
    loop {
        let w = walk(
            table, classes, pattern, record, parts, stack, assigned, left, marks, place,
        );
        let end = w.place;
        let Stop::RunName(v) = w.stop else {
            return w;
        };
        if halts || end.children != 1 {
            return w;
        }
        let node = end.node;
        let n = end.elements;
        if w.left <= n as u32 {
            return Stopped {
                stop: Stop::NoAllowance,
                left: 0,
                ..w
            };
        }
        let size = extents(table, &record[node..], n);
        left = w.left - 1 - n as u32;
        assigned = bind(parts, w.assigned, v, node, size, n);
        marks = w.marks;
        place = end.passed(n, 1, size);
    }
}
