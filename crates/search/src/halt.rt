// A level that halts reports where its pairs stop, as the numbers of three parts.
ghost use Rattle.std.specs.Prelude.{◌≡◌};
ghost use Rattle.search.specs.Inner.Halts.{halted_as, run_of, stop_in, reported_by, Reports};

use crate::Finding;
use crate::marks::Marks;
use crate::place::Place;
use crate::walk::Stopped;
use answers::Part;
use parts::{PARTS, packed, unpacked};
use steps::Stop;
use term::VARIABLES;

// The outcome of a level that halts.
fn halted(stop: Stop) -> Finding
    ensures { result ≡ halted_as stop }
{
    match stop {
        Stop::Failure => Finding::Failed,
        Stop::NoAllowance => Finding::Spent,
        Stop::NoPair | Stop::RunName(_) => Finding::Found,
    }
}

// The run name of a stop, or `VARIABLES` for none: a number, as it stands in a part.
fn run_of(stop: Stop) -> usize
    ensures { result ≡ run_of stop }
{
    match stop {
        Stop::Failure | Stop::NoAllowance | Stop::NoPair => VARIABLES,
        Stop::RunName(v) => usize::from(v),
    }
}

// Where a level halts, as the numbers of three parts: a buffer that each level has, where a struct would be one more argument of all of them.
pub(crate) fn report(parts: &mut [u64; PARTS], stop: Stop, marks: Marks, place: Place) -> Finding
    ensures { Reports parts.old stop marks place result parts.new }
{
    parts[VARIABLES + 2] = packed(Part::bound(marks.waiting, run_of(stop), 0));
    parts[VARIABLES + 1] = packed(Part::bound(marks.inner, marks.frames, place.children));
    parts[VARIABLES] = packed(Part::bound(place.node, place.at, place.elements));
    halted(stop)
}

// The stop of an outcome, at a run name or none.
fn stop_of(outcome: Finding, run: u16) -> Stop
    ensures { result ≡ stop_in outcome run }
{
    match outcome {
        Finding::Failed => Stop::Failure,
        Finding::Spent => Stop::NoAllowance,
        Finding::Found => {
            if (run as usize) < VARIABLES {
                return Stop::RunName((run % 256) as u8);
            }
            Stop::NoPair
        }
    }
}

// What a level that halts reported.
pub(crate) fn reported(
    parts: &[u64; PARTS],
    outcome: Finding,
    left: u32,
    assigned: u64,
    first: usize,
) -> Stopped
    ensures { result ≡ reported_by parts.now outcome left assigned first }
{
    let here = unpacked(parts[VARIABLES]);
    let open = unpacked(parts[VARIABLES + 1]);
    let put_by = unpacked(parts[VARIABLES + 2]);
    let marks = Marks {
        inner: open.offset as usize,
        frames: open.length as usize,
        first,
        waiting: put_by.offset as usize,
    };
    let place = Place {
        children: open.elements,
        elements: here.elements,
        at: here.length as usize,
        node: here.offset as usize,
    };
    Stopped {
        stop: stop_of(outcome, put_by.length),
        left,
        assigned,
        marks,
        place,
    }
}
