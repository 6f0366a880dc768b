// How much of the stack is in use: open nodes, and complements put by.
ghost use Rattle.std.specs.Prelude.{◌≡◌, ◌+◌, ◌≤◌, ◌<◌};
ghost use Rattle.term.specs.Limits.{longest_record, longest_pattern};
ghost use Rattle.search.specs.Inner.Memory.{stack_places, nodes_in, queue_in, marks_of, opened_marks, closed_marks, put_by_marks, FramePushed, ComplementPushed};
ghost use Rattle.search.specs.Inner.Replies.{inside};

use crate::place::Place;
use term::LONGEST_PATTERN;

// A place in the stack for each byte of the longest pattern.
pub(crate) const STACK: usize = LONGEST_PATTERN;

// The last place in the stack.
pub(crate) const LAST: usize = STACK - 1;

// How much of the buffers is in use: 1 more than the place of the innermost open node's frame, or 0, the frames, where the level's own
// complements start, and the complements put by. Frames lie in the stack from the front, complements from the back, the i-th at `LAST - i`.
#[derive(Clone, Copy)]
pub struct Marks {
    pub inner: usize,
    pub frames: usize,
    pub first: usize,
    pub waiting: usize,
}

// `level` takes marks in halves: a call hands on a struct of two numbers in registers, but one of four through memory.

// The marks of the open nodes.
#[derive(Clone, Copy)]
pub struct Nodes {
    pub inner: usize,
    pub frames: usize,
}

// The marks of the complements put by.
#[derive(Clone, Copy)]
pub struct Queue {
    pub first: usize,
    pub waiting: usize,
}

impl Marks {
    // One more node is open.
    fn opened(self) -> Marks
        requires { self.frames < stack_places }
        ensures { result ≡ opened_marks self }
    {
        Marks {
            inner: self.frames + 1,
            frames: self.frames + 1,
            first: self.first,
            waiting: self.waiting,
        }
    }

    // The innermost node, of this frame, is closed.
    pub(crate) fn closed(self, f: u32) -> Marks
        ensures { result ≡ closed_marks self f }
    {
        Marks {
            inner: (f / 65536) as usize,
            frames: self.frames,
            first: self.first,
            waiting: self.waiting,
        }
    }

    // One more complement is put by.
    fn put_by(self) -> Marks
        requires { self.waiting < stack_places }
        ensures { result ≡ put_by_marks self }
    {
        Marks {
            inner: self.inner,
            frames: self.frames,
            first: self.first,
            waiting: self.waiting + 1,
        }
    }

    // Nothing is in use.
    pub(crate) const NONE: Marks = Marks {
        inner: 0,
        frames: 0,
        first: 0,
        waiting: 0,
    };

    // Their halves, and both together.
    pub(crate) fn nodes(self) -> Nodes
        ensures { result ≡ nodes_in self }
    {
        Nodes {
            inner: self.inner,
            frames: self.frames,
        }
    }

    pub(crate) fn queue(self) -> Queue
        ensures { result ≡ queue_in self }
    {
        Queue {
            first: self.first,
            waiting: self.waiting,
        }
    }

    pub(crate) fn of(nodes: Nodes, queue: Queue) -> Marks
        ensures { result ≡ marks_of nodes queue }
    {
        Marks {
            inner: nodes.inner,
            frames: nodes.frames,
            first: queue.first,
            waiting: queue.waiting,
        }
    }

    // A level's start, with these in use.
    pub(crate) fn inside(self) -> Marks
        ensures { result ≡ inside self }
    {
        Marks {
            inner: 0,
            frames: self.frames,
            first: self.waiting,
            waiting: self.waiting,
        }
    }
}

// The node that is open here goes on the stack; one more node is open.
pub(crate) fn push_frame(stack: &mut [u32; STACK], marks: Marks, place: Place) -> Marks
    requires { (0 < place.children) × (0 < place.elements) × (marks.inner ≤ stack_places) × (marks.frames < stack_places) }
    ensures { FramePushed marks place stack.old stack.new result }
{
    let i = marks.frames;
    stack[i] = place.frame(marks.inner);
    marks.opened()
}

// The complement here, of so many bytes, goes on the stack; one more is put by.
pub(crate) fn push_complement(
    stack: &mut [u32; STACK],
    marks: Marks,
    place: Place,
    codes: usize,
) -> Marks
    requires { (0 < codes) × (place.at + codes ≤ longest_pattern) × (place.node ≤ longest_record) × (marks.waiting < stack_places) }
    ensures { ComplementPushed marks place codes stack.old stack.new result }
{
    let i = marks.waiting;
    stack[LAST - i] = place.complement(codes);
    marks.put_by()
}
