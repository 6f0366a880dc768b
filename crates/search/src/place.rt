// Where the search of a level stands in pattern and record.
ghost use Rattle.std.specs.Prelude.{◌≡◌, ◌+◌, ◌-◌, ◌≤◌, ◌<◌};
ghost use Rattle.term.specs.Limits.{longest_record, longest_pattern};
ghost use Rattle.search.specs.State.{place, remaining_in, next_in, place_from, remaining, put_by, place_past, entered, reopened};
ghost use Rattle.search.specs.Inner.Memory.{stack_places, frame_in, outer, put_by_in};
ghost use Rattle.search.specs.Inner.Skips.{behind_in};

// Where the search of a level stands: what is left of the innermost open node, child patterns and elements of the record, and the next byte of
// the pattern and of the record.
#[derive(Clone, Copy)]
pub struct Place {
    pub children: u8,
    pub elements: u8,
    pub at: usize,
    pub node: usize,
}

// `level` takes a place in halves, as it takes marks.

// What is left of the innermost open node.
#[derive(Clone, Copy)]
pub struct Remaining {
    pub children: u8,
    pub elements: u8,
}

// The next byte of the pattern and of the record.
#[derive(Clone, Copy)]
pub struct Next {
    pub at: usize,
    pub node: usize,
}

impl Place {
    // Past a child of the pattern that holds of so many elements.
    pub(crate) fn passed(self, elements: u8, codes: usize, size: usize) -> Place
        requires { (0 < self.children) × (elements ≤ self.elements) × (self.at + codes ≤ longest_pattern) × (self.node + size ≤ longest_record) }
        ensures { result ≡ place_past self elements codes size }
    {
        Place {
            children: self.children - 1,
            elements: self.elements - elements,
            at: self.at + codes,
            node: self.node + size,
        }
    }

    // Into the children of a node, past its own bytes.
    pub(crate) fn entered(self, children: u8, elements: u8, width: usize) -> Place
        requires { (self.at + width ≤ longest_pattern) × (self.node + width ≤ longest_record) }
        ensures { result ≡ entered self children elements width }
    {
        Place {
            children,
            elements,
            at: self.at + width,
            node: self.node + width,
        }
    }

    // Back to what is left of the node around it.
    pub(crate) fn reopened(self, f: u32) -> Place
        ensures { result ≡ reopened self (frame_in f) }
    {
        Place {
            children: (f % 256) as u8,
            elements: (f / 256 % 256) as u8,
            at: self.at,
            node: self.node,
        }
    }

    // What is left of the node that is open here, once a child of it is entered, and the link to the one around it.
    pub(crate) fn frame(self, inner: usize) -> u32
        requires { (0 < self.children) × (0 < self.elements) × (inner ≤ stack_places) }
        ensures { (frame_in result ≡ remaining (self.children - 1) (self.elements - 1)) × (outer result ≡ inner) }
    {
        ((self.children - 1) as usize + 256 * (self.elements - 1) as usize + 65536 * inner) as u32
    }

    // The complement here, of so many bytes.
    pub(crate) fn complement(self, codes: usize) -> u32
        requires { (0 < codes) × (self.at + codes ≤ longest_pattern) × (self.node ≤ longest_record) }
        ensures { put_by_in result ≡ put_by self.at (codes - 1) self.node }
    {
        (self.at + 256 * (codes - 1) + 65536 * self.node) as u32
    }

    // A level's start: one pattern node against the record node at a place.
    pub(crate) fn start(node: usize) -> Place
        ensures { result ≡ place 1 1 0 node }
    {
        Place {
            children: 1,
            elements: 1,
            at: 0,
            node,
        }
    }

    // Its halves, and both together.
    pub(crate) fn remaining(self) -> Remaining
        ensures { result ≡ remaining_in self }
    {
        Remaining {
            children: self.children,
            elements: self.elements,
        }
    }

    pub(crate) fn next(self) -> Next
        ensures { result ≡ next_in self }
    {
        Next {
            at: self.at,
            node: self.node,
        }
    }

    pub(crate) fn of(remaining: Remaining, next: Next) -> Place
        ensures { result ≡ place_from remaining next }
    {
        Place {
            children: remaining.children,
            elements: remaining.elements,
            at: next.at,
            node: next.node,
        }
    }

    // Behind so many elements more, which end at a byte.
    pub(crate) fn behind(self, elements: u8, node: usize) -> Place
        requires { elements ≤ self.elements }
        ensures { result ≡ behind_in self elements node }
    {
        Place {
            children: self.children,
            elements: self.elements - elements,
            at: self.at,
            node,
        }
    }
}
