// What a search keeps of the variables, a bit and a number for each, and what it shows of them in an answer buffer.
#![tactic(auto)]

ghost use Rattle.std.specs.Prelude.{◌≡◌, ◌++◌, ◌%◌, ◌^◌, ◌≤◌, ◌<◌, length, drop, replicate};
ghost use Rattle.answers.specs.Part.{absent};
ghost use Rattle.term.specs.Code.{variables};
ghost use Rattle.parts.specs.Packed.{bit, packed, unpacked, part_of, parts_in};
ghost use Rattle.parts.specs.Shown.{answer_width, numbers, set_entry, shown_parts};

use answers::Part;
use term::{NAMES, VARIABLES};

// The numbers that a variable is shown with: offset, length and number of terms.
pub const ENTRY_WIDTH: usize = 3;

// The numbers of an answer.
pub const ANSWER_WIDTH: usize = ENTRY_WIDTH * VARIABLES;

// A number for each variable, and three that a search may use.
pub const PARTS: usize = VARIABLES + 3;

// The bits of a mask.
const BITS: u8 = 64;

// A mask of names only is below this.
const NAMES_END: u64 = 1 << NAMES;

// A mask of names and run names is below this.
const VARIABLES_END: u64 = 1 << VARIABLES;

// Whether the variable v is assigned.
pub fn is_assigned(assigned: u64, v: u8) -> bool
    ensures { result ≡ bit assigned v }
{
    if BITS <= v {
        return false;
    }
    (assigned >> v) % 2 == 1
}

// A part as one number, and back. (No `From`: neither type is of this crate. A search lengthens a part by adding to its number.)
pub fn packed(p: Part) -> u64
    ensures { result ≡ packed p }
{
    p.offset as u64 + 65536 * p.length as u64 + 4294967296 * p.elements as u64
}

pub fn unpacked(x: u64) -> Part
    ensures { result ≡ unpacked x }
{
    Part {
        offset: (x % 65536) as u16,
        length: (x / 65536 % 65536) as u16,
        elements: (x / 4294967296 % 256) as u8,
    }
}

// What the variable v is assigned. The compiler drops the test of v where it is the variable of a code.
pub fn part_of(parts: &[u64; PARTS], assigned: u64, v: u8) -> Part
    ensures { result ≡ part_of assigned parts.now v }
{
    let i = usize::from(v);
    if VARIABLES <= i {
        return Part::ABSENT;
    }
    if is_assigned(assigned, v) {
        return unpacked(parts[i]);
    }
    Part::ABSENT
}

// The entry of a variable.
fn put_entry(p: Part, v: usize, answer: &mut [u16])
    requires v_lt_variables { v < variables }
    requires answer_width_in_bounds { answer_width ≤ length answer.old }
    ensures { answer.new ≡ set_entry answer.old v p }
{
    let at = ENTRY_WIDTH * v;
    answer[at] = p.offset;
    answer[at + 1] = p.length;
    answer[at + 2] = p.elements as u16;
}

// Absent marks for every name and run name.
fn clear(answer: &mut [u16])
    requires { answer_width ≤ length answer.old }
    ensures { answer.new ≡ numbers (replicate variables absent) ++ drop answer_width answer.old }
{
    for v in 0..VARIABLES {
        put_entry(Part::ABSENT, v, answer);
    }
}

// The entries of what the variables of this mask are assigned, where those below `first` are shown and the others have absent marks.
fn show_from(parts: &[u64; PARTS], assigned: u64, first: u8, answer: &mut [u16])
    requires assigned_bound { assigned < 2 ^ variables }
    requires first_le_variables { first ≤ variables }
    requires answer_width_in_bounds { answer_width ≤ length answer.old }
    requires answer_value { answer.old ≡ numbers (parts_in (assigned % 2 ^ first) parts.now 0 variables) ++ drop answer_width answer.old }
    ensures { answer.new ≡ numbers (parts_in assigned parts.now 0 variables) ++ drop answer_width answer.old }
{
    for v in first..BITS {
        if assigned >> v == 0 {
            break;
        }
        put_entry(part_of(parts, assigned, v), usize::from(v), answer);
    }
}

// Absent marks in a buffer of `ANSWER_WIDTH` numbers or more. All else stays.
pub fn show_absent(answer: &mut [u16])
    ensures { answer.new ≡ shown_parts (replicate variables absent) answer.old }
{
    if answer.len() < ANSWER_WIDTH {
        return;
    }
    clear(answer);
}

// An entry for each name and run name in a buffer of `ANSWER_WIDTH` numbers or more, absent marks for those that are not assigned. All else
// stays.
pub fn show(parts: &[u64; PARTS], assigned: u64, answer: &mut [u16])
    ensures { answer.new ≡ shown_parts (parts_in assigned parts.now 0 variables) answer.old }
{
    if answer.len() < ANSWER_WIDTH {
        return;
    }
    clear(answer);
    show_from(parts, assigned % NAMES_END, 0, answer);
    show_from(parts, assigned % VARIABLES_END, NAMES, answer);
}
