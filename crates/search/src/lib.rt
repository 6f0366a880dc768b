// The search of one pattern on one record, on their bytes: found, failed or spent, the allowance left, and what each name is assigned.
//
// `place` and `marks` say where a level stands and what of the stack is in use. `walk` takes the pairs that leave no choice, `skip` passes over
// lengths that can't hold, `first` decides by a level's first pair, `halt` reports where a level stops. `level` is the cycle of levels, lengths
// and complements. `given` goes on after a given answer, `show` writes what is found.
#![tactic(auto)]

mod first;
mod given;
mod halt;
mod level;
mod marks;
pub mod place;
mod show;
mod skip;
mod walk;

ghost use Rattle.std.specs.Prelude.{◌≡◌};
ghost use Rattle.search.specs.Level.{end_of, search_of};
ghost use Rattle.search.specs.Following.{next_pass, followed_of, shown_pass};
ghost use Rattle.search.specs.Shown.{shown_in};
ghost use Rattle.search.specs.Inner.Replies.{turned};

use crate::first::first_pair;
use crate::given::{given_rest, left_of, spread};
use crate::level::start_level;
use crate::marks::{Marks, STACK};
use crate::place::Place;
use crate::show::{show_found, show_known, show_unassigned};
use parts::PARTS;
use term::{LONGEST_PATTERN, LONGEST_RECORD, VARIABLES};

// How a search ended.
#[derive(Clone, Copy, PartialEq, Eq)]
pub enum Finding {
    Found,
    Failed,
    Spent,
}

// How a search ended, and the allowance left.
#[derive(Clone, Copy)]
pub struct Ended {
    pub outcome: Finding,
    pub left: u32,
}

// How the search after a given answer ends, unknown where the lengths given belong to no answer; and what is left of the allowance.
#[derive(Clone, Copy)]
pub struct Followed {
    pub known: Option<Finding>,
    pub left: u32,
}

// A complement holds where the search of its inside fails.
fn opposite(outcome: Finding) -> Finding
    ensures { result ≡ turned outcome }
{
    match outcome {
        Finding::Found => Finding::Failed,
        Finding::Failed => Finding::Found,
        Finding::Spent => Finding::Spent,
    }
}

// The search of a whole pattern on a record, and what it finds in the answer buffer. A pattern or a record over its limit is never found.
pub fn search(
    table: &[u8],
    classes: &[u8],
    pattern: &[u8],
    record: &[u8],
    allowance: u32,
    answer: &mut [u16],
) -> Ended
    ensures is { result ≡ end_of (search_of table.now classes.now pattern.now «record».now allowance) }
    ensures shows { answer.new ≡ shown_in (search_of table.now classes.now pattern.now «record».now allowance) answer.old }
{
    if LONGEST_PATTERN < pattern.len() {
        return Ended {
            outcome: Finding::Failed,
            left: allowance,
        };
    }
    if LONGEST_RECORD < record.len() {
        return Ended {
            outcome: Finding::Failed,
            left: allowance,
        };
    }
    // No buffer is made where the first pair decides: most rules of a sheet fail there.
    if let Some(outcome) = first_pair(table, classes, pattern, record, 0, allowance) {
        show_unassigned(outcome, answer);
        return Ended {
            outcome,
            left: allowance - 1,
        };
    }
    let mut parts = [0u64; PARTS];
    let mut stack = [0u32; STACK];
    let mut assigned: u64 = 0;
    let mut left = allowance;
    let outcome = start_level(
        table,
        classes,
        pattern,
        record,
        &mut parts,
        &mut stack,
        &mut assigned,
        &mut left,
        Marks::NONE,
        Place::start(0),
    );
    show_found(outcome, &parts, assigned, answer);
    Ended { outcome, left }
}

// The answer after the one with the given run lengths, in order of the free run names; unknown where there is none of these lengths, or not one
// length for each free run name.
pub fn search_next(
    table: &[u8],
    classes: &[u8],
    pattern: &[u8],
    record: &[u8],
    given: &[u16],
    allowance: u32,
    answer: &mut [u16],
) -> Followed
    ensures is { result ≡ followed_of allowance (next_pass table.now classes.now pattern.now «record».now given.now allowance) }
    ensures shows { answer.new ≡ shown_pass (next_pass table.now classes.now pattern.now «record».now given.now allowance) answer.old }
{
    if LONGEST_PATTERN < pattern.len() {
        return Followed {
            known: None,
            left: allowance,
        };
    }
    if LONGEST_RECORD < record.len() {
        return Followed {
            known: None,
            left: allowance,
        };
    }
    let mut lengths = [0u16; VARIABLES];
    if !spread(table, pattern, given, &mut lengths) {
        return Followed {
            known: None,
            left: allowance,
        };
    }
    let mut parts = [0u64; PARTS];
    let mut stack = [0u32; STACK];
    let mut assigned: u64 = 0;
    let mut left = allowance;
    let known = given_rest(
        table,
        classes,
        pattern,
        record,
        &lengths,
        &mut parts,
        &mut stack,
        &mut assigned,
        &mut left,
        Marks::NONE,
        Place::start(0),
    );
    show_known(known, &parts, assigned, answer);
    Followed {
        known,
        left: left_of(known, left, allowance),
    }
}
