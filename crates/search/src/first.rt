// Levels that their first pair decides.
ghost use Rattle.search.specs.Inner.Replies.{Decides, DecidesInside};

use crate::Finding;
use parts::{PARTS, part_of};
use steps::stands;
use term::{Code, decode, entry_of, same_symbol};

// How the search of a level ends, where its first pair alone decides that: where the pattern has a symbol that is not the record's, or one without
// children that is.
pub(crate) fn first_pair(
    table: &[u8],
    classes: &[u8],
    pattern: &[u8],
    record: &[u8],
    node: usize,
    left: u32,
) -> Option<Finding>
    ensures { Decides table.now classes.now pattern.now «record».now node left result }
{
    if left == 0 || pattern.len() == 0 || record.len() <= node {
        return None;
    }
    let Code::Symbol(b) = decode(pattern[0]) else {
        return None;
    };
    if !same_symbol(classes, b, record[node]) {
        return Some(Finding::Failed);
    }
    if entry_of(table, b) == 0 {
        return Some(Finding::Found);
    }
    None
}

// So does a name, where a complement drops what it is assigned: an unassigned one takes the node, an assigned one must equal it.
fn name_pair(
    table: &[u8],
    classes: &[u8],
    pattern: &[u8],
    record: &[u8],
    parts: &[u64; PARTS],
    assigned: u64,
    node: usize,
    left: u32,
) -> Option<Finding>
    ensures { DecidesInside table.now classes.now pattern.now «record».now assigned parts.now node left result }
{
    if left == 0 || pattern.len() == 0 || record.len() <= node {
        return None;
    }
    let Code::Name(v) = decode(pattern[0]) else {
        return None;
    };
    let part = part_of(parts, assigned, v);
    if part.is_absent() {
        return Some(Finding::Found);
    }
    if part.elements != 1 {
        return None;
    }
    if stands(table, classes, record, part, &record[node..]) {
        return Some(Finding::Found);
    }
    Some(Finding::Failed)
}

// How the inside of a complement ends, where its first pair alone decides that.
pub(crate) fn at_once(
    table: &[u8],
    classes: &[u8],
    pattern: &[u8],
    record: &[u8],
    parts: &[u64; PARTS],
    assigned: u64,
    node: usize,
    left: u32,
) -> Option<Finding>
    ensures { DecidesInside table.now classes.now pattern.now «record».now assigned parts.now node left result }
{
    first_pair(table, classes, pattern, record, node, left).or_else(|| name_pair(
        table, classes, pattern, record, parts, assigned, node, left,
    ))
}
