// What a rule can cost at most: the number of its nodes, unless it has run names.
#![tactic(auto)]

ghost use Rattle.std.specs.Prelude.{◌≡◌, false, ◌≤◌, length, Ok};
ghost use Rattle.term.specs.Limits.{longest_pattern};
ghost use Rattle.reader.specs.Brought.{simply, bringing};
ghost use Rattle.reader.specs.Lent.{brought_of};
ghost use Rattle.cost.specs.Call.{cost_of};
ghost use Rattle.cost.specs.Demands.{Demanded};
ghost use Rattle.cost.specs.Tally.{own_bytes, tally};

use answers::Refusal;
use reader::Brought;
use term::{Code, Edition};

// An allowance that is never spent on a pattern without run names.
pub const AMPLE: usize = term::LONGEST_PATTERN;

// The bytes of a node's own: its code's and, for a list, its number of children.
fn own_bytes(table: &[u8], b: u8) -> usize
    ensures { result ≡ own_bytes table.now b }
{
    if term::entry_of(table, b) == term::LIST {
        return 2;
    }
    1
}

// The nodes of a pattern that passed its checks, unless it has run names.
fn count_nodes(table: &[u8], pattern: &[u8]) -> Option<u32>
    requires { length pattern.now ≤ longest_pattern }
    ensures { Ok result ≡ tally table.now pattern.now false 0 }
{
    let mut nodes: u32 = 0;
    let mut at: usize = 0;
    while at < pattern.len() {
        let b = pattern[at];
        if matches!(term::decode(b), Code::Run(_)) {
            return None;
        }
        nodes += 1;
        at += own_bytes(table, b);
    }
    Some(nodes)
}

// What the match of a pattern can count at most, whatever the record and, for the next answer, the lengths that are given.
#[inline(always)]
fn cost_brought(brought: &Brought<'_>, pattern: &[u8]) -> Result<Option<u32>, Refusal>
    ensures is { result ≡ cost_of (brought_of brought.now) pattern.now }
    ensures demand { Demanded (brought_of brought.now) pattern.now result }
{
    if !term::check_table(brought.table) {
        return Err(Refusal::Table);
    }
    if !brought.accepts_list() {
        return Err(Refusal::Class);
    }
    reader::read_pattern_in(&brought.language(), pattern)?;
    Ok(count_nodes(brought.table, pattern))
}

// In edition 1, without a class list.
pub fn cost_of(table: &[u8], pattern: &[u8]) -> Result<Option<u32>, Refusal>
    ensures is { result ≡ cost_of (simply table.now) pattern.now }
    ensures demand { Demanded (simply table.now) pattern.now result }
{
    cost_brought(&Brought::simply(table), pattern)
}

// In an edition, with a class list.
pub fn cost_in(
    edition: Edition,
    table: &[u8],
    classes: &[u8],
    pattern: &[u8],
) -> Result<Option<u32>, Refusal>
    ensures is { result ≡ cost_of (bringing edition table.now classes.now) pattern.now }
    ensures demand { Demanded (bringing edition table.now classes.now) pattern.now result }
{
    cost_brought(&Brought::bringing(edition, table, classes), pattern)
}
