// The check for plain rules.
ghost use Rattle.std.specs.Prelude.{◌≡◌, false, ◌^◌, ◌<◌, ◌≤◌, length};
ghost use Rattle.std.specs.Int.Bits.{bit_or};
ghost use Rattle.term.specs.Code.{variables, VariableBelow};
ghost use Rattle.term.specs.Limits.{longest_pattern};
ghost use Rattle.plain.specs.Bytes.{run_code, SurelyPlain, weight_of, weights_of, root_bytes, look_variable, look_byte, look_list, look_symbol, look_of, LookWithin, plain_from};

use crate::runs::runs_among;
use parts::is_assigned;
use term::{Code, LIST, LONGEST_PATTERN};

// What the check finds at one node of a plain pattern: the variables seen after it, by mask, and the bytes of its own.
#[derive(Clone, Copy, Debug, PartialEq, Eq)]
pub struct Look {
    pub seen: u64,
    pub width: usize,
}

// The variable v in a mask too.
pub(crate) fn with(mask: u64, v: u8) -> u64
    requires { v < variables }
    ensures { result ≡ bit_or mask (2 ^ v) }
{
    mask | (1 << v)
}

fn run_here(code: Code) -> usize
    ensures { result ≡ run_code code }
{
    usize::from(matches!(code, Code::Run(_)))
}

// A list whose bytes start q: it has at most one run name.
fn look_list(table: &[u8], q: &[u8], seen: u64) -> Option<Look>
    ensures is { result ≡ look_list table.now q.now seen }
    ensures within { LookWithin q.now result }
{
    if q.len() < 2 {
        return None;
    }
    let runs = runs_among(table, &q[2..], q[1]);
    if 1 < runs.number {
        return None;
    }
    Some(Look { seen, width: 2 })
}

fn look_symbol(table: &[u8], q: &[u8], seen: u64, b: u8) -> Option<Look>
    requires { 0 < length q.now }
    ensures is { result ≡ look_symbol table.now q.now seen b }
    ensures within { LookWithin q.now result }
{
    if term::entry_of(table, b) == LIST {
        return look_list(table, q, seen);
    }
    Some(Look { seen, width: 1 })
}

// No variable comes twice.
fn look_variable(seen: u64, v: u8) -> Option<Look>
    requires { v < variables }
    ensures { result ≡ look_variable seen v }
{
    if is_assigned(seen, v) {
        return None;
    }
    Some(Look {
        seen: with(seen, v),
        width: 1,
    })
}

// A byte taken for a code, whether it is one or a number of children.
fn look_byte(code: Code, seen: u64) -> Option<Look>
    requires { VariableBelow code }
    ensures { result ≡ look_byte code seen }
{
    match code {
        Code::Symbol(_) => Some(Look { seen, width: 1 }),
        Code::Name(v) | Code::Run(v) => look_variable(seen, v),
        Code::Complement | Code::Refused => None,
    }
}

// The pattern node that starts q.
fn look_at(table: &[u8], q: &[u8], seen: u64) -> Option<Look>
    requires { 0 < length q.now }
    ensures is { result ≡ look_of table.now q.now seen }
    ensures within { LookWithin q.now result }
{
    match term::decode(q[0]) {
        Code::Symbol(b) => look_symbol(table, q, seen, b),
        Code::Name(v) | Code::Run(v) => look_variable(seen, v),
        Code::Complement | Code::Refused => None,
    }
}

fn weight(code: Code) -> u16
    ensures { result ≡ weight_of code }
{
    match code {
        Code::Symbol(_) => 0,
        Code::Name(_) | Code::Run(_) => 1,
        Code::Complement | Code::Refused => 2,
    }
}

// The weights of all bytes of s, whether codes or numbers of children: the compiler takes many at a time.
fn weights(s: &[u8]) -> u16
    requires { length s.now ≤ longest_pattern }
    ensures { result ≡ weights_of s.now }
{
    let mut found = 0;
    for b in s {
        found += weight(term::decode(*b));
    }
    found
}

fn root_bytes(table: &[u8], code: Code) -> usize
    ensures { result ≡ root_bytes table.now code }
{
    match code {
        Code::Symbol(b) if term::entry_of(table, b) == LIST => 2,
        _ => 0,
    }
}

// A pattern of no complement and one variable at most, by its bytes alone. The number of a list at the root, often a large one, is left out.
fn is_light(table: &[u8], pattern: &[u8]) -> bool
    ensures { SurelyPlain table.now pattern.now result }
{
    let n = pattern.len();
    if n == 0 {
        return false;
    }
    if LONGEST_PATTERN < n {
        return false;
    }
    if term::entry_of(table, pattern[n - 1]) == LIST {
        return false;
    }
    let own = root_bytes(table, term::decode(pattern[0]));
    weights(&pattern[own..]) < 2
}

// A pattern of no complement and one run name at most, with no variable twice, by its bytes alone: no list has two run names.
fn is_distinct(table: &[u8], pattern: &[u8]) -> bool
    ensures { SurelyPlain table.now pattern.now result }
{
    let n = pattern.len();
    if n == 0 {
        return false;
    }
    if term::entry_of(table, pattern[n - 1]) == LIST {
        return false;
    }
    let own = root_bytes(table, term::decode(pattern[0]));
    let mut seen = 0;
    let mut runs = 0;
    for b in &pattern[own..] {
        let code = term::decode(*b);
        let Some(look) = look_byte(code, seen) else {
            return false;
        };
        seen = look.seen;
        runs += run_here(code);
    }
    runs < 2
}

// Whether a pattern that passed its checks is plain.
pub(crate) fn is_plain(table: &[u8], pattern: &[u8]) -> bool
    ensures { result ≡ plain_from table.now pattern.now false 0 }
{
    if is_light(table, pattern) {
        return true;
    }
    if is_distinct(table, pattern) {
        return true;
    }
    let mut at = 0;
    let mut seen = 0;
    while at < pattern.len() {
        let Some(look) = look_at(table, &pattern[at..], seen) else {
            return false;
        };
        seen = look.seen;
        at += look.width;
    }
    true
}
