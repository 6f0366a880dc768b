// The run names of a list.
ghost use Rattle.std.specs.Prelude.{◌≡◌, ◌<◌, ◌≤◌, length};
ghost use Rattle.term.specs.Code.{variables};
ghost use Rattle.term.specs.Extent.{extent_of};
ghost use Rattle.plain.specs.Bytes.{also_run, runs_among, no_runs, is_leaf};

use term::Code;

// How many run names there are, and the variable of the last of them.
#[derive(Clone, Copy, Debug, PartialEq, Eq)]
pub struct Runs {
    pub number: u8,
    pub variable: u8,
}

// One run name more, where the code is one.
fn also_run(code: Code, found: Runs) -> Runs
    requires { found.number < 255 }
    ensures { result ≡ also_run code found }
{
    match code {
        Code::Run(variable) => Runs {
            number: found.number + 1,
            variable,
        },
        _ => found,
    }
}

// The bytes of the tree that starts s; most children are one byte.
fn tree_bytes(table: &[u8], s: &[u8]) -> usize
    requires { 0 < length s.now }
    ensures is { result ≡ extent_of table.now s.now }
    ensures within { result ≤ length s.now }
{
    if term::entry_of(table, s[0]) == 0 {
        return 1;
    }
    term::extent(table, s)
}

// Whether a code is a symbol without children.
pub(crate) fn is_leaf(table: &[u8], code: Code) -> bool
    ensures { result ≡ is_leaf table.now code }
{
    match code {
        Code::Symbol(b) => term::entry_of(table, b) == 0,
        _ => false,
    }
}

// The run names among the first n trees of s, which are children of one node.
pub(crate) fn runs_among(table: &[u8], s: &[u8], n: u8) -> Runs
    ensures is { result ≡ runs_among table.now s.now n no_runs }
    ensures few { (result.number ≤ n) × (result.variable < variables) }
{
    let mut found = Runs {
        number: 0,
        variable: 0,
    };
    let mut at = 0;
    for i in 0..n {
        if s.len() <= at {
            return found;
        }
        let code = term::decode(s[at]);
        if is_leaf(table, code) {
            at += 1;
            continue;
        }
        found = also_run(code, found);
        at += tree_bytes(table, &s[at..]);
    }
    found
}
