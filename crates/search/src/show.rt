// What is found, in the answer buffer.
ghost use Rattle.std.specs.Prelude.{◌≡◌, replicate};
ghost use Rattle.answers.specs.Part.{absent};
ghost use Rattle.term.specs.Code.{variables};
ghost use Rattle.parts.specs.Packed.{parts_in};
ghost use Rattle.search.specs.Following.{shown_known};
ghost use Rattle.search.specs.Shown.{shown_by};

use crate::Finding;
use parts::{PARTS, show, show_absent};

// What is found is shown, with all that is assigned or with nothing.
pub(crate) fn show_found(outcome: Finding, parts: &[u64; PARTS], assigned: u64, answer: &mut [u16])
    ensures { answer.new ≡ shown_by outcome (parts_in assigned parts.now 0 variables) answer.old }
{
    if outcome == Finding::Found {
        show(parts, assigned, answer);
    }
}

pub(crate) fn show_unassigned(outcome: Finding, answer: &mut [u16])
    ensures { answer.new ≡ shown_by outcome (replicate variables absent) answer.old }
{
    if outcome == Finding::Found {
        show_absent(answer);
    }
}

// What the search after a given answer finds is shown as that of the first.
pub(crate) fn show_known(
    known: Option<Finding>,
    parts: &[u64; PARTS],
    assigned: u64,
    answer: &mut [u16],
)
    ensures { answer.new ≡ shown_known known (parts_in assigned parts.now 0 variables) answer.old }
{
    if let Some(outcome) = known {
        show_found(outcome, parts, assigned, answer);
    }
}
