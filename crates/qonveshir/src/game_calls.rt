// Loader and sender.
ghost use Rattle.std.specs.Prelude.{◌≡◌, ◌≤◌};
ghost use Rattle.answers.specs.Answers.{played_index};
ghost use Rattle.game.specs.Handed.{handed, handed_in};
ghost use Rattle.qonveshir.specs.Shown.{largest};
ghost use Rattle.qonveshir.specs.Game.{played_shown, play_shown, Demands};

use crate::{Outcome, outcome_of};

// What the loader can bring about in so many turns.
#[unsafe(no_mangle)]
pub extern "C" fn qonveshir_play(
    turns: u32,
    table: &[u8],
    loader_rules: &[u8],
    loader_templates: &[u8],
    sender_rules: &[u8],
    sender_templates: &[u8],
    goal: &[u8],
    record: &[u8],
    allowance: u32,
) -> Outcome
    ensures is { result ≡ play_shown turns (handed table loader_rules loader_templates sender_rules sender_templates goal) «record» allowance }
    ensures demand { Demands turns (handed table loader_rules loader_templates sender_rules sender_templates goal) «record» allowance }
{
    outcome_of(game::play(
        turns,
        table,
        loader_rules,
        loader_templates,
        sender_rules,
        sender_templates,
        goal,
        record,
        allowance,
    ))
}

// The same up to class.
#[unsafe(no_mangle)]
pub extern "C" fn qonveshir_play_in(
    turns: u32,
    table: &[u8],
    classes: &[u8],
    loader_rules: &[u8],
    loader_templates: &[u8],
    sender_rules: &[u8],
    sender_templates: &[u8],
    goal: &[u8],
    record: &[u8],
    allowance: u32,
) -> Outcome
    ensures is { result ≡ play_shown turns (handed_in table classes loader_rules loader_templates sender_rules sender_templates goal) «record» allowance }
    ensures demand { Demands turns (handed_in table classes loader_rules loader_templates sender_rules sender_templates goal) «record» allowance }
{
    outcome_of(game::play_in(
        turns,
        table,
        classes,
        loader_rules,
        loader_templates,
        sender_rules,
        sender_templates,
        goal,
        record,
        allowance,
    ))
}
