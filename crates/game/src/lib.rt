// Loader and sender: what the loader can bring about in so many turns.
#![tactic(auto)]

ghost use Rattle.std.specs.Prelude.{◌≡◌, take, Ok};
ghost use Rattle.term.specs.Lent.{language_by};
ghost use Rattle.reader.specs.Lent.{brought_of};
ghost use Rattle.game.specs.Call.{side, trees, checked, play_of};
ghost use Rattle.game.specs.Demands.{Demanded};
ghost use Rattle.game.specs.Handed.{sheets, spoken, handed, handed_in, sheets_of, with};
ghost use Rattle.game.specs.Lent.{sheets_by, own};
ghost use Rattle.game.specs.Turns.{other, seen, Reaches, Turns, Moves, Follows, Begins, Plays, check_of, ChecksTemplates, CalledOn};

use answers::{Answer, Applied, Fault, Played, Refusal};
use matcher::ANSWER_WIDTH;
use reader::Brought;
use term::{LONGEST_RECORD, Language};

// The most turns of a game.
const MOST_TURNS: u32 = 6;

// Who moves.
#[derive(Clone, Copy, Debug, PartialEq, Eq)]
enum Side {
    Loader,
    Sender,
}

impl Side {
    fn other(self) -> Side
        ensures { result ≡ other self }
    {
        match self {
            Side::Loader => Side::Sender,
            Side::Sender => Side::Loader,
        }
    }

    // A state that is forced is settled for the loader, one that is not for the sender.
    fn seen(self, forced: bool) -> bool
        ensures { result ≡ seen self forced }
    {
        match self {
            Side::Loader => forced,
            Side::Sender => !forced,
        }
    }
}

// The sheet of a side's rules, and the one of their templates.
#[derive(Clone, Copy)]
struct Own<'a> {
    rules: &'a [u8],
    templates: &'a [u8],
}

// The sheets of both sides, and the goal.
#[derive(Clone, Copy)]
struct Sheets<'a> {
    loader: Own<'a>,
    sender: Own<'a>,
    goal: &'a [u8],
}

impl<'a> Sheets<'a> {
    fn of(
        loader: &'a [u8],
        loader_templates: &'a [u8],
        sender: &'a [u8],
        sender_templates: &'a [u8],
        goal: &'a [u8],
    ) -> Sheets<'a>
        ensures { sheets_by result ≡ sheets_of loader.now loader_templates.now sender.now sender_templates.now goal.now }
    {
        Sheets {
            loader: Own {
                rules: loader,
                templates: loader_templates,
            },
            sender: Own {
                rules: sender,
                templates: sender_templates,
            },
            goal,
        }
    }

    fn own(&self, side: Side) -> &Own<'a>
        ensures { result.now ≡ own side self.now }
    {
        match side {
            Side::Loader => &self.loader,
            Side::Sender => &self.sender,
        }
    }
}

// A game: its language, its sheets, and the allowance of each search.
#[derive(Clone, Copy)]
struct Game<'a> {
    language: Language<'a>,
    sheets: Sheets<'a>,
    allowance: u32,
}

// A search of the game is spent, which makes the whole spent.
#[derive(Clone, Copy, Debug, PartialEq, Eq)]
struct Spent;

// A move that settles a state for the side that makes it: by the rule of an index, or a pass.
#[derive(Clone, Copy, Debug, PartialEq, Eq)]
enum First {
    ByRule(usize),
    ByPass,
}

// The first n bytes, or all where there are fewer.
fn front(s: &[u8], n: usize) -> &[u8]
    ensures { result.now ≡ take n s.now }
{
    &s[..n.min(s.len())]
}

// Whether the goal holds of a state.
fn reaches(game: &Game<'_>, state: &[u8]) -> Result<bool, Spent>
    ensures { Reaches (language_by game.now.language) (sheets_by game.now.sheets) game.now.allowance state.now result }
{
    let Language { table, classes, .. } = game.language;
    let mut answer = [0u16; ANSWER_WIDTH];
    match matcher::match_checked(
        table,
        classes,
        game.sheets.goal,
        state,
        game.allowance,
        &mut answer,
    ) {
        Ok(Answer::Bound(_)) => Ok(true),
        Ok(Answer::None(_)) => Ok(false),
        Ok(Answer::Spent(_)) => Err(Spent),
        Err(_) => Ok(false),
    }
}

// Whether the goal is forced from a state at a side's turn, with so many turns left: the goal is tried before the moves.
#[cycle(turns)]
fn turn(game: &Game<'_>, side: Side, left: u32, state: &[u8]) -> Result<bool, Spent>
    ensures { Turns (language_by game.now.language) (sheets_by game.now.sheets) game.now.allowance side left state.now result }
{
    let reached = reaches(game, state)?;
    if reached {
        return Ok(true);
    }
    if left == 0 {
        return Ok(false);
    }
    let first = moves(game, side, left - 1, state)?;
    Ok(side.seen(first.is_some()))
}

// The first of a side's moves that settles a state for it, with so many turns left after it: one that forces the goal for the loader, one that
// doesn't for the sender. The rules are matched and followed one by one; whoever has no move passes.
#[cycle(turns)]
fn moves(game: &Game<'_>, side: Side, below: u32, state: &[u8]) -> Result<Option<First>, Spent>
    ensures { Moves (language_by game.now.language) (sheets_by game.now.sheets) game.now.allowance side below state.now result }
{
    let rules = usize::from(sheet::count(game.sheets.own(side).rules));
    let mut moved = false;
    for i in 0..rules {
        let Some(forced) = follow(game, side, below, i, state)? else {
            continue;
        };
        if side.seen(forced) {
            return Ok(Some(First::ByRule(i)));
        }
        moved = true;
    }
    if moved {
        return Ok(None);
    }
    let passed = turn(game, side.other(), below, state)?;
    if side.seen(passed) {
        return Ok(Some(First::ByPass));
    }
    Ok(None)
}

// Whether the goal is forced from the state that a side's rule of an index leads to, if it is a move: the turn of the other side follows.
#[cycle(turns)]
fn follow(
    game: &Game<'_>,
    side: Side,
    below: u32,
    i: usize,
    state: &[u8],
) -> Result<Option<bool>, Spent>
    ensures { Follows (language_by game.now.language) (sheets_by game.now.sheets) game.now.allowance side below i state.now result }
{
    let own = game.sheets.own(side);
    let rule = sheet::part_at(own.rules, i);
    let template = sheet::part_at(own.templates, i);
    let mut next = [0u8; LONGEST_RECORD];
    match replace::apply_checked(
        &game.language,
        rule,
        template,
        state,
        game.allowance,
        &mut next,
    ) {
        Ok(Applied::Bound(_, n)) => {
            let forced = turn(game, side.other(), below, front(&next, n))?;
            Ok(Some(forced))
        }
        Ok(Applied::None(_)) => Ok(None),
        Ok(Applied::Spent(_)) => Err(Spent),
        Err(_) => Ok(None),
    }
}

// The game from a state at the loader's turn, with so many turns left.
fn begin(game: &Game<'_>, turns: u32, state: &[u8]) -> Result<Played, Spent>
    ensures { Begins (language_by game.now.language) (sheets_by game.now.sheets) game.now.allowance turns state.now result }
{
    let reached = reaches(game, state)?;
    if reached {
        return Ok(Played::Unneeded);
    }
    if turns == 0 {
        return Ok(Played::None);
    }
    let Some(first) = moves(game, Side::Loader, turns - 1, state)? else {
        return Ok(Played::None);
    };
    match first {
        First::ByRule(i) => Ok(Played::ByRule(i)),
        First::ByPass => Ok(Played::ByPass),
    }
}

// What the loader can bring about from there.
fn play_game(game: &Game<'_>, turns: u32, state: &[u8]) -> Played
    ensures { Plays (language_by game.now.language) (sheets_by game.now.sheets) game.now.allowance turns state.now (Ok result) }
{
    match begin(game, turns, state) {
        Ok(played) => played,
        Err(Spent) => Played::Spent(game.allowance),
    }
}

// The game on bytes as they are: of sheets, a goal and a record that passed their checks in the loader's edition, with a class list that did, or
// an empty one, it is the game with every check.
pub fn play_checked(
    turns: u32,
    table: &[u8],
    classes: &[u8],
    loader: &[u8],
    loader_templates: &[u8],
    sender: &[u8],
    sender_templates: &[u8],
    goal: &[u8],
    state: &[u8],
    allowance: u32,
) -> Played
    ensures { Plays (spoken loader table classes) (sheets loader loader_templates sender sender_templates goal) allowance turns state.now (Ok result) }
{
    let game = Game {
        language: Language {
            edition: sheet::edition_of(loader),
            table,
            classes,
        },
        sheets: Sheets::of(loader, loader_templates, sender, sender_templates, goal),
        allowance,
    };
    play_game(&game, turns, state)
}

// The templates of as many rules, of sheets that are accepted: each as a pattern, then whether it is loose.
fn check_templates(language: &Language<'_>, rules: &[u8], templates: &[u8]) -> Result<(), Fault>
    ensures { ChecksTemplates (language_by language.now) rules.now templates.now result }
{
    let n = usize::from(sheet::count(templates));
    for i in 0..n {
        let rule = sheet::part_at(rules, i);
        let template = sheet::part_at(templates, i);
        if let Err(r) = reader::read_pattern_in(language, template) {
            return Err(Fault::at(r, i));
        }
        if replace::is_loose(language.table, rule, template) {
            return Err(Fault::at(Refusal::Loose, i));
        }
    }
    Ok(())
}

// The rules of one side, then their templates, all of the edition that the call brings.
fn check_side(brought: &Brought<'_>, own: &Own<'_>) -> Result<(), Fault>
    ensures { result ≡ check_of (side (brought_of brought.now) own.now.rules.now own.now.templates.now) }
{
    let rules = sheet::check_contents(false, Some(brought.edition), brought, own.rules)?;
    let templates = sheet::check_among(Some(brought.edition), own.templates)?;
    if templates != rules {
        return Err(Fault::at(Refusal::Directory, 0));
    }
    check_templates(&brought.language(), own.rules, own.templates)
}

// The sheets of both sides, the goal and the starting state.
fn check_trees(brought: &Brought<'_>, sheets: &Sheets<'_>, state: &[u8]) -> Result<(), Fault>
    ensures { result ≡ check_of (trees (with (brought_of brought.now) (sheets_by sheets.now)) state.now) }
{
    check_side(brought, &sheets.loader)?;
    check_side(brought, &sheets.sender)?;
    let language = brought.language();
    reader::read_pattern_in(&language, sheets.goal)?;
    reader::read_record_in(&language, state)?;
    Ok(())
}

// All checks in order.
fn check_input(
    turns: u32,
    brought: &Brought<'_>,
    sheets: &Sheets<'_>,
    state: &[u8],
) -> Result<(), Fault>
    ensures { result ≡ check_of (checked turns (with (brought_of brought.now) (sheets_by sheets.now)) state.now) }
{
    if MOST_TURNS < turns {
        return Err(Fault::at(Refusal::Turns, 0));
    }
    if !term::check_table(brought.table) {
        return Err(Fault::at(Refusal::Table, 0));
    }
    if !brought.accepts_list() {
        return Err(Fault::at(Refusal::Class, 0));
    }
    check_trees(brought, sheets, state)
}

// The game with every check, of what the call brings in the edition of its sheets.
fn play_brought(
    turns: u32,
    brought: &Brought<'_>,
    sheets: &Sheets<'_>,
    state: &[u8],
    allowance: u32,
) -> Result<Played, Fault>
    ensures { CalledOn turns (with (brought_of brought.now) (sheets_by sheets.now)) state.now allowance result }
{
    check_input(turns, brought, sheets, state)?;
    let game = Game {
        language: brought.language(),
        sheets: *sheets,
        allowance,
    };
    Ok(play_game(&game, turns, state))
}

// What the loader can bring about in so many turns, with every check. The loader's sheet tells the edition, for goal and record too.
pub fn play(
    turns: u32,
    table: &[u8],
    loader: &[u8],
    loader_templates: &[u8],
    sender: &[u8],
    sender_templates: &[u8],
    goal: &[u8],
    state: &[u8],
    allowance: u32,
) -> Result<Played, Fault>
    ensures is { result ≡ play_of turns (handed table loader loader_templates sender sender_templates goal) state.now allowance }
    ensures demand { Demanded turns (handed table loader loader_templates sender sender_templates goal) state.now allowance result }
{
    let brought = Brought {
        edition: sheet::edition_of(loader),
        table,
        list: None,
    };
    let sheets = Sheets::of(loader, loader_templates, sender, sender_templates, goal);
    play_brought(turns, &brought, &sheets, state, allowance)
}

// The same up to class, by a class list.
pub fn play_in(
    turns: u32,
    table: &[u8],
    classes: &[u8],
    loader: &[u8],
    loader_templates: &[u8],
    sender: &[u8],
    sender_templates: &[u8],
    goal: &[u8],
    state: &[u8],
    allowance: u32,
) -> Result<Played, Fault>
    ensures is { result ≡ play_of turns (handed_in table classes loader loader_templates sender sender_templates goal) state.now allowance }
    ensures demand { Demanded turns (handed_in table classes loader loader_templates sender sender_templates goal) state.now allowance result }
{
    let brought = Brought::bringing(sheet::edition_of(loader), table, classes);
    let sheets = Sheets::of(loader, loader_templates, sender, sender_templates, goal);
    play_brought(turns, &brought, &sheets, state, allowance)
}
