// The calls of the game. After the turns and its language a call has the loader's rules and templates, the sender's, the goal, the starting
// state and the allowance.
//
// An outcome in the simple form must be that with the list of single classes. The sheets tell the edition.
use answers::{Fault, Played};
use reader::Brought;
use vector_lines::forms::{self, Call, Told};
use vector_lines::shown::{self, Line};
use vector_lines::text::{Bytes, Fields};

#[derive(Drop)]
struct Game {
    turns: u32,
    loader: Bytes,
    loader_templates: Bytes,
    sender: Bytes,
    sender_templates: Bytes,
    goal: Bytes,
    state: Bytes,
    allowance: u32,
}

impl Game {
    fn read(turns: u32, fields: &mut Fields<'_>) -> Option<Game> {
        Some(Game {
            turns,
            loader: fields.bytes()?,
            loader_templates: fields.bytes()?,
            sender: fields.bytes()?,
            sender_templates: fields.bytes()?,
            goal: fields.bytes()?,
            state: fields.bytes()?,
            allowance: fields.number()?,
        })
    }

    fn play(&self, brought: &Brought<'_>) -> Result<Played, Fault> {
        let table = brought.table;
        match brought.list {
            None => game::play(
                self.turns,
                table,
                self.loader.as_slice(),
                self.loader_templates.as_slice(),
                self.sender.as_slice(),
                self.sender_templates.as_slice(),
                self.goal.as_slice(),
                self.state.as_slice(),
                self.allowance,
            ),
            Some(classes) => game::play_in(
                self.turns,
                table,
                classes,
                self.loader.as_slice(),
                self.loader_templates.as_slice(),
                self.sender.as_slice(),
                self.sender_templates.as_slice(),
                self.goal.as_slice(),
                self.state.as_slice(),
                self.allowance,
            ),
        }
    }
}

impl Call for Game {
    fn once(&self, brought: &Brought<'_>, _stated: Fields<'_>) -> Line {
        shown::show_played(self.play(brought))
    }
}

// A game in its simple form, or with a class list after the table.
pub fn answer(brings: bool, mut fields: Fields<'_>, stated: Fields<'_>) -> Option<Line> {
    let turns = fields.number()?;
    let told = if brings {
        Told::by_class(&mut fields)?
    } else {
        Told::simply(&mut fields)?
    };
    let game = Game::read(turns, &mut fields)?;
    fields.end()?;
    Some(forms::show(&game, &told, stated))
}
