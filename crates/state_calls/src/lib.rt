// The lines of the calls that make states: replacement, the least example, the station and the game. A call has its language first, if it takes one,
// a game its turns.
//
// An outcome in the simple form must be that with the list of single classes, and one of edition 1 that of edition 2 where the call is the
// same there.
#![tactic(auto)]

mod examples;
mod games;
mod replacements;
mod stations;

use examples::Example;
use vector_lines::forms::{self, Call, Told};
use vector_lines::shown::Line;
use vector_lines::text::Fields;

// The outcome of a call of which all fields are read.
fn show<C: Call + Drop>(
    call: C,
    told: &Told,
    fields: Fields<'_>,
    stated: Fields<'_>,
) -> Option<Line> {
    fields.end()?;
    Some(forms::show(&call, told, stated))
}

// A call by the name of its simple form, with the fields after its language.
fn in_language(
    name: &[u8],
    told: &Told,
    mut fields: Fields<'_>,
    stated: Fields<'_>,
) -> Option<Line> {
    match name {
        b"apply" => show(
            replacements::Apply::read(&mut fields)?,
            told,
            fields,
            stated,
        ),
        b"look" => show(replacements::Look::read(&mut fields)?, told, fields, stated),
        b"example" => show(Example::read(&mut fields)?, told, fields, stated),
        b"station_new" => show(stations::New::read(&mut fields)?, told, fields, stated),
        b"station_apply" => show(stations::Apply::read(&mut fields)?, told, fields, stated),
        _ => None,
    }
}

// What is answered to the call of this name, none where there is no such call or its fields can't be read.
pub fn answer(name: &[u8], mut fields: Fields<'_>, stated: Fields<'_>) -> Option<Line> {
    match name {
        b"play" => return games::answer(false, fields, stated),
        b"play_in" => return games::answer(true, fields, stated),
        b"station_keep" => return stations::move_record(true, fields, stated),
        b"station_return" => return stations::move_record(false, fields, stated),
        _ => {}
    }
    match name.strip_suffix(b"_in") {
        Some(call) => {
            let told = Told::in_edition(&mut fields)?;
            in_language(call, &told, fields, stated)
        }
        None => {
            let told = Told::simply(&mut fields)?;
            in_language(name, &told, fields, stated)
        }
    }
}
