// What reading and writing bytes answers beside a length: the place of an entry.
#![tactic(auto)]

ghost use Rattle.std.specs.Prelude.{◌≡◌};
ghost use Rattle.answers.specs.Shown.{nothing};
ghost use Rattle.byte_answers.specs.Answers.{place_at};

use answers::Shown;

// Where an entry lies in its sheet: offset and length in bytes.
#[derive(Clone, Copy, Debug, PartialEq, Eq)]
pub struct Place {
    pub offset: u16,
    pub length: u16,
}

impl Place {
    pub fn at(offset: u16, length: u16) -> Place
        ensures { result ≡ place_at offset length }
    {
        Place { offset, length }
    }
}

impl Shown for Place {
    ghost shown_number = { nothing };

    ghost shown_index = { nothing };

    ghost shown_count = { λ p. p.length };

    ghost most_shown = { 65535 };

    fn number(self) -> u8 {
        0
    }

    fn index(self) -> usize {
        0
    }

    fn count(self) -> u64 {
        u64::from(self.length)
    }
}
