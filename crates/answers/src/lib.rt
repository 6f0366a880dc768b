// What a match answers, with the numbers of documents 01 and 02: refusals, parts of a record, the answers of a pattern, of a rule sheet, of a
// template and of the game of loader and sender; and how each is shown in numbers.
#![tactic(auto)]

ghost use Rattle.std.specs.Prelude.{◌≡◌, ◌≤◌, ◌+◌, ℕ, Ok};
ghost use Rattle.answers.specs.Refusal.{number_of};
ghost use Rattle.answers.specs.Fault.{fault_at};
ghost use Rattle.answers.specs.Part.{is_absent, bound_part};
ghost use Rattle.answers.specs.Shown.{nothing, largest_u32, largest_u64, of_result};
ghost use Rattle.answers.specs.Answers.{cost_number, cost_count, answer_number, answer_count, rule_number, rule_index, rule_count, applied_number, applied_count, applied_length, played_number, played_index, played_count};

// The offset of the absent mark: no part within the longest record has it.
const NOWHERE: u16 = 65535;

// Why an input is refused, with document 01's number.
#[derive(Clone, Copy, Debug, PartialEq, Eq)]
pub enum Refusal {
    Table = 1,
    Short = 2,
    Spare = 3,
    BadCode = 4,
    Deep = 5,
    Long = 6,
    Stray = 7,
    Narrow = 8,
    Directory = 9,
    Full = 12,
    Unread = 13,
    Class = 14,
    Unknown = 15,
    Unspliced = 16,
    Length = 17,
    Loose = 18,
    Outgrown = 19,
    NoName = 20,
    Shelf = 21,
    NoExample = 22,
    NotPlain = 23,
    Turns = 24,
}

// A refusal, and the index of the entry at fault, 0 where no entry is meant.
#[derive(Clone, Copy, Debug, PartialEq, Eq)]
pub struct Fault {
    pub refusal: Refusal,
    pub index: usize,
}

impl Fault {
    pub fn at(refusal: Refusal, index: usize) -> Fault
        ensures { result ≡ fault_at refusal index }
    {
        Fault { refusal, index }
    }
}

impl From<Refusal> for Fault {
    ghost from_gives = { λ r f. f ≡ fault_at r 0 };

    fn from(refusal: Refusal) -> Fault {
        Fault { refusal, index: 0 }
    }
}

// A part of a record: offset and length in bytes, and the number of its elements.
#[derive(Clone, Copy, Debug, PartialEq, Eq)]
pub struct Part {
    pub offset: u16,
    pub length: u16,
    pub elements: u8,
}

impl Part {
    // The absent mark.
    pub const ABSENT: Part = Part {
        offset: NOWHERE,
        length: 0,
        elements: 0,
    };

    // A part that a name or a run name is bound to.
    pub fn bound(offset: usize, length: usize, elements: u8) -> Part
        ensures { result ≡ bound_part offset length elements }
    {
        Part {
            offset: (offset % 65536) as u16,
            length: (length % 65536) as u16,
            elements,
        }
    }

    pub fn is_absent(self) -> bool
        ensures { result ≡ is_absent self }
    {
        self.offset == NOWHERE
    }
}

// How an answer is shown in numbers.
pub trait Shown {
    ghost shown_number: { Self → ℕ };

    ghost shown_index: { Self → ℕ };

    ghost shown_count: { Self → ℕ };

    // The largest count.
    ghost most_shown: { ℕ };

    // Document 01's number: 0 where nothing is refused, 10 none, 11 spent.
    fn number(self) -> u8
        ensures { result ≡ shown_number self };

    // The index of the rule that is shown or of the entry that is refused; else 0.
    fn index(self) -> usize
        ensures { result ≡ shown_index self };

    // The count, or the length of what was read or written; a refusal shows 0.
    fn count(self) -> u64
        ensures is { result ≡ shown_count self }
        ensures within { result ≤ most_shown };
}

impl Shown for () {
    ghost shown_number = { nothing };

    ghost shown_index = { nothing };

    ghost shown_count = { nothing };

    ghost most_shown = { 0 };

    fn number(self) -> u8 {
        0 // done
    }

    fn index(self) -> usize {
        0
    }

    fn count(self) -> u64 {
        0
    }
}

// A length, or a number of entries.
impl Shown for usize {
    ghost shown_number = { nothing };

    ghost shown_index = { nothing };

    ghost shown_count = { λ n. n };

    ghost most_shown = { largest_u64 };

    fn number(self) -> u8 {
        0 // read, written or accepted
    }

    fn index(self) -> usize {
        0
    }

    fn count(self) -> u64 {
        self as u64
    }
}

// What a count can be at most; `None` where there is no such bound.
impl Shown for Option<u32> {
    ghost shown_number = { λ a. cost_number (Ok a) };

    ghost shown_index = { nothing };

    ghost shown_count = { λ a. cost_count (Ok a) };

    ghost most_shown = { largest_u32 };

    fn number(self) -> u8 {
        match self {
            Some(_) => 0,
            None => NONE,
        }
    }

    fn index(self) -> usize {
        0
    }

    fn count(self) -> u64 {
        match self {
            Some(n) => u64::from(n),
            None => 0,
        }
    }
}

impl Shown for Refusal {
    ghost shown_number = { number_of };

    ghost shown_index = { nothing };

    ghost shown_count = { nothing };

    ghost most_shown = { 0 };

    fn number(self) -> u8 {
        self as u8
    }

    fn index(self) -> usize {
        0
    }

    fn count(self) -> u64 {
        0 // a refusal counts nothing
    }
}

impl Shown for Fault {
    ghost shown_number = { λ f. number_of f.refusal };

    ghost shown_index = { λ f. f.index };

    ghost shown_count = { nothing };

    ghost most_shown = { 0 };

    fn number(self) -> u8 {
        self.refusal as u8
    }

    fn index(self) -> usize {
        self.index
    }

    fn count(self) -> u64 {
        0 // nor does one at an entry
    }
}

impl<T: Shown, E: Shown> Shown for Result<T, E> {
    ghost shown_number = { of_result T.shown_number E.shown_number };

    ghost shown_index = { of_result T.shown_index E.shown_index };

    ghost shown_count = { of_result T.shown_count E.shown_count };

    ghost most_shown = { T.most_shown + E.most_shown };

    fn number(self) -> u8 {
        match self {
            Ok(answer) => answer.number(),
            Err(refused) => refused.number(),
        }
    }

    fn index(self) -> usize {
        match self {
            Ok(answer) => answer.index(),
            Err(refused) => refused.index(),
        }
    }

    fn count(self) -> u64 {
        match self {
            Ok(answer) => answer.count(),
            Err(refused) => refused.count(),
        }
    }
}

// The numbers of none and spent.
const NONE: u8 = 10;

const SPENT: u8 = 11;

// Bound, none or spent, with the count.
#[derive(Clone, Copy, Debug, PartialEq, Eq)]
pub enum Answer {
    Bound(u32),
    None(u32),
    Spent(u32),
}

impl Shown for Answer {
    ghost shown_number = { λ a. answer_number (Ok a) };

    ghost shown_index = { nothing };

    ghost shown_count = { λ a. answer_count (Ok a) };

    ghost most_shown = { largest_u32 };

    fn number(self) -> u8 {
        match self {
            Answer::Bound(_) => 0,
            Answer::None(_) => NONE,
            Answer::Spent(_) => SPENT,
        }
    }

    fn index(self) -> usize {
        0
    }

    fn count(self) -> u64 {
        match self {
            Answer::Bound(n) | Answer::None(n) | Answer::Spent(n) => u64::from(n),
        }
    }
}

// Bound at a rule, none, or spent at a rule, with the sum of counts so far.
#[derive(Clone, Copy, Debug, PartialEq, Eq)]
pub enum RuleAnswer {
    Bound(usize, u64),
    None(u64),
    Spent(usize, u64),
}

impl Shown for RuleAnswer {
    ghost shown_number = { λ a. rule_number (Ok a) };

    ghost shown_index = { λ a. rule_index (Ok a) };

    ghost shown_count = { λ a. rule_count (Ok a) };

    ghost most_shown = { largest_u64 };

    fn number(self) -> u8 {
        match self {
            RuleAnswer::Bound(_, _) => 0,
            RuleAnswer::None(_) => NONE,
            RuleAnswer::Spent(_, _) => SPENT,
        }
    }

    // None shows 0.
    fn index(self) -> usize {
        match self {
            RuleAnswer::Bound(i, _) | RuleAnswer::Spent(i, _) => i,
            RuleAnswer::None(_) => 0,
        }
    }

    fn count(self) -> u64 {
        match self {
            RuleAnswer::Bound(_, n) | RuleAnswer::None(n) | RuleAnswer::Spent(_, n) => n,
        }
    }
}

// Bound, with the count and the length of the result; none or spent, with the count.
#[derive(Clone, Copy, Debug, PartialEq, Eq)]
pub enum Applied {
    Bound(u32, usize),
    None(u32),
    Spent(u32),
}

impl Applied {
    // The length of the result; 0 unless bound.
    pub fn length(self) -> usize
        ensures { result ≡ applied_length (Ok self) }
    {
        match self {
            Applied::Bound(_, n) => n,
            Applied::None(_) | Applied::Spent(_) => 0,
        }
    }
}

impl Shown for Applied {
    ghost shown_number = { λ a. applied_number (Ok a) };

    ghost shown_index = { nothing };

    ghost shown_count = { λ a. applied_count (Ok a) };

    ghost most_shown = { largest_u32 };

    fn number(self) -> u8 {
        match self {
            Applied::Bound(_, _) => 0,
            Applied::None(_) => NONE,
            Applied::Spent(_) => SPENT,
        }
    }

    fn index(self) -> usize {
        0
    }

    fn count(self) -> u64 {
        match self {
            Applied::Bound(n, _) | Applied::None(n) | Applied::Spent(n) => u64::from(n),
        }
    }
}

// Where the loader needs no move, and where it passes, these are shown in place of a rule's index, which is below 64.
pub const NO_MOVE: usize = 64;

pub const PASS: usize = 65;

// Forced, where no move is needed, by the loader's first rule of an index, or by a pass; none; or spent, with the allowance.
#[derive(Clone, Copy, Debug, PartialEq, Eq)]
pub enum Played {
    Unneeded,
    ByRule(usize),
    ByPass,
    None,
    Spent(u32),
}

impl Shown for Played {
    ghost shown_number = { λ a. played_number (Ok a) };

    ghost shown_index = { λ a. played_index (Ok a) };

    ghost shown_count = { λ a. played_count (Ok a) };

    ghost most_shown = { largest_u32 };

    fn number(self) -> u8 {
        match self {
            Played::Unneeded | Played::ByRule(_) | Played::ByPass => 0,
            Played::None => NONE,
            Played::Spent(_) => SPENT,
        }
    }

    // How the loader begins, where it is forced.
    fn index(self) -> usize {
        match self {
            Played::Unneeded => NO_MOVE,
            Played::ByRule(i) => i,
            Played::ByPass => PASS,
            Played::None | Played::Spent(_) => 0,
        }
    }

    // The allowance, where it is spent; else 0.
    fn count(self) -> u64 {
        match self {
            Played::Spent(n) => u64::from(n),
            Played::Unneeded | Played::ByRule(_) | Played::ByPass | Played::None => 0,
        }
    }
}
