// The kind of every code, as one constant: the list that rule editors are given. And its text.
#![tactic(auto)]

ghost use Rattle.std.specs.Prelude.{◌≡◌, ◌+◌, ◌≤◌, length};
ghost use Rattle.std.proofs.lemmas.List.Edits.{sets};
ghost use Rattle.term.specs.Code.{decode_of};
ghost use Rattle.output.specs.Field.{field};
ghost use Rattle.output.specs.Puts.{puts, past};
ghost use Rattle.kinds.specs.Kind.{range_kind, kind_of};
ghost use Rattle.kinds.specs.Codes.{kind_word, code_line, codes_room, code_list};

// What a code is in a pattern.
pub const SYMBOL: u8 = 0;

pub const NAME: u8 = 1;

pub const RUN: u8 = 2;

pub const COMPLEMENT: u8 = 3;

pub const REFUSED: u8 = 4;

// The codes of a byte.
pub const CODES: usize = 256;

// The bytes of their list.
pub const CODES_ROOM: usize = 2605;

// The kind of each code, from code 0 up.
pub const KINDS: [u8; CODES] = [
    SYMBOL, // 0
    SYMBOL, SYMBOL, SYMBOL, SYMBOL, SYMBOL, SYMBOL, SYMBOL, SYMBOL, SYMBOL, SYMBOL, SYMBOL, SYMBOL,
    SYMBOL, SYMBOL, SYMBOL, SYMBOL, SYMBOL, SYMBOL, SYMBOL, SYMBOL, SYMBOL, SYMBOL, SYMBOL, SYMBOL,
    SYMBOL, SYMBOL, SYMBOL, SYMBOL, SYMBOL, SYMBOL, SYMBOL, SYMBOL, SYMBOL, SYMBOL, SYMBOL, SYMBOL,
    SYMBOL, SYMBOL, SYMBOL, SYMBOL, SYMBOL, SYMBOL, SYMBOL, SYMBOL, SYMBOL, SYMBOL, SYMBOL, SYMBOL,
    SYMBOL, SYMBOL, SYMBOL, SYMBOL, SYMBOL, SYMBOL, SYMBOL, SYMBOL, SYMBOL, SYMBOL, SYMBOL, SYMBOL,
    SYMBOL, SYMBOL, SYMBOL, SYMBOL, SYMBOL, SYMBOL, SYMBOL, SYMBOL, SYMBOL, SYMBOL, SYMBOL, SYMBOL,
    SYMBOL, SYMBOL, SYMBOL, SYMBOL, SYMBOL, SYMBOL, SYMBOL, SYMBOL, SYMBOL, SYMBOL, SYMBOL, SYMBOL,
    SYMBOL, SYMBOL, SYMBOL, SYMBOL, SYMBOL, SYMBOL, SYMBOL, SYMBOL, SYMBOL, SYMBOL, SYMBOL, SYMBOL,
    SYMBOL, SYMBOL, SYMBOL, SYMBOL, SYMBOL, SYMBOL, SYMBOL, SYMBOL, SYMBOL, SYMBOL, SYMBOL, SYMBOL,
    SYMBOL, SYMBOL, SYMBOL, SYMBOL, SYMBOL, SYMBOL, SYMBOL, SYMBOL, SYMBOL, SYMBOL, SYMBOL, SYMBOL,
    SYMBOL, SYMBOL, SYMBOL, SYMBOL, SYMBOL, SYMBOL, SYMBOL, SYMBOL, SYMBOL, SYMBOL, SYMBOL, SYMBOL,
    SYMBOL, SYMBOL, SYMBOL, SYMBOL, SYMBOL, SYMBOL, SYMBOL, SYMBOL, SYMBOL, SYMBOL, SYMBOL, SYMBOL,
    SYMBOL, SYMBOL, SYMBOL, SYMBOL, SYMBOL, SYMBOL, SYMBOL, SYMBOL, SYMBOL, SYMBOL, SYMBOL, SYMBOL,
    SYMBOL, SYMBOL, SYMBOL, SYMBOL, SYMBOL, SYMBOL, SYMBOL, SYMBOL, SYMBOL, SYMBOL, SYMBOL, SYMBOL,
    SYMBOL, SYMBOL, SYMBOL, SYMBOL, SYMBOL, SYMBOL, SYMBOL, SYMBOL, SYMBOL, SYMBOL, SYMBOL, SYMBOL,
    SYMBOL, SYMBOL, SYMBOL, SYMBOL, SYMBOL, SYMBOL, SYMBOL, SYMBOL, SYMBOL, SYMBOL, SYMBOL, SYMBOL,
    SYMBOL, SYMBOL, SYMBOL, SYMBOL, SYMBOL, SYMBOL, SYMBOL, // 199
    NAME, // 200
    NAME, NAME, NAME, NAME, NAME, NAME, NAME, NAME, NAME, NAME, NAME, NAME, NAME, NAME, NAME, NAME,
    NAME, NAME, NAME, NAME, NAME, NAME, NAME, NAME, NAME, NAME, NAME, NAME, NAME, NAME, NAME, // 231
    RUN, // 232
    RUN, RUN, RUN, RUN, RUN, RUN, RUN, RUN, RUN, RUN, RUN, RUN, RUN, RUN, RUN, // 247
    COMPLEMENT, // 248
    REFUSED, // 249
    REFUSED, REFUSED, REFUSED, REFUSED, REFUSED, REFUSED, // 255
];

// The kind of a code: the constant's entry. It is that of the code's range, and that of what reading a pattern finds.
pub fn kind_of(code: u8) -> u8
    ensures range { result ≡ range_kind code }
    ensures read { result ≡ kind_of (decode_of code) }
{
    KINDS[code as usize]
}

// Puts the word of a kind, which ends its line, and answers where it ends.
fn put_kind(out: &mut [u8], at: usize, kind: u8) -> usize
    ensures out_value { out.new ≡ puts out.old at (field (kind_word kind) 10) }
    ensures value { result ≡ past out.old at (field (kind_word kind) 10) }
{
    match kind {
        SYMBOL => output::put_field(out, at, b"symbol", b'\n'),
        NAME => output::put_field(out, at, b"name", b'\n'),
        RUN => output::put_field(out, at, b"run", b'\n'),
        COMPLEMENT => output::put_field(out, at, b"complement", b'\n'),
        _ => output::put_field(out, at, b"refused", b'\n'),
    }
}

// Puts the line of a code, the code and its kind, and answers where it ends.
fn put_code(out: &mut [u8], at: usize, code: u8) -> usize
    requires { at + length (code_line code) ≤ length out.old }
    ensures out_value { out.new ≡ sets out.old at (code_line code) }
    ensures value { result ≡ at + length (code_line code) }
{
    let kind = kind_of(code);
    let end = output::put_decimal(out, at, code as u64, b' ');
    put_kind(out, end, kind)
}

// Puts the lines of all codes, from code 0 up.
fn put_each_code(out: &mut [u8])
    requires { length out.old ≡ codes_room }
    ensures { out.new ≡ sets out.old 0 code_list }
{
    let mut at: usize = 0;
    for code in 0..CODES {
        at = put_code(out, at, code as u8);
    }
}

// Puts the list of the codes, which fills the output.
pub fn put_codes(out: &mut [u8; CODES_ROOM])
    ensures { out.new ≡ code_list }
{
    put_each_code(out);
}
