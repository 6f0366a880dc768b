// Bytes, fields and numbers in decimal, put into a lent buffer from a place on: whole, or not at all where the buffer has no room for them.
#![tactic(auto)]

ghost use Rattle.std.specs.Prelude.{◌≡◌, ◌+◌, ◌≤◌, leb, length};
ghost use Rattle.std.proofs.lemmas.List.Edits.{sets};
ghost use Rattle.output.specs.Decimal.{decimal};
ghost use Rattle.output.specs.Field.{field};
ghost use Rattle.output.specs.Puts.{puts, past};

// Whether n bytes from a place on end within a buffer of so many.
fn has_room(size: usize, at: usize, n: usize) -> bool
    ensures { result ≡ leb (at + n) size }
{
    if size < n {
        return false;
    }
    at <= size - n
}

// Copies bytes to a place that has room for them.
fn copy(out: &mut [u8], at: usize, bytes: &[u8])
    requires { at + length bytes.now ≤ length out.old }
    ensures { out.new ≡ sets out.old at bytes.now }
{
    for i in 0..bytes.len() {
        out[at + i] = bytes[i];
    }
}

// Puts bytes, and answers where they end.
pub fn put_bytes(out: &mut [u8], at: usize, bytes: &[u8]) -> usize
    ensures contents { out.new ≡ puts out.old at bytes.now }
    ensures end { result ≡ past out.old at bytes.now }
{
    if !has_room(out.len(), at, bytes.len()) {
        return at;
    }
    copy(out, at, bytes);
    at + bytes.len()
}

// Puts a text and the byte after it, and answers where they end.
pub fn put_field(out: &mut [u8], at: usize, text: &[u8], end: u8) -> usize
    ensures contents { out.new ≡ puts out.old at (field text.now end) }
    ensures end { result ≡ past out.old at (field text.now end) }
{
    if !has_room(out.len(), at, text.len()) {
        return at;
    }
    let last = at + text.len();
    if last == out.len() {
        return at;
    }
    copy(out, at, text);
    out[last] = end;
    last + 1
}

// Puts a number in decimal and the byte after it, and answers where they end.
pub fn put_decimal(out: &mut [u8], at: usize, n: u64, end: u8) -> usize
    ensures contents { out.new ≡ puts out.old at (field (decimal n) end) }
    ensures end { result ≡ past out.old at (field (decimal n) end) }
{
    let mut digits = [0u8; 20];
    let size = io::decimal(n, &mut digits);
    put_field(out, at, &digits[..size], end)
}
