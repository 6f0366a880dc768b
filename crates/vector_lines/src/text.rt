// The fields of a line and what they stand for.
ghost use Rattle.std.specs.Prelude.{◌<◌, ◌≤◌, length, IfSome};

use arrayvec::ArrayVec;
use term::Edition;

// The most bytes, and the most numbers of a list, that a field stands for; the most bytes of an output.
pub const ROOM: usize = 40960;

pub type Bytes = ArrayVec<u8, ROOM>;

pub type Numbers = ArrayVec<u16, ROOM>;

// What stands before the first b in s, and what stands after it, if there is one.
fn split_once(s: &[u8], b: u8) -> Option<(&[u8], &[u8])>
    ensures { IfSome result (λ p. length p.1.now < length s.now) }
{
    let n = s.iter().position(|x| *x == b)?;
    Some((&s[..n], &s[n + 1..]))
}

// The same where all of s stands before it if there is none.
pub fn cut(s: &[u8], b: u8) -> (&[u8], &[u8]) {
    match split_once(s, b) {
        Some(parts) => parts,
        None => (s, &s[s.len()..]),
    }
}

// What a decimal or hexadecimal digit stands for.
fn digit(b: u8) -> Option<u8>
    ensures { IfSome result (λ d. d < 16) }
{
    match b {
        b'0'..=b'9' => Some(b - b'0'),
        b'A'..=b'F' => Some(b - b'A' + 10),
        _ => None,
    }
}

// A decimal number of 32 bits.
fn number(s: &[u8]) -> Option<u32> {
    if s.is_empty() {
        return None;
    }
    let mut value: u32 = 0;
    for b in s {
        let d = digit(*b).filter(|d| *d < 10)?;
        value = value.checked_mul(10)?.checked_add(u32::from(d))?;
    }
    Some(value)
}

// A number of 16 bits.
fn number_16(s: &[u8]) -> Option<u16> {
    u16::try_from(number(s)?).ok()
}

// How often stands what comes before s: once, or as the brackets at the start of s say; and what comes after it.
fn times(s: &[u8]) -> Option<(u32, &[u8])>
    ensures { IfSome result (λ p. length p.1.now ≤ length s.now) }
{
    match s {
        [b'(', rest @ ..] => {
            let (inside, after) = split_once(rest, b')')?;
            Some((number(inside)?, after))
        }
        _ => Some((1, s)),
    }
}

// Puts a byte so many times, and answers what comes after it.
fn put_byte<'a>(byte: u8, s: &'a [u8], out: &mut Bytes) -> Option<&'a [u8]>
    ensures { IfSome result (λ r. length r.now ≤ length s.now) }
{
    let (count, after) = times(s)?;
    for _ in 0..count {
        out.try_push(byte).ok()?;
    }
    Some(after)
}

// Puts the pairs of so many entries of one length that follow one another: each is the offset and the length, low byte first.
fn put_pairs(text: &[u8], out: &mut Bytes) -> Option<()> {
    let (offset, more) = cut(text, b',');
    let (length, count) = cut(more, b',');
    let step = u32::from(number_16(length)?);
    let mut pair = u32::from(number_16(offset)?) + 65536 * step;
    for _ in 0..number(count)? {
        out.try_extend_from_slice(&pair.to_le_bytes()).ok()?;
        pair = pair.wrapping_add(step);
    }
    Some(())
}

// Puts what the start of s stands for, and answers what comes after it.
fn put_piece<'a>(s: &'a [u8], out: &mut Bytes) -> Option<&'a [u8]>
    ensures { IfSome result (λ r. length r.now < length s.now) }
{
    match s {
        [b'[', rest @ ..] => {
            let (inside, after) = split_once(rest, b']')?;
            put_pairs(inside, out)?;
            Some(after)
        }
        [high, low, rest @ ..] => put_byte(16 * digit(*high)? + digit(*low)?, rest, out),
        _ => None,
    }
}

// The bytes that a text stands for.
#[inline(always)]
pub fn bytes(text: &[u8]) -> Option<Bytes> {
    let mut out = Bytes::new();
    match text {
        [] => return None,
        b"-" => return Some(out),
        _ => {}
    }
    let mut rest = text;
    while !rest.is_empty() {
        rest = put_piece(rest, &mut out)?;
    }
    Some(out)
}

// Puts a number of a list as often as it stands there.
fn put_number(item: &[u8], out: &mut Numbers) -> Option<()> {
    let end = item.iter().position(|b| *b == b'(').unwrap_or(item.len());
    let (value, brackets) = item.split_at(end);
    let (count, after) = times(brackets)?;
    let n = number_16(value)?;
    if !after.is_empty() {
        return None;
    }
    for _ in 0..count {
        out.try_push(n).ok()?;
    }
    Some(())
}

// The list of 16-bit numbers that a text stands for.
#[inline(always)]
fn list(text: &[u8]) -> Option<Numbers> {
    let mut out = Numbers::new();
    if matches!(text, b"-") {
        return Some(out);
    }
    for item in text.split(|b| *b == b',') {
        put_number(item, &mut out)?;
    }
    Some(out)
}

// The fields of a line that are still to be read, one blank apart. What can't be read as what it is asked for is none.
#[derive(Clone, Copy)]
pub struct Fields<'a> {
    rest: &'a [u8],
}

impl<'a> Fields<'a> {
    pub fn of(text: &'a [u8]) -> Fields<'a> {
        Fields { rest: text }
    }

    // The next field as it stands.
    pub fn text(&mut self) -> &'a [u8] {
        let (field, rest) = cut(self.rest, b' ');
        self.rest = rest;
        field
    }

    // All that is left.
    pub fn rest(&self) -> &'a [u8] {
        self.rest
    }

    // The fields after the first k.
    pub fn after(mut self, k: usize) -> Fields<'a> {
        for _ in 0..k {
            self.text();
        }
        self
    }

    // The field after k others.
    pub fn field(self, k: usize) -> &'a [u8] {
        self.after(k).text()
    }

    pub fn number(&mut self) -> Option<u32> {
        number(self.text())
    }

    pub fn number_16(&mut self) -> Option<u16> {
        number_16(self.text())
    }

    // A length of at most so many.
    pub fn room(&mut self, most: usize) -> Option<usize>
        ensures { IfSome result (λ n. n ≤ most) }
    {
        let n = self.number()? as usize;
        if most < n { None } else { Some(n) }
    }

    #[inline(always)]
    pub fn bytes(&mut self) -> Option<Bytes> {
        bytes(self.text())
    }

    #[inline(always)]
    pub fn list(&mut self) -> Option<Numbers> {
        list(self.text())
    }

    // A list of so many.
    pub fn array<const N: usize>(&mut self) -> Option<[u16; N]> {
        let numbers = self.list()?;
        <[u16; N]>::try_from(numbers.as_slice()).ok()
    }

    pub fn edition(&mut self) -> Option<Edition> {
        match self.text() {
            b"1" => Some(Edition::One),
            b"2" => Some(Edition::Two),
            _ => None,
        }
    }

    // Nothing, where no field is left.
    pub fn end(&self) -> Option<()> {
        if self.rest.is_empty() { Some(()) } else { None }
    }
}
