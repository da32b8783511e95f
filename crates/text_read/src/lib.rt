// Readers of the fields of a line. Each takes the part of the line from its field's start, and answers the value, or None
// where the field has not the form. A field ends before the next space, or where the line ends.
#![tactic(auto)]

ghost use Rattle.std.specs.Prelude.{◌≡◌, ◌+◌, ◌≤◌, length, take};
ghost use Rattle.text_read.specs.Lines.{in_form};
ghost use Rattle.text_read.specs.Fields.{until_of, field_of, digits_of, read_number, triple_of, ymd_of, read_date};
ghost use Rattle.text_read.specs.Fields.{nanos_of, fraction_of, read_stamp, seconds_of, read_span};
ghost use Rattle.text_read.specs.Fields.{Digits, TypedThree, TypedDate, TypedStamp, TypedSpan};

use calendar::Ymd;

// A date-time as it is typed, real or not.
#[derive(Clone, Copy)]
pub struct Moment {
    pub date: Ymd,
    pub hour: u64,
    pub minute: u64,
    pub second: u64,
    // nanoseconds of the second
    pub nano: u64,
}

// A duration as it is typed: seconds and nanoseconds, both away from zero. The sign stands beside them: -0.5 has no second to
// bear it, and one number of nanoseconds would not fit in 64 bits.
#[derive(Clone, Copy)]
pub struct Duration {
    pub below: bool,
    pub seconds: u64,
    pub nano: u64,
}

// How many bytes stand before the first c, or all of them.
pub fn until(s: &[u8], c: u8) -> usize
    ensures value { result ≡ until_of c s.now }
    ensures upper_bound { (result ≤ length s.now) × (result ≡ length (take result s.now)) }
{
    s.iter().position(|b| *b == c).unwrap_or(s.len())
}

// At most 120 bytes, and so many spaces.
pub fn in_form(s: &[u8], spaces: usize) -> bool
    ensures { result ≡ in_form spaces s.now }
{
    (s.len() <= 120) & (s.iter().filter(|b| **b == b' ').count() == spaces)
}

// The field at the front.
pub fn field(s: &[u8]) -> &[u8]
    ensures { result.now ≡ field_of s.now }
{
    &s[..until(s, b' ')]
}

// 1 to 12 digits and nothing else: their value.
fn digits(s: &[u8]) -> Option<u64>
    ensures value { result ≡ digits_of s.now }
    ensures digits { Digits 12 result × Digits (length s.now) result }
{
    if s.len() == 0 || 12 < s.len() {
        return None;
    }
    let mut n: u64 = 0;
    for b in s {
        if !b.is_ascii_digit() {
            return None;
        }
        n = n * 10 + u64::from(*b - b'0');
    }
    Some(n)
}

// At most one minus, and digits.
pub fn number(s: &[u8]) -> Option<i64>
    ensures { result ≡ read_number s.now }
{
    let f = field(s);
    match f.strip_prefix(b"-") {
        Some(rest) => Some(-(digits(rest)? as i64)),
        None => Some(digits(f)? as i64),
    }
}

// w digits, a separator, two digits, the separator, two digits: a date, or a time of day.
fn triple(s: &[u8], w: usize, sep: u8) -> Option<(u64, u64, u64)>
    requires { (w ≤ 4) × (w + 6 ≤ length s.now) }
    ensures value { result ≡ triple_of w sep s.now }
    ensures typed_three { TypedThree result }
{
    if s[w] != sep || s[w + 3] != sep {
        return None;
    }
    let a = digits(&s[..w])?;
    let b = digits(&s[w + 1..w + 3])?;
    let c = digits(&s[w + 4..w + 6])?;
    Some((a, b, c))
}

// YYYY-MM-DD at the front, real or not.
fn ymd(s: &[u8]) -> Option<Ymd>
    requires { 10 ≤ length s.now }
    ensures value { result ≡ ymd_of s.now }
    ensures typed_date { TypedDate result }
{
    let (year, month, day) = triple(s, 4, b'-')?;
    Some(Ymd {
        year: year as i64,
        month: month as i64,
        day: day as i64,
    })
}

// YYYY-MM-DD.
pub fn date(s: &[u8]) -> Option<Ymd>
    ensures value { result ≡ read_date s.now }
    ensures typed_date { TypedDate result }
{
    if until(s, b' ') != 10 {
        return None;
    }
    ymd(s)
}

// 1 to 9 digits, of which the first counts tenths of a second: the nanoseconds.
fn nanos(s: &[u8]) -> Option<u64>
    ensures value { result ≡ nanos_of s.now }
    ensures digits { Digits 9 result }
{
    if 9 < s.len() {
        return None;
    }
    let n = digits(s)?;
    Some(n * 10u64.pow(9 - s.len() as u32))
}

// What stands after the seconds: nothing, or a point and digits.
fn fraction(s: &[u8]) -> Option<u64>
    ensures value { result ≡ fraction_of s.now }
    ensures digits { Digits 9 result }
{
    if s.is_empty() {
        return Some(0);
    }
    nanos(s.strip_prefix(b".")?)
}

// YYYY-MM-DDThh:mm:ss and a fraction.
pub fn stamp(s: &[u8]) -> Option<Moment>
    ensures value { result ≡ read_stamp s.now }
    ensures typed_stamp { TypedStamp result }
{
    let k = until(s, b' ');
    if k < 19 || s[10] != b'T' {
        return None;
    }
    let date = ymd(s)?;
    let (hour, minute, second) = triple(&s[11..19], 2, b':')?;
    let nano = fraction(&s[19..k])?;
    Some(Moment {
        date,
        hour,
        minute,
        second,
        nano,
    })
}

// Digits up to a point or to the end, and a fraction.
fn seconds(f: &[u8], below: bool) -> Option<Duration>
    ensures value { result ≡ seconds_of below f.now }
    ensures typed_span { TypedSpan result }
{
    let (whole, rest) = f.split_at(until(f, b'.'));
    let seconds = digits(whole)?;
    let nano = fraction(rest)?;
    Some(Duration {
        below,
        seconds,
        nano,
    })
}

// At most one minus, digits and a fraction.
pub fn span(s: &[u8]) -> Option<Duration>
    ensures value { result ≡ read_span s.now }
    ensures typed_span { TypedSpan result }
{
    let f = field(s);
    match f.strip_prefix(b"-") {
        Some(rest) => seconds(rest, true),
        None => seconds(f, false),
    }
}
