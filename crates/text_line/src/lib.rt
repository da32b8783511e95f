// The lines of plate's input: the names line, and a line of values with the request that it makes. A line is its bytes
// without the LF; its fields are kind start end hint low high, with one space between them.
#![tactic(auto)]

ghost use Rattle.std.specs.Prelude.{◌≡◌, ◌<◌, ◌^◌};
ghost use Rattle.laws.specs.Units.{per_second, per_day};
ghost use Rattle.text_line.specs.Line.{is_names, kind_of, on_day, is_time, stamp_value, below_zero, span_value};
ghost use Rattle.text_line.specs.Line.{read_value, read_line};

use axis::{Axis, BoldPoints, Limits};
use calendar::Ymd;
use text_read::{Duration, Moment};
use values::{Kind, Value};

// The names line.
const NAMES: &[u8] = b"kind start end hint low high";

// What is typed in form and is not real: no value of the kinds over dates and date-times, whose heads begin at 1. A value and
// no Option, so that the axis' question 3 refuses it, behind the questions that come before.
const NOT_REAL: Value = Value { head: 0, tail: 0 };

// The numbers of a line. No question was asked of them yet.
#[derive(Clone, Copy)]
pub struct Request {
    pub axis: Axis,
    pub hint: BoldPoints,
    pub limits: Limits,
}

// Is it the names line?
pub fn is_names(s: &[u8]) -> bool
    ensures { result ≡ is_names s.now }
{
    s == NAMES
}

// The kind that the word names. A function, and no `TryFrom<&[u8]>`: `Kind` is of `values`, and only a type's own crate
// converts to it, which knows no words.
#[tactic(auto, unfolding(crate::specs::Line::kind_of))]
fn kind_of(w: &[u8]) -> Option<Kind>
    ensures { result ≡ kind_of w.now }
{
    match w {
        b"date" => Some(Kind::Date),
        b"month" => Some(Kind::Month),
        b"year" => Some(Kind::Year),
        b"stamp" => Some(Kind::Stamp),
        b"stampmonth" => Some(Kind::StampMonth),
        b"stampyear" => Some(Kind::StampYear),
        b"span" => Some(Kind::Span),
        b"week" => Some(Kind::Week),
        _ => None,
    }
}

// A day and a nanosecond of it.
fn on_day(d: Ymd, nano: u64) -> Value
    requires { nano < per_day }
    ensures { result ≡ on_day d nano }
{
    match calendar::number_of(d) {
        Ok(n) => Value {
            head: n as i64,
            tail: nano as i64,
        },
        Err(_) => NOT_REAL,
    }
}

// Is the time of day real?
fn is_time(m: Moment) -> bool
    ensures { result ≡ is_time m }
{
    (m.hour < 24) & (m.minute < 60) & (m.second < 60)
}

fn stamp_value(m: Moment) -> Value
    requires { m.nano < per_second }
    ensures { result ≡ stamp_value m }
{
    if !is_time(m) {
        return NOT_REAL;
    }
    on_day(
        m.date,
        ((m.hour * 60 + m.minute) * 60 + m.second) * 1000000000 + m.nano,
    )
}

// n seconds and q nanoseconds below zero.
fn below_zero(n: u64, q: u64) -> Value
    requires { (n < 10 ^ 12) × (q < per_second) }
    ensures { result ≡ below_zero n q }
{
    if q == 0 {
        return Value {
            head: -(n as i64),
            tail: 0,
        };
    }
    Value {
        head: -((n + 1) as i64),
        tail: (1000000000 - q) as i64,
    }
}

fn span_value(p: Duration) -> Value
    requires { (p.seconds < 10 ^ 12) × (p.nano < per_second) }
    ensures { result ≡ span_value p }
{
    if p.below {
        return below_zero(p.seconds, p.nano);
    }
    Value {
        head: p.seconds as i64,
        tail: p.nano as i64,
    }
}

// A start or an end of the kind, from the field's start.
fn read_value(kind: Kind, s: &[u8]) -> Option<Value>
    ensures { result ≡ read_value kind s.now }
{
    match kind {
        Kind::Stamp | Kind::StampMonth | Kind::StampYear => Some(stamp_value(text_read::stamp(s)?)),
        Kind::Span => Some(span_value(text_read::span(s)?)),
        Kind::Date | Kind::Month | Kind::Year | Kind::Week | Kind::Unknown => {
            Some(on_day(text_read::date(s)?, 0))
        }
    }
}

// The request, if every field has its form.
pub fn read_line(s: &[u8]) -> Option<Request>
    ensures { result ≡ read_line s.now }
{
    if !text_read::in_form(s, 5) {
        return None;
    }
    let mut fields = s.split(|b| *b == b' ');
    let kind = kind_of(fields.next()?)?;
    let start = read_value(kind, fields.next()?)?;
    let end = read_value(kind, fields.next()?)?;
    let n = text_read::number(fields.next()?)?;
    let low = text_read::number(fields.next()?)?;
    let high = text_read::number(fields.next()?)?;
    Some(Request {
        axis: Axis {
            kind,
            start,
            end,
            end_excluded: false,
        },
        hint: BoldPoints { n },
        limits: Limits { low, high },
    })
}
