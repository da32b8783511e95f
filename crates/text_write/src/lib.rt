// Writers of plate's text behind what an output holds: numbers, dates, ticks, pixels and the lines of the output.
#![tactic(auto)]

ghost use Rattle.std.specs.Prelude.{◌≡◌, true, ◌+◌};
ghost use Rattle.values.specs.declared.Kind.TheVariants.{Span};
ghost use Rattle.values.specs.Values.{is_value};
ghost use Rattle.values.specs.Differences.{nanoseconds};
ghost use Rattle.text_write.specs.Texts.{Room, Wrote, fixed_text, up_to_text, decimal_text, signed_text};
ghost use Rattle.text_write.specs.Texts.{triple_text, ymd_text, time_text, fraction_text, stamp_text, span_text};
ghost use Rattle.text_write.specs.Rows.{tick_text, mark_text, row_text, refusal_text};

use arrayvec::ArrayVec;
use asking::Refusal;
use calendar::Date;
use mapping::Hairline;
use values::{Kind, Value};

// Lines that wait to be printed by plate, in memory that does not grow: there is room for what a line of input prints, and for
// 225,335 bytes before it, so a chunk of short lines is printed at once. The writers take any other capacity too.
pub const CAPACITY: usize = 532610;

pub type Output = ArrayVec<u8, CAPACITY>;

// Bytes by hand and no `Display`: std says of `write!`, even of a u64 to a writer that never fails, only what an Ok has written.
// `out` and `shown` are no struct: it would borrow the output, and each clause would read through two references.

// The last w digits of n.
fn fixed<const CAP: usize>(out: &mut ArrayVec<u8, CAP>, w: usize, n: u64)
    requires { Room CAP w out.old }
    ensures { Wrote w (fixed_text w n) out.old out.new }
{
    if 0 < w {
        fixed(out, w - 1, n / 10);
        out.push(b'0' + (n % 10) as u8);
    }
}

// n with no zeros in front, where k digits suffice.
fn up_to<const CAP: usize>(out: &mut ArrayVec<u8, CAP>, k: usize, n: u64)
    requires { Room CAP k out.old }
    ensures { Wrote k (up_to_text k n) out.old out.new }
{
    if k == 0 {
        return;
    }
    if n < 10 {
        return out.push(b'0' + (n % 10) as u8);
    }
    up_to(out, k - 1, n / 10);
    out.push(b'0' + (n % 10) as u8);
}

fn decimal<const CAP: usize>(out: &mut ArrayVec<u8, CAP>, n: u64)
    requires { Room CAP 20 out.old }
    ensures { Wrote 20 (decimal_text n) out.old out.new }
{
    up_to(out, 20, n)
}

fn signed<const CAP: usize>(out: &mut ArrayVec<u8, CAP>, n: i64)
    requires { Room CAP 21 out.old }
    ensures { Wrote 21 (signed_text n) out.old out.new }
{
    if n < 0 {
        out.push(b'-');
    }
    decimal(out, n.unsigned_abs());
}

// w digits of a, the separator, two digits of b, the separator, two digits of c.
fn triple<const CAP: usize>(out: &mut ArrayVec<u8, CAP>, w: usize, sep: u8, a: u64, b: u64, c: u64)
    requires { Room CAP (w + 6) out.old }
    ensures { Wrote (w + 6) (triple_text w sep a b c) out.old out.new }
{
    fixed(out, w, a);
    out.push(sep);
    fixed(out, 2, b);
    out.push(sep);
    fixed(out, 2, c);
}

// YYYY-MM-DD
fn date<const CAP: usize>(out: &mut ArrayVec<u8, CAP>, d: Date)
    requires { Room CAP 10 out.old }
    ensures { Wrote 10 (ymd_text d) out.old out.new }
{
    triple(out, 4, b'-', d.year, d.month, d.day)
}

// hh:mm:ss
fn time<const CAP: usize>(out: &mut ArrayVec<u8, CAP>, seconds: u64)
    requires { Room CAP 8 out.old }
    ensures { Wrote 8 (time_text seconds) out.old out.new }
{
    triple(
        out,
        2,
        b':',
        seconds / 3600,
        seconds / 60 % 60,
        seconds % 60,
    )
}

// A point and nine digits, where fractions are shown.
fn fraction<const CAP: usize>(out: &mut ArrayVec<u8, CAP>, shown: bool, q: u64)
    requires { Room CAP 10 out.old }
    ensures { Wrote 10 (fraction_text shown q) out.old out.new }
{
    if shown {
        out.push(b'.');
        fixed(out, 9, q);
    }
}

// YYYY-MM-DDThh:mm:ss and a fraction
fn date_time<const CAP: usize>(out: &mut ArrayVec<u8, CAP>, shown: bool, d: Date, nano: u64)
    requires { Room CAP 29 out.old }
    ensures { Wrote 29 (stamp_text shown d nano) out.old out.new }
{
    date(out, d);
    out.push(b'T');
    time(out, nano / 1000000000);
    fraction(out, shown, nano % 1000000000);
}

// The sign, then the seconds and the fraction, both away from zero: the head is rounded down, so below zero a tail takes
// one second from it and is what is left of that second.
fn span<const CAP: usize>(out: &mut ArrayVec<u8, CAP>, shown: bool, v: Value)
    requires { (is_value Span v ≡ true) × Room CAP 31 out.old }
    ensures { Wrote 31 (span_text shown (nanoseconds Span v)) out.old out.new }
{
    let n = v.head.unsigned_abs();
    let q = v.tail.unsigned_abs();
    let below = v.head < 0;
    if !below {
        decimal(out, n);
        return fraction(out, shown, q);
    }
    out.push(b'-');
    if q == 0 {
        decimal(out, n);
        return fraction(out, shown, 0);
    }
    decimal(out, n - 1);
    fraction(out, shown, 1000000000 - q);
}

// The value in its kind's form.
fn tick<const CAP: usize>(out: &mut ArrayVec<u8, CAP>, shown: bool, kind: Kind, v: Value)
    requires { (is_value kind v ≡ true) × Room CAP 31 out.old }
    ensures { Wrote 31 (tick_text shown kind v) out.old out.new }
{
    match kind {
        Kind::Date | Kind::Month | Kind::Year | Kind::Week | Kind::Unknown => {
            let d = calendar::date_of(v.head.unsigned_abs());
            date(out, d)
        }
        Kind::Stamp | Kind::StampMonth | Kind::StampYear => {
            let d = calendar::date_of(v.head.unsigned_abs());
            date_time(out, shown, d, v.tail.unsigned_abs())
        }
        Kind::Span => span(out, shown, v),
    }
}

// The pixel, or '!' and the refusal's number.
fn mark<const CAP: usize>(out: &mut ArrayVec<u8, CAP>, p: Result<Hairline, Refusal>)
    requires { Room CAP 21 out.old }
    ensures { Wrote 21 (mark_text p) out.old out.new }
{
    match p {
        Ok(h) => signed(out, h.pixel),
        Err(q) => {
            out.push(b'!');
            decimal(out, u64::from(q));
        }
    }
}

// A line of the output: the input line's number, a tick and its pixel.
pub fn row<const CAP: usize>(
    out: &mut ArrayVec<u8, CAP>,
    number: u64,
    shown: bool,
    kind: Kind,
    v: Value,
    p: Result<Hairline, Refusal>,
)
    requires { (is_value kind v ≡ true) × Room CAP 75 out.old }
    ensures { Wrote 75 (row_text number shown kind v p) out.old out.new }
{
    decimal(out, number);
    out.push(b' ');
    tick(out, shown, kind, v);
    out.push(b' ');
    mark(out, p);
    out.push(b'\n');
}

// A line of the output for a line that has no list.
pub fn refusal_row<const CAP: usize>(out: &mut ArrayVec<u8, CAP>, number: u64, q: Refusal)
    requires { Room CAP 65 out.old }
    ensures { Wrote 65 (refusal_text number q) out.old out.new }
{
    decimal(out, number);
    out.try_extend_from_slice(b" - ").unwrap();
    mark(out, Err(q));
    out.push(b'\n');
}
