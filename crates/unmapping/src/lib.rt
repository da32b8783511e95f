// The date-time under a pixel, kind 4, as plotters' unmap_coord: in whole nanoseconds where the Rust's product fits, else
// by whole days in floats.
#![tactic(auto)]

ghost use Rattle.std.specs.Prelude.{◌≡◌, true, pos, ◌+ℤ◌, ◌*ℤ◌};
ghost use Rattle.std.specs.Int.Signed.{quot_z, rem_z};
ghost use Rattle.laws.specs.Numbers.{within, neg_part};
ghost use Rattle.laws.specs.Units.{per_day};
ghost use Rattle.values.specs.Values.{a_date_time};
ghost use Rattle.axis.specs.Axes.{span_of};
ghost use Rattle.axis.specs.Questions.{ends, in_order, checked};
ghost use Rattle.unmapping.specs.Unmapping.{Unmappable, unmap_coord, product_fits, moved_by, by_nanoseconds, by_days};
ghost use Rattle.unmapping.specs.Moves.{since_zero, OnWidth, date_time_answer};

use asking::{Refusal, ask};
use axis::{Axis, Limits};
use values::Value;

// The nanoseconds of a day.
const DAY: i64 = 86400000000000;

// A date-time to move from, pixels from the low limit, and the width, which is not 0.
#[derive(Clone, Copy)]
struct Offset {
    from: Value,
    pixels: i64,
    width: i64,
    ghost real: { a_date_time from ≡ true },
    ghost on_width: { OnWidth pixels width },
}

// The date-time of a day and a nanosecond of it, if it is one of question 3.
fn on_calendar(day: i64, nano: i64) -> Result<Value, Refusal>
    requires { within (pos 0) nano (pos 86399999999999) ≡ true }
    ensures { result ≡ date_time_answer (day *ℤ pos per_day +ℤ nano) }
{
    ask(Refusal::Range, calendar::is_day(day))?;
    Ok(Value {
        head: day,
        tail: nano,
    })
}

impl Offset {
    // A number of nanoseconds after the date-time, or before it.
    fn nanoseconds_away(self, n: i64) -> Result<Value, Refusal>
        ensures { result ≡ date_time_answer (since_zero self.from +ℤ n) }
    {
        let day = self.from.head + n.div_euclid(DAY);
        let nano = self.from.tail + n.rem_euclid(DAY);
        on_calendar(day + nano / DAY, nano % DAY)
    }

    // A number of days after the date-time, or before it.
    fn days_away(self, n: i64) -> Result<Value, Refusal>
        ensures { result ≡ date_time_answer (since_zero self.from +ℤ n *ℤ pos per_day) }
    {
        on_calendar(self.from.head.saturating_add(n), self.from.tail)
    }

    // The Rust's test that the product of pixels and nanoseconds fits.
    fn product_fits(self, s: i64) -> bool
        requires { neg_part s ≡ 0 }
        ensures { result ≡ product_fits self.pixels (quot_z s self.width) (rem_z s self.width) }
    {
        let factor = s / self.width;
        if factor == 0 {
            return true;
        }
        let most = i64::MAX / factor;
        let size = self.pixels.abs();
        (size < most) | ((s % self.width == 0) & (size <= most))
    }

    // A span of s nanoseconds over the width.
    fn by_nanoseconds(self, s: i64) -> Result<Value, Refusal>
        requires { (neg_part s ≡ 0) × (product_fits self.pixels (quot_z s self.width) (rem_z s self.width) ≡ true) }
        ensures { result ≡ date_time_answer (since_zero self.from +ℤ by_nanoseconds s self.width self.pixels) }
    {
        let n = self.pixels * (s / self.width) + s % self.width * self.pixels / self.width;
        self.nanoseconds_away(n)
    }

    // A span of whole days over the width.
    fn by_days(self, span: i64) -> Result<Value, Refusal>
        ensures { result ≡ date_time_answer (since_zero self.from +ℤ by_days span self.width self.pixels *ℤ pos per_day) }
    {
        let n = floats::to_i64(
            floats::from_i64(self.pixels) * floats::from_i64(span) / floats::from_i64(self.width),
        );
        self.days_away(n)
    }

    // The span of an axis over the width. The Rust's test never passes with a factor below 0, so that swapped limits and a span
    // of at least their width in nanoseconds go by whole days. That the axis passed questions 3 and 4 is a clause: it is read for
    // this call alone, and no field of an offset.
    fn over(self, a: Axis) -> Result<Value, Refusal>
        requires { (ends a ≡ true) × (in_order a ≡ true) }
        ensures { result ≡ date_time_answer (since_zero self.from +ℤ moved_by (span_of a) self.width self.pixels) }
    {
        let Some(s) = axis::span(a) else {
            return self.by_days(axis::span_days(a));
        };
        if self.product_fits(s) {
            return self.by_nanoseconds(s);
        }
        self.by_days(axis::span_days(a))
    }
}

// The date-time under a pixel, kind 4, as TimeValue::unmap_coord.
pub fn unmap_coord(a: Axis, l: Limits, pixel: i64) -> Result<Value, Refusal>
    requires { Unmappable a l pixel }
    ensures { result ≡ checked (unmap_coord a l pixel) }
{
    let o = Offset {
        from: a.start,
        pixels: pixel - l.low,
        width: l.width(),
    };
    o.over(a)
}
