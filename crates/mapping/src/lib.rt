// The pixel of a value between two limits, as plotters' map_coord and the duration's own map.
// Floats where the Rust computes in floats, each step rounded as IEEE 754 says.
#![tactic(auto)]

ghost use Rattle.std.specs.Prelude.{◌≡◌, true, false, Ok, [], ◌∷◌};
ghost use Rattle.asking.specs.Asking.{ask, asked, and_then};
ghost use Rattle.asking.specs.declared.Refusal.TheVariants as refusal;
ghost use Rattle.values.specs.Values.{is_duration};
ghost use Rattle.floats.specs.Rounding.{quotient_of};
ghost use Rattle.axis.specs.declared.Axis.{Axis};
ghost use Rattle.axis.specs.declared.Limits.{Limits};
ghost use Rattle.axis.specs.Questions.{ends, pixels, value_on, fits_i32};
ghost use Rattle.mapping.specs.Hairlines.{hairline_at};
ghost use Rattle.mapping.specs.Mapping.{map_coord, map_duration, hairline, with_total};
ghost use Rattle.mapping.specs.Mapping.{ScaleFor, in_nanos, nudged, in_days, hairline_from};
ghost use Rattle.mapping.specs.Mapping.{scale_questions, map_value_questions, mapped, mapped_by, ReadyFor};

use asking::{Refusal, ask};
use axis::{Axis, Limits};
use values::Value;

// A span in nanoseconds, and the same as f64.
#[derive(Clone, Copy)]
pub struct Span {
    pub nanoseconds: i64,
    pub total: f64,
}

// What all values on an axis share, worked out once for an axis of question 3 and its limits: these, the width as f64, and the
// span, where it fits nanoseconds.
#[derive(Clone, Copy)]
pub struct Scale {
    pub axis: Axis,
    pub limits: Limits,
    pub width: f64,
    pub span: Option<Span>,
    ghost ready: { ScaleFor axis limits width span },
}

// A value on the axis of a scale: what each mapping asks of the two.
#[derive(Clone, Copy)]
pub struct Placed {
    pub scale: Scale,
    pub value: Value,
    ghost on: { value_on scale.axis value ≡ true },
}

// A pixel, whether it is the exact position, and whether an offset or a span that was divided had lost something. The flags
// stand apart: side by side they are read back as one number, which has to wait for both.
#[derive(Clone, Copy)]
pub struct Hairline {
    pub exact: bool,
    pub pixel: i64,
    pub lost: bool,
}

impl Hairline {
    // Question 10.
    pub fn asked(self) -> Result<Hairline, Refusal>
        ensures { result ≡ asked (ask refusal.Range (fits_i32 self.pixel) ∷ []) (Ok self) }
    {
        ask(Refusal::Range, axis::fits_i32(self.pixel))?;
        Ok(self)
    }
}

// An offset and the span that it is divided by.
#[derive(Clone, Copy)]
pub struct Ratio {
    pub offset: i64,
    pub span: i64,
}

// The position W × offset ÷ span in floats, before the cut, and what was divided, where there was something to divide by;
// without it no position is exact.
#[derive(Clone, Copy)]
pub struct Divided {
    pub x: f64,
    pub ratio: Option<Ratio>,
}

// The span's float, made once.
fn with_total(n: i64) -> Span
    ensures { result ≡ with_total n }
{
    Span {
        nanoseconds: n,
        total: floats::from_i64(n),
    }
}

// Both are asked before, by each caller in its own order; from here on the scale's type holds what the answers say. The width is
// below 2^53, so that `as` loses nothing of it.
pub fn scale_of(a: Axis, l: Limits) -> Scale
    requires { (ends a ≡ true) × (pixels l ≡ true) }
    ensures axis { result.axis ≡ a }
    ensures limits { result.limits ≡ l }
{
    Scale {
        axis: a,
        limits: l,
        width: l.width() as f64,
        span: axis::span(a).map(with_total),
    }
}

// width × offset ÷ total.
fn quotient(width: f64, offset: i64, total: f64) -> f64
    ensures { result ≡ quotient_of width offset total }
{
    width * floats::from_i64(offset) / total
}

// An offset in nanoseconds, divided.
fn in_nanos(width: f64, offset: i64, span: Span) -> Divided
    ensures { result ≡ in_nanos width offset span }
{
    Divided {
        x: quotient(width, offset, span.total),
        ratio: Some(Ratio {
            offset: offset,
            span: span.nanoseconds,
        }),
    }
}

// What a duration's position gets before the cut: 1e-10.
fn nudged(q: Divided) -> Divided
    ensures { result ≡ nudged q }
{
    Divided {
        x: q.x + 0.0000000001,
        ratio: q.ratio,
    }
}

// The questions of a value.
fn ask_value(a: Axis, v: Value) -> Result<(), Refusal>
    ensures { result ≡ asked (map_value_questions a v) (Ok tt) }
{
    ask(Refusal::Value, axis::value_on(a, v))?;
    ask(Refusal::Length, axis::mappable(a, v))
}

impl Placed {
    // Zero whole days are nothing to divide by.
    fn in_days(self) -> Divided
        ensures { result ≡ in_days self.scale.axis self.scale.limits self.value }
    {
        let days = axis::offset_days(self.scale.axis, self.value);
        let span = axis::span_days(self.scale.axis);
        Divided {
            x: quotient(self.scale.width, days, floats::from_i64(span)),
            ratio: (span != 0).then_some(Ratio {
                offset: days,
                span: span,
            }),
        }
    }

    // All kinds but 7, as TimeValue::map_coord: nanoseconds if the span and the offset fit, else whole days.
    pub fn map_coord(self) -> Divided
        requires { is_duration self.scale.axis.kind ≡ false }
        ensures { hairline_from self.scale.limits result
            ≡ hairline_at self.scale.axis self.scale.limits self.value
            (map_coord self.scale.axis self.scale.limits self.value) }
    {
        let Some(span) = self.scale.span else {
            return self.in_days();
        };
        match axis::offset(self.scale.axis, self.value) {
            Some(offset) => in_nanos(self.scale.width, offset, span),
            None => self.in_days(),
        }
    }

    // Kind 7, as RangedDuration::map: nudged, and where the span fits nanoseconds and the offset does not, the answer is the
    // high limit.
    pub fn map_duration(self) -> Divided
        requires { is_duration self.scale.axis.kind ≡ true }
        ensures { hairline_from self.scale.limits result
            ≡ hairline_at self.scale.axis self.scale.limits self.value
            (map_duration self.scale.axis self.scale.limits self.value) }
    {
        let Some(span) = self.scale.span else {
            return nudged(self.in_days());
        };
        let Some(offset) = axis::offset(self.scale.axis, self.value) else {
            return Divided {
                x: self.scale.width,
                ratio: None,
            };
        };
        nudged(in_nanos(self.scale.width, offset, span))
    }

    // Either, by the kind.
    fn divide(self) -> Divided
        ensures { hairline_from self.scale.limits result ≡ hairline self.scale.axis self.scale.limits self.value }
    {
        if self.scale.axis.kind.is_duration() {
            return self.map_duration();
        }
        self.map_coord()
    }

    // The pixel.
    fn pixel(self) -> Hairline
        ensures { result ≡ hairline self.scale.axis self.scale.limits self.value }
    {
        self.scale.from_low(self.divide())
    }
}

impl Scale {
    // The low limit and the position, cut toward zero. It is exact where W × offset is its product with the span.
    fn from_low(self, q: Divided) -> Hairline
        ensures { result ≡ hairline_from self.limits q }
    {
        let l = self.limits;
        let position = i64::from(floats::to_i32(q.x));
        let pixel = l.low + position;
        let Some(r) = q.ratio else {
            return Hairline {
                pixel: pixel,
                exact: false,
                lost: false,
            };
        };
        Hairline {
            pixel: pixel,
            exact: products::same_products(l.width(), r.offset, position, r.span),
            lost: floats::either_loses(r.offset, r.span),
        }
    }

    // The pixel of a value.
    pub fn pixel_by(self, v: Value) -> Hairline
        requires { value_on self.axis v ≡ true }
        ensures { result ≡ hairline self.axis self.limits v }
    {
        Placed {
            scale: self,
            value: v,
        }
        .pixel()
    }

    // The pixel of any numbers.
    fn map_by(self, v: Value) -> Result<Hairline, Refusal>
        ensures { result ≡ mapped_by self.axis self.limits v }
    {
        ask_value(self.axis, v)?;
        self.pixel_by(v).asked()
    }
}

// The questions of the axis and the limits.
fn ask_scale(a: Axis, l: Limits) -> Result<(), Refusal>
    ensures { result ≡ asked (scale_questions a l) (Ok tt) }
{
    axis::ask_axis(a, true)?;
    ask(Refusal::Limits, axis::pixels(l))
}

// The pixel of any numbers.
pub fn map(a: Axis, l: Limits, v: Value) -> Result<Hairline, Refusal>
    ensures { result ≡ mapped a l v }
{
    map_ready(prepare(a, l), v)
}

// Asks what all values share, and makes their scale.
pub fn prepare(a: Axis, l: Limits) -> Result<Scale, Refusal>
    ensures { ReadyFor a l (and_then result (λ s. Ok (s.axis, s.limits))) }
{
    ask_scale(a, l)?;
    Ok(scale_of(a, l))
}

// One of many values.
pub fn map_ready(m: Result<Scale, Refusal>, v: Value) -> Result<Hairline, Refusal>
    ensures { (a : Axis) → (l : Limits) → ReadyFor a l (and_then m (λ s. Ok (s.axis, s.limits))) → result ≡ mapped a l v }
{
    m?.map_by(v)
}
