// Segments of the kinds that count, as plotters' SegmentedCoord: each value has the room up to the next one. The pixel of
// an exact value, of a centre and of the last end; sizes, indices and ticks.
#![tactic(auto)]

ghost use Rattle.std.specs.Prelude.{◌≡◌, true, cond, ◌≤◌, length, Ok, Some, None, [], ◌∷◌};
ghost use Rattle.asking.specs.Asking.{ask, asked};
ghost use Rattle.asking.specs.declared.Refusal.TheVariants as refusal;
ghost use Rattle.calendar.specs.Questions.{last_day};
ghost use Rattle.axis.specs.Axes.{closed};
ghost use Rattle.axis.specs.Questions.{ends, pixels, value_on};
ghost use Rattle.segmented.specs.Segments.{segment_on, SegmentOn, segment_of, segments, segment_mappable, SomeSize};
ghost use Rattle.segmented.specs.Segments.{margin_of, inner, half, even};
ghost use Rattle.segmented.specs.Segments.{between, beside, segment_worked, pixel_checked};
ghost use Rattle.segmented.specs.Answers.{between_questions, segment_kind_questions};
ghost use Rattle.segmented.specs.Answers.{segment_map_answer, segment_size_answer, segment_index_in, segment_index_answer};
ghost use Rattle.segmented.specs.Answers.{segment_at, segment_checked, segment_from_answer};
ghost use Rattle.segmented.specs.Answers.{segment_ticks_answer, segment_ticks_written};

use asking::{Refusal, ask};
use axis::{Axis, Hint, Limits};
use counting::DateAxis;
use discrete::Placed;
use mapping::{Hairline, Scale};
use values::Value;

// The three numbers of a segment value: case 1 exact, 2 centre, 3 last. The case stays C's number, since question 8 asks it,
// after the questions of the axis. It goes beside the axis whose values it names, as a value does.
#[derive(Clone, Copy)]
pub struct Segment {
    pub case: i64,
    pub head: i64,
    pub tail: i64,
}

#[derive(Clone, Copy)]
pub enum SegmentValue {
    Exact(Value),
    CenterOf(Value),
    Last,
}

// The segments of an axis between two limits. Values are mapped to the axis' end as written, and its segments are counted by
// the axis by which it counts.
#[derive(Clone, Copy)]
struct Segments {
    axis: Axis,
    dates: DateAxis,
    size: u64,
    limits: Limits,
    ghost real: { ends axis ≡ true },
    ghost counted: { dates.axis ≡ closed axis },
    ghost sized: { size ≡ segments axis },
    ghost some: { SomeSize size },
    ghost page: { pixels limits ≡ true },
}

// The segment value of three numbers; none where they are of no case, or their value none of the kind. The numbers beside the
// last are not read. Called apart it takes 45 instructions more, and with ask_segment apart 16 more.
#[inline(always)]
fn segment_of(a: Axis, s: Segment) -> Option<SegmentValue>
    ensures { result ≡ cond (segment_on a s) (Some (segment_of s)) None }
{
    let v = Value {
        head: s.head,
        tail: s.tail,
    };
    match s.case {
        1 => axis::value_on(a, v).then_some(SegmentValue::Exact(v)),
        2 => axis::value_on(a, v).then_some(SegmentValue::CenterOf(v)),
        3 => Some(SegmentValue::Last),
        _ => None,
    }
}

// A half, cut toward zero.
fn half(z: i64) -> i64
    ensures { result ≡ half z }
{
    z / 2
}

// Does a half leave nothing?
fn even(z: i64) -> bool
    ensures { result ≡ even z }
{
    z % 2 == 0
}

// Question 8 of a segment value.
#[inline(always)]
fn ask_segment(a: Axis, s: Segment) -> Result<SegmentValue, Refusal>
    ensures { result ≡ asked (ask refusal.Value (segment_on a s) ∷ []) (Ok (segment_of s)) }
{
    segment_of(a, s).ok_or(Refusal::Value)
}

// One more than the axis has: the last end.
pub fn size(a: Axis) -> Result<u64, Refusal>
    ensures { result ≡ segment_size_answer a }
{
    Ok(discrete::size(a)? + 1)
}

fn index_in(d: DateAxis, v: SegmentValue) -> Option<u64>
    requires { SegmentOn d.axis v }
    ensures { result ≡ segment_index_in d.axis v }
{
    match v {
        SegmentValue::Exact(value) | SegmentValue::CenterOf(value) => {
            Placed { dates: d, value }.index_in()
        }
        SegmentValue::Last => Some(d.size_of()),
    }
}

// The index of any numbers.
pub fn index_of(a: Axis, s: Segment) -> Result<Option<u64>, Refusal>
    ensures { result ≡ segment_index_answer a s }
{
    let d = discrete::counted(a)?;
    let v = ask_segment(a, s)?;
    Ok(index_in(d, v))
}

// Below the size a value, at the size the last end, beyond it none. The index is bounded by a clause, as that of value_at is.
fn segment_at(d: DateAxis, i: u64) -> Result<Option<SegmentValue>, Refusal>
    requires { i ≤ last_day }
    ensures { result ≡ segment_checked (segment_at d.axis i) }
{
    let size = d.size_of();
    if i < size {
        let v = discrete::value_at(d, i)?;
        return Ok(Some(SegmentValue::Exact(v)));
    }
    Ok((i == size).then_some(SegmentValue::Last))
}

// The segment value of any index.
pub fn from_index(a: Axis, i: i64) -> Result<Option<SegmentValue>, Refusal>
    ensures { result ≡ segment_from_answer a i }
{
    let (d, k) = discrete::counted_at(a, i)?;
    segment_at(d, k)
}

// Question 9: the size, and then the question of mapping; the last is asked only for the size.
// No method of Segments: the size may be 0 here.
fn segment_mappable(a: Axis, size: u64, v: SegmentValue) -> bool
    requires { size ≡ segments a }
    ensures { result ≡ segment_mappable a v }
{
    let some = 0 < size;
    match v {
        SegmentValue::Exact(w) | SegmentValue::CenterOf(w) => some & axis::mappable(a, w),
        SegmentValue::Last => some,
    }
}

// Midway to the next value.
fn between(left: Hairline, right: Hairline) -> Result<Hairline, Refusal>
    ensures { result ≡ pixel_checked (between left right) }
{
    ask(Refusal::Range, axis::fits_i32(left.pixel))?;
    ask(Refusal::Range, axis::fits_i32(right.pixel))?;
    let sum = left.pixel + right.pixel;
    ask(Refusal::Range, axis::fits_i32(sum))?;
    Ok(Hairline {
        pixel: half(sum),
        exact: left.exact & right.exact & even(sum),
        lost: left.lost | right.lost,
    })
}

// Half a segment on.
fn beside(left: Hairline, margin: i64) -> Result<Hairline, Refusal>
    ensures { result ≡ pixel_checked (beside left margin) }
{
    ask(Refusal::Range, axis::fits_i32(left.pixel))?;
    let centre = Hairline {
        pixel: left.pixel + half(margin),
        exact: left.exact & even(margin),
        lost: left.lost,
    };
    centre.asked()
}

impl Segments {
    // (width as f32 / size as f32).round() as i32.
    fn margin_of(self) -> i64
        ensures { result ≡ margin_of self.size self.limits }
    {
        let width = self.limits.width();
        i64::from(floats::round_to_i32(width as f32 / self.size as f32))
    }

    // Values are mapped between the low limit and the high one less a segment.
    fn inner(self) -> Limits
        ensures { result ≡ inner self.size self.limits }
    {
        Limits {
            low: self.limits.low,
            high: self.limits.high - self.margin_of(),
        }
    }

    // The scale of all values. Called apart it takes 20 instructions more.
    #[inline(always)]
    fn scale(self) -> Scale
        ensures axis { result.axis ≡ self.axis }
        ensures limits { result.limits ≡ inner self.size self.limits }
    {
        mapping::scale_of(self.axis, self.inner())
    }

    // The centre of a value's segment, which ends where the next value stands. Both are mapped with one scale.
    fn centre(self, v: Value) -> Result<Hairline, Refusal>
        requires { value_on self.axis v ≡ true }
        ensures { result ≡ pixel_checked (segment_worked self.axis self.limits (SegmentValue.CenterOf v)) }
    {
        let s = self.scale();
        let left = s.pixel_by(v);
        let p = Placed {
            dates: self.dates,
            value: v,
        };
        match p.next_in()? {
            Some(w) => between(left, s.pixel_by(w)),
            None => beside(left, self.margin_of()),
        }
    }

    fn segment_pixel(self, v: SegmentValue) -> Result<Hairline, Refusal>
        requires { SegmentOn self.axis v }
        ensures { result ≡ pixel_checked (segment_worked self.axis self.limits v) }
    {
        match v {
            SegmentValue::Exact(w) => self.scale().pixel_by(w).asked(),
            SegmentValue::CenterOf(w) => self.centre(w),
            SegmentValue::Last => Ok(Hairline {
                pixel: self.limits.high,
                exact: true,
                lost: false,
            }),
        }
    }
}

// The questions between those of the axis and the size's, which is asked for only of real values.
fn ask_between(a: Axis, l: Limits, s: Segment) -> Result<SegmentValue, Refusal>
    ensures { result ≡ asked (between_questions a l s) (Ok (segment_of s)) }
{
    ask(Refusal::Limits, axis::pixels(l))?;
    ask_segment(a, s)
}

// The pixel of any numbers.
pub fn map(a: Axis, l: Limits, s: Segment) -> Result<Hairline, Refusal>
    ensures { result ≡ segment_map_answer a l s }
{
    let dates = discrete::counted(a)?;
    let v = ask_between(a, l, s)?;
    let size = dates.size_of();
    ask(Refusal::Length, segment_mappable(a, size, v))?;
    let segments = Segments {
        axis: a,
        dates,
        size,
        limits: l,
    };
    segments.segment_pixel(v)
}

fn ask_kind(a: Axis) -> Result<(), Refusal>
    ensures { result ≡ asked (segment_kind_questions a) (Ok tt) }
{
    ask(Refusal::Kind, axis::known(a))?;
    ask(Refusal::Operation, axis::has_index(a))
}

// The ticks at the front of the lent numbers, and how many; each is the centre of its segment.
pub fn list(a: Axis, h: Hint, lent: &mut [i64]) -> Result<u64, Refusal>
    ensures value { result ≡ segment_ticks_answer a h (length lent.old) }
    ensures after_call { lent.new ≡ segment_ticks_written a h lent.old }
{
    ask_kind(a)?;
    ticks::list(a, h, lent)
}
