// An axis, its limits and its hints by value, and the questions that come before an answer: one test for each, and the
// first rows of them. Also the span of an axis, a value's offset on it, and the axis by which it counts and lists.
#![tactic(auto)]

ghost use Rattle.std.specs.Prelude.{◌≡◌, true, false, cond, pos, ◌-ℤ◌, Ok};
ghost use Rattle.asking.specs.Asking.{asked};
ghost use Rattle.values.specs.declared.Kind.TheVariants.{Span};
ghost use Rattle.values.specs.Values.{over_dates, is_duration, is_value};
ghost use Rattle.values.specs.Differences.{nanoseconds_of, whole_days};
ghost use Rattle.axis.specs.Axes.{axis_of, span_of, offset_of, closed};
ghost use Rattle.axis.specs.Questions.{known, has_unmap, has_period, has_index, ends, in_order, excludable};
ghost use Rattle.axis.specs.Questions.{near_zero, near_or_long};
ghost use Rattle.axis.specs.Questions.{bold_hint, light_hint, hint_on, is_count, enough, is_pixel, pixels, differ, unmap_pixels};
ghost use Rattle.axis.specs.Questions.{value_on, is_index, mappable, fits_i32, order_questions};
ghost use Rattle.axis.specs.Questions.{plain_questions, axis_questions};

use asking::{Refusal, ask};
use calendar::LAST_DAY;
use values::{Kind, Value};

// A kind, which may be none, and the values of its ends, real or not: what any six numbers make. It goes beside limits, a hint or
// a value, as plotters' methods take them, each operation others of these; where two are kept, as in mapping's Scale, a struct
// has both. What is asked of an axis are functions and no methods: crates above ask more of it, and no `impl Axis` can stand
// there.
#[derive(Clone, Copy)]
pub struct Axis {
    pub kind: Kind,
    pub start: Value,
    pub end: Value,
    pub end_excluded: bool,
}

// The pixels of start and of end.
#[derive(Clone, Copy)]
pub struct Limits {
    pub low: i64,
    pub high: i64,
}

impl Limits {
    // The pixels from low to high, below 0 where they are swapped.
    pub fn width(self) -> i64
        requires { pixels self ≡ true }
        ensures { result ≡ self.high -ℤ self.low }
    {
        self.high - self.low
    }
}

// A bold hint: at most n ticks.
#[derive(Clone, Copy)]
pub struct BoldPoints {
    pub n: i64,
}

// A light hint: the count of bold ticks, and at most n ticks.
#[derive(Clone, Copy)]
pub struct LightPoints {
    pub bold: i64,
    pub n: i64,
}

// Either hint.
#[derive(Clone, Copy)]
pub enum Hint {
    Bold(BoldPoints),
    Light(LightPoints),
}

// The axis of six numbers, whatever they are: question 1 is asked of it as all others are. The end belongs to it where
// end_excluded is 0.
pub fn axis_of(
    kind: i64,
    start_head: i64,
    start_tail: i64,
    end_head: i64,
    end_tail: i64,
    end_excluded: i64,
) -> Axis
    ensures { result ≡ axis_of kind start_head start_tail end_head end_tail end_excluded }
{
    Axis {
        kind: Kind::numbered(kind),
        start: Value {
            head: start_head,
            tail: start_tail,
        },
        end: Value {
            head: end_head,
            tail: end_tail,
        },
        end_excluded: end_excluded != 0,
    }
}

// Question 1.
pub fn known(a: Axis) -> bool
    ensures { result ≡ known a }
{
    a.kind != Kind::Unknown
}

// Question 2 of unmapping.
#[tactic(auto, unfolding(crate::specs::Questions::has_unmap))]
pub fn has_unmap(a: Axis) -> bool
    ensures { result ≡ has_unmap a }
{
    !a.kind.is_duration()
}

// Question 2 of the period.
#[tactic(auto, unfolding(crate::specs::Questions::has_period))]
pub fn has_period(a: Axis) -> bool
    ensures { result ≡ has_period a }
{
    matches!(a.kind, Kind::Stamp | Kind::Span)
}

// Question 2 of indices, size, next, previous, values and segments.
#[tactic(auto, unfolding(crate::specs::Questions::has_index))]
pub fn has_index(a: Axis) -> bool
    ensures { result ≡ has_index a }
{
    !has_period(a)
}

// Question 3. Functions that need a yes require it by a clause: a caller has it from a row of questions that passed, from a
// `DateAxis` or from a `Scale`, and a type that says it would be made for one call and opened there.
#[tactic(auto, unfolding(crate::specs::Questions::ends))]
fn ends(a: Axis) -> bool
    ensures { result ≡ ends a }
{
    values::is_value(a.kind, a.start) & values::is_value(a.kind, a.end)
}

// Question 4. Most axes tell by the heads: without them first ordered_map takes 8 instructions more, of 213 by rustc.
fn in_order(a: Axis) -> bool
    ensures { result ≡ in_order a }
{
    if a.start.head < a.end.head {
        return true;
    }
    a.start <= a.end
}

// Question 14. By `|` each call takes 9 instructions more.
#[tactic(auto, using(values::proofs::Order::same_is_equal), unfolding(crate::specs::Questions::excludable))]
fn excludable(a: Axis) -> bool
    ensures { result ≡ excludable a }
{
    !a.end_excluded || (a.kind.over_dates() & (a.end != a.start))
}

// The axis by which an axis counts and lists: the one that ends a day earlier, where the end is excluded. Fields are handed
// on one by one: with `return a` the compiler copies what lies between them too.
pub fn closed(a: Axis) -> Axis
    requires { ends a ≡ true }
    ensures { result ≡ closed a }
{
    if !a.end_excluded {
        return Axis { ..a };
    }
    Axis {
        end: Value {
            head: a.end.head - 1,
            tail: a.end.tail,
        },
        end_excluded: false,
        ..a
    }
}

// From start to end, in nanoseconds.
#[tactic(auto, unfolding(crate::specs::Axes::span_of))]
pub fn span(a: Axis) -> Option<i64>
    ensures { result ≡ nanoseconds_of (span_of a) }
{
    values::nanoseconds_between(a.kind, a.start, a.end)
}

// From start to end, in whole days.
pub fn span_days(a: Axis) -> i64
    requires { ends a ≡ true }
    ensures { result ≡ whole_days (span_of a) }
{
    values::whole_days_between(a.kind, a.start, a.end)
}

// From start to v, in nanoseconds.
#[tactic(auto, unfolding(crate::specs::Axes::offset_of))]
pub fn offset(a: Axis, v: Value) -> Option<i64>
    ensures { result ≡ nanoseconds_of (offset_of a v) }
{
    values::nanoseconds_between(a.kind, a.start, v)
}

// From start to v, in whole days.
pub fn offset_days(a: Axis, v: Value) -> i64
    requires { (ends a ≡ true) × (value_on a v ≡ true) }
    ensures { result ≡ whole_days (offset_of a v) }
{
    values::whole_days_between(a.kind, a.start, v)
}

// Is a duration within 4 × 10^18 ns, that is 4 × 10^9 s, of zero?
fn near_zero(v: Value) -> bool
    requires { is_value Span v ≡ true }
    ensures { result ≡ near_zero v }
{
    let most = Value {
        head: 4000000000,
        tail: 0,
    };
    (-4000000000 <= v.head) & (v <= most)
}

// Question 5. The span of most axes is not needed for it.
fn near_or_long(a: Axis) -> bool
    requires { (ends a ≡ true) × (in_order a ≡ true) }
    ensures { result ≡ near_or_long a }
{
    if !a.kind.is_duration() {
        return true;
    }
    if near_zero(a.start) & near_zero(a.end) {
        return true;
    }
    span(a).is_none()
}

// Question 6 of a count.
fn is_count(n: i64) -> bool
    ensures { result ≡ is_count n }
{
    (0 <= n) & (n <= 4096)
}

// Question 6 of N, by the kind.
fn enough(a: Axis, n: i64) -> bool
    ensures { result ≡ enough a n }
{
    !known(a) | (a.kind.over_dates() | (1 <= n))
}

// Question 6 of a bold hint.
#[tactic(auto, unfolding(crate::specs::Questions::bold_hint))]
fn bold_hint(a: Axis, h: BoldPoints) -> bool
    ensures { result ≡ bold_hint a h }
{
    is_count(h.n) & enough(a, h.n)
}

// Question 6 of a light hint.
#[tactic(auto, unfolding(crate::specs::Questions::light_hint))]
fn light_hint(a: Axis, h: LightPoints) -> bool
    ensures { result ≡ light_hint a h }
{
    is_count(h.bold) & (is_count(h.n) & enough(a, h.n))
}

// Question 6.
pub fn hint_on(a: Axis, h: Hint) -> bool
    ensures { result ≡ hint_on a h }
{
    match h {
        Hint::Bold(b) => bold_hint(a, b),
        Hint::Light(l) => light_hint(a, l),
    }
}

// Question 7 of limits.
#[tactic(auto, unfolding(crate::specs::Questions::pixels))]
pub fn pixels(l: Limits) -> bool
    ensures { result ≡ pixels l }
{
    is_pixel(l.low) & is_pixel(l.high)
}

// Question 7 of a pixel.
fn is_pixel(p: i64) -> bool
    ensures { result ≡ is_pixel p }
{
    (-32767 <= p) & (p <= 32767)
}

// Question 7 of limits to unmap by: are they different?
fn differ(l: Limits) -> bool
    ensures { result ≡ differ l }
{
    l.low != l.high
}

// Question 7 of unmapping. Limits and pixel stand side by side, as plotters' unmap_coord takes them: limits are drawn by, a pixel
// is asked about.
#[tactic(auto, unfolding(crate::specs::Questions::unmap_pixels))]
pub fn unmap_pixels(l: Limits, p: i64) -> bool
    ensures { result ≡ unmap_pixels l p }
{
    pixels(l) & (is_pixel(p) & differ(l))
}

// Question 8 of a value.
#[tactic(auto, unfolding(crate::specs::Questions::value_on))]
pub fn value_on(a: Axis, v: Value) -> bool
    ensures { result ≡ value_on a v }
{
    values::is_value(a.kind, v)
}

// Question 8 of an index.
pub fn is_index(i: i64) -> bool
    ensures { result ≡ is_index i }
{
    (0 <= i) & (i <= LAST_DAY)
}

// Question 9: is start before end, or v equal to start? Without the heads first ordered_map takes 14 instructions more, of 213.
pub fn mappable(a: Axis, v: Value) -> bool
    ensures { result ≡ mappable a v }
{
    if a.start.head < a.end.head {
        return true;
    }
    (a.start < a.end) | (v == a.start)
}

// Question 10 of a number.
pub fn fits_i32(n: i64) -> bool
    ensures { result ≡ fits_i32 n }
{
    (-2147483648 <= n) & (n <= 2147483647)
}

// The most nanoseconds of a day that a value has.
fn tail_most(kind: Kind) -> i64
    ensures { result ≡ cond (over_dates kind) (pos 0) (pos 86399999999999) }
{
    if kind.over_dates() { 0 } else { 86399999999999 }
}

// Question 3 of days: the kinds but 7 differ in the nanoseconds alone. By `ends` ordered_map takes 17 instructions more, of 213.
fn day_ends(a: Axis) -> bool
    requires { (known a ≡ true) × (is_duration a.kind ≡ false) }
    ensures { result ≡ ends a }
{
    let most = tail_most(a.kind);
    (calendar::is_day(a.start.head) & ((0 <= a.start.tail) & (a.start.tail <= most)))
        & (calendar::is_day(a.end.head) & ((0 <= a.end.tail) & (a.end.tail <= most)))
}

// Questions 4 and 14.
fn ask_order(a: Axis) -> Result<(), Refusal>
    ensures { result ≡ asked (order_questions a) (Ok tt) }
{
    ask(Refusal::Order, in_order(a))?;
    ask(Refusal::ExcludedEnd, excludable(a))
}

// The questions of an axis, for operations that kind 7 lacks. has: the kind has the operation. It is the answer to a question of
// the operation's own, the first of the row; asked by the callers it would stand before each call, in six places.
pub fn ask_plain(a: Axis, has: bool) -> Result<(), Refusal>
    requires { has ≡ true → is_duration a.kind ≡ false }
    ensures { result ≡ asked (plain_questions has a) (Ok tt) }
{
    ask(Refusal::Kind, known(a))?;
    ask(Refusal::Operation, has)?;
    ask(Refusal::Ends, day_ends(a))?;
    ask_order(a)
}

// A quick yes for most durations: they are in order, and near zero by start's seconds, the least of all, and by end's. Without it
// ordered_map takes 23 instructions more for a duration, of 215.
fn usual_durations(a: Axis) -> bool
    ensures { result ≡ true → is_duration a.kind ≡ true → (ends a ≡ true) × (in_order a ≡ true)
        × (near_or_long a ≡ true) }
{
    in_order(a)
        & (-4000000000 <= a.start.head)
        & (a.end.head < 4000000000)
        & ((0 <= a.start.tail) & (a.start.tail <= 999999999))
        & ((0 <= a.end.tail) & (a.end.tail <= 999999999))
}

// The questions of durations, one line for each. Question 5 is asked of real values in order.
fn ask_durations(a: Axis, has: bool) -> Result<(), Refusal>
    requires { is_duration a.kind ≡ true }
    ensures { result ≡ asked (axis_questions has a) (Ok tt) }
{
    ask(Refusal::Operation, has)?;
    ask(Refusal::Ends, ends(a))?;
    ask_order(a)?;
    ask(Refusal::Duration, near_or_long(a))
}

// The same, most of them by the quick yes. An excluded end never passes. With one call of the slow row in place of two the
// compiler puts it into ask_axis, and ordered_map takes 13 instructions more for a duration, of 215.
fn ask_usual_durations(a: Axis, has: bool) -> Result<(), Refusal>
    requires { is_duration a.kind ≡ true }
    ensures { result ≡ asked (axis_questions has a) (Ok tt) }
{
    if a.end_excluded {
        return ask_durations(a, has);
    }
    if has & usual_durations(a) {
        return Ok(());
    }
    ask_durations(a, has)
}

// The questions of an axis, for operations that kind 7 has. Question 5 is of durations alone.
pub fn ask_axis(a: Axis, has: bool) -> Result<(), Refusal>
    ensures { result ≡ asked (axis_questions has a) (Ok tt) }
{
    if a.kind.is_duration() {
        return ask_usual_durations(a, has);
    }
    ask_plain(a, has)
}
