// The tick list of each kind, as plotters' key_points: a plan, which is a progression. Days, months, years and weeks;
// date-times and durations a period apart; whole days of a long duration.
#![tactic(auto)]

ghost use Rattle.std.specs.Prelude.{◌≡◌, true, false, ◌+◌, ◌-◌, ◌≤◌, ◌<◌, ◌^◌, min};
ghost use Rattle.values.specs.declared.Kind.TheVariants.{Span};
ghost use Rattle.values.specs.Values.{is_value, is_duration};
ghost use Rattle.values.specs.Differences.{days_in};
ghost use Rattle.counting.specs.Counting.{from_day};
ghost use Rattle.calendar.specs.Questions.{last_day};
ghost use Rattle.plans.specs.Days.{whole_heads, evenly, date_step, day_plan};
ghost use Rattle.plans.specs.Weeks.{week_step, week_plan};
ghost use Rattle.floats.specs.Rounding.{ceil_of};
ghost use Rattle.plans.specs.Months.{from_month, to_month, year_step, month_step, months_by};
ghost use Rattle.plans.specs.Times.{period_in, shift_up, shift_of, shift, time_plan, Timed};
ghost use Rattle.plans.specs.Times.{first_second, seconds_left, span_days_plan, Long};
ghost use Rattle.plans.specs.Plans.{Accepted, period_plan, plan_of};

use axis::Axis;
use counting::DateAxis;
use steps::{Heads, Numbering, Steps};
use values::{Kind, Value};

// Ticks step apart from the number first to the number end, which is left out.
#[derive(Clone, Copy)]
pub struct Even {
    pub heads: Heads,
    pub first: u64,
    pub end: u64,
    pub step: u64,
}

// The first month that begins on an axis, and the month of its last day.
#[derive(Clone, Copy)]
pub struct MonthRange {
    pub first: u64,
    pub last: u64,
}

// An axis and the N of a hint, which the questions accept.
#[derive(Clone, Copy)]
pub struct Hinted {
    pub axis: Axis,
    pub n: u64,
    ghost accepted: { Accepted axis n },
}

impl Even {
    // Each number is a head, and the first is base.
    pub fn whole_heads(base: i64, end: u64, step: u64) -> Even
        ensures { result ≡ record { heads = whole_heads base; first = 0; end = end; step = step } }
    {
        Even {
            heads: Heads { base, per: 1 },
            first: 0,
            end,
            step,
        }
    }

    pub fn plan(self) -> Steps
        requires { 0 < self.step }
        ensures { result ≡ evenly self }
    {
        Steps {
            numbering: Numbering::Even(self.heads),
            first: self.first,
            step: self.step,
            count: steps::how_many(self.end.saturating_sub(self.first), self.step),
        }
    }
}

impl MonthRange {
    // Ticks k months apart.
    pub fn every(self, k: u64) -> Steps
        requires { (0 < k) × (self.last < 120000) }
        ensures { result ≡ months_by self.first self.last k }
    {
        Steps {
            numbering: Numbering::Months,
            first: self.first,
            step: k,
            count: steps::how_many((self.last + 1).saturating_sub(self.first), k),
        }
    }
}

// Bounds of single numbers stay clauses, here and below: a type for each is no plainer, every formula would open it again.

// The weeks of a step, which no hint makes longer than all of them and one.
#[tactic(auto, using(crate::proofs::Days::weeks_at_most), unfolding(floats::specs::Rounding::ceil_of))]
fn weeks_per(w: u64, n: u64) -> u64
    requires { (w < 4000000) × (n < w) }
    ensures { result ≡ min (ceil_of w n) (w + 1) }
{
    if n == 0 {
        w + 1
    } else {
        floats::ceil_quotient(w, n)
    }
}

// The days of a step, where the last day is d later than the first.
#[tactic(auto, unfolding(crate::specs::Days::date_step))]
fn date_step(d: u64, n: u64) -> u64
    requires { d < 4000000 }
    ensures { result ≡ date_step d n }
{
    let weeks = d / 7;
    if d == 0 {
        7
    } else if d <= n {
        1
    } else if weeks <= n {
        7
    } else {
        7 * weeks_per(weeks, n)
    }
}

#[tactic(auto, using(crate::proofs::Days::days_of_axis), unfolding(crate::specs::Days::day_plan))]
fn day_plan(d: DateAxis, n: u64) -> Steps
    ensures { result ≡ day_plan d.axis n }
{
    let from = d.from_day();
    let later = d.to_day().saturating_sub(from);
    Even::whole_heads(from as i64, later + 1, date_step(later, n)).plan()
}

// The weeks of a step, where there are c Mondays.
#[tactic(auto, unfolding(crate::specs::Weeks::week_step))]
fn week_step(c: u64, n: u64) -> u64
    requires { (c < 4000000) × (n ≤ 4096) }
    ensures { result ≡ week_step c n }
{
    c.saturating_sub(1) / (n + 1) + 1
}

// From the first Monday on, which may lie behind the last day.
#[tactic(auto, using(crate::proofs::Weeks::weeks_of_axis), unfolding(crate::specs::Weeks::week_plan))]
fn week_plan(d: DateAxis, n: u64) -> Steps
    requires { (from_day d.axis ≤ last_day) × (n ≤ 4096) }
    ensures { result ≡ week_plan d.axis n }
{
    let first = weeks::first_monday(d.from_day());
    let last = d.to_day();
    let step = 7 * week_step((last + 7).saturating_sub(first) / 7, n);
    Even::whole_heads(first as i64, (last + 1).saturating_sub(first), step).plan()
}

// The months of a step of years, where the last month is t later than the first.
#[tactic(auto, using(period::proofs::Fits::fit_most), unfolding(crate::specs::Months::year_step))]
fn year_step(t: u64, n: u64) -> u64
    requires { t < 120000 }
    ensures { result ≡ year_step t n }
{
    12 * period::first_fit(t / 12 + 1, n)
}

// The same where months, quarters and half-years come first.
#[tactic(auto, unfolding(crate::specs::Months::month_step))]
fn month_step(t: u64, n: u64) -> u64
    requires { (t < 120000) × (n ≤ 4096) }
    ensures { result ≡ month_step t n }
{
    if t <= n {
        1
    } else if t <= n * 3 {
        3
    } else if t <= n * 6 {
        6
    } else {
        year_step(t, n)
    }
}

#[tactic(auto, using(crate::proofs::Months::months_of_axis))]
pub fn months_on(d: DateAxis) -> MonthRange
    ensures { result ≡ record { first = from_month d.axis; last = to_month d.axis } }
{
    MonthRange {
        first: steps::whole_month(d.from_day()),
        last: steps::month_of(d.to_day()),
    }
}

// Months in a row, as far apart as step says where the last one is so many later than the first.
#[tactic(auto, using(crate::proofs::Months::last_most))]
fn by_months<F: FnOnce(u64) -> u64>(d: DateAxis, step: F) -> Steps
    requires takes { F.pre step (to_month d.axis - from_month d.axis) }
    requires above { (k : _) → F.post step (to_month d.axis - from_month d.axis) k → 0 < k }
    ensures { (k : _) × F.post step (to_month d.axis - from_month d.axis) k
        × (result ≡ months_by (from_month d.axis) (to_month d.axis) k) }
{
    let m = months_on(d);
    m.every(step(m.last.saturating_sub(m.first)))
}

// From x up to a multiple of k.
#[tactic(auto, unfolding(crate::specs::Times::shift_up))]
fn shift_up(x: u64, k: u64) -> u64
    requires { 0 < k }
    ensures { result ≡ shift_up x k }
{
    let rest = x % k;
    if rest == 0 { 0 } else { k - rest }
}

// From a duration of z nanoseconds to the first tick: up to a multiple of k, or from below zero toward it. Nothing where k
// divides the bits of z.
#[tactic(auto, using(laws::proofs::Signed::rem_fits, laws::proofs::Signed::read_count), unfolding(crate::specs::Times::shift_of))]
fn shift_of(z: i64, k: u64) -> u64
    requires { (0 < k) × (k < 2 ^ 63) }
    ensures { result ≡ shift_of z k }
{
    if z.cast_unsigned() % k == 0 {
        return 0;
    }
    let rest = (z % (k as i64)).unsigned_abs();
    if 0 < z { k - rest } else { rest }
}

// From the start to the first tick.
#[tactic(auto, using(crate::proofs::Spans::shift_of_axis), unfolding(crate::specs::Times::shift))]
fn shift(a: Axis, k: u64) -> u64
    requires { Timed a k }
    ensures { result ≡ shift a k }
{
    if !a.kind.is_duration() {
        return shift_up(calendar::as_count(a.start.tail), k);
    }
    let zero = Value { head: 0, tail: 0 };
    shift_of(
        values::nanoseconds_between(Kind::Span, zero, a.start).unwrap(),
        k,
    )
}

// Ticks a period apart.
#[tactic(auto, using(crate::proofs::Spans::times_of_axis), unfolding(crate::specs::Times::time_plan))]
fn time_plan(a: Axis, k: u64) -> Steps
    requires { Timed a k }
    ensures { result ≡ time_plan a k }
{
    let span = axis::span(a).unwrap();
    let tail = calendar::as_count(a.start.tail);
    let ticks = Even {
        heads: Heads {
            base: a.start.head,
            per: a.kind.unit(),
        },
        first: tail + shift(a, k),
        end: tail + calendar::as_count(span),
        step: k,
    };
    ticks.plan()
}

// The whole days of a duration, cut toward zero.
#[tactic(auto, using(crate::proofs::Times::zero_first), unfolding(values::specs::Differences::days_in))]
fn days_in(v: Value) -> i64
    requires { is_value Span v ≡ true }
    ensures { result ≡ days_in v }
{
    let zero = Value { head: 0, tail: 0 };
    values::whole_days_between(Kind::Span, zero, v)
}

// The first tick of whole days, in seconds.
#[tactic(auto, using(crate::proofs::Spans::whole_seconds), unfolding(crate::specs::Times::first_second))]
fn first_second(v: Value) -> i64
    requires { is_value Span v ≡ true }
    ensures { result ≡ first_second v }
{
    let whole = days_in(v) * 86400;
    let floor = Value {
        head: whole,
        tail: 0,
    };
    if v == floor { whole } else { whole + 86400 }
}

// From the first tick to the end, which is left out.
#[tactic(auto, using(crate::proofs::Spans::left_of_axis), unfolding(crate::specs::Times::seconds_left))]
fn seconds_left(a: Axis, first: i64) -> u64
    requires { Long a × (first ≡ first_second a.start) }
    ensures { result ≡ seconds_left a }
{
    let whole = calendar::as_count(a.end.head - first);
    if 0 < a.end.tail { whole + 1 } else { whole }
}

// Whole days of a duration.
#[tactic(auto, using(crate::proofs::Spans::days_of_span), unfolding(crate::specs::Times::span_days_plan))]
fn span_days_plan(a: Axis, n: u64) -> Steps
    requires { Long a }
    ensures { result ≡ span_days_plan a n }
{
    let first = first_second(a.start);
    let d = days_in(a.end) - days_in(a.start);
    let step = 86400 * period::first_fit(calendar::as_count(d), n);
    Even::whole_heads(first, seconds_left(a, first), step).plan()
}

impl Hinted {
    // The period of kinds 4 and 7, if there is one: else days are listed. Called apart it takes 28 instructions more.
    #[inline(always)]
    #[tactic(auto, using(crate::proofs::Spans::period_of_axis))]
    pub fn period(self) -> Option<u64>
        requires { 1 ≤ self.n }
        ensures { result ≡ period_in self.axis self.n }
    {
        let span = axis::span(self.axis)?;
        let sub_daily = !self.axis.kind.is_duration();
        let p = period::compute_period_per_point(calendar::as_count(span), self.n, sub_daily)?;
        Some(p.nanoseconds)
    }

    // The axis, where it is over dates or date-times.
    fn dates(self) -> DateAxis
        requires { is_duration self.axis.kind ≡ false }
        ensures { result.axis ≡ self.axis }
    {
        DateAxis { axis: self.axis }
    }

    // The plan of kinds 4 and 7: days where there is no period.
    #[tactic(auto, using(crate::proofs::Spans::timed, crate::proofs::Spans::long), unfolding(crate::specs::Plans::period_plan))]
    fn period_plan(self) -> Steps
        requires { 1 ≤ self.n }
        ensures { result ≡ period_plan self.axis self.n }
    {
        match self.period() {
            Some(k) => time_plan(self.axis, k),
            None if self.axis.kind.is_duration() => span_days_plan(self.axis, self.n),
            None => day_plan(self.dates(), self.n),
        }
    }

    // The plan of a kind.
    #[tactic(auto, using(crate::proofs::Plans::by_kind), unfolding(crate::specs::Plans::plan_of))]
    pub fn plan(self) -> Steps
        ensures { result ≡ plan_of self.axis self.n }
    {
        let n = self.n;
        match self.axis.kind {
            Kind::Date => day_plan(self.dates(), n),
            Kind::Month | Kind::StampMonth => by_months(self.dates(), |t| month_step(t, n)),
            Kind::Year | Kind::StampYear => by_months(self.dates(), |t| year_step(t, n)),
            Kind::Stamp | Kind::Span | Kind::Unknown => self.period_plan(),
            Kind::Week => week_plan(self.dates(), n),
        }
    }
}
