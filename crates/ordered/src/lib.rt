// The C interface: takes numbers, calls, and turns the answer into numbers.
// The crate ordered_c exports them to C.
#![tactic(auto)]

ghost use Rattle.std.specs.Prelude.{◌≡◌, ◌^◌, ◌<◌, length};
ghost use Rattle.std.specs.Result.{result_unwrap_or, ForOk};
ghost use Rattle.calendar.specs.Questions.{number_of, date_at};
ghost use Rattle.weeks.specs.Questions.{week_day_number, week_date_at};
ghost use Rattle.axis.specs.Axes.{axis_of};
ghost use Rattle.discrete.specs.Answers.{size_answer, index_answer, from_index_answer, next_answer, previous_answer};
ghost use Rattle.discrete.specs.Answers.{values_answer, unmap_answer};
ghost use Rattle.mapping.specs.Mapping.{mapped};
ghost use Rattle.segmented.specs.Answers.{segment_map_answer, segment_ticks_answer, segment_ticks_written};
ghost use Rattle.segmented.specs.Answers.{segment_size_answer, segment_index_answer, segment_from_answer};
ghost use Rattle.rules.specs.Table.{rules_answer};
ghost use Rattle.ruled.specs.Answers.{ruled_answer, ruled_written};
ghost use Rattle.ticks.specs.Answers.{ticks_answer, ticks_written, period_answer};
ghost use Rattle.ordered.specs.Replies.{number_reply, number_in, index_reply, period_reply, date_reply, week_reply};
ghost use Rattle.ordered.specs.Replies.{pixel_reply, value_reply, value_if_reply, step_reply, segment_reply};

use asking::Refusal;
use axis::{Axis, BoldPoints, Hint, LightPoints, Limits};
use calendar::{Date, Ymd};
use discrete::Cursor;
use mapping::Hairline;
use segmented::{Segment, SegmentValue};
use values::Value;
use weeks::{WeekDate, Ywd};

// A day number, count, size or index.
#[repr(C)]
#[derive(Clone, Copy, Default)]
pub struct OrderedNumber {
    pub status: i64,
    pub value: i64,
}

#[repr(C)]
#[derive(Clone, Copy, Default)]
pub struct OrderedPixel {
    pub status: i64,
    pub pixel: i64,
    pub exact: i64,
    pub lost: i64,
}

#[repr(C)]
#[derive(Clone, Copy)]
pub struct OrderedPeriod {
    pub status: i64,
    pub nanoseconds: i64,
}

#[repr(C)]
#[derive(Clone, Copy, Default)]
pub struct OrderedValue {
    pub status: i64,
    pub head: i64,
    pub tail: i64,
}

// A value, and the next place of the cursor.
#[repr(C)]
#[derive(Clone, Copy, Default)]
pub struct OrderedStep {
    pub status: i64,
    pub head: i64,
    pub tail: i64,
    pub next: i64,
}

// A segment value: 1 exact, 2 centre, 3 last.
#[repr(C)]
#[derive(Clone, Copy, Default)]
pub struct OrderedSegment {
    pub status: i64,
    pub segment: i64,
    pub head: i64,
    pub tail: i64,
}

#[repr(C)]
#[derive(Clone, Copy, Default)]
pub struct OrderedDate {
    pub status: i64,
    pub year: i64,
    pub month: i64,
    pub day: i64,
}

#[repr(C)]
#[derive(Clone, Copy, Default)]
pub struct OrderedWeekDate {
    pub status: i64,
    pub year: i64,
    pub week: i64,
    pub weekday: i64,
}

// Answers in C's numbers. `From` asks nothing of an answer: a reply is promised where its numbers are below 2^63, as here.
impl From<Result<u64, Refusal>> for OrderedNumber {
    ghost from_gives = { λ answer reply. result_unwrap_or answer 0 < 2 ^ 63 → reply ≡ number_reply answer };

    fn from(answer: Result<u64, Refusal>) -> OrderedNumber {
        OrderedNumber::from(answer.map(Some))
    }
}

impl From<Result<Option<u64>, Refusal>> for OrderedNumber {
    ghost from_gives = { λ answer reply. number_in answer < 2 ^ 63 → reply ≡ index_reply answer };

    fn from(answer: Result<Option<u64>, Refusal>) -> OrderedNumber {
        match answer {
            Ok(Some(n)) => OrderedNumber {
                status: 0,
                value: n.cast_signed(),
            },
            Ok(None) => OrderedNumber {
                status: -1,
                ..Default::default()
            },
            Err(q) => OrderedNumber {
                status: i64::from(q),
                ..Default::default()
            },
        }
    }
}

impl From<Result<Option<u64>, Refusal>> for OrderedPeriod {
    ghost from_gives = { λ answer reply. number_in answer < 2 ^ 63 → reply ≡ period_reply answer };

    fn from(answer: Result<Option<u64>, Refusal>) -> OrderedPeriod {
        let reply = OrderedNumber::from(answer);
        OrderedPeriod {
            status: reply.status,
            nanoseconds: reply.value,
        }
    }
}

impl From<Result<Date, Refusal>> for OrderedDate {
    ghost from_gives = { λ answer reply.
        ForOk answer (λ t. (t.year < 2 ^ 63) × (t.month < 2 ^ 63) × (t.day < 2 ^ 63)) → reply ≡ date_reply answer };

    fn from(answer: Result<Date, Refusal>) -> OrderedDate {
        match answer {
            Ok(t) => OrderedDate {
                status: 0,
                year: t.year.cast_signed(),
                month: t.month.cast_signed(),
                day: t.day.cast_signed(),
            },
            Err(q) => OrderedDate {
                status: i64::from(q),
                ..Default::default()
            },
        }
    }
}

// C's interface: as a date's reply, in a struct with other names.
impl From<Result<WeekDate, Refusal>> for OrderedWeekDate {
    ghost from_gives = { λ answer reply.
        ForOk answer (λ t. (t.year < 2 ^ 63) × (t.week < 2 ^ 63) × (t.weekday < 2 ^ 63)) → reply ≡ week_reply answer };

    fn from(answer: Result<WeekDate, Refusal>) -> OrderedWeekDate {
        match answer {
            Ok(t) => OrderedWeekDate {
                status: 0,
                year: t.year.cast_signed(),
                week: t.week.cast_signed(),
                weekday: t.weekday.cast_signed(),
            },
            Err(q) => OrderedWeekDate {
                status: i64::from(q),
                ..Default::default()
            },
        }
    }
}

impl From<Result<Hairline, Refusal>> for OrderedPixel {
    ghost from_gives = { λ answer reply. reply ≡ pixel_reply answer };

    fn from(answer: Result<Hairline, Refusal>) -> OrderedPixel {
        match answer {
            Ok(h) => OrderedPixel {
                status: 0,
                pixel: h.pixel,
                exact: i64::from(h.exact),
                lost: i64::from(h.lost),
            },
            Err(q) => OrderedPixel {
                status: i64::from(q),
                ..Default::default()
            },
        }
    }
}

impl From<Result<Value, Refusal>> for OrderedValue {
    ghost from_gives = { λ answer reply. reply ≡ value_reply answer };

    fn from(answer: Result<Value, Refusal>) -> OrderedValue {
        OrderedValue::from(answer.map(Some))
    }
}

impl From<Result<Option<Value>, Refusal>> for OrderedValue {
    ghost from_gives = { λ answer reply. reply ≡ value_if_reply answer };

    fn from(answer: Result<Option<Value>, Refusal>) -> OrderedValue {
        match answer {
            Ok(Some(v)) => OrderedValue {
                status: 0,
                head: v.head,
                tail: v.tail,
            },
            Ok(None) => OrderedValue {
                status: -1,
                ..Default::default()
            },
            Err(q) => OrderedValue {
                status: i64::from(q),
                ..Default::default()
            },
        }
    }
}

impl From<Result<(Option<Value>, Cursor), Refusal>> for OrderedStep {
    ghost from_gives = { λ answer reply. reply ≡ step_reply answer };

    fn from(answer: Result<(Option<Value>, Cursor), Refusal>) -> OrderedStep {
        match answer {
            Ok((Some(v), c)) => OrderedStep {
                status: 0,
                head: v.head,
                tail: v.tail,
                next: c.place,
            },
            Ok((None, c)) => OrderedStep {
                status: -1,
                next: c.place,
                ..Default::default()
            },
            Err(q) => OrderedStep {
                status: i64::from(q),
                ..Default::default()
            },
        }
    }
}

impl From<Result<Option<SegmentValue>, Refusal>> for OrderedSegment {
    ghost from_gives = { λ answer reply. reply ≡ segment_reply answer };

    fn from(answer: Result<Option<SegmentValue>, Refusal>) -> OrderedSegment {
        match answer {
            Ok(Some(SegmentValue::Exact(v))) => OrderedSegment {
                status: 0,
                segment: 1,
                head: v.head,
                tail: v.tail,
            },
            Ok(Some(SegmentValue::CenterOf(v))) => OrderedSegment {
                status: 0,
                segment: 2,
                head: v.head,
                tail: v.tail,
            },
            Ok(Some(SegmentValue::Last)) => OrderedSegment {
                status: 0,
                segment: 3,
                ..Default::default()
            },
            Ok(None) => OrderedSegment {
                status: -1,
                ..Default::default()
            },
            Err(q) => OrderedSegment {
                status: i64::from(q),
                ..Default::default()
            },
        }
    }
}

// The calls. C's interface: an axis is six numbers there, `kind` and `segment` are numbers, and two calls that differ in one
// function of the crates below each have a name and a contract.

pub fn ordered_day_number(year: i64, month: i64, day: i64) -> OrderedNumber
    ensures { result ≡ number_reply (number_of (record { year = year; month = month; day = day })) }
{
    let t = Ymd { year, month, day };
    OrderedNumber::from(calendar::number_of(t))
}

pub fn ordered_date_of(day_number: i64) -> OrderedDate
    ensures { result ≡ date_reply (date_at day_number) }
{
    OrderedDate::from(calendar::date_at(day_number))
}

pub fn ordered_week_day_number(year: i64, week: i64, weekday: i64) -> OrderedNumber
    ensures { result ≡ number_reply (week_day_number (record { year = year; week = week; weekday = weekday })) }
{
    let t = Ywd {
        year,
        week,
        weekday,
    };
    OrderedNumber::from(weeks::week_day_number(t))
}

pub fn ordered_week_date_of(day_number: i64) -> OrderedWeekDate
    ensures { result ≡ week_reply (week_date_at day_number) }
{
    OrderedWeekDate::from(weeks::week_date_at(day_number))
}

pub fn ordered_map(
    kind: i64,
    start_head: i64,
    start_tail: i64,
    end_head: i64,
    end_tail: i64,
    end_excluded: i64,
    low: i64,
    high: i64,
    head: i64,
    tail: i64,
) -> OrderedPixel
    ensures { result ≡ pixel_reply (mapped
        (axis_of kind start_head start_tail end_head end_tail end_excluded)
        (record { low = low; high = high }) (record { head = head; tail = tail })) }
{
    let a = axis::axis_of(
        kind,
        start_head,
        start_tail,
        end_head,
        end_tail,
        end_excluded,
    );
    let l = Limits { low, high };
    let v = Value { head, tail };
    OrderedPixel::from(mapping::map(a, l, v))
}

// The count of ticks, with either hint.
fn count_ticks(a: Axis, h: Hint, lent_len: u64) -> OrderedNumber
    ensures { result ≡ number_reply (ticks_answer a h lent_len) }
{
    OrderedNumber::from(ticks::count(a, h, lent_len))
}

pub fn ordered_ticks_bold(
    kind: i64,
    start_head: i64,
    start_tail: i64,
    end_head: i64,
    end_tail: i64,
    end_excluded: i64,
    n: i64,
    lent: &mut [i64],
) -> OrderedNumber
    ensures value { result ≡ number_reply (ticks_answer
        (axis_of kind start_head start_tail end_head end_tail end_excluded)
        (Hint.Bold (record { n = n })) (length lent.old)) }
    ensures after_call { lent.new ≡ ticks_written
        (axis_of kind start_head start_tail end_head end_tail end_excluded)
        (Hint.Bold (record { n = n })) lent.old }
{
    let a = axis::axis_of(
        kind,
        start_head,
        start_tail,
        end_head,
        end_tail,
        end_excluded,
    );
    let h = Hint::Bold(BoldPoints { n });
    OrderedNumber::from(ticks::list(a, h, lent))
}

pub fn ordered_count_bold(
    kind: i64,
    start_head: i64,
    start_tail: i64,
    end_head: i64,
    end_tail: i64,
    end_excluded: i64,
    n: i64,
    lent_len: usize,
) -> OrderedNumber
    ensures { result ≡ number_reply (ticks_answer
        (axis_of kind start_head start_tail end_head end_tail end_excluded)
        (Hint.Bold (record { n = n })) lent_len) }
{
    let a = axis::axis_of(
        kind,
        start_head,
        start_tail,
        end_head,
        end_tail,
        end_excluded,
    );
    let h = BoldPoints { n };
    count_ticks(a, Hint::Bold(h), lent_len as u64)
}

pub fn ordered_ticks_light(
    kind: i64,
    start_head: i64,
    start_tail: i64,
    end_head: i64,
    end_tail: i64,
    end_excluded: i64,
    bold: i64,
    n: i64,
    lent: &mut [i64],
) -> OrderedNumber
    ensures value { result ≡ number_reply (ticks_answer
        (axis_of kind start_head start_tail end_head end_tail end_excluded)
        (Hint.Light (record { bold = bold; n = n })) (length lent.old)) }
    ensures after_call { lent.new ≡ ticks_written
        (axis_of kind start_head start_tail end_head end_tail end_excluded)
        (Hint.Light (record { bold = bold; n = n })) lent.old }
{
    let a = axis::axis_of(
        kind,
        start_head,
        start_tail,
        end_head,
        end_tail,
        end_excluded,
    );
    let h = Hint::Light(LightPoints { bold, n });
    OrderedNumber::from(ticks::list(a, h, lent))
}

pub fn ordered_count_light(
    kind: i64,
    start_head: i64,
    start_tail: i64,
    end_head: i64,
    end_tail: i64,
    end_excluded: i64,
    bold: i64,
    n: i64,
    lent_len: usize,
) -> OrderedNumber
    ensures { result ≡ number_reply (ticks_answer
        (axis_of kind start_head start_tail end_head end_tail end_excluded)
        (Hint.Light (record { bold = bold; n = n })) lent_len) }
{
    let a = axis::axis_of(
        kind,
        start_head,
        start_tail,
        end_head,
        end_tail,
        end_excluded,
    );
    let h = LightPoints { bold, n };
    count_ticks(a, Hint::Light(h), lent_len as u64)
}

pub fn ordered_rules(table: &[u8]) -> OrderedNumber
    ensures { result ≡ number_reply (rules_answer table.now) }
{
    OrderedNumber::from(rules::count(table))
}

fn count_ruled(a: Axis, table: &[u8], lent_len: u64) -> OrderedNumber
    ensures { result ≡ number_reply (ruled_answer table.now a lent_len) }
{
    OrderedNumber::from(ruled::count(a, table, lent_len))
}

fn list_ruled(a: Axis, table: &[u8], lent: &mut [i64]) -> OrderedNumber
    ensures value { result ≡ number_reply (ruled_answer table.now a (length lent.old)) }
    ensures after_call { lent.new ≡ ruled_written table.now a lent.old }
{
    OrderedNumber::from(ruled::list(a, table, lent))
}

pub fn ordered_ticks_ruled(
    kind: i64,
    start_head: i64,
    start_tail: i64,
    end_head: i64,
    end_tail: i64,
    end_excluded: i64,
    table: &[u8],
    lent: &mut [i64],
) -> OrderedNumber
    ensures value { result ≡ number_reply (ruled_answer table.now
        (axis_of kind start_head start_tail end_head end_tail end_excluded) (length lent.old)) }
    ensures after_call { lent.new ≡ ruled_written table.now
        (axis_of kind start_head start_tail end_head end_tail end_excluded) lent.old }
{
    let a = axis::axis_of(
        kind,
        start_head,
        start_tail,
        end_head,
        end_tail,
        end_excluded,
    );
    list_ruled(a, table, lent)
}

pub fn ordered_count_ruled(
    kind: i64,
    start_head: i64,
    start_tail: i64,
    end_head: i64,
    end_tail: i64,
    end_excluded: i64,
    table: &[u8],
    lent_len: usize,
) -> OrderedNumber
    ensures { result ≡ number_reply (ruled_answer table.now
        (axis_of kind start_head start_tail end_head end_tail end_excluded) lent_len) }
{
    let a = axis::axis_of(
        kind,
        start_head,
        start_tail,
        end_head,
        end_tail,
        end_excluded,
    );
    count_ruled(a, table, lent_len as u64)
}

pub fn ordered_period_per_point(
    kind: i64,
    start_head: i64,
    start_tail: i64,
    end_head: i64,
    end_tail: i64,
    end_excluded: i64,
    n: i64,
) -> OrderedPeriod
    ensures { result ≡ period_reply (period_answer
        (axis_of kind start_head start_tail end_head end_tail end_excluded)
        (record { n = n })) }
{
    let a = axis::axis_of(
        kind,
        start_head,
        start_tail,
        end_head,
        end_tail,
        end_excluded,
    );
    let h = BoldPoints { n };
    OrderedPeriod::from(ticks::period_per_point(a, h))
}

pub fn ordered_unmap(
    kind: i64,
    start_head: i64,
    start_tail: i64,
    end_head: i64,
    end_tail: i64,
    end_excluded: i64,
    low: i64,
    high: i64,
    pixel: i64,
) -> OrderedValue
    ensures { result ≡ value_reply (unmap_answer
        (axis_of kind start_head start_tail end_head end_tail end_excluded)
        (record { low = low; high = high }) pixel) }
{
    let a = axis::axis_of(
        kind,
        start_head,
        start_tail,
        end_head,
        end_tail,
        end_excluded,
    );
    let l = Limits { low, high };
    OrderedValue::from(discrete::unmap(a, l, pixel))
}

pub fn ordered_size(
    kind: i64,
    start_head: i64,
    start_tail: i64,
    end_head: i64,
    end_tail: i64,
    end_excluded: i64,
) -> OrderedNumber
    ensures { result ≡ number_reply (size_answer
        (axis_of kind start_head start_tail end_head end_tail end_excluded)) }
{
    let a = axis::axis_of(
        kind,
        start_head,
        start_tail,
        end_head,
        end_tail,
        end_excluded,
    );
    OrderedNumber::from(discrete::size(a))
}

pub fn ordered_index_of(
    kind: i64,
    start_head: i64,
    start_tail: i64,
    end_head: i64,
    end_tail: i64,
    end_excluded: i64,
    head: i64,
    tail: i64,
) -> OrderedNumber
    ensures { result ≡ index_reply (index_answer
        (axis_of kind start_head start_tail end_head end_tail end_excluded)
        (record { head = head; tail = tail })) }
{
    let a = axis::axis_of(
        kind,
        start_head,
        start_tail,
        end_head,
        end_tail,
        end_excluded,
    );
    let v = Value { head, tail };
    OrderedNumber::from(discrete::index_of(a, v))
}

pub fn ordered_from_index(
    kind: i64,
    start_head: i64,
    start_tail: i64,
    end_head: i64,
    end_tail: i64,
    end_excluded: i64,
    index: i64,
) -> OrderedValue
    ensures { result ≡ value_reply (from_index_answer
        (axis_of kind start_head start_tail end_head end_tail end_excluded)
        index) }
{
    let a = axis::axis_of(
        kind,
        start_head,
        start_tail,
        end_head,
        end_tail,
        end_excluded,
    );
    OrderedValue::from(discrete::from_index(a, index))
}

pub fn ordered_next(
    kind: i64,
    start_head: i64,
    start_tail: i64,
    end_head: i64,
    end_tail: i64,
    end_excluded: i64,
    head: i64,
    tail: i64,
) -> OrderedValue
    ensures { result ≡ value_if_reply (next_answer
        (axis_of kind start_head start_tail end_head end_tail end_excluded)
        (record { head = head; tail = tail })) }
{
    let a = axis::axis_of(
        kind,
        start_head,
        start_tail,
        end_head,
        end_tail,
        end_excluded,
    );
    let v = Value { head, tail };
    OrderedValue::from(discrete::next(a, v))
}

// C's interface: the twin of ordered_next and ordered_index_of, by discrete::previous.
pub fn ordered_previous(
    kind: i64,
    start_head: i64,
    start_tail: i64,
    end_head: i64,
    end_tail: i64,
    end_excluded: i64,
    head: i64,
    tail: i64,
) -> OrderedValue
    ensures { result ≡ value_if_reply (previous_answer
        (axis_of kind start_head start_tail end_head end_tail end_excluded)
        (record { head = head; tail = tail })) }
{
    let a = axis::axis_of(
        kind,
        start_head,
        start_tail,
        end_head,
        end_tail,
        end_excluded,
    );
    let v = Value { head, tail };
    OrderedValue::from(discrete::previous(a, v))
}

pub fn ordered_values(
    kind: i64,
    start_head: i64,
    start_tail: i64,
    end_head: i64,
    end_tail: i64,
    end_excluded: i64,
    place: i64,
) -> OrderedStep
    ensures { result ≡ step_reply (values_answer
        (axis_of kind start_head start_tail end_head end_tail end_excluded)
        (record { place = place })) }
{
    let a = axis::axis_of(
        kind,
        start_head,
        start_tail,
        end_head,
        end_tail,
        end_excluded,
    );
    let c = Cursor { place };
    OrderedStep::from(discrete::values(a, c))
}

pub fn ordered_segment_map(
    kind: i64,
    start_head: i64,
    start_tail: i64,
    end_head: i64,
    end_tail: i64,
    end_excluded: i64,
    low: i64,
    high: i64,
    segment: i64,
    head: i64,
    tail: i64,
) -> OrderedPixel
    ensures { result ≡ pixel_reply (segment_map_answer
        (axis_of kind start_head start_tail end_head end_tail end_excluded)
        (record { low = low; high = high }) (record { case = segment; head = head; tail = tail })) }
{
    let a = axis::axis_of(
        kind,
        start_head,
        start_tail,
        end_head,
        end_tail,
        end_excluded,
    );
    let l = Limits { low, high };
    let s = Segment {
        case: segment,
        head,
        tail,
    };
    OrderedPixel::from(segmented::map(a, l, s))
}

// C's interface: the twin of ordered_ticks_bold, by segmented::list.
pub fn ordered_segment_ticks_bold(
    kind: i64,
    start_head: i64,
    start_tail: i64,
    end_head: i64,
    end_tail: i64,
    end_excluded: i64,
    n: i64,
    lent: &mut [i64],
) -> OrderedNumber
    ensures value { result ≡ number_reply (segment_ticks_answer
        (axis_of kind start_head start_tail end_head end_tail end_excluded)
        (Hint.Bold (record { n = n })) (length lent.old)) }
    ensures after_call { lent.new ≡ segment_ticks_written
        (axis_of kind start_head start_tail end_head end_tail end_excluded)
        (Hint.Bold (record { n = n })) lent.old }
{
    let a = axis::axis_of(
        kind,
        start_head,
        start_tail,
        end_head,
        end_tail,
        end_excluded,
    );
    let h = Hint::Bold(BoldPoints { n });
    OrderedNumber::from(segmented::list(a, h, lent))
}

// C's interface: the twin of ordered_ticks_light, by segmented::list.
pub fn ordered_segment_ticks_light(
    kind: i64,
    start_head: i64,
    start_tail: i64,
    end_head: i64,
    end_tail: i64,
    end_excluded: i64,
    bold: i64,
    n: i64,
    lent: &mut [i64],
) -> OrderedNumber
    ensures value { result ≡ number_reply (segment_ticks_answer
        (axis_of kind start_head start_tail end_head end_tail end_excluded)
        (Hint.Light (record { bold = bold; n = n })) (length lent.old)) }
    ensures after_call { lent.new ≡ segment_ticks_written
        (axis_of kind start_head start_tail end_head end_tail end_excluded)
        (Hint.Light (record { bold = bold; n = n })) lent.old }
{
    let a = axis::axis_of(
        kind,
        start_head,
        start_tail,
        end_head,
        end_tail,
        end_excluded,
    );
    let h = Hint::Light(LightPoints { bold, n });
    OrderedNumber::from(segmented::list(a, h, lent))
}

// C's interface: the twin of ordered_size, by segmented::size.
pub fn ordered_segment_size(
    kind: i64,
    start_head: i64,
    start_tail: i64,
    end_head: i64,
    end_tail: i64,
    end_excluded: i64,
) -> OrderedNumber
    ensures { result ≡ number_reply (segment_size_answer
        (axis_of kind start_head start_tail end_head end_tail end_excluded)) }
{
    let a = axis::axis_of(
        kind,
        start_head,
        start_tail,
        end_head,
        end_tail,
        end_excluded,
    );
    OrderedNumber::from(segmented::size(a))
}

pub fn ordered_segment_index_of(
    kind: i64,
    start_head: i64,
    start_tail: i64,
    end_head: i64,
    end_tail: i64,
    end_excluded: i64,
    segment: i64,
    head: i64,
    tail: i64,
) -> OrderedNumber
    ensures { result ≡ index_reply (segment_index_answer
        (axis_of kind start_head start_tail end_head end_tail end_excluded)
        (record { case = segment; head = head; tail = tail })) }
{
    let a = axis::axis_of(
        kind,
        start_head,
        start_tail,
        end_head,
        end_tail,
        end_excluded,
    );
    let s = Segment {
        case: segment,
        head,
        tail,
    };
    OrderedNumber::from(segmented::index_of(a, s))
}

// C's interface: the twin of ordered_from_index, which answers a value of a segment.
pub fn ordered_segment_from_index(
    kind: i64,
    start_head: i64,
    start_tail: i64,
    end_head: i64,
    end_tail: i64,
    end_excluded: i64,
    index: i64,
) -> OrderedSegment
    ensures { result ≡ segment_reply (segment_from_answer
        (axis_of kind start_head start_tail end_head end_tail end_excluded)
        index) }
{
    let a = axis::axis_of(
        kind,
        start_head,
        start_tail,
        end_head,
        end_tail,
        end_excluded,
    );
    OrderedSegment::from(segmented::from_index(a, index))
}
