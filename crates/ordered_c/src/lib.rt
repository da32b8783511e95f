// The archive for C: each call of the crate ordered under its C name, with the same clauses word for word, and nothing else.
// include/ordered.h declares the same functions for C.
#![tactic(auto)]

ghost use Rattle.std.specs.Prelude.{◌≡◌, length};
ghost use Rattle.calendar.specs.Questions.{number_of, date_at};
ghost use Rattle.weeks.specs.Questions.{week_day_number, week_date_at};
ghost use Rattle.axis.specs.Axes.{axis_of};
ghost use Rattle.discrete.specs.Answers.{size_answer, index_answer, from_index_answer, next_answer, previous_answer};
ghost use Rattle.discrete.specs.Answers.{values_answer, unmap_answer};
ghost use Rattle.mapping.specs.Mapping.{mapped};
ghost use Rattle.segmented.specs.Answers.{segment_map_answer, segment_ticks_answer, segment_ticks_written};
ghost use Rattle.segmented.specs.Answers.{segment_size_answer, segment_index_answer, segment_from_answer};
ghost use Rattle.rules.specs.Table.{rules_answer};
ghost use Rattle.ruled.specs.Answers.{ruled_answer, ruled_written};
ghost use Rattle.ticks.specs.Answers.{ticks_answer, ticks_written, period_answer};
ghost use Rattle.ordered.specs.Replies.{number_reply, index_reply, period_reply, date_reply, week_reply};
ghost use Rattle.ordered.specs.Replies.{pixel_reply, value_reply, value_if_reply, step_reply, segment_reply};

use axis::Hint;
use ordered::{
    OrderedDate, OrderedNumber, OrderedPeriod, OrderedPixel, OrderedSegment, OrderedStep,
    OrderedValue, OrderedWeekDate,
};

#[unsafe(no_mangle)]
pub extern "C" fn ordered_day_number(year: i64, month: i64, day: i64) -> OrderedNumber
    ensures { result ≡ number_reply (number_of (record { year = year; month = month; day = day })) }
{
    ordered::ordered_day_number(year, month, day)
}

#[unsafe(no_mangle)]
pub extern "C" fn ordered_date_of(day_number: i64) -> OrderedDate
    ensures { result ≡ date_reply (date_at day_number) }
{
    ordered::ordered_date_of(day_number)
}

#[unsafe(no_mangle)]
pub extern "C" fn ordered_week_day_number(year: i64, week: i64, weekday: i64) -> OrderedNumber
    ensures { result ≡ number_reply (week_day_number (record { year = year; week = week; weekday = weekday })) }
{
    ordered::ordered_week_day_number(year, week, weekday)
}

#[unsafe(no_mangle)]
pub extern "C" fn ordered_week_date_of(day_number: i64) -> OrderedWeekDate
    ensures { result ≡ week_reply (week_date_at day_number) }
{
    ordered::ordered_week_date_of(day_number)
}

#[unsafe(no_mangle)]
pub extern "C" fn ordered_map(
    kind: i64,
    start_head: i64,
    start_tail: i64,
    end_head: i64,
    end_tail: i64,
    end_excluded: i64,
    low: i64,
    high: i64,
    head: i64,
    tail: i64,
) -> OrderedPixel
    ensures { result ≡ pixel_reply (mapped
        (axis_of kind start_head start_tail end_head end_tail end_excluded)
        (record { low = low; high = high }) (record { head = head; tail = tail })) }
{
    ordered::ordered_map(
        kind,
        start_head,
        start_tail,
        end_head,
        end_tail,
        end_excluded,
        low,
        high,
        head,
        tail,
    )
}

#[unsafe(no_mangle)]
pub extern "C" fn ordered_ticks_bold(
    kind: i64,
    start_head: i64,
    start_tail: i64,
    end_head: i64,
    end_tail: i64,
    end_excluded: i64,
    n: i64,
    lent: &mut [i64],
) -> OrderedNumber
    ensures value { result ≡ number_reply (ticks_answer
        (axis_of kind start_head start_tail end_head end_tail end_excluded)
        (Hint.Bold (record { n = n })) (length lent.old)) }
    ensures after_call { lent.new ≡ ticks_written
        (axis_of kind start_head start_tail end_head end_tail end_excluded)
        (Hint.Bold (record { n = n })) lent.old }
{
    ordered::ordered_ticks_bold(
        kind,
        start_head,
        start_tail,
        end_head,
        end_tail,
        end_excluded,
        n,
        lent,
    )
}

#[unsafe(no_mangle)]
pub extern "C" fn ordered_count_bold(
    kind: i64,
    start_head: i64,
    start_tail: i64,
    end_head: i64,
    end_tail: i64,
    end_excluded: i64,
    n: i64,
    lent_len: usize,
) -> OrderedNumber
    ensures { result ≡ number_reply (ticks_answer
        (axis_of kind start_head start_tail end_head end_tail end_excluded)
        (Hint.Bold (record { n = n })) lent_len) }
{
    ordered::ordered_count_bold(
        kind,
        start_head,
        start_tail,
        end_head,
        end_tail,
        end_excluded,
        n,
        lent_len,
    )
}

#[unsafe(no_mangle)]
pub extern "C" fn ordered_ticks_light(
    kind: i64,
    start_head: i64,
    start_tail: i64,
    end_head: i64,
    end_tail: i64,
    end_excluded: i64,
    bold: i64,
    n: i64,
    lent: &mut [i64],
) -> OrderedNumber
    ensures value { result ≡ number_reply (ticks_answer
        (axis_of kind start_head start_tail end_head end_tail end_excluded)
        (Hint.Light (record { bold = bold; n = n })) (length lent.old)) }
    ensures after_call { lent.new ≡ ticks_written
        (axis_of kind start_head start_tail end_head end_tail end_excluded)
        (Hint.Light (record { bold = bold; n = n })) lent.old }
{
    ordered::ordered_ticks_light(
        kind,
        start_head,
        start_tail,
        end_head,
        end_tail,
        end_excluded,
        bold,
        n,
        lent,
    )
}

#[unsafe(no_mangle)]
pub extern "C" fn ordered_count_light(
    kind: i64,
    start_head: i64,
    start_tail: i64,
    end_head: i64,
    end_tail: i64,
    end_excluded: i64,
    bold: i64,
    n: i64,
    lent_len: usize,
) -> OrderedNumber
    ensures { result ≡ number_reply (ticks_answer
        (axis_of kind start_head start_tail end_head end_tail end_excluded)
        (Hint.Light (record { bold = bold; n = n })) lent_len) }
{
    ordered::ordered_count_light(
        kind,
        start_head,
        start_tail,
        end_head,
        end_tail,
        end_excluded,
        bold,
        n,
        lent_len,
    )
}

#[unsafe(no_mangle)]
pub extern "C" fn ordered_rules(table: &[u8]) -> OrderedNumber
    ensures { result ≡ number_reply (rules_answer table.now) }
{
    ordered::ordered_rules(table)
}

#[unsafe(no_mangle)]
pub extern "C" fn ordered_ticks_ruled(
    kind: i64,
    start_head: i64,
    start_tail: i64,
    end_head: i64,
    end_tail: i64,
    end_excluded: i64,
    table: &[u8],
    lent: &mut [i64],
) -> OrderedNumber
    ensures value { result ≡ number_reply (ruled_answer table.now
        (axis_of kind start_head start_tail end_head end_tail end_excluded) (length lent.old)) }
    ensures after_call { lent.new ≡ ruled_written table.now
        (axis_of kind start_head start_tail end_head end_tail end_excluded) lent.old }
{
    ordered::ordered_ticks_ruled(
        kind,
        start_head,
        start_tail,
        end_head,
        end_tail,
        end_excluded,
        table,
        lent,
    )
}

#[unsafe(no_mangle)]
pub extern "C" fn ordered_count_ruled(
    kind: i64,
    start_head: i64,
    start_tail: i64,
    end_head: i64,
    end_tail: i64,
    end_excluded: i64,
    table: &[u8],
    lent_len: usize,
) -> OrderedNumber
    ensures { result ≡ number_reply (ruled_answer table.now
        (axis_of kind start_head start_tail end_head end_tail end_excluded) lent_len) }
{
    ordered::ordered_count_ruled(
        kind,
        start_head,
        start_tail,
        end_head,
        end_tail,
        end_excluded,
        table,
        lent_len,
    )
}

#[unsafe(no_mangle)]
pub extern "C" fn ordered_period_per_point(
    kind: i64,
    start_head: i64,
    start_tail: i64,
    end_head: i64,
    end_tail: i64,
    end_excluded: i64,
    n: i64,
) -> OrderedPeriod
    ensures { result ≡ period_reply (period_answer
        (axis_of kind start_head start_tail end_head end_tail end_excluded)
        (record { n = n })) }
{
    ordered::ordered_period_per_point(
        kind,
        start_head,
        start_tail,
        end_head,
        end_tail,
        end_excluded,
        n,
    )
}

#[unsafe(no_mangle)]
pub extern "C" fn ordered_unmap(
    kind: i64,
    start_head: i64,
    start_tail: i64,
    end_head: i64,
    end_tail: i64,
    end_excluded: i64,
    low: i64,
    high: i64,
    pixel: i64,
) -> OrderedValue
    ensures { result ≡ value_reply (unmap_answer
        (axis_of kind start_head start_tail end_head end_tail end_excluded)
        (record { low = low; high = high }) pixel) }
{
    ordered::ordered_unmap(
        kind,
        start_head,
        start_tail,
        end_head,
        end_tail,
        end_excluded,
        low,
        high,
        pixel,
    )
}

#[unsafe(no_mangle)]
pub extern "C" fn ordered_size(
    kind: i64,
    start_head: i64,
    start_tail: i64,
    end_head: i64,
    end_tail: i64,
    end_excluded: i64,
) -> OrderedNumber
    ensures { result ≡ number_reply (size_answer
        (axis_of kind start_head start_tail end_head end_tail end_excluded)) }
{
    ordered::ordered_size(
        kind,
        start_head,
        start_tail,
        end_head,
        end_tail,
        end_excluded,
    )
}

#[unsafe(no_mangle)]
pub extern "C" fn ordered_index_of(
    kind: i64,
    start_head: i64,
    start_tail: i64,
    end_head: i64,
    end_tail: i64,
    end_excluded: i64,
    head: i64,
    tail: i64,
) -> OrderedNumber
    ensures { result ≡ index_reply (index_answer
        (axis_of kind start_head start_tail end_head end_tail end_excluded)
        (record { head = head; tail = tail })) }
{
    ordered::ordered_index_of(
        kind,
        start_head,
        start_tail,
        end_head,
        end_tail,
        end_excluded,
        head,
        tail,
    )
}

#[unsafe(no_mangle)]
pub extern "C" fn ordered_from_index(
    kind: i64,
    start_head: i64,
    start_tail: i64,
    end_head: i64,
    end_tail: i64,
    end_excluded: i64,
    index: i64,
) -> OrderedValue
    ensures { result ≡ value_reply (from_index_answer
        (axis_of kind start_head start_tail end_head end_tail end_excluded)
        index) }
{
    ordered::ordered_from_index(
        kind,
        start_head,
        start_tail,
        end_head,
        end_tail,
        end_excluded,
        index,
    )
}

#[unsafe(no_mangle)]
pub extern "C" fn ordered_next(
    kind: i64,
    start_head: i64,
    start_tail: i64,
    end_head: i64,
    end_tail: i64,
    end_excluded: i64,
    head: i64,
    tail: i64,
) -> OrderedValue
    ensures { result ≡ value_if_reply (next_answer
        (axis_of kind start_head start_tail end_head end_tail end_excluded)
        (record { head = head; tail = tail })) }
{
    ordered::ordered_next(
        kind,
        start_head,
        start_tail,
        end_head,
        end_tail,
        end_excluded,
        head,
        tail,
    )
}

#[unsafe(no_mangle)]
pub extern "C" fn ordered_previous(
    kind: i64,
    start_head: i64,
    start_tail: i64,
    end_head: i64,
    end_tail: i64,
    end_excluded: i64,
    head: i64,
    tail: i64,
) -> OrderedValue
    ensures { result ≡ value_if_reply (previous_answer
        (axis_of kind start_head start_tail end_head end_tail end_excluded)
        (record { head = head; tail = tail })) }
{
    ordered::ordered_previous(
        kind,
        start_head,
        start_tail,
        end_head,
        end_tail,
        end_excluded,
        head,
        tail,
    )
}

#[unsafe(no_mangle)]
pub extern "C" fn ordered_values(
    kind: i64,
    start_head: i64,
    start_tail: i64,
    end_head: i64,
    end_tail: i64,
    end_excluded: i64,
    place: i64,
) -> OrderedStep
    ensures { result ≡ step_reply (values_answer
        (axis_of kind start_head start_tail end_head end_tail end_excluded)
        (record { place = place })) }
{
    ordered::ordered_values(
        kind,
        start_head,
        start_tail,
        end_head,
        end_tail,
        end_excluded,
        place,
    )
}

#[unsafe(no_mangle)]
pub extern "C" fn ordered_segment_map(
    kind: i64,
    start_head: i64,
    start_tail: i64,
    end_head: i64,
    end_tail: i64,
    end_excluded: i64,
    low: i64,
    high: i64,
    segment: i64,
    head: i64,
    tail: i64,
) -> OrderedPixel
    ensures { result ≡ pixel_reply (segment_map_answer
        (axis_of kind start_head start_tail end_head end_tail end_excluded)
        (record { low = low; high = high }) (record { case = segment; head = head; tail = tail })) }
{
    ordered::ordered_segment_map(
        kind,
        start_head,
        start_tail,
        end_head,
        end_tail,
        end_excluded,
        low,
        high,
        segment,
        head,
        tail,
    )
}

#[unsafe(no_mangle)]
pub extern "C" fn ordered_segment_ticks_bold(
    kind: i64,
    start_head: i64,
    start_tail: i64,
    end_head: i64,
    end_tail: i64,
    end_excluded: i64,
    n: i64,
    lent: &mut [i64],
) -> OrderedNumber
    ensures value { result ≡ number_reply (segment_ticks_answer
        (axis_of kind start_head start_tail end_head end_tail end_excluded)
        (Hint.Bold (record { n = n })) (length lent.old)) }
    ensures after_call { lent.new ≡ segment_ticks_written
        (axis_of kind start_head start_tail end_head end_tail end_excluded)
        (Hint.Bold (record { n = n })) lent.old }
{
    ordered::ordered_segment_ticks_bold(
        kind,
        start_head,
        start_tail,
        end_head,
        end_tail,
        end_excluded,
        n,
        lent,
    )
}

#[unsafe(no_mangle)]
pub extern "C" fn ordered_segment_ticks_light(
    kind: i64,
    start_head: i64,
    start_tail: i64,
    end_head: i64,
    end_tail: i64,
    end_excluded: i64,
    bold: i64,
    n: i64,
    lent: &mut [i64],
) -> OrderedNumber
    ensures value { result ≡ number_reply (segment_ticks_answer
        (axis_of kind start_head start_tail end_head end_tail end_excluded)
        (Hint.Light (record { bold = bold; n = n })) (length lent.old)) }
    ensures after_call { lent.new ≡ segment_ticks_written
        (axis_of kind start_head start_tail end_head end_tail end_excluded)
        (Hint.Light (record { bold = bold; n = n })) lent.old }
{
    ordered::ordered_segment_ticks_light(
        kind,
        start_head,
        start_tail,
        end_head,
        end_tail,
        end_excluded,
        bold,
        n,
        lent,
    )
}

#[unsafe(no_mangle)]
pub extern "C" fn ordered_segment_size(
    kind: i64,
    start_head: i64,
    start_tail: i64,
    end_head: i64,
    end_tail: i64,
    end_excluded: i64,
) -> OrderedNumber
    ensures { result ≡ number_reply (segment_size_answer
        (axis_of kind start_head start_tail end_head end_tail end_excluded)) }
{
    ordered::ordered_segment_size(
        kind,
        start_head,
        start_tail,
        end_head,
        end_tail,
        end_excluded,
    )
}

#[unsafe(no_mangle)]
pub extern "C" fn ordered_segment_index_of(
    kind: i64,
    start_head: i64,
    start_tail: i64,
    end_head: i64,
    end_tail: i64,
    end_excluded: i64,
    segment: i64,
    head: i64,
    tail: i64,
) -> OrderedNumber
    ensures { result ≡ index_reply (segment_index_answer
        (axis_of kind start_head start_tail end_head end_tail end_excluded)
        (record { case = segment; head = head; tail = tail })) }
{
    ordered::ordered_segment_index_of(
        kind,
        start_head,
        start_tail,
        end_head,
        end_tail,
        end_excluded,
        segment,
        head,
        tail,
    )
}

#[unsafe(no_mangle)]
pub extern "C" fn ordered_segment_from_index(
    kind: i64,
    start_head: i64,
    start_tail: i64,
    end_head: i64,
    end_tail: i64,
    end_excluded: i64,
    index: i64,
) -> OrderedSegment
    ensures { result ≡ segment_reply (segment_from_answer
        (axis_of kind start_head start_tail end_head end_tail end_excluded)
        index) }
{
    ordered::ordered_segment_from_index(
        kind,
        start_head,
        start_tail,
        end_head,
        end_tail,
        end_excluded,
        index,
    )
}
