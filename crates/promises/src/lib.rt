// Claims about what the calls of C answer. Each function here makes such calls and ensures the claim, of the axis that any six
// numbers make. Where it is of no kind, each call of a list or a pixel is refused by 1, by house rules after the table's own
// questions, and the lent numbers stay.
// C's interface has a call for each hint and each list, and an axis is six numbers there: so twins, as ticks_bold and
// ticks_light, lists_bold and lists_light, map_days and map_ends, have a function each, and all functions take six numbers.
//
// Demand 3 stands in specs/Demand.antt, one list for date-times and dates in specs/OneList.antt, how far a pixel may be off in
// specs/HowFarOff.antt, how it is drawn in specs/Hairlines.antt, house rules in specs/HouseRules.antt; theorems in proofs/.
#![tactic(auto)]

ghost use Rattle.std.specs.Prelude.{◌≡◌, false, [], Err};
ghost use Rattle.asking.specs.declared.Refusal.TheVariants as refusal;
ghost use Rattle.asking.specs.Asking.{asked};
ghost use Rattle.axis.specs.Axes.{axis_of};
ghost use Rattle.axis.specs.Questions.{known};
ghost use Rattle.rules.specs.Table.{table_questions};
ghost use Rattle.ordered.specs.Replies.{number_reply, pixel_reply};
ghost use Rattle.promises.specs.Demand.{FineList, FinePart, DaysApart};
ghost use Rattle.promises.specs.OneList.{SameLists};
ghost use Rattle.promises.specs.HowFarOff.{OffOf, AtEnds};
ghost use Rattle.promises.specs.Hairlines.{DrawnOf, EndsDrawn};
ghost use Rattle.promises.specs.HouseRules.{TableClaim, RuledList};

use axis::Hint;
use ordered::{OrderedNumber, OrderedPeriod, OrderedPixel};

// What the mappings of two values answered.
#[derive(Clone, Copy)]
pub struct TwoPixels {
    pub first: OrderedPixel,
    pub second: OrderedPixel,
}

// What the calls of a period, of a list of date-times and of a list of dates answered.
#[derive(Clone, Copy)]
pub struct Lists {
    pub period: OrderedPeriod,
    pub times: OrderedNumber,
    pub dates: OrderedNumber,
}

pub fn ticks_bold(
    kind: i64,
    start_head: i64,
    start_tail: i64,
    end_head: i64,
    end_tail: i64,
    end_excluded: i64,
    n: i64,
    lent: &mut [i64],
) -> OrderedNumber
    ensures listed { FineList (axis_of kind start_head start_tail end_head end_tail end_excluded)
        (Hint.Bold (record { n = n })) result lent.new }
    ensures refused { known (axis_of kind start_head start_tail end_head end_tail end_excluded) ≡ false →
        (result ≡ number_reply (Err refusal.Kind)) × (lent.new ≡ lent.old) }
{
    ordered::ordered_ticks_bold(
        kind,
        start_head,
        start_tail,
        end_head,
        end_tail,
        end_excluded,
        n,
        lent,
    )
}

pub fn ticks_light(
    kind: i64,
    start_head: i64,
    start_tail: i64,
    end_head: i64,
    end_tail: i64,
    end_excluded: i64,
    bold: i64,
    n: i64,
    lent: &mut [i64],
) -> OrderedNumber
    ensures listed { FineList (axis_of kind start_head start_tail end_head end_tail end_excluded)
        (Hint.Light (record { bold = bold; n = n })) result lent.new }
    ensures refused { known (axis_of kind start_head start_tail end_head end_tail end_excluded) ≡ false →
        (result ≡ number_reply (Err refusal.Kind)) × (lent.new ≡ lent.old) }
{
    ordered::ordered_ticks_light(
        kind,
        start_head,
        start_tail,
        end_head,
        end_tail,
        end_excluded,
        bold,
        n,
        lent,
    )
}

// The twin of ticks_bold, by the call of segment axes; the claim is the same.
pub fn segment_ticks_bold(
    kind: i64,
    start_head: i64,
    start_tail: i64,
    end_head: i64,
    end_tail: i64,
    end_excluded: i64,
    n: i64,
    lent: &mut [i64],
) -> OrderedNumber
    ensures listed { FineList (axis_of kind start_head start_tail end_head end_tail end_excluded)
        (Hint.Bold (record { n = n })) result lent.new }
    ensures refused { known (axis_of kind start_head start_tail end_head end_tail end_excluded) ≡ false →
        (result ≡ number_reply (Err refusal.Kind)) × (lent.new ≡ lent.old) }
{
    ordered::ordered_segment_ticks_bold(
        kind,
        start_head,
        start_tail,
        end_head,
        end_tail,
        end_excluded,
        n,
        lent,
    )
}

// The twin of ticks_light, as above.
pub fn segment_ticks_light(
    kind: i64,
    start_head: i64,
    start_tail: i64,
    end_head: i64,
    end_tail: i64,
    end_excluded: i64,
    bold: i64,
    n: i64,
    lent: &mut [i64],
) -> OrderedNumber
    ensures listed { FineList (axis_of kind start_head start_tail end_head end_tail end_excluded)
        (Hint.Light (record { bold = bold; n = n })) result lent.new }
    ensures refused { known (axis_of kind start_head start_tail end_head end_tail end_excluded) ≡ false →
        (result ≡ number_reply (Err refusal.Kind)) × (lent.new ≡ lent.old) }
{
    ordered::ordered_segment_ticks_light(
        kind,
        start_head,
        start_tail,
        end_head,
        end_tail,
        end_excluded,
        bold,
        n,
        lent,
    )
}

// The part of the lent numbers that is handed back, with a bold or a light hint; empty where the kind is none.
pub fn key_points(
    kind: i64,
    start_head: i64,
    start_tail: i64,
    end_head: i64,
    end_tail: i64,
    end_excluded: i64,
    h: Hint,
    lent: &mut [i64],
) -> &mut [i64]
    ensures handed { FinePart (axis_of kind start_head start_tail end_head end_tail end_excluded) h result.now }
    ensures refused { known (axis_of kind start_head start_tail end_head end_tail end_excluded) ≡ false → result.now ≡ [] }
    ensures place { result.ref_ptr ≡ lent.entry.ref_ptr }
{
    let a = axis::axis_of(
        kind,
        start_head,
        start_tail,
        end_head,
        end_tail,
        end_excluded,
    );
    ticks::key_points(a, h, lent)
}

// The pixels of two days.
pub fn map_days(
    kind: i64,
    start_head: i64,
    start_tail: i64,
    end_head: i64,
    end_tail: i64,
    end_excluded: i64,
    low: i64,
    high: i64,
    first: i64,
    second: i64,
) -> TwoPixels
    ensures apart { DaysApart (axis_of kind start_head start_tail end_head end_tail end_excluded)
        (record { low = low; high = high }) first second
        result.first result.second }
    ensures refused { known (axis_of kind start_head start_tail end_head end_tail end_excluded) ≡ false →
        (result.first ≡ pixel_reply (Err refusal.Kind)) × (result.second ≡ pixel_reply (Err refusal.Kind)) }
{
    TwoPixels {
        first: ordered::ordered_map(
            kind,
            start_head,
            start_tail,
            end_head,
            end_tail,
            end_excluded,
            low,
            high,
            first,
            0,
        ),
        second: ordered::ordered_map(
            kind,
            start_head,
            start_tail,
            end_head,
            end_tail,
            end_excluded,
            low,
            high,
            second,
            0,
        ),
    }
}

// The pixel of a value.
pub fn map_value(
    kind: i64,
    start_head: i64,
    start_tail: i64,
    end_head: i64,
    end_tail: i64,
    end_excluded: i64,
    low: i64,
    high: i64,
    head: i64,
    tail: i64,
) -> OrderedPixel
    ensures off { OffOf (axis_of kind start_head start_tail end_head end_tail end_excluded)
        (record { low = low; high = high }) (record { head = head; tail = tail })
        result }
    ensures drawn { DrawnOf (axis_of kind start_head start_tail end_head end_tail end_excluded)
        (record { low = low; high = high }) (record { head = head; tail = tail })
        result }
    ensures refused { known (axis_of kind start_head start_tail end_head end_tail end_excluded) ≡ false →
        result ≡ pixel_reply (Err refusal.Kind) }
{
    ordered::ordered_map(
        kind,
        start_head,
        start_tail,
        end_head,
        end_tail,
        end_excluded,
        low,
        high,
        head,
        tail,
    )
}

// The pixels of the start and of the end.
pub fn map_ends(
    kind: i64,
    start_head: i64,
    start_tail: i64,
    end_head: i64,
    end_tail: i64,
    end_excluded: i64,
    low: i64,
    high: i64,
) -> TwoPixels
    ensures off { AtEnds (axis_of kind start_head start_tail end_head end_tail end_excluded)
        (record { low = low; high = high }) result.first result.second }
    ensures drawn { EndsDrawn (axis_of kind start_head start_tail end_head end_tail end_excluded)
        (record { low = low; high = high }) result.first result.second }
    ensures refused { known (axis_of kind start_head start_tail end_head end_tail end_excluded) ≡ false →
        (result.first ≡ pixel_reply (Err refusal.Kind)) × (result.second ≡ pixel_reply (Err refusal.Kind)) }
{
    TwoPixels {
        first: ordered::ordered_map(
            kind,
            start_head,
            start_tail,
            end_head,
            end_tail,
            end_excluded,
            low,
            high,
            start_head,
            start_tail,
        ),
        second: ordered::ordered_map(
            kind,
            start_head,
            start_tail,
            end_head,
            end_tail,
            end_excluded,
            low,
            high,
            end_head,
            end_tail,
        ),
    }
}

// A list with a bold hint, the period of kind 4 beside it, and the list of the dates between two days with the same N.
pub fn lists_bold(
    kind: i64,
    start_head: i64,
    start_tail: i64,
    end_head: i64,
    end_tail: i64,
    end_excluded: i64,
    n: i64,
    from: i64,
    to: i64,
    lent: &mut [i64],
    beside: &mut [i64],
) -> Lists
    ensures { SameLists (axis_of kind start_head start_tail end_head end_tail end_excluded)
        (Hint.Bold (record { n = n })) from to lent.old beside.old
        result lent.new beside.new }
{
    Lists {
        period: ordered::ordered_period_per_point(
            4,
            start_head,
            start_tail,
            end_head,
            end_tail,
            end_excluded,
            n,
        ),
        times: ordered::ordered_ticks_bold(
            kind,
            start_head,
            start_tail,
            end_head,
            end_tail,
            end_excluded,
            n,
            lent,
        ),
        dates: ordered::ordered_ticks_bold(1, from, 0, to, 0, 0, n, beside),
    }
}

// The same with a light hint.
pub fn lists_light(
    kind: i64,
    start_head: i64,
    start_tail: i64,
    end_head: i64,
    end_tail: i64,
    end_excluded: i64,
    bold: i64,
    n: i64,
    from: i64,
    to: i64,
    lent: &mut [i64],
    beside: &mut [i64],
) -> Lists
    ensures { SameLists (axis_of kind start_head start_tail end_head end_tail end_excluded)
        (Hint.Light (record { bold = bold; n = n })) from to
        lent.old beside.old result lent.new beside.new }
{
    Lists {
        period: ordered::ordered_period_per_point(
            4,
            start_head,
            start_tail,
            end_head,
            end_tail,
            end_excluded,
            n,
        ),
        times: ordered::ordered_ticks_light(
            kind,
            start_head,
            start_tail,
            end_head,
            end_tail,
            end_excluded,
            bold,
            n,
            lent,
        ),
        dates: ordered::ordered_ticks_bold(1, from, 0, to, 0, 0, n, beside),
    }
}

// The verdict on a table of house rules.
pub fn rules_of(table: &[u8]) -> OrderedNumber
    ensures { TableClaim table.now result }
{
    ordered::ordered_rules(table)
}

// A list by the table's row for the span.
pub fn ticks_ruled(
    kind: i64,
    start_head: i64,
    start_tail: i64,
    end_head: i64,
    end_tail: i64,
    end_excluded: i64,
    table: &[u8],
    lent: &mut [i64],
) -> OrderedNumber
    ensures listed { RuledList table.now (axis_of kind start_head start_tail end_head end_tail end_excluded)
        result lent.old lent.new }
    ensures refused { known (axis_of kind start_head start_tail end_head end_tail end_excluded) ≡ false →
        (result ≡ number_reply (asked (table_questions table.now) (Err refusal.Kind))) × (lent.new ≡ lent.old) }
{
    ordered::ordered_ticks_ruled(
        kind,
        start_head,
        start_tail,
        end_head,
        end_tail,
        end_excluded,
        table,
        lent,
    )
}
