// Values of an axis: which numbers are a value of a kind, the order of values, and how far apart two of them are.
#![tactic(auto)]

ghost use Rattle.std.specs.Prelude.{◌≡◌};
ghost use Rattle.values.specs.Values.{kind_of, numbered, over_dates, is_duration, is_value, Both};
ghost use Rattle.values.specs.Differences.{unit, difference, nanoseconds_of, whole_days, Cut};

use asking::Refusal;

// What an axis is over, and how it counts: days, months and years of dates; the same of date-times, but that Stamp counts
// nothing; durations; weeks of dates. The numbers are those of ordered_kinds in include/ordered.h; all others are no kind.
#[derive(Clone, Copy, Debug, PartialEq, Eq)]
pub enum Kind {
    Unknown = 0,
    Date = 1,
    Month = 2,
    Year = 3,
    Stamp = 4,
    StampMonth = 5,
    StampYear = 6,
    Span = 7,
    Week = 8,
}

// Question 1 of a number; of a kind it is `axis::known`.
impl TryFrom<i64> for Kind {
    type Error = Refusal;

    ghost try_from_gives = { λ n r. r ≡ kind_of n };

    fn try_from(number: i64) -> Result<Kind, Refusal> {
        match number {
            1 => Ok(Kind::Date),
            2 => Ok(Kind::Month),
            3 => Ok(Kind::Year),
            4 => Ok(Kind::Stamp),
            5 => Ok(Kind::StampMonth),
            6 => Ok(Kind::StampYear),
            7 => Ok(Kind::Span),
            8 => Ok(Kind::Week),
            _ => Err(Refusal::Kind),
        }
    }
}

// Date: day number and 0. Date-time: day number and nanosecond of the day. Duration: seconds and nanoseconds.
#[derive(Clone, Copy, PartialEq, Eq, PartialOrd, Ord)]
pub struct Value {
    pub head: i64,
    pub tail: i64,
}

impl Kind {
    // The kind of any number. No `From<i64>`: with one, std's own `TryFrom` would never fail.
    #[tactic(auto, unfolding(crate::specs::Values::numbered))]
    pub fn numbered(number: i64) -> Kind
        ensures { result ≡ numbered number }
    {
        Kind::try_from(number).unwrap_or(Kind::Unknown)
    }

    // Is the kind over dates?
    pub fn over_dates(self) -> bool
        ensures { result ≡ over_dates self }
    {
        matches!(self, Kind::Date | Kind::Month | Kind::Year | Kind::Week)
    }

    // Is the kind over durations?
    pub fn is_duration(self) -> bool
        ensures { result ≡ is_duration self }
    {
        self == Kind::Span
    }

    // The nanoseconds of one of a value's head: of a second, or of a day.
    pub fn unit(self) -> u64
        ensures { result ≡ unit self }
    {
        if self.is_duration() {
            1000000000
        } else {
            86400000000000
        }
    }
}

// A value goes beside its kind, which the ends and all values of an axis share: a value with a kind would be two of them.

// Is v a value of the kind?
pub fn is_value(kind: Kind, v: Value) -> bool
    ensures { result ≡ is_value kind v }
{
    match kind {
        Kind::Date | Kind::Month | Kind::Year | Kind::Week => {
            calendar::is_day(v.head) & (v.tail == 0)
        }
        Kind::Stamp | Kind::StampMonth | Kind::StampYear => {
            calendar::is_day(v.head) & ((0 <= v.tail) & (v.tail <= 86399999999999))
        }
        Kind::Span => {
            (-315576000000 <= v.head)
                & (v.head <= 315576000000)
                & ((0 <= v.tail) & (v.tail <= 999999999))
        }
        Kind::Unknown => false,
    }
}

// The whole heads, cut toward zero: where the tails go the other way than the heads, one head goes to them.
fn toward_zero(heads: i64, tails: i64) -> i64
    ensures { Cut heads tails result }
{
    if (0 < heads) & (tails < 0) {
        return heads - 1;
    }
    if (heads < 0) & (0 < tails) {
        return heads + 1;
    }
    heads
}

// From a to b, in nanoseconds. Heads that are further apart than 64 bits say are so in nanoseconds too, with any tails.
pub fn nanoseconds_between(kind: Kind, a: Value, b: Value) -> Option<i64>
    ensures { result ≡ nanoseconds_of (difference kind a b) }
{
    let heads = b.head.checked_sub(a.head)?;
    let tails = i128::from(b.tail) - i128::from(a.tail);
    i64::try_from(i128::from(heads) * i128::from(kind.unit()) + tails).ok()
}

// From a to b, in whole days cut toward zero.
pub fn whole_days_between(kind: Kind, a: Value, b: Value) -> i64
    requires { Both kind a b }
    ensures { result ≡ whole_days (difference kind a b) }
{
    let n = toward_zero(b.head - a.head, b.tail - a.tail);
    if kind.is_duration() {
        return n / 86400;
    }
    n
}
