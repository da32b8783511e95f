// The proleptic Gregorian calendar: a date's day number, the date of a day number, and the days of a date-time.
// No loop: a year is taken to begin in March, so that a leap day is its last (Neri and Schneider's formulas).
#![tactic(auto)]

ghost use Rattle.std.specs.Prelude.{◌≡◌, ◌+◌, ◌-◌, ◌*◌, ◌≤◌, ◌<◌, true, false, pos};
ghost use Rattle.std.specs.Int.Signed.{lt_z};
ghost use Rattle.laws.specs.Numbers.{pos_part};
ghost use Rattle.calendar.specs.Gregorian.{leap_day, month_length, day_number, date_of, Real};
ghost use Rattle.calendar.specs.DateTimes.{date_floor, date_ceil};
ghost use Rattle.calendar.specs.Questions.{last_day, in_ranges, is_day, number_of, date_at};

use asking::{Refusal, ask};

#[derive(Clone, Copy, Debug, PartialEq, Eq)]
pub struct Date {
    pub year: u64,
    pub month: u64,
    pub day: u64,
}

// Three numbers that may be a date.
#[derive(Clone, Copy)]
pub struct Ymd {
    pub year: i64,
    pub month: i64,
    pub day: i64,
}

// A day number and a nanosecond of that day.
#[derive(Clone, Copy)]
pub struct DateTime {
    pub day: u64,
    pub nano: u64,
}

// 9999-12-31.
pub const LAST_DAY: i64 = 3652059;

// The days of each month, in a year with no leap day.
const LENGTHS: [u8; 12] = [31, 28, 31, 30, 31, 30, 31, 31, 30, 31, 30, 31];

// How many leap days the year has: 0 or 1.
pub fn leap_day(y: u64) -> u64
    ensures { result ≡ leap_day y }
{
    if y % 4 != 0 {
        return 0;
    }
    if y % 100 != 0 {
        return 1;
    }
    if y % 400 == 0 { 1 } else { 0 }
}

// Year, month and day go side by side, each with its own bound, as ISO 8601 names them: a Date exists and has all three, while
// these are still to be asked or, as the first of a month, fixed in part.

// The range of a day number stays a clause: those that follow, and those in `weeks`, differ from function to function, so that a
// type would have to be made for each.

fn month_length(y: u64, m: u64) -> u64
    requires { (1 ≤ m) × (m ≤ 12) }
    ensures { result ≡ month_length y m }
{
    if m == 2 {
        return 28 + leap_day(y);
    }
    let i = (m - 1) as usize;
    u64::from(LENGTHS[i])
}

// j: the date is before March, and its year the one before, with the months 13 and 14. A hundredth of p is
// p * 5243 / 2^19, and (979 * m + 25) / 32 - 92 the days from 1 March to the month m.
pub fn day_number(y: u64, m: u64, d: u64) -> u64
    requires { Real y m d × (y ≤ 10000) }
    ensures { result ≡ day_number y m d }
{
    let j = u64::from(m < 3);
    let p = y - j;
    let c = p * 5243 / 524288;
    1461 * p / 4 - c + c / 4 + (979 * (m + 12 * j) + 25) / 32 + d - 398
}

// t: four times the days since 0000-03-01, and 3. c: the centuries. With the leap days that centuries leave out put
// back, a year is 1461 quarters of a day: p / 2^32 is the year, and what is left of it, e, the day of that year, from 0.
pub fn date_of(n: u64) -> Date
    requires { (1 ≤ n) × (n ≤ 3652425) }
    ensures { result ≡ date_of n }
{
    let t = 4 * n + 1223;
    let c = t / 146097;
    let p = 2939745 * (t + 4 * (c - c / 4));
    let e = p % 4294967296 / 11758980;
    let s = 2141 * e + 197913;
    let j = u64::from(e >= 306);
    Date {
        year: p / 4294967296 + j,
        month: s / 65536 - 12 * j,
        day: s % 65536 / 2141 + 1,
    }
}

// The date of a date-time: its time is dropped.
pub fn date_floor(t: DateTime) -> u64
    ensures { result ≡ date_floor t }
{
    t.day
}

// The first date whose midnight is not before a date-time, as plotters has it: by whole seconds, so that 00:00:00.5
// stays on its date.
pub fn date_ceil(t: DateTime) -> u64
    requires { t.day ≤ last_day }
    ensures { result ≡ date_ceil t }
{
    if t.nano / 1000000000 > 0 {
        return t.day + 1;
    }
    t.day
}

// A number that is not below 0, as a count: its clause says `pos_part`, which all callers' contracts read, while std's
// `cast_unsigned` speaks of bits, and `unsigned_abs` and `try_from` ask again what was asked just before each call.
pub fn as_count(n: i64) -> u64
    requires { lt_z n (pos 0) ≡ false }
    ensures { result ≡ pos_part n }
{
    n as u64
}

// A day of the years 1 to 9999.
pub fn is_day(n: i64) -> bool
    ensures { result ≡ is_day n }
{
    (1 <= n) & (n <= LAST_DAY)
}

// A date of these years, but for the month's length.
#[tactic(auto, unfolding(crate::specs::Questions::in_ranges))]
fn in_ranges(t: Ymd) -> bool
    ensures { result ≡ in_ranges t }
{
    (1 <= t.year) & (t.year <= 9999) & ((1 <= t.month) & (t.month <= 12)) & (1 <= t.day)
}

fn number_in_ranges(y: u64, m: u64, d: u64) -> Result<u64, Refusal>
    requires { in_ranges (record { year = pos y; month = pos m; day = pos d }) ≡ true }
    ensures { result ≡ number_of (record { year = pos y; month = pos m; day = pos d }) }
{
    ask(Refusal::Value, d <= month_length(y, m))?;
    Ok(day_number(y, m, d))
}

// The day number of any three numbers.
pub fn number_of(t: Ymd) -> Result<u64, Refusal>
    ensures { result ≡ number_of t }
{
    ask(Refusal::Value, in_ranges(t))?;
    number_in_ranges(as_count(t.year), as_count(t.month), as_count(t.day))
}

// The date of any number.
pub fn date_at(n: i64) -> Result<Date, Refusal>
    ensures { result ≡ date_at n }
{
    ask(Refusal::Value, is_day(n))?;
    Ok(date_of(as_count(n)))
}
