// Week dates of ISO 8601, and the Mondays of days. No loop: day 1 is a Monday, so that a seventh of the days before a day
// is the weeks before it.
#![tactic(auto)]

ghost use Rattle.std.specs.Prelude.{◌≡◌, ◌+◌, ◌-◌, ◌≤◌, true, leb, pos};
ghost use Rattle.calendar.specs.Gregorian.{years, date_of};
ghost use Rattle.calendar.specs.Questions.{last_day};
ghost use Rattle.weeks.specs.Weeks.{monday, week_date_of, weeks_of, week_day, InWeeks, mondays_to, first_monday};
ghost use Rattle.weeks.specs.Questions.{in_ranges, week_day_number, week_date_at};

use asking::{Refusal, ask};
use calendar::LAST_DAY;

#[derive(Clone, Copy)]
pub struct WeekDate {
    pub year: u64,
    pub week: u64,
    pub weekday: u64,
}

// Three numbers that may be a week date.
#[derive(Clone, Copy)]
pub struct Ywd {
    pub year: i64,
    pub week: i64,
    pub weekday: i64,
}

// A year, and how many of its days come before a day of it.
#[derive(Clone, Copy)]
struct YearDay {
    year: u64,
    day: u64,
}

// The third of January of the year y: a seventh of it is how many Thursdays there were before the year.
fn third(y: u64) -> u64
    requires { (1 ≤ y) × (y ≤ 9999) }
    ensures { (result ≡ years (y - 1) + 3) × (result ≤ 3652061) }
{
    calendar::day_number(y, 1, 1) + 2
}

// The Thursdays of the year y.
fn weeks_of(y: u64) -> u64
    requires { (1 ≤ y) × (y ≤ 9999) }
    ensures { result ≡ weeks_of y }
{
    let t = third(y);
    (t + 365 + calendar::leap_day(y)) / 7 - t / 7
}

// Year, week and weekday go side by side, each with its own bound, as in `calendar`; the ranges of day numbers are clauses as
// there.

// Has the year a week w? Every year has 52; were it not said apart, a week date's day would take 52 instructions, and not 38.
fn has_week(y: u64, w: u64) -> bool
    requires { (1 ≤ y) × (y ≤ 9999) }
    ensures { result ≡ leb w (weeks_of y) }
{
    w <= 52 || w <= weeks_of(y)
}

// As in calendar::date_of, but for years that begin in January. t: four times the days before n, and 3. c: the centuries.
// With the leap days that centuries leave out put back, a year is 1461 quarters of a day: p / 2^32 are the years before.
#[tactic(auto, using(crate::proofs::Years::year_day_is))]
fn year_day(n: u64) -> YearDay
    requires { (1 ≤ n) × (n ≤ 3652425) }
    ensures { (result.year ≡ (date_of n).year) × (years (result.year - 1) + result.day + 1 ≡ n) }
{
    let t = 4 * n - 1;
    let c = t / 146097;
    let p = 2939745 * (t + 4 * (c - c / 4));
    YearDay {
        year: p / 4294967296 + 1,
        day: p % 4294967296 / 11758980,
    }
}

// k: the weeks before that of the day n, whose Thursday is 7 * k + 4.
fn week_date(n: u64) -> WeekDate
    requires { (1 ≤ n) × (n ≤ last_day) }
    ensures { result ≡ week_date_of n }
{
    let k = (n - 1) / 7;
    let t = year_day(7 * k + 4);
    WeekDate {
        year: t.year,
        week: t.day / 7 + 1,
        weekday: n - 7 * k,
    }
}

// The weeks before the week, and then the weekday.
fn week_day(y: u64, w: u64, d: u64) -> u64
    requires { InWeeks y w d × (y ≤ 9999) }
    ensures { result ≡ week_day y w d }
{
    7 * (third(y) / 7 + w - 1) + d
}

// A week date, but for the weeks that the year has.
#[tactic(auto, unfolding(crate::specs::Questions::in_ranges))]
fn in_ranges(t: Ywd) -> bool
    ensures { result ≡ in_ranges t }
{
    (1 <= t.year) & (t.year <= 9999) & (1 <= t.week) & ((1 <= t.weekday) & (t.weekday <= 7))
}

fn number_in_ranges(y: u64, w: u64, d: u64) -> Result<u64, Refusal>
    requires { in_ranges (record { year = pos y; week = pos w; weekday = pos d }) ≡ true }
    ensures { result ≡ week_day_number (record { year = pos y; week = pos w; weekday = pos d }) }
{
    ask(Refusal::WeekDate, has_week(y, w))?;
    let n = week_day(y, w, d);
    ask(Refusal::Range, n <= LAST_DAY as u64)?;
    Ok(n)
}

// The day number of any year, week and weekday.
pub fn week_day_number(t: Ywd) -> Result<u64, Refusal>
    ensures { result ≡ week_day_number t }
{
    ask(Refusal::WeekDate, in_ranges(t))?;
    number_in_ranges(
        calendar::as_count(t.year),
        calendar::as_count(t.week),
        calendar::as_count(t.weekday),
    )
}

// The week date of any number.
pub fn week_date_at(n: i64) -> Result<WeekDate, Refusal>
    ensures { result ≡ week_date_at n }
{
    ask(Refusal::Value, calendar::is_day(n))?;
    Ok(week_date(calendar::as_count(n)))
}

// How many Mondays there are up to the day n.
#[tactic(auto, using(crate::proofs::Mondays::mondays_to_law))]
pub fn mondays_to(n: u64) -> u64
    requires { n ≤ last_day }
    ensures { result ≡ mondays_to n }
{
    (n + 6) / 7
}

// The Monday on or before the day n.
#[tactic(auto, using(crate::proofs::Mondays::monday_is))]
pub fn monday(n: u64) -> u64
    requires { 1 ≤ n }
    ensures { result ≡ monday n }
{
    n - (n - 1) % 7
}

// The first Monday from the day n on.
#[tactic(auto, using(crate::proofs::Mondays::first_monday_law))]
pub fn first_monday(n: u64) -> u64
    requires { (1 ≤ n) × (n ≤ last_day) }
    ensures { result ≡ first_monday n }
{
    7 * ((n + 5) / 7) + 1
}
