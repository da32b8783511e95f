// Indices of the kinds that count days, months, years or weeks, as plotters' DiscreteRanged: size, index_of, from_index, next,
// previous, the values cursor, and the value under a pixel. Whole-number work, with no float.
#![tactic(auto)]

ghost use Rattle.std.specs.Prelude.{◌≡◌, true, ◌≤◌, ◌<◌, pos, nat_abs, Ok, Err};
ghost use Rattle.std.specs.Result.{ForOk, ForErr};
ghost use Rattle.laws.specs.Numbers.{pos_part};
ghost use Rattle.asking.specs.Asking.{asked, passes};
ghost use Rattle.calendar.specs.Gregorian.{day_number};
ghost use Rattle.calendar.specs.Questions.{last_day};
ghost use Rattle.values.specs.declared.Kind.TheVariants as kind;
ghost use Rattle.values.specs.Values.{midnight};
ghost use Rattle.axis.specs.Axes.{closed};
ghost use Rattle.axis.specs.Questions.{value_on, unmap_pixels, checked, checked_if};
ghost use Rattle.unmapping.specs.Unmapping.{Unmappable};
ghost use Rattle.counting.specs.Counting.{monthly, yearly};
ghost use Rattle.discrete.specs.Indices.{daily, month_at, january, year_at, week_at, value_at, index_at, index_under};
ghost use Rattle.discrete.specs.Answers.{size_questions, value_questions, index_questions, unmap_questions};
ghost use Rattle.discrete.specs.Answers.{index_in, neighbour, next_in, previous_in, value_in, value_under};
ghost use Rattle.discrete.specs.Answers.{size_answer, index_answer, from_index_answer, next_answer, previous_answer};
ghost use Rattle.discrete.specs.Answers.{values_answer, unmap_answer};

use asking::{Refusal, ask};
use axis::{Axis, Limits};
use calendar::LAST_DAY;
use counting::DateAxis;
use values::{Kind, Value};

// The place of the value that comes next.
#[derive(Clone, Copy)]
pub struct Cursor {
    pub place: i64,
}

// A value of an axis' kind, and the axis.
#[derive(Clone, Copy)]
pub struct Placed {
    pub dates: DateAxis,
    pub value: Value,
    ghost on: { value_on dates.axis value ≡ true },
}

// Question 10 of a midnight.
fn at_midnight(day: u64) -> Result<Value, Refusal>
    requires { 1 ≤ day }
    ensures { result ≡ checked (midnight (pos day)) }
{
    ask(Refusal::Range, day <= LAST_DAY as u64)?;
    Ok(Value {
        head: day as i64,
        tail: 0,
    })
}

// The first of a month, and question 10 of it.
fn month_start(year: u64, month: u64) -> Result<Value, Refusal>
    requires { (1 ≤ year) × (1 ≤ month) × (month ≤ 12) }
    ensures { result ≡ checked (midnight (pos (day_number year month 1))) }
{
    ask(Refusal::Range, year <= 9999)?;
    at_midnight(calendar::day_number(year, month, 1))
}

// An index beside its axis stays bounded by a clause, here and below: previous_in and unmap_in reckon theirs, and a type of the
// two would be made for the call of value_at alone.

// The first day itself, and then firsts of months.
fn month_at(d: DateAxis, i: u64) -> Result<Value, Refusal>
    requires { i ≤ last_day }
    ensures { result ≡ checked (month_at d.axis i) }
{
    if i == 0 {
        return at_midnight(d.from_day());
    }
    let first = d.first_date();
    let k = i + (first.month - 1);
    month_start(first.year + k / 12, k % 12 + 1)
}

// January 1 of a year, or the start with its time where that is no earlier.
fn january(d: DateAxis, year: u64) -> Result<Value, Refusal>
    requires { 1 ≤ year }
    ensures { result ≡ checked (january d.axis year) }
{
    ask(Refusal::Range, year <= 9999)?;
    let day = calendar::day_number(year, 1, 1);
    if day <= d.start_day() {
        return Ok(d.axis.start);
    }
    at_midnight(day)
}

fn year_at(d: DateAxis, i: u64) -> Result<Value, Refusal>
    requires { i ≤ last_day }
    ensures { result ≡ checked (year_at d.axis i) }
{
    let first = d.first_date();
    january(d, first.year + i)
}

// The start itself, and then Mondays.
fn week_at(d: DateAxis, i: u64) -> Result<Value, Refusal>
    requires { i ≤ last_day }
    ensures { result ≡ checked (week_at d.axis i) }
{
    if i == 0 {
        return Ok(d.axis.start);
    }
    at_midnight(weeks::monday(d.start_day()) + 7 * i)
}

// The value of an index, and question 10 of it. Called apart it takes 25 to 35 instructions more.
#[inline(always)]
pub fn value_at(d: DateAxis, i: u64) -> Result<Value, Refusal>
    requires { i ≤ last_day }
    ensures { result ≡ checked (value_at d.axis i) }
{
    match d.axis.kind {
        Kind::Month | Kind::StampMonth => month_at(d, i),
        Kind::Year | Kind::StampYear => year_at(d, i),
        Kind::Week => week_at(d, i),
        Kind::Date | Kind::Stamp | Kind::Span | Kind::Unknown => at_midnight(d.start_day() + i),
    }
}

// The value of the place behind `at`; none before the first place, and none from the last one on.
fn neighbour<F: FnOnce() -> Result<Value, Refusal>>(
    at: u64,
    from: u64,
    to: u64,
    value: F,
) -> Result<Option<Value>, Refusal>
    requires { from ≤ at → at < to → F.pre value }
    ensures { (w : _) → ((r : _) → F.post value r → r ≡ checked w) → result ≡ checked_if (neighbour at from to w) }
{
    if at < from {
        return Ok(None);
    }
    if to <= at {
        return Ok(None);
    }
    Ok(Some(value()?))
}

impl Placed {
    // The index of the value; none before the start.
    pub fn index_in(self) -> Option<u64>
        ensures { result ≡ index_in self.dates.axis self.value }
    {
        let p = self.dates.position_of(self.value);
        p.at.checked_sub(p.from)
    }

    // The next month's first, up to the end's month. The first date is asked for once.
    fn next_month(self) -> Result<Option<Value>, Refusal>
        requires { monthly self.dates.axis ≡ true }
        ensures { result ≡ checked_if (next_in self.dates.axis self.value) }
    {
        let first = self.dates.first_date();
        let at = counting::months_from(first, counting::date_on(self.value));
        let to = counting::months_from(first, counting::date_on(self.dates.axis.end));
        neighbour(at, first.month, to, move || {
            month_start(first.year + at / 12, at % 12 + 1)
        })
    }

    // The next January 1, up to the end's year.
    fn next_year(self) -> Result<Option<Value>, Refusal>
        requires { yearly self.dates.axis ≡ true }
        ensures { result ≡ checked_if (next_in self.dates.axis self.value) }
    {
        let d = self.dates;
        let at = counting::date_on(self.value).year;
        let to = counting::date_on(d.axis.end).year;
        neighbour(at, d.first_date().year, to, move || january(d, at + 1))
    }

    // The next Monday, up to the end.
    fn next_week(self) -> Result<Option<Value>, Refusal>
        requires { self.dates.axis.kind ≡ kind.Week }
        ensures { result ≡ checked_if (next_in self.dates.axis self.value) }
    {
        let d = self.dates;
        let at = weeks::mondays_to(counting::day_on(self.value));
        let from = weeks::mondays_to(d.start_day());
        let to = weeks::mondays_to(d.to_day());
        neighbour(at, from, to, move || at_midnight(7 * at + 1))
    }

    // The next day, up to the end.
    fn next_day(self) -> Result<Option<Value>, Refusal>
        requires { daily self.dates.axis ≡ true }
        ensures { result ≡ checked_if (next_in self.dates.axis self.value) }
    {
        let d = self.dates;
        let at = counting::day_on(self.value);
        let from = d.start_day();
        neighbour(at, from, d.to_day(), move || at_midnight(at + 1))
    }

    // The value of the next index, where that is below the size. One way for all kinds, by position_of, size_of and value_at,
    // was tried: it takes 21 to 52 instructions more a call.
    pub fn next_in(self) -> Result<Option<Value>, Refusal>
        ensures { result ≡ checked_if (next_in self.dates.axis self.value) }
    {
        match self.dates.axis.kind {
            Kind::Month | Kind::StampMonth => self.next_month(),
            Kind::Year | Kind::StampYear => self.next_year(),
            Kind::Week => self.next_week(),
            Kind::Date | Kind::Stamp | Kind::Span | Kind::Unknown => self.next_day(),
        }
    }

    // The value of the index before.
    fn previous_in(self) -> Result<Option<Value>, Refusal>
        ensures { result ≡ checked_if (previous_in self.dates.axis self.value) }
    {
        let p = self.dates.position_of(self.value);
        if p.at <= p.from {
            return Ok(None);
        }
        Ok(Some(value_at(self.dates, p.at - p.from - 1)?))
    }
}

// The value at the cursor's place; none at or past the size.
fn value_in(d: DateAxis, i: u64) -> Result<Option<Value>, Refusal>
    requires { i ≤ last_day }
    ensures { result ≡ checked_if (value_in d.axis i) }
{
    if d.size_of() <= i {
        return Ok(None);
    }
    Ok(Some(value_at(d, i)?))
}

// (offset as f64 * size as f64 / width as f64).floor() as usize, and 0 below 0. The product is below 2^53, so no float
// step moves the quotient across a whole number.
fn index_at(offset: i64, size: u64, width: i64) -> u64
    requires { (nat_abs offset ≤ 65534) × (size ≤ last_day) × (nat_abs width ≤ 65534) × (0 < nat_abs width) }
    ensures { result ≡ index_at offset size width }
{
    if (offset < 0) != (width < 0) {
        return 0;
    }
    floats::floor_quotient(offset.unsigned_abs() * size, width.unsigned_abs())
}

fn index_under(d: DateAxis, l: Limits, p: i64) -> u64
    requires { unmap_pixels l p ≡ true }
    ensures { result ≡ index_under d.axis l p }
{
    index_at(p - l.low, d.size_of(), l.width())
}

// The value under a pixel on a kind that counts. An index above the last day's number has no value of the calendar.
fn unmap_in(d: DateAxis, l: Limits, p: i64) -> Result<Value, Refusal>
    requires { unmap_pixels l p ≡ true }
    ensures { result ≡ checked (value_at d.axis (index_under d.axis l p)) }
{
    let i = index_under(d, l, p);
    ask(Refusal::Range, i <= LAST_DAY as u64)?;
    value_at(d, i)
}

// The value under a pixel. Kind 4 counts nothing and goes by unmap_coord.
fn value_under(a: Axis, l: Limits, p: i64) -> Result<Value, Refusal>
    requires { Unmappable a l p }
    ensures { result ≡ checked (value_under a l p) }
{
    match a.kind {
        Kind::Stamp => unmapping::unmap_coord(a, l, p),
        _ => unmap_in(DateAxis { axis: a }, l, p),
    }
}

// The axis by which an axis counts, where its questions pass.
pub fn counted(a: Axis) -> Result<DateAxis, Refusal>
    ensures passed { ForOk result (λ d. (passes (size_questions a) ≡ true) × (d.axis ≡ closed a)) }
    ensures refused { ForErr result (λ q. asked (size_questions a) (Ok (closed a)) ≡ Err q) }
{
    axis::ask_plain(a, axis::has_index(a))?;
    Ok(DateAxis {
        axis: axis::closed(a),
    })
}

// The same, and a value of it.
fn counted_for(a: Axis, v: Value) -> Result<Placed, Refusal>
    ensures passed { ForOk result (λ p. (passes (value_questions a v) ≡ true) × (p.dates.axis ≡ closed a) × (p.value ≡ v)) }
    ensures refused { ForErr result (λ q. asked (value_questions a v) (Ok (closed a)) ≡ Err q) }
{
    let dates = counted(a)?;
    ask(Refusal::Value, axis::value_on(a, v))?;
    Ok(Placed { dates, value: v })
}

// The same, and an index as a count.
pub fn counted_at(a: Axis, i: i64) -> Result<(DateAxis, u64), Refusal>
    ensures passed { ForOk result (λ x. (passes (index_questions a i) ≡ true) × (x.0.axis ≡ closed a)
        × (x.1 ≡ pos_part i) × (x.1 ≤ last_day)) }
    ensures refused { ForErr result (λ q. asked (index_questions a i) (Ok (closed a)) ≡ Err q) }
{
    let dates = counted(a)?;
    ask(Refusal::Value, axis::is_index(i))?;
    Ok((dates, calendar::as_count(i)))
}

fn ask_unmap(a: Axis, l: Limits, p: i64) -> Result<(), Refusal>
    ensures { result ≡ asked (unmap_questions a l p) (Ok tt) }
{
    axis::ask_plain(a, axis::has_unmap(a))?;
    ask(Refusal::Limits, axis::unmap_pixels(l, p))
}

// The size of any axis. Called apart it takes 60 instructions more.
#[inline(always)]
pub fn size(a: Axis) -> Result<u64, Refusal>
    ensures { result ≡ size_answer a }
{
    let d = counted(a)?;
    Ok(d.size_of())
}

// The index of any numbers.
pub fn index_of(a: Axis, v: Value) -> Result<Option<u64>, Refusal>
    ensures { result ≡ index_answer a v }
{
    let p = counted_for(a, v)?;
    Ok(p.index_in())
}

// The value of any index, beyond the size too.
pub fn from_index(a: Axis, i: i64) -> Result<Value, Refusal>
    ensures { result ≡ from_index_answer a i }
{
    let (d, k) = counted_at(a, i)?;
    value_at(d, k)
}

// The value after a value.
pub fn next(a: Axis, v: Value) -> Result<Option<Value>, Refusal>
    ensures { result ≡ next_answer a v }
{
    let p = counted_for(a, v)?;
    p.next_in()
}

// The value before a value. It differs from `next` in the last call, which is all that one function for both would be handed.
pub fn previous(a: Axis, v: Value) -> Result<Option<Value>, Refusal>
    ensures { result ≡ previous_answer a v }
{
    let p = counted_for(a, v)?;
    p.previous_in()
}

// One step of the cursor: it moves on with a value, and stays where there is none.
pub fn values(a: Axis, c: Cursor) -> Result<(Option<Value>, Cursor), Refusal>
    ensures { result ≡ values_answer a c }
{
    let (d, k) = counted_at(a, c.place)?;
    match value_in(d, k)? {
        Some(v) => Ok((Some(v), Cursor { place: c.place + 1 })),
        None => Ok((None, c)),
    }
}

// The value under any pixel.
pub fn unmap(a: Axis, l: Limits, p: i64) -> Result<Value, Refusal>
    ensures { result ≡ unmap_answer a l p }
{
    ask_unmap(a, l, p)?;
    value_under(axis::closed(a), l, p)
}
