// How an axis counts, as plotters' DiscreteRanged of each kind: its first and last day, where a value stands, in days,
// months, years or weeks, and its size. Lists, light hints and indices all count with these.
#![tactic(auto)]

ghost use Rattle.std.specs.Prelude.{◌≡◌, true, ◌+◌, ◌*◌, ◌-◌, ◌≤◌};
ghost use Rattle.laws.specs.Numbers.{pos_part};
ghost use Rattle.calendar.specs.Questions.{is_day};
ghost use Rattle.axis.specs.Questions.{value_on};
ghost use Rattle.counting.specs.Counting.{Dated, from_day, to_day, first_date, date_on};
ghost use Rattle.counting.specs.Counting.{origin, position, size_of};

use axis::Axis;
use calendar::{Date, DateTime};
use values::{Kind, Value};

// Where an axis begins and where a value stands, in days, months, years or weeks.
#[derive(Clone, Copy)]
pub struct Position {
    pub from: u64,
    pub at: u64,
}

// An axis over dates or date-times, of which question 3 is answered.
#[derive(Clone, Copy)]
pub struct DateAxis {
    pub axis: Axis,
    ghost dated: { Dated axis },
}

// The day of a value, whatever its time is.
pub fn day_on(v: Value) -> u64
    requires { is_day v.head ≡ true }
    ensures { result ≡ pos_part v.head }
{
    calendar::as_count(v.head)
}

// The date of that day.
#[tactic(auto, unfolding(crate::specs::Counting::date_on))]
pub fn date_on(v: Value) -> Date
    requires { is_day v.head ≡ true }
    ensures { result ≡ date_on v }
{
    calendar::date_of(day_on(v))
}

// The months to a date from before January of the first date's year on; an earlier year counts as that year.
pub fn months_from(first: Date, date: Date) -> u64
    requires { (date.year ≤ 9999) × (date.month ≤ 12) }
    ensures { result ≡ 12 * (date.year - first.year) + date.month }
{
    12 * date.year.saturating_sub(first.year) + date.month
}

impl DateAxis {
    // The day of the start.
    #[tactic(auto, using(crate::proofs::Counting::start_is_day))]
    pub fn start_day(self) -> u64
        ensures { result ≡ pos_part self.axis.start.head }
    {
        day_on(self.axis.start)
    }

    // date_ceil of the start.
    pub fn from_day(self) -> u64
        ensures { result ≡ from_day self.axis }
    {
        calendar::date_ceil(DateTime {
            day: self.start_day(),
            nano: calendar::as_count(self.axis.start.tail),
        })
    }

    // date_floor of the end.
    #[tactic(auto, using(crate::proofs::Counting::end_is_day), unfolding(crate::specs::Counting::to_day))]
    pub fn to_day(self) -> u64
        ensures { result ≡ to_day self.axis }
    {
        day_on(self.axis.end)
    }

    // The date from which months and years are counted.
    #[tactic(auto, using(crate::proofs::Counting::from_range), unfolding(crate::specs::Counting::first_date))]
    pub fn first_date(self) -> Date
        ensures { result ≡ first_date self.axis }
    {
        calendar::date_of(self.from_day())
    }

    // That the value is on the axis is a clause: a value is asked about in one call, and no axis keeps it.
    #[tactic(auto, using(crate::proofs::Counting::on_is_day))]
    pub fn position_of(self, v: Value) -> Position
        requires { value_on self.axis v ≡ true }
        ensures { result ≡ record { from = origin self.axis; at = position self.axis v } }
    {
        match self.axis.kind {
            Kind::Month | Kind::StampMonth => {
                let first = self.first_date();
                Position {
                    from: first.month,
                    at: months_from(first, date_on(v)),
                }
            }
            Kind::Year | Kind::StampYear => Position {
                from: self.first_date().year,
                at: date_on(v).year,
            },
            Kind::Week => Position {
                from: weeks::mondays_to(self.start_day()),
                at: weeks::mondays_to(day_on(v)),
            },
            Kind::Date | Kind::Stamp | Kind::Span | Kind::Unknown => Position {
                from: self.start_day(),
                at: day_on(v),
            },
        }
    }

    // Both ends are counted. On kinds 5 and 6 the first date may lie behind the end; then the size may be 0.
    pub fn size_of(self) -> u64
        ensures { result ≡ size_of self.axis }
    {
        let p = self.position_of(self.axis.end);
        (p.at + 1).saturating_sub(p.from)
    }
}
