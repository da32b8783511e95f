// The ticks of a date axis by house rules: the table and the axis are asked, the row for the axis's length gives a plan of
// every few days, months or Januaries, and it is listed as the plans of hints are.
#![tactic(auto)]

ghost use Rattle.std.specs.Prelude.{◌≡◌, ◌≤◌, ◌<◌, length};
ghost use Rattle.ruled.specs.Answers.{has_rules, length_of, ruled_answer, ruled_written};
ghost use Rattle.ruled.specs.Plans.{january, ruled_plan, RuledFor};
ghost use Rattle.rules.specs.declared.Unit.TheVariants as unit;

use asking::Refusal;
use axis::Axis;
use counting::DateAxis;
use plans::{Even, MonthRange};
use rules::{Row, Unit};
use steps::Steps;

// Every step-th day from the first on; the last is included.
#[tactic(auto, using(crate::proofs::Ruled::days_of_axis), unfolding(crate::specs::Plans::ruled_plan))]
fn days_by(d: DateAxis, step: u64) -> Steps
    requires { 1 ≤ step }
    ensures { result ≡ ruled_plan unit.Day step d.axis }
{
    let from = d.from_day();
    let end = (d.to_day() + 1).saturating_sub(from);
    Even::whole_heads(from as i64, end, step).plan()
}

// From the first January of a range of months on.
fn from_january(m: MonthRange) -> MonthRange
    requires { m.first < 120000 }
    ensures { result ≡ record { first = january m.first; last = m.last } }
{
    MonthRange {
        first: (m.first + 11) / 12 * 12,
        last: m.last,
    }
}

// The plan of a row.
#[tactic(auto, using(crate::proofs::Ruled::months_of_axis), unfolding(crate::specs::Plans::ruled_plan))]
fn plan_by(d: DateAxis, w: Row) -> Steps
    requires { (1 ≤ w.step) × (w.step ≤ 1000) }
    ensures { result ≡ ruled_plan w.unit w.step d.axis }
{
    match w.unit {
        Unit::Day => days_by(d, w.step),
        Unit::Month => plans::months_on(d).every(w.step),
        Unit::Year => from_january(plans::months_on(d)).every(12 * w.step),
    }
}

// Question 2.
#[tactic(auto, unfolding(crate::specs::Answers::has_rules))]
fn has_rules(a: Axis) -> bool
    ensures { result ≡ has_rules a }
{
    a.kind.over_dates()
}

// The days from the first to the last.
fn length(d: DateAxis) -> u64
    ensures { result ≡ length_of d.axis }
{
    d.to_day().saturating_sub(d.from_day())
}

// An axis and a table stay two values: before the questions nothing is known of both, and after them they are a `DateAxis`
// and a `Row`.

// Asks the table and the axis, and makes the plan by the row for the axis's length.
fn plan(a: Axis, table: &[u8]) -> Result<Steps, Refusal>
    ensures { RuledFor table.now a result }
{
    let rules = rules::checked(table)?;
    axis::ask_plain(a, has_rules(a))?;
    let d = DateAxis {
        axis: axis::closed(a),
    };
    let w = rules::row_for(rules.as_slice(), length(d)).unwrap();
    Ok(plan_by(d, w))
}

// How many ticks the table gives, where lent_len numbers are lent.
#[tactic(auto, using(crate::proofs::Answers::made_answer))]
pub fn count(a: Axis, table: &[u8], lent_len: u64) -> Result<u64, Refusal>
    ensures { result ≡ ruled_answer table.now a lent_len }
{
    plan(a, table)?.count(lent_len)
}

// How many ticks the table gives, and the list at the front of the lent numbers.
#[tactic(auto, using(crate::proofs::Answers::listing))]
pub fn list(a: Axis, table: &[u8], lent: &mut [i64]) -> Result<u64, Refusal>
    ensures value { result ≡ ruled_answer table.now a (length lent.old) }
    ensures after_call { lent.new ≡ ruled_written table.now a lent.old }
{
    plan(a, table)?.list(lent)
}
