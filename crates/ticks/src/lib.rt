// The ticks of an axis, as plotters' key_points of every kind and hint: the questions, a plan, then its list in lent
// numbers. Count and list come from one plan.
#![tactic(auto)]

ghost use Rattle.std.specs.Prelude.{◌≡◌, true, cond, ◌||◌, ◌≤◌, length, Some, None, Ok};
ghost use Rattle.asking.specs.Asking.{asked, passes};
ghost use Rattle.axis.specs.Axes.{closed};
ghost use Rattle.counting.specs.Counting.{counts_months, counts_years};
ghost use Rattle.keypoints.specs.Hints.{finer_kind, limit};
ghost use Rattle.ticks.specs.Answers.{tick_questions, ticks_answer, ticks_written, ticks_handed};
ghost use Rattle.ticks.specs.Answers.{period_questions, period_answer};
ghost use Rattle.ticks.specs.Plans.{refined, axis_for, points, plan_for};

use asking::{Refusal, ask};
use axis::{Axis, BoldPoints, Hint};
use counting::DateAxis;
use plans::Hinted;
use steps::Steps;
use values::Kind;

// The finer kind, of those that count months or years: years go to months, and these to dates or date-times.
fn finer_kind(kind: Kind) -> Option<Kind>
    ensures { result ≡ cond (counts_months kind || counts_years kind) (Some (finer_kind kind)) None }
{
    match kind {
        Kind::Month => Some(Kind::Date),
        Kind::Year => Some(Kind::Month),
        Kind::StampMonth => Some(Kind::Stamp),
        Kind::StampYear => Some(Kind::StampMonth),
        Kind::Date | Kind::Stamp | Kind::Span | Kind::Week | Kind::Unknown => None,
    }
}

// The finer axis, if the size is at most twice the bold count.
#[tactic(auto, using(crate::proofs::Hints::refining))]
fn refined(bold: u64, q: Hinted) -> Hinted
    requires { bold ≤ 4096 }
    ensures { (result.axis ≡ refined bold q.axis) × (result.n ≡ q.n) }
{
    let Some(kind) = finer_kind(q.axis.kind) else {
        return q;
    };
    let d = DateAxis { axis: q.axis };
    if 2 * bold < d.size_of() {
        return q;
    }
    Hinted {
        axis: Axis { kind, ..q.axis },
        n: q.n,
    }
}

// An axis and a hint stay two values: before the questions nothing is known of both, and after them they are a `Hinted`.

// The questions before the list's length is known.
pub fn ask_ticks(a: Axis, h: Hint) -> Result<(), Refusal>
    ensures { result ≡ asked (tick_questions a h) (Ok tt) }
{
    axis::ask_axis(a, true)?;
    ask(Refusal::Hint, axis::hint_on(a, h))
}

// N of a hint.
fn points(h: Hint) -> i64
    ensures { result ≡ points h }
{
    match h {
        Hint::Bold(b) => b.n,
        Hint::Light(l) => l.n,
    }
}

// The axis that lists, by N: with a light hint years may go to months, and these to dates or date-times.
#[tactic(auto, using(crate::proofs::Hints::listing_hints))]
fn axis_for(a: Axis, h: Hint) -> Hinted
    requires { passes (tick_questions a h) ≡ true }
    ensures { (result.axis ≡ axis_for a h) × (result.n ≡ limit h) }
{
    let q = Hinted {
        axis: a,
        n: calendar::as_count(points(h)),
    };
    match h {
        Hint::Bold(_) => q,
        Hint::Light(l) => {
            let bold = calendar::as_count(l.bold);
            refined(bold, refined(bold, q))
        }
    }
}

// Asks the questions before the list's length is known, and makes the plan of the axis by which the axis lists.
pub fn plan(a: Axis, h: Hint) -> Result<Steps, Refusal>
    ensures { result ≡ asked (tick_questions a h) (Ok (plan_for (closed a) h)) }
{
    ask_ticks(a, h)?;
    Ok(axis_for(axis::closed(a), h).plan())
}

// How many ticks a hint gets, where lent_len numbers are lent.
#[tactic(auto, using(crate::proofs::Answers::counting))]
pub fn count(a: Axis, h: Hint, lent_len: u64) -> Result<u64, Refusal>
    ensures { result ≡ ticks_answer a h lent_len }
{
    plan(a, h)?.count(lent_len)
}

// How many ticks a hint gets, and the list at the front of the lent numbers.
#[tactic(auto, using(crate::proofs::Answers::listing))]
pub fn list(a: Axis, h: Hint, lent: &mut [i64]) -> Result<u64, Refusal>
    ensures value { result ≡ ticks_answer a h (length lent.old) }
    ensures after_call { lent.new ≡ ticks_written a h lent.old }
{
    plan(a, h)?.list(lent)
}

// The part of the lent numbers that holds the list; empty when refused.
#[tactic(auto, using(crate::proofs::Answers::handing))]
pub fn key_points(a: Axis, h: Hint, lent: &mut [i64]) -> &mut [i64]
    ensures value { result.now ≡ ticks_handed a h (length lent.old) }
    ensures place { result.ref_ptr ≡ lent.entry.ref_ptr }
{
    let n = list(a, h, lent).unwrap_or(0);
    &mut lent[..2 * n as usize]
}

fn ask_period(a: Axis, h: BoldPoints) -> Result<(), Refusal>
    ensures { result ≡ asked (period_questions a h) (Ok tt) }
{
    axis::ask_axis(a, axis::has_period(a))?;
    ask(Refusal::Hint, axis::hint_on(a, Hint::Bold(h)))
}

// The nanoseconds from tick to tick on kinds 4 and 7; none where days are listed.
pub fn period_per_point(a: Axis, h: BoldPoints) -> Result<Option<u64>, Refusal>
    ensures { result ≡ period_answer a h }
{
    ask_period(a, h)?;
    let q = Hinted {
        axis: a,
        n: calendar::as_count(h.n),
    };
    Ok(q.period())
}
