// The period of the ticks over a span of nanoseconds, and the first of 1, 2, 5, 10, 20, .. that fits a total.
// All on whole numbers: the power of ten comes from a table, and each search goes step by step up a ladder.
#![tactic(auto)]

ghost use Rattle.std.specs.Prelude.{◌≡◌, ◌+◌, ◌*◌, ◌/◌, ◌≤◌, ◌<◌, ◌^◌, leb, option_map, unwrap_or};
ghost use Rattle.period.specs.Ladders.{ladder, rung_of, first_wide, Climbable, first_fit};
ghost use Rattle.period.specs.Periods.{power_of, ladder_of, period_of, tested_of};

const POWERS: [u64; 19] = [
    1,
    10,
    100,
    1000,
    10000,
    100000,
    1000000,
    10000000,
    100000000,
    1000000000,
    10000000000,
    100000000000,
    1000000000000,
    10000000000000,
    100000000000000,
    1000000000000000,
    10000000000000000,
    100000000000000000,
    1000000000000000000,
];

const SECOND: u64 = 1000000000;

const HOUR: u64 = 3600000000000;

const DAY: u64 = 86400000000000;

const TEN_DAYS: u64 = 864000000000000;

const DECIMAL: [u64; 3] = [1, 2, 5];

const SECONDS: [u64; 7] = [1, 2, 5, 10, 15, 20, 30];

const HOURS: [u64; 5] = [1, 2, 4, 8, 12];

const DAYS: [u64; 4] = [1, 2, 5, 7];

// The nanoseconds from tick to tick, and how many steps of the ladder were tested for them.
#[derive(Clone, Copy)]
pub struct Period {
    pub nanoseconds: u64,
    pub tested: u64,
}

// Bounds of single numbers stay clauses, here and below: a type for each is no plainer, every formula would open it again.
// A span and n stay two numbers: each function asks other bounds of them, so that a struct would hold no fact.

// The largest power of ten that goes into the span n times, or 1. The powers are copied before they are tried, so that the
// compiler knows which one it was in what follows.
fn largest_power(span: u64, n: u64) -> u64
    requires { 0 < n }
    ensures { result ≡ power_of span n }
{
    let most = span / n;
    POWERS
        .iter()
        .rev()
        .copied()
        .find(|power| *power <= most)
        .unwrap_or(1)
}

// Steps of so many units each, then of as many units that are `base` times as long, and so on.
#[derive(Clone, Copy)]
struct Rungs {
    unit: u64,
    base: u64,
    counts: &'static [u64],
}

// The ladder for a power of ten.
#[tactic(auto, unfolding(crate::specs::Periods::ladder_of))]
fn ladder_of(p: u64) -> Rungs
    ensures { ladder result.unit result.base result.counts.now ≡ ladder_of p }
{
    if p < SECOND {
        Rungs {
            unit: p,
            base: 10,
            counts: &DECIMAL,
        }
    } else if p < HOUR {
        Rungs {
            unit: SECOND,
            base: 60,
            counts: &SECONDS,
        }
    } else if p < DAY {
        Rungs {
            unit: HOUR,
            base: 24,
            counts: &HOURS,
        }
    } else if p < TEN_DAYS {
        Rungs {
            unit: DAY,
            base: 10,
            counts: &DAYS,
        }
    } else {
        Rungs {
            unit: TEN_DAYS,
            base: 10,
            counts: &DECIMAL,
        }
    }
}

// Is a step of so many units wide enough: has the span at most n times its count of whole units? By a product for each count,
// since one division by the unit takes longer than all of them.
#[tactic(auto, using(crate::proofs::Climbing::by_product))]
fn wide(span: u64, n: u64, unit: u64, count: u64) -> bool
    requires { (n ≤ 4096) × (0 < unit) × (count ≤ 30) }
    ensures { result ≡ leb (span / unit) (n * count) }
{
    u128::from(span) < u128::from(n * count + 1) * u128::from(unit)
}

// The first step of a ladder that is wide enough.
fn climb(span: u64, n: u64, l: Rungs) -> Period
    requires { Climbable span n (ladder l.unit l.base l.counts.now) }
    ensures { (result.nanoseconds ≡ first_wide span n (ladder l.unit l.base l.counts.now))
        × (result.tested ≡ rung_of span n (ladder l.unit l.base l.counts.now) + 1) }
{
    let mut unit = l.unit;
    let mut tested: u64 = 0;
    loop {
        if let Some(i) = l
            .counts
            .iter()
            .position(|count| wide(span, n, unit, *count))
        {
            return Period {
                nanoseconds: l.counts[i] * unit,
                tested: tested + i as u64 + 1,
            };
        }
        tested += l.counts.len() as u64;
        unit *= l.base;
    }
}

// The period for at most n + 1 ticks; none where days are to be listed.
pub fn compute_period_per_point(span: u64, n: u64, sub_daily: bool) -> Option<Period>
    requires { (span < 2 ^ 63) × (0 < n) × (n ≤ 4096) }
    ensures nanoseconds { option_map (λ p. p.nanoseconds) result ≡ period_of span n sub_daily }
    ensures tested { unwrap_or (option_map (λ p. p.tested) result) 0 ≡ tested_of span n sub_daily }
{
    let p = largest_power(span, n);
    if sub_daily && p >= DAY {
        return None;
    }
    Some(climb(span, n, ladder_of(p)))
}

const FREQUENCIES: [u64; 21] = [
    1, 2, 5, 10, 20, 50, 100, 200, 500, 1000, 2000, 5000, 10000, 20000, 50000, 100000, 200000,
    500000, 1000000, 2000000, 5000000,
];

const RAREST: u64 = 10000000;

// Every how many years, or days, a tick stands: the first that goes into the total at most n times, or the last.
pub fn first_fit(total: u64, n: u64) -> u64
    ensures { result ≡ first_fit total n }
{
    FREQUENCIES
        .iter()
        .copied()
        .find(|frequency| total / *frequency <= n)
        .unwrap_or(RAREST)
}
