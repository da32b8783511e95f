// Value lists: the numbers of a progression, the tick of each, and the listing of their pairs in lent numbers.
// What a month is to a tick list stands here too; which progression a kind lists does not.
#![tactic(auto)]

ghost use Rattle.std.specs.Prelude.{◌≡◌, ◌++◌, ◌-◌, ◌*◌, ◌<◌, ◌≤◌, length, drop};
ghost use Rattle.steps.specs.Months.{first_day, month_number, month_of, whole_month};
ghost use Rattle.steps.specs.Progression.{fitting, number_at, month_ticks, even_ticks, ticks, InRange, Sound};
ghost use Rattle.steps.specs.Listing.{numbers, has_room, listed_of, lent_after};

use asking::Refusal;

// A head has per numbers, and base is the head at which they start.
#[derive(Clone, Copy)]
pub struct Heads {
    pub base: i64,
    pub per: u64,
}

// What a number stands for: a month, counted from 0001-01, which is 0, or so many parts of a head.
#[derive(Clone, Copy)]
pub enum Numbering {
    Months,
    Even(Heads),
}

// The numbers first, first + step, .. : count of them.
#[derive(Clone, Copy)]
pub struct Steps {
    pub numbering: Numbering,
    pub first: u64,
    pub step: u64,
    pub count: u64,
}

// Bounds of single numbers stay clauses, here and below: a type for each is no plainer, every formula would open it again.

// The day number of the first day of a month.
#[tactic(auto, using(calendar::proofs::Dates::a_first), unfolding(crate::specs::Months::first_day))]
fn first_day(m: u64) -> u64
    requires { m < 120000 }
    ensures { result ≡ first_day m }
{
    calendar::day_number(m / 12 + 1, m % 12 + 1, 1)
}

// The month m of the year y.
fn month_number(y: u64, m: u64) -> u64
    requires { ((1 ≤ y) × (y ≤ 10000)) × ((1 ≤ m) × (m ≤ 12)) }
    ensures { result ≡ month_number y m }
{
    12 * (y - 1) + (m - 1)
}

// The month in which a day lies.
#[tactic(auto, using(crate::proofs::Months::date_ranges), unfolding(crate::specs::Months::month_of))]
pub fn month_of(day: u64) -> u64
    requires { (1 ≤ day) × (day ≤ 3652425) }
    ensures { result ≡ month_of day }
{
    let d = calendar::date_of(day);
    month_number(d.year, d.month)
}

// The first month that begins no earlier than a day.
pub fn whole_month(day: u64) -> u64
    requires { (1 ≤ day) × (day ≤ 3652425) }
    ensures { result ≡ whole_month day }
{
    let d = calendar::date_of(day);
    let m = month_number(d.year, d.month);
    if 1 < d.day { m + 1 } else { m }
}

// How many of 0, step, 2 * step, .. are below room.
#[tactic(auto, using(crate::proofs::Fitting::rounded_up))]
pub fn how_many(room: u64, step: u64) -> u64
    requires { 0 < step }
    ensures { result ≡ fitting room step }
{
    room.div_ceil(step)
}

impl Steps {
    // Are k lent numbers two for each tick?
    fn has_room(self, k: u64) -> bool
        ensures { result ≡ has_room (ticks self) k }
    {
        self.count <= k / 2
    }

    // The answer of a list where k numbers are lent, with nothing listed.
    #[tactic(auto, using(crate::proofs::Pairs::count_is))]
    pub fn count(self, k: u64) -> Result<u64, Refusal>
        ensures { result ≡ listed_of (ticks self) k }
    {
        asking::ask(Refusal::Room, self.has_room(k))?;
        Ok(self.count)
    }

    // A day number for each tick; months have no common length. Both loops write by index: std says nothing of what a
    // slice holds after `chunks_exact_mut`, and of `as_chunks_mut` nothing of what the slice ends as.
    fn list_months(self, lent: &mut [i64])
        requires { (number_at self (self.count - 1) < 120000) × (2 * self.count ≤ length lent.old) }
        ensures { lent.new ≡ numbers (month_ticks self) ++ drop (2 * self.count) lent.old }
    {
        for i in 0..self.count as usize {
            let day = first_day(self.first + i as u64 * self.step) as i64;
            lent[2 * i] = day;
            lent[2 * i + 1] = 0;
        }
    }

    // No division for each tick: the step's whole heads and its rest are added, and a head is carried.
    fn list_even(self, h: Heads, lent: &mut [i64])
        requires { InRange h self × (2 * self.count ≤ length lent.old) }
        ensures { lent.new ≡ numbers (even_ticks h self) ++ drop (2 * self.count) lent.old }
    {
        let heads = self.step / h.per;
        let rest = self.step % h.per;
        let mut whole = self.first / h.per;
        let mut part = self.first % h.per;
        let count = self.count as usize;
        for i in 0..count {
            let head = h.base + whole as i64;
            lent[2 * i] = head;
            lent[2 * i + 1] = part as i64;
            whole += heads;
            part += rest;
            if part >= h.per {
                part -= h.per;
                whole += 1;
            }
        }
    }

    // Sets the pairs of the list at the front of the lent numbers, unless these are too few.
    #[tactic(auto, using(crate::proofs::Fronts::by_numbering))]
    pub fn list(self, lent: &mut [i64]) -> Result<u64, Refusal>
        requires { Sound self }
        ensures value { result ≡ listed_of (ticks self) (length lent.old) }
        ensures after_call { lent.new ≡ lent_after (ticks self) lent.old }
    {
        let listed = self.count(lent.len() as u64)?;
        match self.numbering {
            Numbering::Months => self.list_months(lent),
            Numbering::Even(h) => self.list_even(h, lent),
        }
        Ok(listed)
    }
}
