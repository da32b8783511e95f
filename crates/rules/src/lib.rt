// House rules: a table of rows in plate's lines, each for the span lengths between its two ends. The table's text, the
// questions 12, 15 and 16, and the row of a length.
#![tactic(auto)]

ghost use Rattle.std.specs.Prelude.{◌≡◌, Ok};
ghost use Rattle.std.specs.Option.{option_map};
ghost use Rattle.std.specs.Result.{result_map_both, result_ok};
ghost use Rattle.asking.specs.Asking.{asked};
ghost use Rattle.rules.specs.Rows.{unit_of, in_range, row_read, read_row, AllInRange};
ghost use Rattle.rules.specs.Cover.{rows_of, is_for, row_for, lacking};
ghost use Rattle.rules.specs.Table.{table_of, sizes, length_questions, table_questions, rows_in, rules_answer};

use asking::{Refusal, ask};

mod rows;

pub use rows::Rules;

// The span lengths are 0 to 3,652,058 days: the numbers below this one.
const LENGTHS: u64 = 3652059;

// The longest span, as it is typed.
const LONGEST: i64 = 3652058;

const NAMES: &[u8] = b"from to unit step";

#[derive(Clone, Copy, Debug, Default, PartialEq, Eq)]
pub enum Unit {
    #[default]
    Day,
    Month,
    Year,
}

// Every step-th day, first of a month or January, for the lengths from..=to. That the numbers are in range is no ghost field
// of a row: the definitions that make rows would have to hold proofs, and one makes a row of zeros, which is out of range.
#[derive(Clone, Copy, Default)]
pub struct Row {
    pub from: u64,
    pub to: u64,
    pub unit: Unit,
    pub step: u64,
}

// A table that reads: the numbers of its rows are in range.
#[derive(Drop)]
struct Table {
    rows: Rules,
    ghost in_range: { AllInRange (rows_of rows) },
}

// A row's numbers as they are typed.
#[derive(Clone, Copy)]
struct Typed {
    from: i64,
    to: i64,
    unit: Unit,
    step: i64,
}

// ---- a row's text
impl TryFrom<&[u8]> for Unit {
    type Error = Refusal;

    ghost try_from_gives = { λ w r. result_ok r ≡ unit_of w.now };

    fn try_from(word: &[u8]) -> Result<Unit, Refusal> {
        match word {
            b"day" => Ok(Unit::Day),
            b"month" => Ok(Unit::Month),
            b"year" => Ok(Unit::Year),
            _ => Err(Refusal::Table),
        }
    }
}

#[tactic(auto, unfolding(crate::specs::Rows::in_range))]
fn in_range(t: Typed) -> bool
    ensures { result ≡ in_range t }
{
    (((0 <= t.from) & (t.from <= t.to)) & (t.to <= LONGEST)) & ((1 <= t.step) & (t.step <= 1000))
}

fn row_read(t: Typed) -> Option<Row>
    ensures { result ≡ row_read t }
{
    if !in_range(t) {
        return None;
    }
    Some(Row {
        from: calendar::as_count(t.from),
        to: calendar::as_count(t.to),
        unit: t.unit,
        step: calendar::as_count(t.step),
    })
}

// The row, if every field has its form.
fn read_row(s: &[u8]) -> Option<Row>
    ensures { result ≡ read_row s.now }
{
    if !text_read::in_form(s, 3) {
        return None;
    }
    let mut fields = s.split(|b| *b == b' ');
    let from = text_read::number(fields.next()?)?;
    let to = text_read::number(fields.next()?)?;
    let unit = Unit::try_from(fields.next()?).ok()?;
    let step = text_read::number(fields.next()?)?;
    row_read(Typed {
        from,
        to,
        unit,
        step,
    })
}

// ---- the table's text
// The names line, and the rows, at most 64. Each line ends in LF.
fn read_table(s: &[u8]) -> Option<Table>
    ensures { option_map (λ t. rows_of t.rows) result ≡ table_of s.now }
{
    let mut lines = s.strip_suffix(b"\n")?.split(|b| *b == b'\n');
    if lines.next()? != NAMES {
        return None;
    }
    let mut rows = Rules::new();
    for line in lines {
        rows.try_push(read_row(line)?).ok()?;
    }
    Some(Table { rows })
}

// ---- the row of a length
fn is_for(w: Row, days: u64) -> bool
    ensures { result ≡ is_for w days }
{
    (w.from <= days) & (days <= w.to)
}

// The first row for a length.
pub fn row_for(rows: &[Row], days: u64) -> Option<Row>
    ensures { result ≡ row_for rows.now days }
{
    rows.iter().copied().find(|w| is_for(*w, days))
}

// ---- the questions
impl Table {
    // Question 15: has some length no row? From 0 on, the length behind a row's last is asked next. A row is met at most
    // once, so no more rows are met than there are.
    fn is_lacking(&self) -> bool
        ensures { result ≡ lacking (rows_of self.now.rows) }
    {
        let mut at: u64 = 0;
        // a while: no iterator goes from length to length as the rows say
        while at < LENGTHS {
            let Some(w) = row_for(self.rows.as_slice(), at) else {
                return true;
            };
            at = w.to + 1;
        }
        false
    }

    // How many lengths each row is for, all together.
    fn sizes(&self) -> u64
        ensures { result ≡ sizes (rows_of self.now.rows) }
    {
        // a loop: `map(..).sum()` was tried, and its proof did not close that each call and the sum fit in 64 bits
        let mut n: u64 = 0;
        for w in self.rows.as_slice() {
            n += w.to + 1 - w.from;
        }
        n
    }

    // Where no length lacks a row, the rows are for more lengths than there are just where some length has two.
    fn ask_lengths(&self) -> Result<(), Refusal>
        ensures { result ≡ asked (length_questions (rows_of self.now.rows)) (Ok tt) }
    {
        ask(Refusal::Gap, !self.is_lacking())?;
        ask(Refusal::Overlap, self.sizes() <= LENGTHS)
    }
}

// A table, read and asked.
pub fn checked(s: &[u8]) -> Result<Rules, Refusal>
    ensures { result_map_both rows_of (λ q. q) result ≡ asked (table_questions s.now) (Ok (rows_in s.now)) }
{
    let table = read_table(s).ok_or(Refusal::Table)?;
    table.ask_lengths()?;
    Ok(table.rows)
}

// How many rows an accepted table has.
pub fn count(s: &[u8]) -> Result<u64, Refusal>
    ensures { result ≡ rules_answer s.now }
{
    Ok(checked(s)?.len() as u64)
}
