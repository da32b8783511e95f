// The rows of a table, in the value itself: nothing is allocated, and a copy is a copy of its bytes.
ghost use Rattle.std.specs.Prelude.{◌≤◌};

use crate::Row;
use asking::Refusal;

// The most rows that a table has.
const MOST: usize = 64;

// The first count of the rows are the table's; what lies behind them is none of it, and no clause speaks of it.
#[derive(Clone, Copy)]
pub struct Rules {
    rows: [Row; MOST],
    count: usize,
    pub ghost few: { count ≤ 64 },
}

impl Rules {
    ghost use Rattle.std.specs.Prelude.{◌≡◌, ◌<◌, ◌↔◌, [], ◌∷◌, ◌++◌, length, IsOk, OnOk, OnErr};
    ghost use Rattle.rules.specs.Cover.{rows_of};

    // No rows.
    pub fn new() -> Rules
        ensures { rows_of result ≡ [] }
    {
        Rules {
            rows: [Row::default(); MOST],
            count: 0,
        }
    }

    // One row more, where there is room: it is written in its place, and no other row is touched.
    pub fn try_push(&mut self, w: Row) -> Result<(), Refusal>
        ensures variant { IsOk result ↔ (length (rows_of self.old) < 64) }
        ensures ok { OnOk result (rows_of self.new ≡ rows_of self.old ++ w ∷ []) }
        ensures err { OnErr result (self.new ≡ self.old) }
        ensures full { OnErr result (length (rows_of self.old) ≡ 64) }
    {
        if self.count == MOST {
            return Err(Refusal::Table);
        }
        self.rows[self.count] = w;
        self.count += 1;
        Ok(())
    }

    // The rows, in their order.
    pub fn as_slice(&self) -> &[Row]
        ensures value { result.now ≡ rows_of self.now }
        ensures fits { length result.now ≤ 64 }
    {
        &self.rows[..self.count]
    }

    // How many there are.
    pub fn len(&self) -> usize
        ensures value { result ≡ length (rows_of self.now) }
        ensures fits { result ≤ 64 }
    {
        self.as_slice().len()
    }
}
