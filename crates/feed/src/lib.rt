// Lines out of chunks of any size.
#![tactic(auto)]

ghost use Rattle.std.specs.Prelude.{◌≡◌, ◌≤◌, ◌==◌, [], length};
ghost use Rattle.std.specs.Option.{option_copied};
ghost use Rattle.arrayvec.specs.ArrayVec.{array_vec_len};
ghost use Rattle.feed.specs.Feed.{line_of, Ate};

use std::marker::Model;

// The bytes of a line that was begun: 121 of them tell that the line is too long. A contract sees them as it does those of an
// ArrayVec, which can't be copied. The places behind them are 0, so that the bytes tell all of a line.
#[derive(Clone, Copy)]
pub struct Line {
    bytes: [u8; 121],
    len: usize,
}

impl Model for Line {
    ghost use Rattle.std.specs.Prelude.{◌≡◌, ℕ, ◌-◌, ◌≤◌, ◌++◌, length, take, drop, replicate};
    ghost use Rattle.arrayvec.specs.ArrayVec.{ArrayVec, array_vec_code};
    ghost use Rattle.std.specs.Coded.{coded_ℕ};
    ghost use Rattle.std.proofs.Common.{arith, sym, ap, ◌∙◌, take-append-drop, length-take-le};

    ghost Value = { ArrayVec ℕ };

    ghost coded = { array_vec_code coded_ℕ };

    ghost view = { λ l. record { items = take l.len l.bytes } };

    ghost invariant = { λ l. (l.len ≤ 121) × (length l.bytes ≡ 121) × (drop l.len l.bytes ≡ replicate (121 - l.len) 0) };

    ghost inverse = { λ v. record { bytes = v.items ++ replicate (121 - length v.items) 0; len = length v.items } };

    ghost inverse_ok = { λ l h i. record {
      bytes = (ap (λ n. take l.len l.bytes ++ replicate (121 - n) 0) (length-take-le l.len l.bytes (omega (arith, h.0, h.1)))
          ∙ ap (λ r. take l.len l.bytes ++ r) (sym h.2) ∙ take-append-drop l.len l.bytes) i;
      len = length-take-le l.len l.bytes (omega (arith, h.0, h.1)) i;
    } };
}

impl Line {
    // Nothing is kept.
    pub fn new() -> Self
        ensures { result.items ≡ [] }
    {
        Line {
            bytes: [0; 121],
            len: 0,
        }
    }

    pub fn is_empty(&self) -> bool
        ensures { result ≡ (array_vec_len self.now == 0) }
    {
        self.len == 0
    }

    pub fn as_slice(&self) -> &[u8]
        ensures value { result.now ≡ self.now.items }
        ensures fits { length result.now ≤ 121 }
    {
        &self.bytes[..self.len]
    }

    pub fn clear(&mut self)
        ensures { self.new.items ≡ [] }
    {
        *self = Line::new();
    }

    // The part goes to the line, as far as 121 bytes go.
    pub fn keep(&mut self, part: &[u8])
        ensures { self.new.items ≡ line_of self.old.items part.now }
    {
        let n = part.len().min(121 - self.len);
        let end = self.len + n;
        self.bytes[self.len..end].copy_from_slice(&part[..n]);
        self.len = end;
    }

    // The line that the part ends, as far as 121 bytes go. Where nothing was kept, it stands in the part and is not copied, so
    // nothing is said of what is kept after it: who reads the line clears it then.
    pub fn ended_by<'a>(&'a mut self, part: &'a [u8]) -> &'a [u8]
        ensures { result.now ≡ line_of self.old.items part.now }
    {
        if self.len == 0 {
            return &part[..part.len().min(121)];
        }
        self.keep(part);
        self.as_slice()
    }
}

// The bytes of the chunk up to its first LF go to the line that was begun. Where there is a LF, the line has ended, and
// what stands behind it is left. Each line is kept by this; plate's turn takes the same steps and reads a line by `ended_by`.
pub fn feed<'a>(line: &mut Line, chunk: &'a [u8]) -> Option<&'a [u8]>
    ensures { Ate line.old.items chunk.now (option_copied result) line.new.items }
{
    let k = text_read::until(chunk, b'\n');
    line.keep(&chunk[..k]);
    chunk.get(k + 1..)
}
