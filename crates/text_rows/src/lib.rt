// A line of plate's input, and the lines of output that answer it.
#![tactic(auto)]

ghost use Rattle.std.specs.Prelude.{◌≡◌, ◌*◌, ◌/◌, length};
ghost use Rattle.text_write.specs.Texts.{Room, Wrote};
ghost use Rattle.text_rows.specs.Answers.{Printable, shows_fractions, list_text, request_text, rows_of};

use arrayvec::ArrayVec;
use asking::Refusal;
use axis::{Axis, Hint, Limits};
use text_line::Request;
use values::Value;

// What lines are printed with: the output, of any capacity, and the numbers that are lent to a list, with room for every list.
// They are numbers, two for a tick, and no values, as the C interface lends them. The output stands first: behind the numbers, a
// long list takes a tenth longer.
#[derive(Drop)]
pub struct Printer<const CAP: usize> {
    pub out: ArrayVec<u8, CAP>,
    pub lent: [i64; 8194],
}

// Has some tick of a list a fraction of a second?
fn shows_fractions(list: &[i64]) -> bool
    ensures { result ≡ shows_fractions list.now }
{
    list.as_chunks::<2>()
        .0
        .iter()
        .any(|[_, tail]| (*tail).max(0) as u64 % 1000000000 != 0)
}

// A line for each tick of a list. What mapping asks of the axis and the limits, and their scale, is the same for all.
fn list_rows<const CAP: usize>(
    number: u64,
    a: Axis,
    l: Limits,
    list: &[i64],
    out: &mut ArrayVec<u8, CAP>,
)
    requires { Printable a.kind list.now × Room CAP (75 * (length list.now / 2)) out.old }
    ensures { Wrote (75 * (length list.now / 2)) (list_text number a l list.now) out.old out.new }
{
    let m = mapping::prepare(a, l);
    let shown = shows_fractions(list);
    for [head, tail] in list.as_chunks::<2>().0 {
        let v = Value {
            head: *head,
            tail: *tail,
        };
        let p = mapping::map_ready(m, v);
        text_write::row(out, number, shown, a.kind, v, p);
    }
}

// The room is asked at each call and is no ghost field: a row written takes from it.
impl<const CAP: usize> Printer<CAP> {
    // An empty part does not tell a refusal from a list without ticks, so the questions are asked first.
    fn request_rows(&mut self, number: u64, q: Request)
        requires { Room CAP 307275 self.old.out }
        ensures { Wrote 307275 (request_text number q) self.old.out self.new.out }
    {
        let h = Hint::Bold(q.hint);
        match ticks::ask_ticks(q.axis, h) {
            Ok(()) => {
                let list = ticks::key_points(q.axis, h, &mut self.lent);
                list_rows(number, q.axis, q.limits, list, &mut self.out)
            }
            Err(refusal) => text_write::refusal_row(&mut self.out, number, refusal),
        }
    }

    // The answer to the line of that number.
    pub fn rows(&mut self, number: u64, text: &[u8])
        requires { Room CAP 307275 self.old.out }
        ensures { Wrote 307275 (rows_of number text.now) self.old.out self.new.out }
    {
        match text_line::read_line(text) {
            Some(q) => self.request_rows(number, q),
            None => text_write::refusal_row(&mut self.out, number, Refusal::Table),
        }
    }
}
