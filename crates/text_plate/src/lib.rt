// plate's output for its input, by turns: a turn takes a chunk of the input up to the end of a line, and writes what that
// line prints behind the output; turns go on over the chunk. Where the chunks end does not matter.
#![tactic(auto)]

ghost use Rattle.std.specs.Prelude.{◌≡◌};
ghost use Rattle.std.specs.Option.{option_copied};
ghost use Rattle.text_write.specs.Texts.{Room, Wrote};
ghost use Rattle.text_plate.specs.Plate.{output_names, no_names};
ghost use Rattle.text_plate.specs.Turns.{finished_text, goes_on, ended_text, Turned};

use arrayvec::ArrayVec;
use asking::Refusal;
use feed::Line;
use text_rows::Printer;

// The most bytes that a line prints: 4,097 ticks of 75 bytes.
const MOST: usize = 307275;

// The number of the line that was begun, 0 for the names line, and what is kept of it. No Option: lines are counted from 0, and
// the names line is the one at 0; a None would be counted on from by a case of its own.
#[derive(Clone, Copy)]
pub struct State {
    pub number: u64,
    pub line: Line,
}

// The names line of the output.
fn output_names<const CAP: usize>(out: &mut ArrayVec<u8, CAP>)
    requires { Room CAP 16 out.old }
    ensures { Wrote 16 output_names out.old out.new }
{
    out.try_extend_from_slice(b"line tick pixel\n").unwrap();
}

fn no_names<const CAP: usize>(out: &mut ArrayVec<u8, CAP>)
    requires { Room CAP 81 out.old }
    ensures { Wrote 81 no_names out.old out.new }
{
    output_names(out);
    text_write::refusal_row(out, 0, Refusal::Table);
}

// Writes what a finished line prints. Is more read after it? The room is asked at each call and is no ghost field, as for a
// Printer.
fn finished<const CAP: usize>(number: u64, text: &[u8], printer: &mut Printer<CAP>) -> bool
    requires { Room CAP 307275 printer.old.out }
    ensures value { result ≡ goes_on number text.now }
    ensures wrote { Wrote 307275 (finished_text number text.now) printer.old.out printer.new.out }
{
    if 0 < number {
        printer.rows(number, text);
        return true;
    }
    let named = text_line::is_names(text);
    if named {
        output_names(&mut printer.out);
    } else {
        no_names(&mut printer.out);
    }
    named
}

// What the end of the input prints, where text was begun and has no LF.
pub fn ended<const CAP: usize>(number: u64, text: &[u8], out: &mut ArrayVec<u8, CAP>)
    requires { Room CAP 81 out.old }
    ensures { Wrote 81 (ended_text number text.now) out.old out.new }
{
    if number == 0 {
        no_names(out);
    } else if !text.is_empty() {
        text_write::refusal_row(out, number, Refusal::Table);
    }
}

impl State {
    // What the end of the input prints behind the line that was begun.
    pub fn ended<const CAP: usize>(&self, out: &mut ArrayVec<u8, CAP>)
        requires { Room CAP 81 out.old }
        ensures { Wrote 81 (ended_text self.now.number self.now.line.items) out.old out.new }
    {
        ended(self.number, self.line.as_slice(), out)
    }

    // A turn over a chunk: what is left of it, or none where nothing more is printed.
    fn turn<'a, const CAP: usize>(
        &mut self,
        chunk: &'a [u8],
        printer: &mut Printer<CAP>,
    ) -> Option<&'a [u8]>
        requires { Room CAP 307275 printer.old.out }
        ensures { Turned self.old chunk.now (option_copied result) self.new printer.old.out printer.new.out }
    {
        // most lines stand whole in a chunk, and are read there
        let k = text_read::until(chunk, b'\n');
        let Some(rest) = chunk.get(k + 1..) else {
            self.line.keep(chunk);
            return Some(&[]);
        };
        let goes = finished(self.number, self.line.ended_by(&chunk[..k]), printer);
        self.number = self.number.saturating_add(1);
        self.line.clear();
        goes.then_some(rest)
    }

    // Turns over a chunk, while some of it is left, there is more to print, and there is room for what a line prints.
    pub fn turns<'a, const CAP: usize>(
        &mut self,
        chunk: &'a [u8],
        printer: &mut Printer<CAP>,
    ) -> Option<&'a [u8]>
        requires { Room CAP 307275 printer.old.out }
        ensures { Turned self.old chunk.now (option_copied result) self.new printer.old.out printer.new.out }
    {
        let mut rest = chunk;
        // a while: a turn says what is left, and goes on only where there is room, so no iterator over the chunk gives it
        while !rest.is_empty() && MOST <= printer.out.remaining_capacity() {
            rest = self.turn(rest, printer)?;
        }
        Some(rest)
    }
}
