// plate: reads axes from standard input, a line for each, and prints their ticks and pixels. What is printed is decided in
// text_plate; here it is read and written, in memory that does not grow with the input, and what fails is reported.
#![tactic(auto)]

use feed::Line;
use std::env::FillError;
use std::io;
use std::io::Read;
use std::rt::Env;
use text_plate::State;
use text_rows::Printer;
use text_write::{CAPACITY, Output};

// What failed, a read or a write, and why.
#[derive(Drop)]
struct Failure {
    what: &'static str,
    error: io::Error,
}

// The reason alone, without the system's number for it.
fn reason(text: &str) -> &str {
    match text.rsplit_once(" (os error ") {
        Some((words, _)) => words,
        None => text,
    }
}

// Reports a failure. Where that fails too, there is nobody left to tell.
fn report(rt: &(impl Eprint + AllocGlobal), failure: Failure) {
    let Failure { what, error } = failure;
    let _ = match format!(in rt.alloc(); "{error}") {
        Ok(text) => {
            let words = reason(text.as_str());
            eprintln!(rt; "plate: {what}: {words}")
        }
        Err(_) => eprintln!(rt; "plate: {what}: {error}"),
    };
}

// Prints a text; where that fails, some of it may be printed.
fn print(rt: &impl Print, text: &[u8]) -> Result<(), Failure> {
    rt.write_all(text).map_err(|error| Failure {
        what: "write",
        error,
    })
}

// The lines of a chunk, printed at once as far as the output has room. Is there more to print?
fn eat(
    rt: &impl Print,
    s: &mut State,
    chunk: &[u8],
    printer: &mut Printer<CAPACITY>,
) -> Result<bool, Failure> {
    let mut rest = chunk;
    // a while: how much of the chunk is read at once, only `turns` says
    while !rest.is_empty() {
        printer.out.clear();
        let left = s.turns(rest, printer);
        print(rt, printer.out.as_slice())?;
        let Some(r) = left else {
            return Ok(false);
        };
        rest = r;
    }
    Ok(true)
}

// All of the input.
fn run(rt: &(impl Input + Print)) -> Result<(), Failure> {
    let mut input = rt.reader();
    let mut buf = [0u8; 65536];
    let mut printer = Printer {
        out: Output::new(),
        lent: [0; 8194],
    };
    let mut s = State {
        number: 0,
        line: Line::new(),
    };
    // counted, since every loop is proved to end: so many chunks no input has
    for _ in 0..u64::MAX {
        let n = input.read(&mut buf).map_err(|error| Failure {
            what: "read",
            error,
        })?;
        if n == 0 {
            printer.out.clear();
            s.ended(&mut printer.out);
            return print(rt, printer.out.as_slice());
        }
        if !eat(rt, &mut s, &buf[..n], &mut printer)? {
            break;
        }
    }
    Ok(())
}

// Is there an argument i? The program's name is argument 0.
fn has_arg(rt: &impl Env, i: usize) -> bool {
    !matches!(rt.arg(i, &mut []), Err(FillError::NotPresent))
}

// Is --help the one argument?
fn asks_help(rt: &impl Env) -> bool {
    let mut word = [0u8; 6];
    match rt.arg(1, &mut word) {
        Ok(n) => !has_arg(rt, 2) && &word[..n] == b"--help".as_slice(),
        Err(_) => false,
    }
}

fn help(rt: &impl Print) -> Result<(), Failure> {
    print(
        rt,
        b"plate reads axes from standard input, a line for each, and prints their ticks and pixels: plate <INPUT >OUTPUT
first line    kind start end hint low high
other lines   a value of each, with one space between; LF at the end, at most 120 bytes before it
date, month, year, week          start and end YYYY-MM-DD
stamp, stampmonth, stampyear     start and end YYYY-MM-DDThh:mm:ss, with a fraction or without, as 00:00:00.5
span                             start and end in seconds, with a fraction or without, as -90 or -0.5
hint          the number of ticks wished for, 0 to 4096
low, high     the pixels of start and end, -32767 to 32767
output        line tick pixel; after ! the number of the question that refused, !12 for a line that does not read
Anything on standard error means that the output is not whole.
",
    )
}

fn main(rt: HostRuntime) {
    let done = if !has_arg(&rt, 1) {
        run(&rt)
    } else if asks_help(&rt) {
        help(&rt)
    } else {
        let _ = rt.eprintln(
            "plate: the only argument is --help; axes are read from standard input",
        );
        Ok(())
    };
    if let Err(failure) = done {
        report(&rt, failure);
    }
}
