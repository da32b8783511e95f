// Compares the calendar with the rows on standard input, which tests/vectors/make prints; stdin beside src/ keeps them.
// A published date is its day number, year, month and day, and more that is not read here. An answer of the Rust is f or c,
// for the floor or the ceiling of a date-time, its day and nanosecond, and the answered day. A line with # is a comment.
#![tactic(auto)]

ghost use Rattle.std.specs.Prelude.{◌≡◌, ◌-◌, ◌≤◌, ◌<◌, length, IfOk};

use calendar::{Date, DateTime, LAST_DAY, Ymd};
use std::io::Read as _;
use std::{io, slice};

// The digits at the front as a number, at most fifteen of them; the one byte that ends them is read too, whatever it is. So the
// numbers of a row that has too few are those of the next one.
fn number(bytes: &mut slice::Iter<u8>) -> u64
    ensures { result < 1000000000000000 }
{
    let mut value: u64 = 0;
    for b in bytes {
        if !b.is_ascii_digit() || value > 99999999999999 {
            break;
        }
        value = value * 10 + u64::from(*b - b'0');
    }
    value
}

// Is the first number the day number of the date that the next three are, and that date the date of it?
fn date_agrees(mut bytes: slice::Iter<u8>) -> bool {
    let n = number(&mut bytes);
    let date = Date {
        year: number(&mut bytes),
        month: number(&mut bytes),
        day: number(&mut bytes),
    };
    let number = calendar::number_of(Ymd {
        year: date.year as i64,
        month: date.month as i64,
        day: date.day as i64,
    });
    number == Ok(n) && calendar::date_at(n as i64) == Ok(date)
}

// Is the floor or the ceiling of that date-time that day? The letter and the byte behind it are no digits.
fn day_agrees(floor: bool, mut bytes: slice::Iter<u8>) -> bool {
    let _letter = number(&mut bytes);
    let _blank = number(&mut bytes);
    let t = DateTime {
        day: number(&mut bytes),
        nano: number(&mut bytes),
    };
    let answer = number(&mut bytes);
    if t.day > LAST_DAY as u64 {
        return false;
    }
    let known = if floor {
        calendar::date_floor(t)
    } else {
        calendar::date_ceil(t)
    };
    known == answer
}

// What the rows of a text count for.
#[derive(Clone, Copy, Default)]
struct Compared {
    dates: u64,
    days: u64,
    differ: u64,
}

// A row, with all of the text behind it.
fn compare_row(text: &[u8]) -> Compared
    ensures { (result.dates ≤ 1) × ((result.days ≤ 1) × (result.differ ≤ 1)) }
{
    match text.first() {
        None | Some(b'#') => Compared::default(),
        Some(letter @ (b'f' | b'c')) => Compared {
            dates: 0,
            days: 1,
            differ: u64::from(!day_agrees(*letter == b'f', text.iter())),
        },
        Some(_) => Compared {
            dates: 1,
            days: 0,
            differ: u64::from(!date_agrees(text.iter())),
        },
    }
}

// The text behind its first row.
fn behind_row(text: &[u8]) -> &[u8]
    ensures { length result.now ≤ length text.now - 1 }
{
    match text.iter().position(|b| *b == b'\n') {
        Some(k) => &text[k + 1..],
        None => &[],
    }
}

fn compare(text: &[u8]) -> Compared {
    let mut all = Compared::default();
    let mut rest = text;
    // a while: where a row ends, only `behind_row` says
    while !rest.is_empty() {
        let row = compare_row(rest);
        all.dates += row.dates;
        all.days += row.days;
        all.differ += row.differ;
        rest = behind_row(rest);
    }
    all
}

// As much of the input as the buffer holds.
fn read_full(input: &mut impl io::Read, buf: &mut [u8]) -> io::Result<usize>
    ensures { IfOk result (λ n. n ≤ length buf.new) }
{
    // a length beside the buffer: no heap, and std reads into a slice, which an ArrayVec has of its items alone
    let mut len: usize = 0;
    // counted, since every loop is proved to end: so many reads no input has
    for _ in 0..u64::MAX {
        let n = input.read(&mut buf[len..])?;
        len += n;
        if n == 0 {
            break;
        }
    }
    Ok(len)
}

// The first 65,536 bytes are read, which hold all rows: no heap is used.
fn main(rt: HostRuntime) -> io::Result<()> {
    let mut buf = [0u8; 65536];
    let len = read_full(&mut rt.reader(), &mut buf)?;
    let Compared {
        dates,
        days,
        differ,
    } = compare(&buf[..len]);
    println!(rt;
        "{dates} published dates compared, {days} floors and ceilings compared, {differ} differ"
    )
}
