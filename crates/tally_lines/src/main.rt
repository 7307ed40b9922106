// Prints lines of counts, by question and by place: names that are text and names that are not, the last question and
// past it. What must be printed stands in `stdout`, written by hand from the counts below.
#![tactic(auto)]

use std::fmt::Display;
use std::io;
use std::io::{ErrorKind, Print};
use vectors::Tally;

// A printer that prints nothing, and fails on a line's name or on what stands behind it.
#[derive(Clone, Copy, PartialEq)]
enum Broken {
    Name,
    Rest,
}

impl Broken {
    // Takes this part of a line.
    fn take(&self, part: Broken) -> io::Result<()> {
        if *self == part {
            return Err(io::Error::from(ErrorKind::BrokenPipe));
        }
        Ok(())
    }
}

impl Print for Broken {
    fn print<D: Display + Drop>(&self, _: D) -> io::Result<()> {
        self.take(Broken::Rest)
    }

    fn println<D: Display + Drop>(&self, _: D) -> io::Result<()> {
        self.take(Broken::Rest)
    }

    fn write_all(&self, _: &[u8]) -> io::Result<()> {
        self.take(Broken::Name)
    }
}

// Question 3: two answers, of which one differs, and two that are wrong on purpose, both found. Question 15: one, and
// two that are wrong on purpose, of which one is found. Question 16 is none: it counts as question 0.
fn counted() -> Tally {
    let mut tally = Tally::new();
    tally.begin(3);
    tally.count(3, true);
    tally.count(3, false);
    tally.count(15, true);
    tally.count(16, false);
    tally.begin(131);
    tally.count(3, false);
    tally.count(3, false);
    tally.count(15, false);
    tally.count(15, true);
    tally
}

fn by_question(rt: &impl Print, tally: &Tally) -> io::Result<()> {
    tally.line(rt, 0, "question 0")?;
    tally.line(rt, 3, "question 3")?;
    tally.line(rt, 15, "question 15")?;
    tally.line(rt, 16, "question 16")?;
    tally.line(rt, 0x1_0000_0003, "question 2³² + 3")?;
    tally.line(rt, u64::MAX, "the last number")?;
    tally.line(rt, 3, "")
}

fn by_place(rt: &impl Print, tally: &Tally) -> io::Result<()> {
    tally.line_at(rt, 0, b"place 0")?;
    tally.line_at(rt, 3, b"place 3")?;
    tally.line_at(rt, 15, b"place 15")?;
    tally.line_at(rt, 16, b"place 16")?;
    tally.line_at(rt, usize::MAX, b"the last place")?;
    tally.line_at(rt, 3, &[0xff])
}

// A part that is not printed is told. Where there is no line nothing fails.
fn unprinted(rt: &impl Print, tally: &Tally, broken: Broken) -> io::Result<()> {
    let line = tally.line(&broken, 16, "question 16").is_err();
    let line_at = tally.line_at(&broken, 15, b"place 15").is_err();
    let none = tally.line_at(&broken, 16, b"place 16").is_ok();
    println!(rt; "not printed: {line} {line_at}, none to print: {none}")
}

fn main(rt: HostRuntime) -> io::Result<()> {
    let tally = counted();
    by_question(&rt, &tally)?;
    by_place(&rt, &tally)?;
    unprinted(&rt, &tally, Broken::Name)?;
    unprinted(&rt, &tally, Broken::Rest)
}
