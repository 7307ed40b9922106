// Replays the oracle's vectors of scalar and complex arithmetic. Standard input is a list of records of eight
// words: question, x.re, x.im, y.re, y.im, number, and two values. tools/oracle/README.md has the questions.
#![tactic(auto)]

use complex::Complex;
use std::io;
use vectors::{Input, Replay};

const QUESTIONS: [(u64, &str); 13] = [
    (1, "abs"),
    (2, "sqrt"),
    (3, "new"),
    (4, "from_real"),
    (5, "multiply"),
    (6, "add"),
    (7, "sub"),
    (8, "magnitude"),
    (9, "magnitude_sq"),
    (10, "reciprocal"),
    (11, "divide"),
    (12, "EPSILON"),
    (0, "no question"),
];

// Compares a real number: the oracle writes 0.0 behind it.
fn compare_real(replay: &mut Replay, question: u64, x: f64) {
    replay.compare_pair(question, Complex::from_real(x));
}

fn ask(replay: &mut Replay, question: u64, x: Complex, y: Complex) {
    match question {
        1 => compare_real(replay, question, scalar::abs(x.re)),
        2 => compare_real(replay, question, scalar::sqrt(x.re)),
        3 => replay.compare_pair(question, Complex::new(x.re, x.im)),
        4 => replay.compare_pair(question, Complex::from_real(x.re)),
        5 => replay.compare_pair(question, x.multiply(y)),
        6 => replay.compare_pair(question, x.add(y)),
        7 => replay.compare_pair(question, x.sub(y)),
        8 => compare_real(replay, question, x.magnitude()),
        9 => compare_real(replay, question, x.magnitude_sq()),
        10 => replay.compare_pair(question, x.reciprocal()),
        11 => replay.compare_pair(question, x.divide(y)),
        12 => compare_real(replay, question, scalar::EPSILON),
        _ => {
            replay.input.skip(3);
            replay.no_question();
        }
    }
}

fn read_complex(input: &mut Input) -> Complex {
    Complex::new(input.float(), input.float())
}

// Reads and answers the rest of a record.
fn answer(replay: &mut Replay, question: u64) {
    let x = read_complex(&mut replay.input);
    let y = read_complex(&mut replay.input);
    ask(replay, question, x, y);
}

fn main(rt: HostRuntime) -> io::Result<()> {
    let mut replay = Replay::new(rt.stdin());
    replay.run(answer);
    replay.end(&rt, &QUESTIONS)
}
