// Replays the oracle's vectors of the scans. Standard input is a list of cases; tools/oracle/README.md has their
// format.
#![tactic(auto)]

use bode::Reading;
use std::io;
use vectors::Replay;

const QUESTIONS: [(u64, &str); 9] = [
    (1, "gain_crossover_frequency"),
    (2, "phase_crossover_frequency"),
    (3, "gain_margin"),
    (4, "phase_margin"),
    (8, "gain_crossover_readings"),
    (5, "sensitivity_crossover"),
    (6, "bandwidth"),
    (7, "distance_to_critical"),
    (0, "no question"),
];

// The words of an answer: its number, and the bits of its value.
const ANSWER: usize = 2;

// The readings of a sweep, with zeros behind them.
fn readings(omega: &[f64], db: &[f64], phase: &[f64]) -> [Reading; 5000] {
    let mut readings = [sweep::Reading::zeros(); 5000];
    for (((place, omega), db), phase) in readings.iter_mut().zip(omega).zip(db).zip(phase) {
        *place = sweep::Reading::new(*omega, *db, *phase);
    }
    readings
}

// Lists of different lengths are no readings, and the answer is to nothing then. (Three slices, since these may be refused:
// `sweep::Lists` holds only lists that are not.)
fn ask_readings(replay: &mut Replay, omega: &[f64], db: &[f64], phase: &[f64]) {
    let n = omega.len();
    if n <= 5000 && db.len() == n && phase.len() == n {
        let rs = readings(omega, db, phase);
        replay.compare_value(8, bode::gain_crossover_readings(&rs[..n]));
    } else {
        replay.input.skip(ANSWER);
    }
}

fn ask_bode(replay: &mut Replay, omega: &[f64], db: &[f64], phase: &[f64]) {
    replay.compare_value(1, bode::gain_crossover_frequency(omega, db, phase));
    replay.compare_value(2, bode::phase_crossover_frequency(omega, db, phase));
    replay.compare_value(3, bode::gain_margin(omega, db, phase));
    replay.compare_value(4, bode::phase_margin(omega, db, phase));
    ask_readings(replay, omega, db, phase);
}

// The three answers behind these two are to questions that are not asked here.
fn ask_sensitivity(replay: &mut Replay, omega: &[f64], s: &[f64], t: &[f64]) {
    replay.compare_value(5, sensitivity::sensitivity_crossover(omega, s, t));
    replay.compare_value(6, sensitivity::bandwidth(omega, s, t));
    replay.input.skip(3 * ANSWER);
}

// Nor are the four behind this one.
fn ask_curve(replay: &mut Replay, re: &[f64], im: &[f64]) {
    replay.compare_value(7, nyquist::distance_to_critical(re, im));
    replay.input.skip(4 * ANSWER);
}

// Reads and answers the rest of a case.
fn answer(replay: &mut Replay, kind: u64) {
    replay.lists(true, |replay, a, b, c| match kind {
        1 => ask_bode(replay, a, b, c),
        2 => ask_sensitivity(replay, a, b, c),
        3 => ask_curve(replay, a, b),
        _ => replay.no_question(),
    });
}

fn main(rt: HostRuntime) -> io::Result<()> {
    let mut replay = Replay::new(rt.stdin());
    replay.run(answer);
    replay.end(&rt, &QUESTIONS)
}
