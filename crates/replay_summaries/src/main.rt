// Replays the oracle's vectors of the summaries: sweeps that come in parts, against the scan of the uncut list. Standard
// input is a list of cases; tools/oracle/README.md has their format.
#![tactic(auto)]

ghost use Rattle.std.specs.Prelude.{◌<◌};

use bode::BodeSummary;
use nyquist::CurveSummary;
use sensitivity::SensitivitySummary;
use std::io;
use sweep::FreqError;
use vectors::{Input, Replay};
use wire::f64_to_bits;

const QUESTIONS: [(u64, &str); 9] = [
    (1, "BodeSummary feed"),
    (2, "BodeSummary gain_crossover"),
    (3, "BodeSummary phase_crossover"),
    (4, "SensitivitySummary feed"),
    (5, "SensitivitySummary crossover"),
    (6, "SensitivitySummary bandwidth"),
    (7, "CurveSummary feed"),
    (8, "CurveSummary closest_approach"),
    (0, "no question"),
];

// The number of a feed. The summary is the new one, unless the feed was refused. (c_summaries has the like, private, for
// what C keeps: shared it would be public there, and this program would need that crate for five lines.)
fn put_fed<S: Drop>(summary: &mut S, fed: Result<S, FreqError>) -> u64 {
    match fed {
        Ok(new) => {
            *summary = new;
            0
        }
        Err(e) => e.number() as u64,
    }
}

// What a case asks of a summary of one kind. (The library's three kinds have no trait: C calls each by its own name, and only
// this program speaks of any.)
trait Summary: Copy {
    // Whether a part has a third list. Where it has none an empty one is passed.
    const HAS_THIRD: bool;

    fn none() -> Self;

    // Feeds a part, and compares the number of that.
    fn take(&mut self, replay: &mut Replay, a: &[f64], b: &[f64], c: &[f64]);

    // What `other` holds behind what `self` holds.
    fn with(self, other: Self) -> Self;

    // Compares the answers.
    fn ask(self, replay: &mut Replay);
}

impl Summary for BodeSummary {
    const HAS_THIRD: bool = true;

    fn none() -> Self {
        BodeSummary::empty()
    }

    fn take(&mut self, replay: &mut Replay, omega: &[f64], db: &[f64], phase: &[f64]) {
        let summary = *self;
        replay.compare(1, &[put_fed(self, summary.feed(omega, db, phase))]);
    }

    fn with(self, other: Self) -> Self {
        self.join(other)
    }

    fn ask(self, replay: &mut Replay) {
        replay.compare_value(2, self.gain_crossover());
        replay.compare_value(3, self.phase_crossover());
    }
}

impl Summary for SensitivitySummary {
    const HAS_THIRD: bool = true;

    fn none() -> Self {
        SensitivitySummary::empty()
    }

    fn take(&mut self, replay: &mut Replay, omega: &[f64], s: &[f64], t: &[f64]) {
        let summary = *self;
        replay.compare(4, &[put_fed(self, summary.feed(omega, s, t))]);
    }

    fn with(self, other: Self) -> Self {
        self.join(other)
    }

    fn ask(self, replay: &mut Replay) {
        replay.compare_value(5, self.crossover());
        replay.compare_value(6, self.bandwidth());
    }
}

impl Summary for CurveSummary {
    const HAS_THIRD: bool = false;

    fn none() -> Self {
        CurveSummary::empty()
    }

    fn take(&mut self, replay: &mut Replay, re: &[f64], im: &[f64], _none: &[f64]) {
        let summary = *self;
        replay.compare(7, &[put_fed(self, summary.feed(re, im))]);
    }

    fn with(self, other: Self) -> Self {
        self.join(other)
    }

    fn ask(self, replay: &mut Replay) {
        replay.compare(8, &[f64_to_bits(self.closest_approach())]);
    }
}

// A kind that no summary has.
#[derive(Clone, Copy)]
struct NoSummary;

impl Summary for NoSummary {
    const HAS_THIRD: bool = true;

    fn none() -> Self {
        NoSummary
    }

    fn take(&mut self, replay: &mut Replay, _a: &[f64], _b: &[f64], _c: &[f64]) {
        replay.no_question();
    }

    fn with(self, _other: Self) -> Self {
        self
    }

    fn ask(self, replay: &mut Replay) {
        replay.no_question();
    }
}

// Reads the number of a register: from 3 on it is the last.
fn register(input: &mut Input) -> usize
    ensures { result < 4 }
{
    input.number().min(3) as usize
}

// Reads a call and makes it. (Calls have the numbers that the oracle writes, as questions have: `vectors` says why.)
fn call<S: Summary>(replay: &mut Replay, registers: &mut [S; 4]) {
    let call = replay.input.number();
    let at = register(&mut replay.input);
    match call {
        1 => registers[at] = S::none(),
        2 => {
            let summary = &mut registers[at];
            replay.lists(S::HAS_THIRD, |replay, a, b, c| {
                summary.take(replay, a, b, c)
            });
        }
        3 => {
            let other = register(&mut replay.input);
            registers[at] = registers[at].with(registers[other]);
        }
        _ => replay.no_question(),
    }
}

// Makes the calls of a case, and asks register 0.
fn calls<S: Summary>(replay: &mut Replay, registers: &mut [S; 4]) {
    for _ in 0..replay.input.number() {
        call(replay, registers);
    }
    registers[0].ask(replay);
}

// Reads and answers the rest of a case.
fn answer(replay: &mut Replay, kind: u64) {
    match kind {
        1 => calls(replay, &mut [BodeSummary::empty(); 4]),
        2 => calls(replay, &mut [SensitivitySummary::empty(); 4]),
        3 => calls(replay, &mut [CurveSummary::empty(); 4]),
        _ => calls(replay, &mut [NoSummary; 4]),
    }
}

fn main(rt: HostRuntime) -> io::Result<()> {
    let mut replay = Replay::new(rt.stdin());
    replay.run(answer);
    replay.end(&rt, &QUESTIONS)
}
