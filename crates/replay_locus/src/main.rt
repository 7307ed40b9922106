// Replays the oracle's vectors of the locus point and of the stability test. Standard input is a list of cases;
// tools/oracle/README.md has their format.
#![tactic(auto)]

use complex::Complex;
use root_locus::{Ending, LocusPoint};
use std::io;
use sweep::FreqError;
use vectors::{Input, Replay};
use wire::f64_to_bits;

const QUESTIONS: [(u64, &str); 3] = [
    (1, "locus_point"),
    (2, "stability_region"),
    (0, "no question"),
];

const NO_POINT: LocusPoint = LocusPoint {
    gain: 0.0,
    poles: [Complex { re: 0.0, im: 0.0 }; 8],
    count: 0,
    ending: Ending::Settled(0),
};

// Whether the next words are the parts of eight poles, those past the count among them.
fn poles_are_next(input: &mut Input, poles: [Complex; 8]) -> bool {
    let words = poles.map(|z| [f64_to_bits(z.re), f64_to_bits(z.im)]);
    input.next_are(words.as_flattened())
}

// A refused point has no values: the oracle writes zeros for them.
fn is_next(input: &mut Input, answer: Result<LocusPoint, FreqError>) -> bool {
    let (number, p) = match answer {
        Ok(p) => (0, p),
        Err(e) => (e.number(), NO_POINT),
    };
    let head = [number as u64, f64_to_bits(p.gain), p.count as u64];
    let end = [p.ending.number() as u64, f64_to_bits(p.ending.value())];
    input.next_are(&head) & poles_are_next(input, p.poles) & input.next_are(&end)
}

fn ask_locus(replay: &mut Replay) {
    let input = &mut replay.input;
    let k_max = input.float();
    let order = input.number() as usize;
    let n = input.number() as usize;
    let i = input.number() as usize;
    let tf = places::transfer_fn(&input.array(), &input.array(), order);
    let right = is_next(input, root_locus::locus_point(tf, k_max, n, i));
    replay.tally.count(1, right);
}

fn ask_stability(replay: &mut Replay) {
    let count = replay.input.number() as usize;
    let poles = places::poles_of(&replay.input.array());
    let stable = root_locus::stability_region(poles, count);
    replay.compare(2, &[u64::from(stable)]);
}

// Reads and answers the rest of a case.
fn answer(replay: &mut Replay, kind: u64) {
    match kind {
        1 => ask_locus(replay),
        2 => ask_stability(replay),
        _ => replay.no_question(),
    }
}

fn main(rt: HostRuntime) -> io::Result<()> {
    let mut replay = Replay::new(rt.stdin());
    replay.run(answer);
    replay.end(&rt, &QUESTIONS)
}
