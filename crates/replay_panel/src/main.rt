// Replays the oracle's vectors of the panel's entries. Standard input is a list of cases; tools/oracle/README.md has
// their format. Each byte for an answer holds a mark before a call, so that one that must stay as it was is seen to.
#![tactic(auto)]

use std::io;
use vectors::{Input, Replay};
use wire::u64_at;

const MARK: u8 = 0xEE;

const QUESTIONS: [(u64, &str); 3] = [
    (1, "bazintroa_panel_gain_crossover"),
    (2, "bazintroa_panel_phase_crossover"),
    (0, "no question"),
];

// Reads so many words, where there is room for them.
fn read(input: &mut Input, bytes: &mut [u8], words: u64) {
    if let Some(place) = bytes.get_mut(..words.saturating_mul(8) as usize) {
        input.fill(place);
    }
}

// Reads so many words, with `pad` copies of the first reading before them, where there is room for these.
fn padded(input: &mut Input, bytes: &mut [u8], pad: u64, words: u64) {
    let start = pad.saturating_mul(24) as usize;
    if start <= bytes.len() {
        let (copies, readings) = bytes.split_at_mut(start);
        read(input, readings, words);
        if let Some(first) = readings.first_chunk::<24>() {
            for place in copies.chunks_exact_mut(24) {
                place.copy_from_slice(first);
            }
        }
    }
}

// Asks an entry, with the first `room` of 32 bytes for its answer. (Each is passed in a closure: an exported function is
// itself no `Fn`.)
fn ask<F: Fn(&[u8], &mut [u8]) -> u32>(
    replay: &mut Replay,
    question: u64,
    entry: F,
    readings: &[u8],
    room: usize,
)
    requires { F.IsAlwaysCallable entry }
{
    let mut bytes = [MARK; 32];
    match bytes.get_mut(..room) {
        Some(place) => {
            let number = entry(readings, place) as u64;
            let words = [
                number,
                u64_at(&bytes, 0),
                u64_at(&bytes, 8),
                u64_at(&bytes, 16),
                u64_at(&bytes, 24),
            ];
            replay.compare(question, &words);
        }
        None => replay.tally.count(question, false),
    }
}

// Reads and answers the rest of a case.
fn answer(replay: &mut Replay, room: u64) {
    // (First: behind the reads they were cleared twice.)
    let mut bytes = [0; 100000];
    let room = room as usize;
    let pad = replay.input.number();
    let words = replay.input.number();
    let n = replay.input.number() as usize;
    padded(&mut replay.input, &mut bytes, pad, words);
    match bytes.get(..n) {
        Some(readings) => {
            let gain = |readings: &[u8], answer: &mut [u8]| {
                panel::bazintroa_panel_gain_crossover(readings, answer)
            };
            ask(replay, 1, gain, readings, room);
            let phase = |readings: &[u8], answer: &mut [u8]| {
                panel::bazintroa_panel_phase_crossover(readings, answer)
            };
            ask(replay, 2, phase, readings, room);
        }
        None => replay.no_question(),
    }
}

fn main(rt: HostRuntime) -> io::Result<()> {
    let mut replay = Replay::new(rt.stdin());
    replay.run(answer);
    replay.end(&rt, &QUESTIONS)
}
