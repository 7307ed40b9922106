// Replays the oracle's vectors of the two grids. Standard input is a list of cases; tools/oracle/README.md has
// their format. The lent list holds a mark in each place before a call, so that a place that must stay as it was is
// seen to.
#![tactic(auto)]

use places::Answer;
use std::io;
use sweep::FreqError;
use vectors::{Input, Replay};
use wire::f64_to_bits;

const MARK: f64 = -7.25;

const QUESTIONS: [(u64, &str); 3] = [
    (1, "fill_gain_grid"),
    (2, "fill_frequency_grid"),
    (0, "no question"),
];

// Whether the list holds the values that are read next, as many as are given, and behind them marks.
fn holds(input: &mut Input, list: &[f64], given: u64) -> bool {
    let (filled, rest) = list.split_at(list.len().min(given as usize));
    let mut right = rest.iter().all(|x| f64_to_bits(*x) == f64_to_bits(MARK));
    for x in filled {
        right &= input.next_are(&[f64_to_bits(*x)]);
    }
    right
}

// Reads the rest of a case, fills the first `room` places of a list, and says whether that is right.
fn is_right<F: Fn(f64, usize, &mut [f64]) -> Result<(), FreqError>>(
    input: &mut Input,
    fill: F,
) -> bool
    requires { F.IsAlwaysCallable fill }
{
    let top = input.float();
    let n = input.number() as usize;
    let room = input.number() as usize;
    let mut list = [MARK; 4200];
    let Some(places) = list.get_mut(..room) else {
        return false;
    };
    let number = fill(top, n, places).put(&mut ()) as u64;
    let given = input.number();
    input.next_are(&[number]) & holds(input, places, given)
}

// The same of a frequency grid. (In a closure: a function of another crate's private module cannot be passed by name.)
fn frequencies_are_right(input: &mut Input) -> bool {
    is_right(input, |top, n, list| {
        nyquist::fill_frequency_grid(top, n, list)
    })
}

// Answers a case. One that asks nothing is read as a frequency grid's.
fn answer(replay: &mut Replay, question: u64) {
    let input = &mut replay.input;
    let right = match question {
        1 => is_right(input, root_locus::fill_gain_grid),
        2 => frequencies_are_right(input),
        _ => {
            frequencies_are_right(input);
            return replay.no_question();
        }
    };
    replay.tally.count(question, right);
}

fn main(rt: HostRuntime) -> io::Result<()> {
    let mut replay = Replay::new(rt.stdin());
    replay.run(answer);
    replay.end(&rt, &QUESTIONS)
}
