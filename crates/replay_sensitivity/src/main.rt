// Replays the oracle's vectors of evaluation and the four responses. Standard input is a list of cases;
// tools/oracle/README.md has their format.
#![tactic(auto)]

use sensitivity::LoopShaping;
use std::io;
use transfer_fn::TransferFn;
use vectors::{Input, Replay};

const QUESTIONS: [(u64, &str); 5] = [
    (1, "eval_tf_complex"),
    (2, "loop_gain_at"),
    (3, "sensitivity_at"),
    (4, "comp_sensitivity_at"),
    (5, "control_sensitivity_at"),
];

fn ask(replay: &mut Replay, l: LoopShaping, cosines: &[f64], sines: &[f64]) {
    let plant = transfer_fn::eval_tf_complex(l.plant, cosines, sines);
    replay.compare_pair(1, plant);
    replay.compare_pair(2, l.loop_gain_at(cosines, sines));
    replay.compare_pair(3, l.sensitivity_at(cosines, sines));
    replay.compare_pair(4, l.comp_sensitivity_at(cosines, sines));
    replay.compare_pair(5, l.control_sensitivity_at(cosines, sines));
}

// The coefficients of a transfer function of a given order.
fn transfer_fn_of(input: &mut Input, order: u64) -> TransferFn {
    places::transfer_fn(&input.array(), &input.array(), order as usize)
}

// Reads and answers the rest of a case.
fn answer(replay: &mut Replay, cosines: u64) {
    let input = &mut replay.input;
    let sines = input.number();
    let plant_order = input.number();
    let controller_order = input.number();
    let plant = transfer_fn_of(input, plant_order);
    let controller = transfer_fn_of(input, controller_order);
    let mut cosine_list = [0.0; 16];
    let mut sine_list = [0.0; 16];
    let c = input.floats(&mut cosine_list, cosines);
    let s = input.floats(&mut sine_list, sines);
    ask(
        replay,
        LoopShaping { plant, controller },
        &cosine_list[..c],
        &sine_list[..s],
    );
}

fn main(rt: HostRuntime) -> io::Result<()> {
    let mut replay = Replay::new(rt.stdin());
    replay.run(answer);
    replay.end(&rt, &QUESTIONS)
}
