// The value of a transfer function and the four responses of a loop, at a frequency whose cosines and sines are lent.
// (The C interface has each response as a function, and each array and number of a loop as a parameter: nine of a response,
// of which `loop_of` is handed six.)
#![tactic(auto, unfolding(transfer_fn::specs::Evaluation::outcome_of))]

ghost use Rattle.std.specs.Prelude.{◌≡◌};
ghost use Rattle.transfer_fn.specs.Evaluation.{evaluation};
ghost use Rattle.sensitivity.specs.Responses.{loop_gain, sensitivity, comp_sensitivity, control_sensitivity, response_by};
ghost use Rattle.laws.specs.Outcome.{Answers};
ghost use Rattle.places.specs.Coefficients.{transfer_fn};
ghost use Rattle.c_api.specs.Places.{loop_shaping};

use places::Answer;
use sensitivity::LoopShaping;

fn loop_of(
    plant_b: &[f64; 8],
    plant_a: &[f64; 8],
    plant_order: usize,
    controller_b: &[f64; 8],
    controller_a: &[f64; 8],
    controller_order: usize,
) -> LoopShaping
    ensures { result ≡ loop_shaping (transfer_fn plant_b.now plant_a.now plant_order) (transfer_fn controller_b.now controller_a.now controller_order) }
{
    LoopShaping {
        plant: places::transfer_fn(plant_b, plant_a, plant_order),
        controller: places::transfer_fn(controller_b, controller_a, controller_order),
    }
}

#[unsafe(no_mangle)]
pub extern "C" fn bazintroa_eval_tf_complex(
    b: &[f64; 8],
    a: &[f64; 8],
    order: usize,
    cosines: &[f64],
    sines: &[f64],
    out: &mut [f64; 2],
) -> u32
    ensures { Answers (evaluation (transfer_fn b.now a.now order) cosines.now sines.now) result out.old out.new }
{
    transfer_fn::eval_tf_complex(places::transfer_fn(b, a, order), cosines, sines).put(out)
}

#[unsafe(no_mangle)]
pub extern "C" fn bazintroa_loop_gain_at(
    plant_b: &[f64; 8],
    plant_a: &[f64; 8],
    plant_order: usize,
    controller_b: &[f64; 8],
    controller_a: &[f64; 8],
    controller_order: usize,
    cosines: &[f64],
    sines: &[f64],
    out: &mut [f64; 2],
) -> u32
    ensures { Answers (response_by loop_gain (loop_shaping (transfer_fn plant_b.now plant_a.now plant_order)
        (transfer_fn controller_b.now controller_a.now controller_order))
        cosines.now sines.now) result out.old out.new }
{
    let shaping = loop_of(
        plant_b,
        plant_a,
        plant_order,
        controller_b,
        controller_a,
        controller_order,
    );
    shaping.loop_gain_at(cosines, sines).put(out)
}

#[unsafe(no_mangle)]
pub extern "C" fn bazintroa_sensitivity_at(
    plant_b: &[f64; 8],
    plant_a: &[f64; 8],
    plant_order: usize,
    controller_b: &[f64; 8],
    controller_a: &[f64; 8],
    controller_order: usize,
    cosines: &[f64],
    sines: &[f64],
    out: &mut [f64; 2],
) -> u32
    ensures { Answers (response_by sensitivity (loop_shaping (transfer_fn plant_b.now plant_a.now plant_order)
        (transfer_fn controller_b.now controller_a.now controller_order))
        cosines.now sines.now) result out.old out.new }
{
    let shaping = loop_of(
        plant_b,
        plant_a,
        plant_order,
        controller_b,
        controller_a,
        controller_order,
    );
    shaping.sensitivity_at(cosines, sines).put(out)
}

#[unsafe(no_mangle)]
pub extern "C" fn bazintroa_comp_sensitivity_at(
    plant_b: &[f64; 8],
    plant_a: &[f64; 8],
    plant_order: usize,
    controller_b: &[f64; 8],
    controller_a: &[f64; 8],
    controller_order: usize,
    cosines: &[f64],
    sines: &[f64],
    out: &mut [f64; 2],
) -> u32
    ensures { Answers (response_by comp_sensitivity (loop_shaping (transfer_fn plant_b.now plant_a.now plant_order)
        (transfer_fn controller_b.now controller_a.now controller_order))
        cosines.now sines.now) result out.old out.new }
{
    let shaping = loop_of(
        plant_b,
        plant_a,
        plant_order,
        controller_b,
        controller_a,
        controller_order,
    );
    shaping.comp_sensitivity_at(cosines, sines).put(out)
}

#[unsafe(no_mangle)]
pub extern "C" fn bazintroa_control_sensitivity_at(
    plant_b: &[f64; 8],
    plant_a: &[f64; 8],
    plant_order: usize,
    controller_b: &[f64; 8],
    controller_a: &[f64; 8],
    controller_order: usize,
    cosines: &[f64],
    sines: &[f64],
    out: &mut [f64; 2],
) -> u32
    ensures { Answers (response_by control_sensitivity (loop_shaping (transfer_fn plant_b.now plant_a.now plant_order)
        (transfer_fn controller_b.now controller_a.now controller_order))
        cosines.now sines.now) result out.old out.new }
{
    let shaping = loop_of(
        plant_b,
        plant_a,
        plant_order,
        controller_b,
        controller_a,
        controller_order,
    );
    shaping.control_sensitivity_at(cosines, sines).put(out)
}
