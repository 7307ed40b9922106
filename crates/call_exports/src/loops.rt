// Transfer functions: their values, the responses of a loop, points of the root locus.
use super::lines;
use c_api::{locus, responses};
use std::io;
use std::io::Print;

// Two coefficients, and numbers behind them that are not to be read.
fn two(first: f64, second: f64) -> [f64; 8] {
    [first, second, 9.0, 9.0, 9.0, 9.0, 9.0, 9.0]
}

// At a quarter turn a sample the pairs are (1,-0), (0,-1), (-1,-0). Order 1, b 5, a 2: 5/(1-2j) = 1+2j. Order 9: 16.
fn value(rt: &impl Print) -> io::Result<()> {
    let b = two(5.0, 9.0);
    let a = two(2.0, 9.0);
    let cosines = [1.0, 0.0];
    let sines = [-0.0, -1.0];
    let mut out = [lines::MARK; 2];
    let number = responses::bazintroa_eval_tf_complex(&b, &a, 1, &cosines, &sines, &mut out);
    lines::list(rt, "eval_tf_complex", number, 0, &out, &[1.0, 2.0])?;
    let number = responses::bazintroa_eval_tf_complex(&b, &a, 9, &cosines, &sines, &mut out);
    lines::list(
        rt,
        "eval_tf_complex, refused",
        number,
        16,
        &out,
        &[1.0, 2.0],
    )
}

// There the plant of order 1, b 2, a 1 is P = 2/(1-j) = 1+j, and the controller of order 2, b (1, -1), a (0, -1) is
// C = (1+j)/2. So L = PC = j, S = 1/(1+j) = (1-j)/2, T = j/(1+j) = (1+j)/2, Q = C/(1+j) = 1/2.
fn four_responses(rt: &impl Print) -> io::Result<()> {
    let b = two(2.0, 9.0);
    let a = two(1.0, 9.0);
    let d = two(1.0, -1.0);
    let c = two(0.0, -1.0);
    let x = [1.0, 0.0, -1.0];
    let y = [-0.0, -1.0, -0.0];
    let mut out = [lines::MARK; 2];
    let number = responses::bazintroa_loop_gain_at(&b, &a, 1, &d, &c, 2, &x, &y, &mut out);
    lines::list(rt, "loop_gain_at", number, 0, &out, &[0.0, 1.0])?;
    let number = responses::bazintroa_sensitivity_at(&b, &a, 1, &d, &c, 2, &x, &y, &mut out);
    lines::list(rt, "sensitivity_at", number, 0, &out, &[0.5, -0.5])?;
    let number = responses::bazintroa_comp_sensitivity_at(&b, &a, 1, &d, &c, 2, &x, &y, &mut out);
    lines::list(rt, "comp_sensitivity_at", number, 0, &out, &[0.5, 0.5])?;
    let number = responses::bazintroa_control_sensitivity_at(
        &b, &a, 1, &d, &c, 2, &x, &y, &mut out,
    );
    lines::list(rt, "control_sensitivity_at", number, 0, &out, &[0.5, 0.0])
}

// Poles (0.5,0.5) and (1,0): the first alone is stable.
fn stability(rt: &impl Print) -> io::Result<()> {
    let mut parts = [0.0; 16];
    parts[0] = 0.5;
    parts[1] = 0.5;
    parts[2] = 1.0;
    let one = locus::bazintroa_stability_region(&parts, 1);
    let two = locus::bazintroa_stability_region(&parts, 2);
    lines::verdict(rt, "stability_region", one & !two)
}

// The places of a point of the locus.
#[derive(Drop)]
struct Places {
    gain: f64,
    parts: [f64; 16],
    count: usize,
    ending: u32,
    value: f64,
}

impl Places {
    // A mark in each place.
    fn new() -> Self {
        Self {
            gain: lines::MARK,
            parts: [lines::MARK; 16],
            count: 9,
            ending: 9,
            value: lines::MARK,
        }
    }

    // Calls for point i of n up to gain k_max, with these places.
    fn call(
        &mut self,
        b: &[f64; 8],
        a: &[f64; 8],
        order: usize,
        k_max: f64,
        n: usize,
        i: usize,
    ) -> u32 {
        locus::bazintroa_locus_point(
            b,
            a,
            order,
            k_max,
            n,
            i,
            &mut self.gain,
            &mut self.parts,
            &mut self.count,
            &mut self.ending,
            &mut self.value,
        )
    }
}

// Order 2, b (0, 1), a (-4, 5), point 4 of 9 up to gain 4: at gain 2 the polynomial 1, -2, 5 has the poles 1+2j, 1-2j.
// A formula has them: settled, 0 rounds. Point 9 of 9: 17, and every place stays.
fn point(rt: &impl Print) -> io::Result<()> {
    let b = two(0.0, 1.0);
    let a = two(-4.0, 5.0);
    let mut places = Places::new();
    let number = places.call(&b, &a, 2, 4.0, 9, 4);
    let mut expected = [0.0; 16];
    expected[0] = 1.0;
    expected[1] = 2.0;
    expected[2] = 1.0;
    expected[3] = -2.0;
    lines::list(rt, "locus_point", number, 0, &places.parts, &expected)?;
    lines::real(rt, "locus_point, its gain", 0, 0, places.gain, 2.0)?;
    lines::verdict(rt, "locus_point, its count", places.count == 2)?;
    lines::real(
        rt,
        "locus_point, its ending",
        places.ending,
        0,
        places.value,
        0.0,
    )?;
    places.ending = 9;
    places.value = lines::MARK;
    let number = places.call(&b, &a, 2, 4.0, 9, 9);
    lines::list(
        rt,
        "locus_point, refused",
        number,
        17,
        &places.parts,
        &expected,
    )?;
    lines::verdict(
        rt,
        "locus_point, refused, its gain and count",
        (places.gain == 2.0) & (places.count == 2),
    )?;
    lines::real(
        rt,
        "locus_point, refused, its ending",
        places.ending,
        9,
        places.value,
        lines::MARK,
    )
}

// A line on the ending at gain 0, where the polynomial is 1 and these coefficients.
fn ending(
    rt: &impl Print,
    name: &str,
    a: [f64; 8],
    order: usize,
    kind: u32,
    expected: f64,
) -> io::Result<()> {
    let mut places = Places::new();
    let number = places.call(&two(0.0, 0.0), &a, order, 1.0, 2, 0);
    lines::verdict(
        rt,
        name,
        (number == 0) & (places.ending == kind) & (places.value == expected),
    )
}

// The search for the poles of z^4 - 1 starts at them, but for roundings: settled in round 1. Of z + NaN and of
// z^4 + NaN a part is NaN, though the first round has no change: broken.
fn endings(rt: &impl Print) -> io::Result<()> {
    let fourth = [0.0, 0.0, 0.0, -1.0, 9.0, 9.0, 9.0, 9.0];
    let nan = 0.0 / 0.0;
    ending(rt, "locus_point, settled", fourth, 4, 0, 1.0)?;
    ending(rt, "locus_point, broken", two(nan, 9.0), 1, 2, 0.0)?;
    let fourth = [0.0, 0.0, 0.0, nan, 9.0, 9.0, 9.0, 9.0];
    ending(rt, "locus_point, broken in its search", fourth, 4, 2, 0.0)
}

pub(crate) fn run(rt: &impl Print) -> io::Result<()> {
    value(rt)?;
    four_responses(rt)?;
    stability(rt)?;
    point(rt)?;
    endings(rt)
}
