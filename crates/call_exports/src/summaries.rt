// The summaries of sweeps in two parts.
use super::lines;
use c_summaries::{bode_summary, curve_summary, sensitivity_summary};
use std::io;
use std::io::Print;

// ω 1, 2, 4, 8; dB 6, 2, -2, -10; phase -90, -120, -160, -200: crossovers 3 and 6. Lists that differ in length: 11, and
// the summary as it was.
fn bode_summaries(rt: &impl Print) -> io::Result<()> {
    let mut out = lines::MARK;
    let empty = bode_summary::bazintroa_bode_empty();
    let number = bode_summary::bazintroa_bode_gain_crossover(empty, &mut out);
    lines::real(rt, "bode_empty", number, 100, out, lines::MARK)?;
    let early = bode_summary::bazintroa_bode_feed(
        empty,
        &[1.0, 2.0],
        &[6.0, 2.0],
        &[-90.0, -120.0],
    );
    let late = bode_summary::bazintroa_bode_feed(
        empty,
        &[4.0, 8.0],
        &[-2.0, -10.0],
        &[-160.0, -200.0],
    );
    let whole = bode_summary::bazintroa_bode_join(early.summary, late.summary);
    let refused = bode_summary::bazintroa_bode_feed(whole, &[1.0], &[1.0], &[]);
    lines::verdict(rt, "bode_feed", (late.number == 0) & (refused.number == 11))?;
    let number = bode_summary::bazintroa_bode_phase_crossover(late.summary, &mut out);
    lines::real(rt, "bode_phase_crossover", number, 0, out, 6.0)?;
    let number = bode_summary::bazintroa_bode_gain_crossover(whole, &mut out);
    lines::real(rt, "bode_join", number, 0, out, 3.0)?;
    let number = bode_summary::bazintroa_bode_gain_crossover(refused.summary, &mut out);
    lines::real(rt, "bode_gain_crossover", number, 0, out, 3.0)
}

// ω 1, 2, 4; S -20, -10, 5; T 0, -1, -5: bandwidth 3.
fn bandwidths(rt: &impl Print) -> io::Result<()> {
    let mut out = lines::MARK;
    let empty = sensitivity_summary::bazintroa_sensitivity_empty();
    let number = sensitivity_summary::bazintroa_sensitivity_summary_bandwidth(empty, &mut out);
    lines::real(rt, "sensitivity_empty", number, 100, out, lines::MARK)?;
    let early = sensitivity_summary::bazintroa_sensitivity_feed(
        empty,
        &[1.0, 2.0],
        &[-20.0, -10.0],
        &[0.0, -1.0],
    );
    let whole = sensitivity_summary::bazintroa_sensitivity_feed(
        early.summary,
        &[4.0],
        &[5.0],
        &[-5.0],
    );
    let refused = sensitivity_summary::bazintroa_sensitivity_feed(
        whole.summary,
        &[1.0],
        &[1.0],
        &[],
    );
    lines::verdict(
        rt,
        "sensitivity_feed",
        (whole.number == 0) & (refused.number == 11),
    )?;
    let number = sensitivity_summary::bazintroa_sensitivity_summary_bandwidth(
        refused.summary,
        &mut out,
    );
    lines::real(rt, "sensitivity_summary_bandwidth", number, 0, out, 3.0)
}

// S - T -2, 2, -2 at 1, 3, 7: equal at 2, and at 5 too, so that the order of the parts is seen. A join keeps no
// bandwidth: 101.
fn crossovers(rt: &impl Print) -> io::Result<()> {
    let mut out = lines::MARK;
    let empty = sensitivity_summary::bazintroa_sensitivity_empty();
    let early = sensitivity_summary::bazintroa_sensitivity_feed(empty, &[1.0], &[-1.0], &[1.0]);
    let late = sensitivity_summary::bazintroa_sensitivity_feed(
        empty,
        &[3.0, 7.0],
        &[4.0, 2.0],
        &[2.0, 4.0],
    );
    let whole = sensitivity_summary::bazintroa_sensitivity_join(early.summary, late.summary);
    let number = sensitivity_summary::bazintroa_sensitivity_summary_bandwidth(whole, &mut out);
    lines::real(rt, "sensitivity_join", number, 101, out, lines::MARK)?;
    let number = sensitivity_summary::bazintroa_sensitivity_summary_crossover(whole, &mut out);
    lines::real(rt, "sensitivity_summary_crossover", number, 0, out, 2.0)
}

// Of (0,0) and (-1,0.5) the second is 0.5 from -1; no point: 0.
fn curve_summaries(rt: &impl Print) -> io::Result<()> {
    let empty = curve_summary::bazintroa_curve_empty();
    let nothing = curve_summary::bazintroa_curve_closest_approach(empty);
    lines::real(rt, "curve_empty", 0, 0, nothing, 0.0)?;
    let early = curve_summary::bazintroa_curve_feed(empty, &[0.0], &[0.0]);
    let late = curve_summary::bazintroa_curve_feed(empty, &[-1.0], &[0.5]);
    let refused = curve_summary::bazintroa_curve_feed(late.summary, &[-1.0], &[]);
    lines::verdict(
        rt,
        "curve_feed",
        (late.number == 0) & (refused.number == 11),
    )?;
    let nearest = curve_summary::bazintroa_curve_closest_approach(refused.summary);
    lines::real(rt, "curve_closest_approach", 0, 0, nearest, 0.5)?;
    let whole = curve_summary::bazintroa_curve_join(early.summary, late.summary);
    let nearest = curve_summary::bazintroa_curve_closest_approach(whole);
    lines::real(rt, "curve_join", 0, 0, nearest, 0.5)
}

pub(crate) fn run(rt: &impl Print) -> io::Result<()> {
    bode_summaries(rt)?;
    bandwidths(rt)?;
    crossovers(rt)?;
    curve_summaries(rt)
}
