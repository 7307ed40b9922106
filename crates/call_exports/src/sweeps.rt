// Grids, and the scans over lists. The entry on a slice of readings is not called: a line more would change what the
// program prints.
use super::lines;
use c_api::{grids, scans};
use std::io;
use std::io::Print;

// Five of six places are filled. One point is too few: 1, and every place stays.
fn both_grids(rt: &impl Print) -> io::Result<()> {
    let mut list = [lines::MARK; 6];
    let number = grids::bazintroa_fill_gain_grid(8.0, 5, &mut list);
    let expected = [0.0, 2.0, 4.0, 6.0, 8.0, lines::MARK];
    lines::list(rt, "fill_gain_grid", number, 0, &list, &expected)?;
    let number = grids::bazintroa_fill_frequency_grid(4.0, 5, &mut list);
    let expected = [0.0, 1.0, 2.0, 3.0, 4.0, lines::MARK];
    lines::list(rt, "fill_frequency_grid", number, 0, &list, &expected)?;
    let number = grids::bazintroa_fill_gain_grid(8.0, 1, &mut list);
    lines::list(rt, "fill_gain_grid, refused", number, 1, &list, &expected)?;
    let number = grids::bazintroa_fill_frequency_grid(4.0, 1, &mut list);
    lines::list(
        rt,
        "fill_frequency_grid, refused",
        number,
        1,
        &list,
        &expected,
    )
}

// Crossovers 3 and 6, margins 6 and 40. A list that is shorter: 11, and one reading: 100, and the place stays.
fn bode(rt: &impl Print) -> io::Result<()> {
    let omega = [1.0, 2.0, 4.0, 8.0];
    let db = [6.0, 2.0, -2.0, -10.0];
    let phase = [-90.0, -120.0, -160.0, -200.0];
    let mut out = lines::MARK;
    let number = scans::bazintroa_gain_crossover_frequency(&omega, &db, &phase, &mut out);
    lines::real(rt, "gain_crossover_frequency", number, 0, out, 3.0)?;
    let number = scans::bazintroa_phase_crossover_frequency(&omega, &db, &phase, &mut out);
    lines::real(rt, "phase_crossover_frequency", number, 0, out, 6.0)?;
    let number = scans::bazintroa_phase_margin(&omega, &db, &phase, &mut out);
    lines::real(rt, "phase_margin", number, 0, out, 40.0)?;
    let number = scans::bazintroa_gain_margin(&omega, &db, &phase, &mut out);
    lines::real(rt, "gain_margin", number, 0, out, 6.0)?;
    let number = scans::bazintroa_gain_margin(&omega, &db, &[-90.0], &mut out);
    lines::real(rt, "gain_margin, refused", number, 11, out, 6.0)?;
    let number = scans::bazintroa_gain_crossover_frequency(&[1.0], &[6.0], &[-90.0], &mut out);
    lines::real(rt, "gain_crossover_frequency, none", number, 100, out, 6.0)
}

// T 0, -1, -5 at 1, 2, 4: bandwidth 3. S - T -2, 2 at 1, 3: they are equal at 2.
fn sensitivity(rt: &impl Print) -> io::Result<()> {
    let omega = [1.0, 2.0, 4.0];
    let s = [-20.0, -10.0, 5.0];
    let t = [0.0, -1.0, -5.0];
    let mut out = lines::MARK;
    let number = scans::bazintroa_bandwidth(&omega, &s, &t, &mut out);
    lines::real(rt, "bandwidth", number, 0, out, 3.0)?;
    let omega = [1.0, 3.0];
    let s = [-1.0, 4.0];
    let t = [1.0, 2.0];
    let number = scans::bazintroa_sensitivity_crossover(&omega, &s, &t, &mut out);
    lines::real(rt, "sensitivity_crossover", number, 0, out, 2.0)
}

// Of (0,0) and (-1,0.5) the second is 0.5 from -1.
fn curve(rt: &impl Print) -> io::Result<()> {
    let re = [0.0, -1.0];
    let im = [0.0, 0.5];
    let mut out = lines::MARK;
    let number = scans::bazintroa_distance_to_critical(&re, &im, &mut out);
    lines::real(rt, "distance_to_critical", number, 0, out, 0.5)
}

pub(crate) fn run(rt: &impl Print) -> io::Result<()> {
    both_grids(rt)?;
    bode(rt)?;
    sensitivity(rt)?;
    curve(rt)
}
