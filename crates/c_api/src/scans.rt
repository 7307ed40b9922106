// The scans over lists, and the gain crossover of a slice of readings.
#![tactic(auto, unfolding(sweep::specs::Answer::outcome_of, sweep::specs::Answer::crossing_outcome))]

ghost use Rattle.std.specs.Prelude.{[], ◌∷◌};
ghost use Rattle.sweep.specs.Scan.{scanned_by};
ghost use Rattle.bode.specs.Bode as bode;
ghost use Rattle.bode.specs.Readings.{omegas, dbs, phases};
ghost use Rattle.sensitivity.specs.Scans as sensitivity;
ghost use Rattle.nyquist.specs.Curve.{distance_outcome};
ghost use Rattle.laws.specs.Outcome.{Answers};

use bode::Reading;
use places::Answer;

#[unsafe(no_mangle)]
pub extern "C" fn bazintroa_gain_crossover_frequency(
    omega: &[f64],
    db: &[f64],
    phase: &[f64],
    out: &mut f64,
) -> u32
    ensures { Answers (scanned_by bode.reading bode.gain_crossover omega.now db.now phase.now) result (out.old ∷ []) (out.new ∷ []) }
{
    bode::gain_crossover_frequency(omega, db, phase).put(out)
}

// The same of a slice of readings.
#[unsafe(no_mangle)]
pub extern "C" fn bazintroa_gain_crossover_readings(rs: &[Reading], out: &mut f64) -> u32
    ensures { Answers (scanned_by bode.reading bode.gain_crossover (omegas rs.now) (dbs rs.now) (phases rs.now)) result (out.old ∷ []) (out.new ∷ []) }
{
    bode::gain_crossover_readings(rs).put(out)
}

#[unsafe(no_mangle)]
pub extern "C" fn bazintroa_phase_crossover_frequency(
    omega: &[f64],
    db: &[f64],
    phase: &[f64],
    out: &mut f64,
) -> u32
    ensures { Answers (scanned_by bode.reading bode.phase_crossover omega.now db.now phase.now) result (out.old ∷ []) (out.new ∷ []) }
{
    bode::phase_crossover_frequency(omega, db, phase).put(out)
}

#[unsafe(no_mangle)]
pub extern "C" fn bazintroa_gain_margin(
    omega: &[f64],
    db: &[f64],
    phase: &[f64],
    out: &mut f64,
) -> u32
    ensures { Answers (scanned_by bode.reading bode.gain_margin omega.now db.now phase.now) result (out.old ∷ []) (out.new ∷ []) }
{
    bode::gain_margin(omega, db, phase).put(out)
}

#[unsafe(no_mangle)]
pub extern "C" fn bazintroa_phase_margin(
    omega: &[f64],
    db: &[f64],
    phase: &[f64],
    out: &mut f64,
) -> u32
    ensures { Answers (scanned_by bode.reading bode.phase_margin omega.now db.now phase.now) result (out.old ∷ []) (out.new ∷ []) }
{
    bode::phase_margin(omega, db, phase).put(out)
}

#[unsafe(no_mangle)]
pub extern "C" fn bazintroa_sensitivity_crossover(
    omega: &[f64],
    s: &[f64],
    t: &[f64],
    out: &mut f64,
) -> u32
    ensures { Answers (scanned_by sensitivity.reading sensitivity.sensitivity_crossover omega.now s.now t.now) result (out.old ∷ []) (out.new ∷ []) }
{
    sensitivity::sensitivity_crossover(omega, s, t).put(out)
}

#[unsafe(no_mangle)]
pub extern "C" fn bazintroa_bandwidth(omega: &[f64], s: &[f64], t: &[f64], out: &mut f64) -> u32
    ensures { Answers (scanned_by sensitivity.reading sensitivity.bandwidth_of omega.now s.now t.now) result (out.old ∷ []) (out.new ∷ []) }
{
    sensitivity::bandwidth(omega, s, t).put(out)
}

#[unsafe(no_mangle)]
pub extern "C" fn bazintroa_distance_to_critical(re: &[f64], im: &[f64], out: &mut f64) -> u32
    ensures { Answers (distance_outcome re.now im.now) result (out.old ∷ []) (out.new ∷ []) }
{
    nyquist::distance_to_critical(re, im).put(out)
}
