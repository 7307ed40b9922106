// Scans over a Bode sweep: gain and phase crossover, gain and phase margin; and a summary of one that comes in parts.
#![tactic(auto)]

mod summary;

ghost use Rattle.std.specs.Prelude.{◌≡◌};
ghost use Rattle.sweep.specs.Answer.{outcome_of};
ghost use Rattle.sweep.specs.Scan.{scanned_by};
ghost use Rattle.bode.specs.Bode.{reading, gain_between, phase_between, gain_pair, phase_pair, gain_crossover, phase_crossover, part_of_way, value_at, gain_margin_between, phase_margin_between, gain_margin_pair, phase_margin_pair, gain_margin, phase_margin};
ghost use Rattle.bode.specs.Readings.{omegas, dbs, phases};

pub use summary::{BodePlain, BodeSummary};
use sweep::{Crossing, FreqError, Lists};

// One reading of a sweep: the frequency, the magnitude in decibels and the phase in degrees. (A struct of its own, as that of
// S and T is, for the C interface.)
#[repr(C)]
#[derive(Clone, Copy)]
pub struct Reading {
    pub omega: f64,
    pub db: f64,
    pub phase: f64,
}

impl sweep::Reading for Reading {
    ghost reading = { reading };

    fn new(omega: f64, db: f64, phase: f64) -> Reading {
        Reading { omega, db, phase }
    }
}

// Where the magnitude crosses 0 dB.
#[derive(Clone, Copy)]
pub struct Gain;

impl Gain {
    // Where the magnitude is 0 dB on the straight line from a to b.
    #[tactic(auto, unfolding(crate::specs::Bode::gain_between))]
    pub fn between(&self, a: Reading, b: Reading) -> f64
        ensures { result ≡ gain_between a b }
    {
        sweep::interpolate(a.omega, b.omega, -a.db, b.db - a.db)
    }
}

#[tactic(auto, unfolding(crate::specs::Bode::gain_pair))]
impl Crossing<Reading> for Gain {
    ghost pair = { λ s. gain_pair };

    fn pair(&self, a: Reading, b: Reading) -> Option<f64> {
        sweep::crosses_zero(a.db, b.db).then(|| self.between(a, b))
    }
}

// Where the phase crosses -180 degrees.
#[derive(Clone, Copy)]
pub struct Phase;

impl Phase {
    // Where the phase is -180 degrees on the straight line from a to b.
    #[tactic(auto, unfolding(crate::specs::Bode::phase_between))]
    pub fn between(&self, a: Reading, b: Reading) -> f64
        ensures { result ≡ phase_between a b }
    {
        sweep::interpolate(a.omega, b.omega, -180.0 - a.phase, b.phase - a.phase)
    }
}

#[tactic(auto, unfolding(crate::specs::Bode::phase_pair))]
impl Crossing<Reading> for Phase {
    ghost pair = { λ s. phase_pair };

    fn pair(&self, a: Reading, b: Reading) -> Option<f64> {
        sweep::crosses_level(-180.0, a.phase, b.phase).then(|| self.between(a, b))
    }
}

// How far x lies on the way from w0 to w1.
#[tactic(auto, unfolding(crate::specs::Bode::part_of_way))]
fn part_of_way(x: f64, w0: f64, w1: f64) -> f64
    ensures { result ≡ part_of_way x w0 w1 }
{
    let span = w1 - w0;
    if scalar::abs(span) < scalar::EPSILON {
        return 0.0;
    }
    (x - w0) / span
}

// The value at x, of v0 at w0 and v1 at w1.
#[tactic(auto, unfolding(crate::specs::Bode::value_at))]
fn value_at(x: f64, w0: f64, w1: f64, v0: f64, v1: f64) -> f64
    ensures { result ≡ value_at x w0 w1 v0 v1 }
{
    let t = part_of_way(x, w0, w1);
    v0 + t * (v1 - v0)
}

// The gain margin at a phase crossover, in the pair whose frequencies enclose it: the magnitude there, negated. (This and the
// next are a type each, as the two crossings are: beside the frequency each has only what it makes of two readings.)
#[derive(Clone, Copy)]
struct GainMargin {
    at: f64,
}

#[tactic(auto, unfolding(crate::specs::Bode::gain_margin_pair, crate::specs::Bode::gain_margin_between))]
impl Crossing<Reading> for GainMargin {
    ghost pair = { λ m. gain_margin_pair m.at };

    fn pair(&self, a: Reading, b: Reading) -> Option<f64> {
        let margin = || -value_at(self.at, a.omega, b.omega, a.db, b.db);
        sweep::encloses(self.at, a.omega, b.omega).then(margin)
    }
}

// The phase margin at a gain crossover, in the pair whose frequencies enclose it: 180 plus the phase there.
#[derive(Clone, Copy)]
struct PhaseMargin {
    at: f64,
}

#[tactic(auto, unfolding(crate::specs::Bode::phase_margin_pair, crate::specs::Bode::phase_margin_between))]
impl Crossing<Reading> for PhaseMargin {
    ghost pair = { λ m. phase_margin_pair m.at };

    fn pair(&self, a: Reading, b: Reading) -> Option<f64> {
        let margin = || 180.0 + value_at(self.at, a.omega, b.omega, a.phase, b.phase);
        sweep::encloses(self.at, a.omega, b.omega).then(margin)
    }
}

// The frequency where the magnitude first crosses 0 dB. (This and the next are two lines each, of which one names what differs:
// one function of both would be no shorter.)
#[tactic(auto, unfolding(sweep::specs::Scan::scanned_by, crate::specs::Bode::gain_crossover), using(sweep::proofs::Answers::scan_turned_away, sweep::proofs::Answers::scan_let_through))]
pub fn gain_crossover_frequency(
    omega: &[f64],
    db: &[f64],
    phase: &[f64],
) -> Result<Option<f64>, FreqError>
    ensures { outcome_of result ≡ scanned_by reading gain_crossover omega.now db.now phase.now }
{
    let sweep = Lists::new(omega, db, phase)?;
    Ok(sweep::first_crossing(&sweep, &Gain))
}

// The frequency where the phase first crosses -180 degrees.
#[tactic(auto, unfolding(sweep::specs::Scan::scanned_by, crate::specs::Bode::phase_crossover), using(sweep::proofs::Answers::scan_turned_away, sweep::proofs::Answers::scan_let_through))]
pub fn phase_crossover_frequency(
    omega: &[f64],
    db: &[f64],
    phase: &[f64],
) -> Result<Option<f64>, FreqError>
    ensures { outcome_of result ≡ scanned_by reading phase_crossover omega.now db.now phase.now }
{
    let sweep = Lists::new(omega, db, phase)?;
    Ok(sweep::first_crossing(&sweep, &Phase))
}

// The gain margin in dB: the negated magnitude at the phase crossover. (This and the next are five lines each, of which two name
// what differs: one function of both, passed a crossing and a closure that makes another, would be longer. The `match` is
// document 01's.)
#[tactic(auto, unfolding(sweep::specs::Scan::scanned_by, crate::specs::Bode::phase_crossover, crate::specs::Bode::gain_margin, crate::specs::Bode::margin_at), using(sweep::proofs::Answers::scan_turned_away, sweep::proofs::Answers::scan_let_through))]
pub fn gain_margin(omega: &[f64], db: &[f64], phase: &[f64]) -> Result<Option<f64>, FreqError>
    ensures { outcome_of result ≡ scanned_by reading gain_margin omega.now db.now phase.now }
{
    let sweep = Lists::new(omega, db, phase)?;
    match sweep::first_crossing(&sweep, &Phase) {
        Some(at) => Ok(sweep::first_crossing(&sweep, &GainMargin { at })),
        None => Ok(None),
    }
}

// The phase margin in degrees: 180 plus the phase at the gain crossover.
#[tactic(auto, unfolding(sweep::specs::Scan::scanned_by, crate::specs::Bode::gain_crossover, crate::specs::Bode::phase_margin, crate::specs::Bode::margin_at), using(sweep::proofs::Answers::scan_turned_away, sweep::proofs::Answers::scan_let_through))]
pub fn phase_margin(omega: &[f64], db: &[f64], phase: &[f64]) -> Result<Option<f64>, FreqError>
    ensures { outcome_of result ≡ scanned_by reading phase_margin omega.now db.now phase.now }
{
    let sweep = Lists::new(omega, db, phase)?;
    match sweep::first_crossing(&sweep, &Gain) {
        Some(at) => Ok(sweep::first_crossing(&sweep, &PhaseMargin { at })),
        None => Ok(None),
    }
}

// The frequency where the magnitude first crosses 0 dB, of a lent slice of readings.
#[tactic(auto, using(crate::proofs::Readings::slice_turned_away, crate::proofs::Readings::slice_let_through))]
pub fn gain_crossover_readings(rs: &[Reading]) -> Result<Option<f64>, FreqError>
    ensures { outcome_of result ≡ scanned_by reading gain_crossover (omegas rs.now) (dbs rs.now) (phases rs.now) }
{
    sweep::check_scan(true, rs.len())?;
    Ok(sweep::first_crossing(&rs, &Gain))
}
