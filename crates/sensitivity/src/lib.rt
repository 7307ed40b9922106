// The responses of a unity-feedback loop at a frequency, loop gain L, sensitivity S, complementary sensitivity T
// and control sensitivity Q; the scans over a sweep of S and T; and a summary of one that comes in parts.
#![tactic(auto)]

mod summary;

ghost use Rattle.std.specs.Prelude.{◌≡◌};
ghost use Rattle.sweep.specs.Answer as answer;
ghost use Rattle.sweep.specs.Scan.{scanned_by};
ghost use Rattle.transfer_fn.specs.Evaluation.{outcome_of};
ghost use Rattle.sensitivity.specs.Responses.{loop_gain, one_plus, sensitivity, comp_sensitivity, control_sensitivity, response_by};
ghost use Rattle.sensitivity.specs.Scans.{reading, difference, equal_between, equal_pair, sensitivity_crossover, level_by, drop_between, drop_pair, bandwidth_of};

use complex::Complex;
pub use summary::{SensitivityPlain, SensitivitySummary};
use sweep::{FreqError, Lists, Readings};
use transfer_fn::TransferFn;

// A plant and its controller.
#[derive(Clone, Copy)]
pub struct LoopShaping {
    pub plant: TransferFn,
    pub controller: TransferFn,
}

// L = P C
fn loop_gain(p: Complex, c: Complex) -> Complex
    ensures { result ≡ loop_gain p c }
{
    p.multiply(c)
}

// 1 + L
fn one_plus(l: Complex) -> Complex
    ensures { result ≡ one_plus l }
{
    Complex::new(1.0 + l.re, l.im)
}

// S = 1 / (1 + L)
fn sensitivity_of(p: Complex, c: Complex) -> Complex
    ensures { result ≡ sensitivity p c }
{
    let one_plus_l = one_plus(loop_gain(p, c));
    Complex::from_real(1.0).divide_or_zero(one_plus_l)
}

// T = L / (1 + L)
fn comp_sensitivity_of(p: Complex, c: Complex) -> Complex
    ensures { result ≡ comp_sensitivity p c }
{
    let l = loop_gain(p, c);
    l.divide_or_zero(one_plus(l))
}

// Q = C / (1 + L)
fn control_sensitivity_of(p: Complex, c: Complex) -> Complex
    ensures { result ≡ control_sensitivity p c }
{
    let one_plus_l = one_plus(loop_gain(p, c));
    c.divide_or_zero(one_plus_l)
}

// A loop's responses. (Each takes cosines and sines as two slices, as the C interface lends them.)
impl LoopShaping {
    // What `of` makes of the plant's and the controller's values.
    #[tactic(auto, using(crate::proofs::Responses::both_refused, crate::proofs::Responses::both_found))]
    fn response<F: Fn(Complex, Complex) -> Complex>(
        self,
        cosines: &[f64],
        sines: &[f64],
        of: F,
    ) -> Result<Complex, FreqError>
        requires { F.IsAlwaysCallable of }
        ensures { (f : Complex → Complex → Complex) → ((p c r : Complex) → F.post of p c r → r ≡ f p c)
            → outcome_of result ≡ response_by f self cosines.now sines.now }
    {
        let (p, c) = transfer_fn::eval_both(self.plant, self.controller, cosines, sines)?;
        Ok(of(p, c))
    }

    pub fn loop_gain_at(self, cosines: &[f64], sines: &[f64]) -> Result<Complex, FreqError>
        ensures { outcome_of result ≡ response_by loop_gain self cosines.now sines.now }
    {
        self.response(cosines, sines, loop_gain)
    }

    pub fn sensitivity_at(self, cosines: &[f64], sines: &[f64]) -> Result<Complex, FreqError>
        ensures { outcome_of result ≡ response_by sensitivity self cosines.now sines.now }
    {
        self.response(cosines, sines, sensitivity_of)
    }

    pub fn comp_sensitivity_at(self, cosines: &[f64], sines: &[f64]) -> Result<Complex, FreqError>
        ensures { outcome_of result ≡ response_by comp_sensitivity self cosines.now sines.now }
    {
        self.response(cosines, sines, comp_sensitivity_of)
    }

    pub fn control_sensitivity_at(
        self,
        cosines: &[f64],
        sines: &[f64],
    ) -> Result<Complex, FreqError>
        ensures { outcome_of result ≡ response_by control_sensitivity self cosines.now sines.now }
    {
        self.response(cosines, sines, control_sensitivity_of)
    }
}

// One reading of a sweep: the frequency, and S and T in decibels. (A struct of its own, as bode's is, for the C interface.)
#[repr(C)]
#[derive(Clone, Copy)]
pub struct Reading {
    pub omega: f64,
    pub s: f64,
    pub t: f64,
}

impl sweep::Reading for Reading {
    ghost reading = { reading };

    fn new(omega: f64, s: f64, t: f64) -> Reading {
        Reading { omega, s, t }
    }
}

#[tactic(auto, unfolding(crate::specs::Scans::difference))]
fn difference(r: Reading) -> f64
    ensures { result ≡ difference r }
{
    r.s - r.t
}

// Where S and T are equal on the straight lines from a to b.
#[tactic(auto, unfolding(crate::specs::Scans::equal_between))]
fn equal_between(a: Reading, b: Reading) -> f64
    ensures { result ≡ equal_between a b }
{
    let d0 = difference(a);
    let d1 = difference(b);
    sweep::interpolate(a.omega, b.omega, -d0, d1 - d0)
}

// The crossing of S and T.
#[derive(Clone, Copy)]
struct Equal;

#[tactic(auto, unfolding(crate::specs::Scans::equal_pair))]
impl sweep::Crossing<Reading> for Equal {
    ghost pair = { λ s. equal_pair };

    fn pair(&self, a: Reading, b: Reading) -> Option<f64> {
        sweep::crosses_zero(difference(a), difference(b)).then(|| equal_between(a, b))
    }
}

// The level of the bandwidth, by the first reading.
fn level_by(first: Reading) -> f64
    ensures { result ≡ level_by first }
{
    first.t - 3.0
}

// Where T is at the level on the straight line from a to b.
#[tactic(auto, unfolding(crate::specs::Scans::drop_between))]
fn drop_between(level: f64, a: Reading, b: Reading) -> f64
    ensures { result ≡ drop_between level a b }
{
    sweep::interpolate(a.omega, b.omega, level - a.t, b.t - a.t)
}

// The drop of T below a level.
#[derive(Clone, Copy)]
struct LevelDrop {
    level: f64,
}

#[tactic(auto, unfolding(crate::specs::Scans::drop_pair))]
impl sweep::Crossing<Reading> for LevelDrop {
    ghost pair = { λ s. drop_pair s.level };

    fn pair(&self, a: Reading, b: Reading) -> Option<f64> {
        sweep::drops_below(self.level, a.t, b.t).then(|| drop_between(self.level, a, b))
    }
}

// The frequency where |S| and |T| are first equal. (Two lines, as bode's crossovers, of which one names what differs.)
#[tactic(auto, unfolding(crate::specs::Scans::sensitivity_crossover, sweep::specs::Scan::scanned_by), using(sweep::proofs::Answers::scan_turned_away, sweep::proofs::Answers::scan_let_through))]
pub fn sensitivity_crossover(omega: &[f64], s: &[f64], t: &[f64]) -> Result<Option<f64>, FreqError>
    ensures { answer.outcome_of result ≡ scanned_by reading sensitivity_crossover omega.now s.now t.now }
{
    let sweep = Lists::new(omega, s, t)?;
    Ok(sweep::first_crossing(&sweep, &Equal))
}

// The -3 dB bandwidth of T: the frequency where it first drops 3 dB below the list's first T.
#[tactic(auto, unfolding(crate::specs::Scans::bandwidth_of, crate::specs::Scans::level_of, sweep::specs::Scan::scanned_by), using(sweep::proofs::Answers::scan_turned_away, sweep::proofs::Answers::scan_let_through))]
pub fn bandwidth(omega: &[f64], s: &[f64], t: &[f64]) -> Result<Option<f64>, FreqError>
    ensures { answer.outcome_of result ≡ scanned_by reading bandwidth_of omega.now s.now t.now }
{
    let sweep = Lists::new(omega, s, t)?;
    let level = level_by(sweep.at(0));
    Ok(sweep::first_crossing(&sweep, &LevelDrop { level }))
}
