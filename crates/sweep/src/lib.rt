// What the entries share: the reasons for turning a call away, each with the number that document 01 gives it; sweeps, as three
// lists or as a slice of readings; the first crossing among neighbours; the first and the last reading; interpolation.
#![tactic(auto)]

mod ends;
mod lists;

ghost use Rattle.std.specs.Prelude.{◌≡◌, Option, Float, List, length, get_or};
ghost use Rattle.sweep.specs.Refusal.{number_of, refusal_of, scan_refusal, grid_refusal};
ghost use Rattle.sweep.specs.Plain.{kept_mark, kept_value, marked_kept};
ghost use Rattle.sweep.specs.Scan.{crosses_zero, crosses_level, drops_below, encloses, between, or_else, first_pair, zeros};

pub use ends::Ends;
pub use lists::Lists;

// Why a call is turned away, with document 01's number. The first three are the Rust's.
#[derive(Clone, Copy)]
pub enum FreqError {
    InsufficientPoints = 1,
    InvalidFrequencyRange = 2,
    InvalidParameter = 3,
    LengthsDiffer = 11,
    CubicLeftOut = 12,
    TooFewPairs = 13,
    NoRoom = 14,
    TooMany = 15,
    WrongOrder = 16,
    WrongIndex = 17,
    WrongByteCount = 19,
}

impl FreqError {
    // (A name, and no `From`: who reads `u32::from(e)` is not told that it is document 01's number.)
    pub fn number(self) -> u32
        ensures { result ≡ number_of self }
    {
        self as u32
    }
}

// The conditions of lists that are scanned together: whether they have one length, and the first one's length.
#[tactic(auto, unfolding(crate::specs::Refusal::scan_refusal))]
pub fn check_scan(same: bool, n: usize) -> Result<(), FreqError>
    ensures { refusal_of result ≡ scan_refusal same n }
{
    if !same {
        return Err(FreqError::LengthsDiffer);
    }
    if 4096 < n {
        return Err(FreqError::TooMany);
    }
    Ok(())
}

// The conditions of a grid of n points up to `top` in a list of `room` places; `range` is the refusal of a top of 0 or
// below, which a NaN is not.
#[tactic(auto, unfolding(crate::specs::Refusal::grid_refusal))]
pub fn check_grid(range: FreqError, n: usize, top: f64, room: usize) -> Result<(), FreqError>
    ensures { refusal_of result ≡ grid_refusal (number_of range) n top room }
{
    if n < 2 {
        return Err(FreqError::InsufficientPoints);
    }
    if top <= 0.0 {
        return Err(range);
    }
    if 4096 < n {
        return Err(FreqError::TooMany);
    }
    if room < n {
        return Err(FreqError::NoRoom);
    }
    Ok(())
}

// A reading: a frequency and two values there.
pub trait Reading: Copy {
    ghost reading: { Float → Float → Float → Self };

    fn new(omega: f64, first: f64, second: f64) -> Self
        ensures { result ≡ reading omega first second };

    fn zeros() -> Self
        ensures { result ≡ zeros reading }
    {
        Self::new(0.0, 0.0, 0.0)
    }
}

// Readings in a row. Past the last one lies a reading of zeros.
pub trait Readings<R: Reading> {
    ghost readings: { Self → List R };

    fn len(&self) -> usize
        ensures { result ≡ length (readings self.now) };

    fn at(&self, i: usize) -> R
        ensures { result ≡ get_or (readings self.now) i (zeros R.reading) };
}

impl<R: Reading> Readings<R> for &[R] {
    ghost readings = { λ s. s.now };

    fn len(&self) -> usize {
        (*self).len()
    }

    fn at(&self, i: usize) -> R {
        (*self).get(i).copied().unwrap_or(R::zeros())
    }
}

// Where two neighbours cross, or what is found there.
pub trait Crossing<R> {
    ghost pair: { Self → R → R → Option Float };

    fn pair(&self, a: R, b: R) -> Option<f64>
        ensures { result ≡ pair self.now a b };
}

// The first crossing among neighbours. (By place: with `find_map` over the places the closure would have to require that i is 1
// at least, and be no plainer.)
#[tactic(auto, using(crate::proofs::Scans::pair_next, crate::proofs::Scans::pair_found, crate::proofs::Scans::pairs_done))]
pub fn first_crossing<R: Reading, S: Readings<R>, C: Crossing<R>>(
    sweep: &S,
    crossing: &C,
) -> Option<f64>
    ensures { result ≡ first_pair (C.pair crossing.now) (S.readings sweep.now) }
{
    for i in 1..sweep.len() {
        let found = crossing.pair(sweep.at(i - 1), sweep.at(i));
        if found.is_some() {
            return found;
        }
    }
    None
}

// What was found already, or else the sweep's first crossing. It is scanned only where that decides.
pub fn crossing_from<R: Reading, S: Readings<R>, C: Crossing<R>>(
    found: Option<f64>,
    sweep: &S,
    crossing: &C,
) -> Option<f64>
    ensures { result ≡ or_else found (first_pair (C.pair crossing.now) (S.readings sweep.now)) }
{
    found.or_else(|| first_crossing(sweep, crossing))
}

// Whether one of a and b is at or above 0, and the other at or below. Most neighbours in a sweep lie on one side of 0,
// which their product tells by one test, and a NaN crosses nothing; the Rust's tests are left for the others.
#[tactic(auto, using(crate::proofs::Sides::product_above, crate::proofs::Sides::nan_crosses_none))]
pub fn crosses_zero(a: f64, b: f64) -> bool
    ensures { result ≡ crosses_zero a b }
{
    if a * b > 0.0 {
        return false;
    }
    if b.is_nan() {
        return false;
    }
    if a >= 0.0 {
        if b <= 0.0 {
            return true;
        }
    }
    (a <= 0.0) & (b >= 0.0)
}

// Whether exactly one of a and b lies above the level.
pub fn crosses_level(level: f64, a: f64, b: f64) -> bool
    ensures { result ≡ crosses_level level a b }
{
    (a > level) != (b > level)
}

// Whether a is at or above the level, and b below it.
pub fn drops_below(level: f64, a: f64, b: f64) -> bool
    ensures { result ≡ drops_below level a b }
{
    (a >= level) & (b < level)
}

// Whether x lies between a and b, a being the lower.
pub fn encloses(x: f64, a: f64, b: f64) -> bool
    ensures { result ≡ encloses x a b }
{
    (a <= x) & (x <= b)
}

// The frequency at the part rise / span of the way from w0 to w1.
#[tactic(auto, unfolding(crate::specs::Scan::between))]
pub fn interpolate(w0: f64, w1: f64, rise: f64, span: f64) -> f64
    ensures { result ≡ between w0 w1 rise span }
{
    if scalar::abs(span) < scalar::EPSILON {
        return w0;
    }
    let t = rise / span;
    w0 + t * (w1 - w0)
}

// What a summary says where a join made it forget the crossing.
#[derive(Clone, Copy)]
pub struct NotKept;

// What is kept as a mark and a value, for a host to keep: 1 and the frequency, 0 and 0 where there is none, 2 and 0 where it
// is not kept. (Numbers, for the C interface.)
pub fn kept_mark(kept: Result<Option<f64>, NotKept>) -> u32
    ensures { result ≡ kept_mark kept }
{
    match kept {
        Ok(Some(_)) => 1,
        Ok(None) => 0,
        Err(NotKept) => 2,
    }
}

pub fn kept_value(kept: Result<Option<f64>, NotKept>) -> f64
    ensures { result ≡ kept_value kept }
{
    match kept {
        Ok(Some(x)) => x,
        _ => 0.0,
    }
}

// Any mark but 0 and 1 is read as 2.
pub fn marked_kept(mark: u32, x: f64) -> Result<Option<f64>, NotKept>
    ensures { result ≡ marked_kept mark x }
{
    match mark {
        0 => Ok(None),
        1 => Ok(Some(x)),
        _ => Err(NotKept),
    }
}
