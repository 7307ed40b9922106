// How near a curve comes to the critical point (-1, 0), a summary of one that comes in parts, and the grid of
// frequencies.
#![tactic(auto)]

mod curve;
mod frequency;
mod summary;

ghost use Rattle.std.specs.Prelude.{◌≡◌};
ghost use Rattle.sweep.specs.Answer.{outcome_of};
ghost use Rattle.nyquist.specs.Curve.{or_zero, distance_outcome};

use curve::Curve;
pub use frequency::fill_frequency_grid;
pub use summary::{CurvePlain, CurveSummary};
use sweep::FreqError;

// The Rust's last step: 0 for a distance above f64::MAX / 2.0, where no point counted.
#[tactic(auto, unfolding(crate::specs::Curve::or_zero))]
fn or_zero(distance: f64) -> f64
    ensures { result ≡ or_zero distance }
{
    if distance > 8.988465674311579e307 {
        0.0
    } else {
        distance
    }
}

// The least distance of the points (re[i], im[i]) from (-1, 0). The root keeps the order, so the least square has the
// least root, and one root serves the whole curve. (An option, though there always is one: a
// `Result<f64, FreqError>` would need a definition of its outcome, and laws, for this one function.)
#[tactic(auto, using(crate::proofs::Answers::distance_refused, crate::proofs::Answers::distance_found))]
pub fn distance_to_critical(re: &[f64], im: &[f64]) -> Result<Option<f64>, FreqError>
    ensures { outcome_of result ≡ distance_outcome re.now im.now }
{
    let curve = Curve::new(re, im)?;
    Ok(Some(or_zero(scalar::sqrt(curve.least_square()))))
}
