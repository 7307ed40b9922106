// A summary of a curve, made empty, fed in parts and joined. It answers how near all its points come to (-1, 0).
ghost use Rattle.std.specs.Prelude.{◌≡◌, false, []};
ghost use Rattle.laws.specs.Choice.{lesser};
ghost use Rattle.sweep.specs.Refusal.{refusal_of};
ghost use Rattle.sweep.specs.Runs.{left_after, left_by};
ghost use Rattle.nyquist.specs.Curve.{points, curve_refusal};
ghost use Rattle.nyquist.specs.Summary.{key_of, summary_of, fed_by, join_of, approach_answer};
ghost use Rattle.nyquist.specs.Plain.{plain_of, from_plain};

use crate::curve::{Curve, point_square};
use complex::Complex;
use sweep::FreqError;

// Of the points the one nearest to (-1, 0), if there is one whose squared distance is finite.
#[derive(Clone, Copy)]
pub struct CurveSummary {
    nearest: Option<Complex>,
}

// The summary as plain numbers, for a host to keep between calls: 1 and the nearest point, or zeros. The reserved number
// is always 0 and never read; it stands where padding would, so that every byte is told.
#[repr(C)]
#[derive(Clone, Copy)]
pub struct CurvePlain {
    pub found: u32,
    pub reserved: u32,
    pub re: f64,
    pub im: f64,
}

// The square of its distance from (-1, 0), and infinity where there is none.
#[tactic(auto, unfolding(crate::specs::Summary::key_of))]
fn key_of(point: Option<Complex>) -> f64
    ensures { result ≡ key_of point }
{
    point.map_or(f64::INFINITY, point_square)
}

// The nearer of two: the first where neither is.
#[tactic(auto, unfolding(laws::specs::Choice::lesser))]
fn nearer(first: Option<Complex>, second: Option<Complex>) -> Option<Complex>
    ensures { result ≡ lesser key_of first second }
{
    if key_of(second) < key_of(first) {
        second
    } else {
        first
    }
}

#[tactic(auto, unfolding(crate::specs::Summary::nearest_of, crate::specs::Summary::summary_of, crate::specs::Summary::behind, crate::specs::Summary::fed_by, crate::specs::Summary::join_of, crate::specs::Summary::approach_answer))]
impl CurveSummary {
    // The summary of no points.
    pub fn empty() -> CurveSummary
        ensures { result ≡ summary_of [] false }
    {
        CurveSummary { nearest: None }
    }

    // The summary with a part's points behind it, or the refusal; the caller then still has the summary as it came.
    #[tactic(auto, unfolding(crate::specs::Summary::summary_of, crate::specs::Summary::behind, crate::specs::Summary::fed_by, sweep::specs::Runs::left_after))]
    pub fn feed(self, re: &[f64], im: &[f64]) -> Result<CurveSummary, FreqError>
        ensures { (refusal_of result ≡ curve_refusal re.now im.now)
            × (left_by result self ≡ left_after (curve_refusal re.now im.now) self
            (fed_by self (points re.now im.now))) }
    {
        let part = Curve::new(re, im)?;
        Ok(CurveSummary {
            nearest: nearer(self.nearest, part.nearest()),
        })
    }

    // The points of `other` behind those of `self`.
    pub fn join(self, other: CurveSummary) -> CurveSummary
        ensures { result ≡ join_of self other }
    {
        CurveSummary {
            nearest: nearer(self.nearest, other.nearest),
        }
    }

    // The least distance of the points from (-1, 0): one root.
    pub fn closest_approach(self) -> f64
        ensures { result ≡ approach_answer self }
    {
        super::or_zero(scalar::sqrt(key_of(self.nearest)))
    }
}

#[tactic(auto, unfolding(crate::specs::Plain::plain_of))]
impl From<CurveSummary> for CurvePlain {
    ghost use Rattle.nyquist.specs.Plain.{plain_of};

    ghost from_gives = { λ s p. p ≡ plain_of s };

    fn from(summary: CurveSummary) -> CurvePlain {
        let z = summary.nearest.unwrap_or(Complex::from_real(0.0));
        CurvePlain {
            found: u32::from(summary.nearest.is_some()),
            reserved: 0,
            re: z.re,
            im: z.im,
        }
    }
}

// The summary of plain numbers, whatever they are. Any mark but 0 is read as 1.
#[tactic(auto, unfolding(crate::specs::Plain::from_plain))]
impl From<CurvePlain> for CurveSummary {
    ghost use Rattle.nyquist.specs.Plain.{from_plain};

    ghost from_gives = { λ p s. s ≡ from_plain p };

    fn from(plain: CurvePlain) -> CurveSummary {
        CurveSummary {
            nearest: (plain.found != 0).then_some(Complex::new(plain.re, plain.im)),
        }
    }
}
