// Summaries of curves.
ghost use Rattle.std.specs.Prelude.{◌≡◌, false, []};
ghost use Rattle.nyquist.specs.Curve.{points, curve_refusal};
ghost use Rattle.nyquist.specs.Summary.{summary_of, fed_by, join_of, approach_answer};
ghost use Rattle.nyquist.specs.Plain.{plain_of, from_plain};
ghost use Rattle.c_summaries.specs.Fed.{fed_curve};

use nyquist::{CurvePlain, CurveSummary};

// What a feed gives: 0 and the summary with the part behind it, or the refusal and the summary as it came. (There is one for
// each kind: a generic struct cannot cross to C.)
#[repr(C)]
#[derive(Clone, Copy)]
pub struct CurvePlainFed {
    pub number: u32,
    pub reserved: u32,
    pub summary: CurvePlain,
}

#[unsafe(no_mangle)]
pub extern "C" fn bazintroa_curve_empty() -> CurvePlain
    ensures { result ≡ plain_of (summary_of [] false) }
{
    CurvePlain::from(CurveSummary::empty())
}

#[tactic(auto, unfolding(crate::specs::Fed::fed_curve, sweep::specs::Runs::left_after))]
#[unsafe(no_mangle)]
pub extern "C" fn bazintroa_curve_feed(s: CurvePlain, re: &[f64], im: &[f64]) -> CurvePlainFed
    ensures { result ≡ fed_curve (curve_refusal re.now im.now) (fed_by (from_plain s) (points re.now im.now)) s }
{
    let (number, summary) = super::put_fed(CurveSummary::from(s).feed(re, im), s);
    CurvePlainFed {
        number,
        reserved: 0,
        summary,
    }
}

#[unsafe(no_mangle)]
pub extern "C" fn bazintroa_curve_join(s: CurvePlain, t: CurvePlain) -> CurvePlain
    ensures { result ≡ plain_of (join_of (from_plain s) (from_plain t)) }
{
    let earlier = CurveSummary::from(s);
    let later = CurveSummary::from(t);
    CurvePlain::from(earlier.join(later))
}

#[unsafe(no_mangle)]
pub extern "C" fn bazintroa_curve_closest_approach(s: CurvePlain) -> f64
    ensures { result ≡ approach_answer (from_plain s) }
{
    CurveSummary::from(s).closest_approach()
}
