// Summaries of curves.
ghost use Rattle.std.specs.Prelude.{◌≡◌, false, []};
ghost use Rattle.nyquist.specs.Curve.{points, curve_refusal};
ghost use Rattle.nyquist.specs.Summary.{summary_of, fed_by, join_of, approach_answer};
ghost use Rattle.nyquist.specs.Plain.{plain_of, from_plain};
ghost use Rattle.c_summaries.specs.Fed.{fed_curve};

use c_summaries::curve_summary::CurvePlainFed;
use nyquist::CurvePlain;

#[unsafe(no_mangle)]
pub extern "C" fn bazintroa_curve_empty() -> CurvePlain
    ensures { result ≡ plain_of (summary_of [] false) }
{
    c_summaries::curve_summary::bazintroa_curve_empty()
}

#[unsafe(no_mangle)]
pub extern "C" fn bazintroa_curve_feed(s: CurvePlain, re: &[f64], im: &[f64]) -> CurvePlainFed
    ensures { result ≡ fed_curve (curve_refusal re.now im.now) (fed_by (from_plain s) (points re.now im.now)) s }
{
    c_summaries::curve_summary::bazintroa_curve_feed(s, re, im)
}

#[unsafe(no_mangle)]
pub extern "C" fn bazintroa_curve_join(s: CurvePlain, t: CurvePlain) -> CurvePlain
    ensures { result ≡ plain_of (join_of (from_plain s) (from_plain t)) }
{
    c_summaries::curve_summary::bazintroa_curve_join(s, t)
}

#[unsafe(no_mangle)]
pub extern "C" fn bazintroa_curve_closest_approach(s: CurvePlain) -> f64
    ensures { result ≡ approach_answer (from_plain s) }
{
    c_summaries::curve_summary::bazintroa_curve_closest_approach(s)
}
