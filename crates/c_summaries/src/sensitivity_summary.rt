// Summaries of sweeps of S and T.
#![tactic(auto, unfolding(sweep::specs::Answer::crossing_outcome, sweep::specs::Answer::kept_outcome))]

ghost use Rattle.std.specs.Prelude.{◌≡◌, false, [], ◌∷◌};
ghost use Rattle.sweep.specs.Refusal.{lists_refusal};
ghost use Rattle.sweep.specs.Scan.{zip3};
ghost use Rattle.sensitivity.specs.Scans.{reading};
ghost use Rattle.sensitivity.specs.Summary.{summary_of, fed_by, join_of, crossover_answer, bandwidth_answer};
ghost use Rattle.sensitivity.specs.Plain.{plain_of, from_plain};
ghost use Rattle.laws.specs.Outcome.{Answers};
ghost use Rattle.c_summaries.specs.Fed.{fed_sensitivity};

use places::Answer;
use sensitivity::{SensitivityPlain, SensitivitySummary};

// What a feed gives: 0 and the summary with the part behind it, or the refusal and the summary as it came. (There is one for
// each kind: a generic struct cannot cross to C.)
#[repr(C)]
#[derive(Clone, Copy)]
pub struct SensitivityPlainFed {
    pub number: u32,
    pub reserved: u32,
    pub summary: SensitivityPlain,
}

#[unsafe(no_mangle)]
pub extern "C" fn bazintroa_sensitivity_empty() -> SensitivityPlain
    ensures { result ≡ plain_of (summary_of [] false) }
{
    SensitivityPlain::from(SensitivitySummary::empty())
}

#[tactic(auto, unfolding(crate::specs::Fed::fed_sensitivity, sweep::specs::Runs::left_after))]
#[unsafe(no_mangle)]
pub extern "C" fn bazintroa_sensitivity_feed(
    s: SensitivityPlain,
    omega: &[f64],
    s_db: &[f64],
    t_db: &[f64],
) -> SensitivityPlainFed
    ensures { result ≡ fed_sensitivity (lists_refusal omega.now s_db.now t_db.now) (fed_by (from_plain s) (zip3 reading omega.now s_db.now t_db.now)) s }
{
    let (number, summary) = super::put_fed(SensitivitySummary::from(s).feed(omega, s_db, t_db), s);
    SensitivityPlainFed {
        number,
        reserved: 0,
        summary,
    }
}

#[unsafe(no_mangle)]
pub extern "C" fn bazintroa_sensitivity_join(
    s: SensitivityPlain,
    t: SensitivityPlain,
) -> SensitivityPlain
    ensures { result ≡ plain_of (join_of (from_plain s) (from_plain t)) }
{
    let earlier = SensitivitySummary::from(s);
    let later = SensitivitySummary::from(t);
    SensitivityPlain::from(earlier.join(later))
}

#[unsafe(no_mangle)]
pub extern "C" fn bazintroa_sensitivity_summary_crossover(s: SensitivityPlain, out: &mut f64) -> u32
    ensures { Answers (crossover_answer (from_plain s)) result (out.old ∷ []) (out.new ∷ []) }
{
    SensitivitySummary::from(s).crossover().put(out)
}

#[unsafe(no_mangle)]
pub extern "C" fn bazintroa_sensitivity_summary_bandwidth(s: SensitivityPlain, out: &mut f64) -> u32
    ensures { Answers (bandwidth_answer (from_plain s)) result (out.old ∷ []) (out.new ∷ []) }
{
    SensitivitySummary::from(s).bandwidth().put(out)
}
