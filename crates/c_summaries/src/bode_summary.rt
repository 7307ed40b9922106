// Summaries of Bode sweeps.
#![tactic(auto, unfolding(sweep::specs::Answer::crossing_outcome))]

ghost use Rattle.std.specs.Prelude.{◌≡◌, false, [], ◌∷◌};
ghost use Rattle.sweep.specs.Refusal.{lists_refusal};
ghost use Rattle.bode.specs.Bode.{readings};
ghost use Rattle.bode.specs.Summary.{summary_of, fed_by, join_of, gain_answer, phase_answer};
ghost use Rattle.bode.specs.Plain.{plain_of, from_plain};
ghost use Rattle.laws.specs.Outcome.{Answers};
ghost use Rattle.c_summaries.specs.Fed.{fed_bode};

use bode::{BodePlain, BodeSummary};
use places::Answer;

// What a feed gives: 0 and the summary with the part behind it, or the refusal and the summary as it came. (There is one for
// each kind: a generic struct cannot cross to C.)
#[repr(C)]
#[derive(Clone, Copy)]
pub struct BodePlainFed {
    pub number: u32,
    pub reserved: u32,
    pub summary: BodePlain,
}

#[unsafe(no_mangle)]
pub extern "C" fn bazintroa_bode_empty() -> BodePlain
    ensures { result ≡ plain_of (summary_of [] false) }
{
    BodePlain::from(BodeSummary::empty())
}

#[tactic(auto, unfolding(crate::specs::Fed::fed_bode, sweep::specs::Runs::left_after))]
#[unsafe(no_mangle)]
pub extern "C" fn bazintroa_bode_feed(
    s: BodePlain,
    omega: &[f64],
    db: &[f64],
    phase: &[f64],
) -> BodePlainFed
    ensures { result ≡ fed_bode (lists_refusal omega.now db.now phase.now) (fed_by (from_plain s) (readings omega.now db.now phase.now)) s }
{
    let (number, summary) = super::put_fed(BodeSummary::from(s).feed(omega, db, phase), s);
    BodePlainFed {
        number,
        reserved: 0,
        summary,
    }
}

#[unsafe(no_mangle)]
pub extern "C" fn bazintroa_bode_join(s: BodePlain, t: BodePlain) -> BodePlain
    ensures { result ≡ plain_of (join_of (from_plain s) (from_plain t)) }
{
    let earlier = BodeSummary::from(s);
    let later = BodeSummary::from(t);
    BodePlain::from(earlier.join(later))
}

#[unsafe(no_mangle)]
pub extern "C" fn bazintroa_bode_gain_crossover(s: BodePlain, out: &mut f64) -> u32
    ensures { Answers (gain_answer (from_plain s)) result (out.old ∷ []) (out.new ∷ []) }
{
    BodeSummary::from(s).gain_crossover().put(out)
}

#[unsafe(no_mangle)]
pub extern "C" fn bazintroa_bode_phase_crossover(s: BodePlain, out: &mut f64) -> u32
    ensures { Answers (phase_answer (from_plain s)) result (out.old ∷ []) (out.new ∷ []) }
{
    BodeSummary::from(s).phase_crossover().put(out)
}
