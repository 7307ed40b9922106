// Summaries of Bode sweeps.
ghost use Rattle.std.specs.Prelude.{◌≡◌, false, [], ◌∷◌};
ghost use Rattle.sweep.specs.Refusal.{lists_refusal};
ghost use Rattle.bode.specs.Bode.{readings};
ghost use Rattle.bode.specs.Summary.{summary_of, fed_by, join_of, gain_answer, phase_answer};
ghost use Rattle.bode.specs.Plain.{plain_of, from_plain};
ghost use Rattle.laws.specs.Outcome.{Answers};
ghost use Rattle.c_summaries.specs.Fed.{fed_bode};

use bode::BodePlain;
use c_summaries::bode_summary::BodePlainFed;

#[unsafe(no_mangle)]
pub extern "C" fn bazintroa_bode_empty() -> BodePlain
    ensures { result ≡ plain_of (summary_of [] false) }
{
    c_summaries::bode_summary::bazintroa_bode_empty()
}

#[unsafe(no_mangle)]
pub extern "C" fn bazintroa_bode_feed(
    s: BodePlain,
    omega: &[f64],
    db: &[f64],
    phase: &[f64],
) -> BodePlainFed
    ensures { result ≡ fed_bode (lists_refusal omega.now db.now phase.now) (fed_by (from_plain s) (readings omega.now db.now phase.now)) s }
{
    c_summaries::bode_summary::bazintroa_bode_feed(s, omega, db, phase)
}

#[unsafe(no_mangle)]
pub extern "C" fn bazintroa_bode_join(s: BodePlain, t: BodePlain) -> BodePlain
    ensures { result ≡ plain_of (join_of (from_plain s) (from_plain t)) }
{
    c_summaries::bode_summary::bazintroa_bode_join(s, t)
}

#[unsafe(no_mangle)]
pub extern "C" fn bazintroa_bode_gain_crossover(s: BodePlain, out: &mut f64) -> u32
    ensures { Answers (gain_answer (from_plain s)) result (out.old ∷ []) (out.new ∷ []) }
{
    c_summaries::bode_summary::bazintroa_bode_gain_crossover(s, out)
}

#[unsafe(no_mangle)]
pub extern "C" fn bazintroa_bode_phase_crossover(s: BodePlain, out: &mut f64) -> u32
    ensures { Answers (phase_answer (from_plain s)) result (out.old ∷ []) (out.new ∷ []) }
{
    c_summaries::bode_summary::bazintroa_bode_phase_crossover(s, out)
}
