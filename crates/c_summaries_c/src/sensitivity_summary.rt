// Summaries of sweeps of S and T.
ghost use Rattle.std.specs.Prelude.{◌≡◌, false, [], ◌∷◌};
ghost use Rattle.sweep.specs.Refusal.{lists_refusal};
ghost use Rattle.sweep.specs.Scan.{zip3};
ghost use Rattle.sensitivity.specs.Scans.{reading};
ghost use Rattle.sensitivity.specs.Summary.{summary_of, fed_by, join_of, crossover_answer, bandwidth_answer};
ghost use Rattle.sensitivity.specs.Plain.{plain_of, from_plain};
ghost use Rattle.laws.specs.Outcome.{Answers};
ghost use Rattle.c_summaries.specs.Fed.{fed_sensitivity};

use c_summaries::sensitivity_summary::SensitivityPlainFed;
use sensitivity::SensitivityPlain;

#[unsafe(no_mangle)]
pub extern "C" fn bazintroa_sensitivity_empty() -> SensitivityPlain
    ensures { result ≡ plain_of (summary_of [] false) }
{
    c_summaries::sensitivity_summary::bazintroa_sensitivity_empty()
}

#[unsafe(no_mangle)]
pub extern "C" fn bazintroa_sensitivity_feed(
    s: SensitivityPlain,
    omega: &[f64],
    s_db: &[f64],
    t_db: &[f64],
) -> SensitivityPlainFed
    ensures { result ≡ fed_sensitivity (lists_refusal omega.now s_db.now t_db.now) (fed_by (from_plain s) (zip3 reading omega.now s_db.now t_db.now)) s }
{
    c_summaries::sensitivity_summary::bazintroa_sensitivity_feed(s, omega, s_db, t_db)
}

#[unsafe(no_mangle)]
pub extern "C" fn bazintroa_sensitivity_join(
    s: SensitivityPlain,
    t: SensitivityPlain,
) -> SensitivityPlain
    ensures { result ≡ plain_of (join_of (from_plain s) (from_plain t)) }
{
    c_summaries::sensitivity_summary::bazintroa_sensitivity_join(s, t)
}

#[unsafe(no_mangle)]
pub extern "C" fn bazintroa_sensitivity_summary_crossover(s: SensitivityPlain, out: &mut f64) -> u32
    ensures { Answers (crossover_answer (from_plain s)) result (out.old ∷ []) (out.new ∷ []) }
{
    c_summaries::sensitivity_summary::bazintroa_sensitivity_summary_crossover(s, out)
}

#[unsafe(no_mangle)]
pub extern "C" fn bazintroa_sensitivity_summary_bandwidth(s: SensitivityPlain, out: &mut f64) -> u32
    ensures { Answers (bandwidth_answer (from_plain s)) result (out.old ∷ []) (out.new ∷ []) }
{
    c_summaries::sensitivity_summary::bazintroa_sensitivity_summary_bandwidth(s, out)
}
