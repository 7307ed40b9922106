// Summaries for hosts in C and Rust; `c_summaries_c` exports these functions, and include/bazintroa.h declares them. A
// summary crosses as a struct of plain numbers that the host keeps; any content has a meaning. Answers cross as in
// `c_api`.
#![tactic(auto)]

ghost use Rattle.std.specs.Prelude.{◌≡◌, MatchResult};
ghost use Rattle.sweep.specs.Refusal.{refusal_of};

use sweep::FreqError;

pub mod bode_summary;
pub mod curve_summary;
pub mod sensitivity_summary;

// What a feed of the plain numbers `s` gives a host: 0 and the new summary in plain numbers, or the refusal and `s`.
fn put_fed<S, P: From<S> + Copy>(fed: Result<S, FreqError>, s: P) -> (u32, P)
    ensures { (result.0 ≡ refusal_of fed) × MatchResult fed (λ t. P.from_gives t result.1) (λ e. result.1 ≡ s) }
{
    match fed {
        Ok(t) => (0, P::from(t)),
        Err(e) => (e.number(), s),
    }
}
