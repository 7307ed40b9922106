// The grid of frequencies.
ghost use Rattle.std.specs.Prelude.{◌≡◌, ◌<◌, ◌≤◌};
ghost use Rattle.sweep.specs.Answer.{outcome_of_grid};
ghost use Rattle.nyquist.specs.Frequency.{frequency_at, frequency_outcome, frequency_grid};

use sweep::FreqError;

// Frequency i of n, evenly spaced from 0 to omega_max.
#[tactic(auto, unfolding(crate::specs::Frequency::frequency_at))]
fn frequency_at(omega_max: f64, n: usize, i: usize) -> f64
    requires { (2 ≤ n) × (n ≤ 4096) × (i < n) }
    ensures { result ≡ frequency_at omega_max n i }
{
    let at = i as f64;
    let last = (n - 1) as f64;
    at / last * omega_max
}

// Writes the n frequencies into the first n places of the list. (The grid of gains takes the same three steps, with another
// refusal and another point: one function of both would need a trait that says what a point is, and be longer, or be
// passed a closure, and require that it may be called, which a public function of the library does not.)
#[tactic(auto, unfolding(crate::specs::Frequency::frequency_outcome, crate::specs::Frequency::frequency_grid), using(laws::proofs::Loops::filled_none, laws::proofs::Loops::filled_more, sweep::proofs::Answers::grid_let_through, sweep::proofs::Grids::grid_two, sweep::proofs::Grids::grid_most, sweep::proofs::Grids::grid_fits, sweep::proofs::Grids::grid_places, sweep::proofs::Grids::grid_filled))]
pub fn fill_frequency_grid(omega_max: f64, n: usize, list: &mut [f64]) -> Result<(), FreqError>
    ensures { (outcome_of_grid result ≡ frequency_outcome omega_max n list.old) × (list.new ≡ frequency_grid omega_max n list.old) }
{
    sweep::check_grid(FreqError::InvalidFrequencyRange, n, omega_max, list.len())?;
    for (i, place) in list[..n].iter_mut().enumerate() {
        *place = frequency_at(omega_max, n, i);
    }
    Ok(())
}
