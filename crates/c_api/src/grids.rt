// The grids, written into lists that the host lends.
#![tactic(auto, unfolding(sweep::specs::Answer::outcome_of_grid))]

ghost use Rattle.std.specs.Prelude.{◌≡◌};
ghost use Rattle.nyquist.specs.Frequency.{frequency_outcome, frequency_grid};
ghost use Rattle.root_locus.specs.Gain.{gain_outcome, gain_grid};
ghost use Rattle.c_api.specs.Places.{Filled};

use places::Answer;

#[unsafe(no_mangle)]
pub extern "C" fn bazintroa_fill_gain_grid(k_max: f64, n: usize, list: &mut [f64]) -> u32
    ensures { Filled (gain_outcome k_max n list.old) (gain_grid k_max n list.old) result list.new }
{
    root_locus::fill_gain_grid(k_max, n, list).put(&mut ())
}

#[unsafe(no_mangle)]
pub extern "C" fn bazintroa_fill_frequency_grid(omega_max: f64, n: usize, list: &mut [f64]) -> u32
    ensures { Filled (frequency_outcome omega_max n list.old) (frequency_grid omega_max n list.old) result list.new }
{
    nyquist::fill_frequency_grid(omega_max, n, list).put(&mut ())
}
