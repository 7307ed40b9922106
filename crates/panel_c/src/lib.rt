// The entries of `panel` as hosts call them: each export is one call of its namesake there, with the same clauses.
// include/bazintroa.h declares them. (They stand here too for the C interface: an archive has only what its own crate exports.)
#![tactic(auto)]

ghost use Rattle.bode.specs.Bode.{gain_crossover, phase_crossover};
ghost use Rattle.panel.specs.Panel.{panel_outcome, Replies};

// The gain crossover of readings in bytes.
#[unsafe(no_mangle)]
pub extern "C" fn bazintroa_panel_gain_crossover(readings: &[u8], answer: &mut [u8]) -> u32
    ensures { Replies (panel_outcome gain_crossover readings.now answer.old) result answer.old answer.new }
{
    panel::bazintroa_panel_gain_crossover(readings, answer)
}

// The phase crossover of readings in bytes.
#[unsafe(no_mangle)]
pub extern "C" fn bazintroa_panel_phase_crossover(readings: &[u8], answer: &mut [u8]) -> u32
    ensures { Replies (panel_outcome phase_crossover readings.now answer.old) result answer.old answer.new }
{
    panel::bazintroa_panel_phase_crossover(readings, answer)
}
