// The panel's entries.
use super::lines;
use std::io;
use std::io::Print;

// ω, dB and phase 1, 6, -90 are 3FF0.., 4018.., C0568..; then 2, 2, -120: 4000.., 4000.., C05E..; 4, -2, -160: 4010..,
// C000.., C064..; 8, -10, -200: 4020.., C024.., C069... The crossovers 3 and 6 are 4008.. and 4018...
pub(crate) fn run(rt: &impl Print) -> io::Result<()> {
    let sweep = b"\0\0\0\0\0\0\xf0\x3f\0\0\0\0\0\0\x18\x40\0\0\0\0\0\x80\x56\xc0\
        \0\0\0\0\0\0\0\x40\0\0\0\0\0\0\0\x40\0\0\0\0\0\0\x5e\xc0\
        \0\0\0\0\0\0\x10\x40\0\0\0\0\0\0\0\xc0\0\0\0\0\0\0\x64\xc0\
        \0\0\0\0\0\0\x20\x40\0\0\0\0\0\0\x24\xc0\0\0\0\0\0\0\x69\xc0";
    let mut answer = *b"123456789";
    let number = panel::bazintroa_panel_gain_crossover(sweep, &mut answer);
    let right = answer == *b"\0\0\0\0\0\0\x08\x409";
    lines::verdict(rt, "panel_gain_crossover", (number == 0) & right)?;
    let number = panel::bazintroa_panel_phase_crossover(sweep, &mut answer);
    let right = answer == *b"\0\0\0\0\0\0\x18\x409";
    lines::verdict(rt, "panel_phase_crossover", (number == 0) & right)
}
