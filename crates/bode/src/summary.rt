// A summary of a Bode sweep, made empty, fed in parts and joined. It answers what the scans answer on all its readings.
ghost use Rattle.std.specs.Prelude.{◌≡◌, false, []};
ghost use Rattle.sweep.specs.Refusal.{refusal_of, lists_refusal};
ghost use Rattle.sweep.specs.Answer.{crossing_outcome};
ghost use Rattle.sweep.specs.Runs.{left_after, left_by};
ghost use Rattle.bode.specs.Bode.{readings};
ghost use Rattle.bode.specs.Summary.{summary_of, fed_by, join_of, gain_answer, phase_answer};

use super::{Gain, Phase, Reading};
use sweep::{Ends, FreqError, Lists};

// The first and the last reading, and the first crossing of 0 dB and of -180 degrees.
#[derive(Clone, Copy)]
pub struct BodeSummary {
    ends: Ends<Reading>,
    gain: Option<f64>,
    phase: Option<f64>,
}

// The summary as plain numbers, for a host to keep between calls. A mark that is 0 says that there is nothing, and what
// belongs to it is then 0 too; so all zeros are the summary of no readings. The reserved number is always 0 and never
// read; it stands where padding would, so that every byte is told.
#[repr(C)]
#[derive(Clone, Copy)]
pub struct BodePlain {
    pub read: u32,
    pub gain_found: u32,
    pub phase_found: u32,
    pub reserved: u32,
    pub first: Reading,
    pub last: Reading,
    pub gain: f64,
    pub phase: f64,
}

impl BodeSummary {
    // The summary of no readings.
    #[tactic(auto, unfolding(crate::specs::Summary::summary_of, crate::specs::Bode::gain_crossover, crate::specs::Bode::phase_crossover))]
    pub fn empty() -> BodeSummary
        ensures { result ≡ summary_of [] false }
    {
        BodeSummary {
            ends: Ends::none(),
            gain: None,
            phase: None,
        }
    }

    // A part's readings behind those of the summary. The part is scanned only where it decides.
    #[tactic(auto, unfolding(crate::specs::Summary::fed_by, crate::specs::Summary::behind, crate::specs::Summary::summary_of, crate::specs::Bode::gain_crossover, crate::specs::Bode::phase_crossover))]
    fn fed(self, part: Lists) -> BodeSummary
        ensures { result ≡ fed_by self (readings part.entry.omega.now part.entry.first.now part.entry.second.now) }
    {
        let ends = Ends::of(&part);
        let gain = self.gain.or(self.ends.crossing(ends, &Gain));
        let phase = self.phase.or(self.ends.crossing(ends, &Phase));
        BodeSummary {
            ends: self.ends.then(ends),
            gain: sweep::crossing_from(gain, &part, &Gain),
            phase: sweep::crossing_from(phase, &part, &Phase),
        }
    }

    // The summary with a part's readings behind it, or the refusal; the caller then still has the summary as it came. (Each kind
    // of summary has its own: two lines, of which one names what differs.)
    #[tactic(auto, unfolding(sweep::specs::Runs::left_after))]
    pub fn feed(self, omega: &[f64], db: &[f64], phase: &[f64]) -> Result<BodeSummary, FreqError>
        ensures { (refusal_of result ≡ lists_refusal omega.now db.now phase.now)
            × (left_by result self ≡ left_after (lists_refusal omega.now db.now phase.now) self
            (fed_by self (readings omega.now db.now phase.now))) }
    {
        let part = Lists::new(omega, db, phase)?;
        Ok(self.fed(part))
    }

    // The readings of `later` behind those of `self`.
    #[tactic(auto, unfolding(crate::specs::Summary::join_of, crate::specs::Summary::behind))]
    pub fn join(self, later: BodeSummary) -> BodeSummary
        ensures { result ≡ join_of self later }
    {
        let gain = self.gain.or(self.ends.crossing(later.ends, &Gain));
        let phase = self.phase.or(self.ends.crossing(later.ends, &Phase));
        BodeSummary {
            ends: self.ends.then(later.ends),
            gain: gain.or(later.gain),
            phase: phase.or(later.phase),
        }
    }

    // Where the magnitude first crosses 0 dB.
    #[tactic(auto, unfolding(crate::specs::Summary::gain_answer))]
    pub fn gain_crossover(self) -> Option<f64>
        ensures { crossing_outcome result ≡ gain_answer self }
    {
        self.gain
    }

    // Where the phase first crosses -180 degrees.
    #[tactic(auto, unfolding(crate::specs::Summary::phase_answer))]
    pub fn phase_crossover(self) -> Option<f64>
        ensures { crossing_outcome result ≡ phase_answer self }
    {
        self.phase
    }
}

#[tactic(auto, unfolding(crate::specs::Plain::plain_of))]
impl From<BodeSummary> for BodePlain {
    ghost use Rattle.std.specs.Prelude.{◌≡◌};
    ghost use Rattle.bode.specs.Plain.{plain_of};

    ghost from_gives = { λ s p. p ≡ plain_of s };

    fn from(s: BodeSummary) -> BodePlain {
        BodePlain {
            read: u32::from(s.ends.read),
            gain_found: u32::from(s.gain.is_some()),
            phase_found: u32::from(s.phase.is_some()),
            reserved: 0,
            first: s.ends.first,
            last: s.ends.last,
            gain: s.gain.unwrap_or(0.0),
            phase: s.phase.unwrap_or(0.0),
        }
    }
}

// The summary of plain numbers, whatever they are.
#[tactic(auto, unfolding(crate::specs::Plain::from_plain))]
impl From<BodePlain> for BodeSummary {
    ghost use Rattle.std.specs.Prelude.{◌≡◌};
    ghost use Rattle.bode.specs.Plain.{from_plain};

    ghost from_gives = { λ p s. s ≡ from_plain p };

    fn from(p: BodePlain) -> BodeSummary {
        BodeSummary {
            ends: Ends {
                read: p.read != 0,
                first: p.first,
                last: p.last,
            },
            gain: (p.gain_found != 0).then_some(p.gain),
            phase: (p.phase_found != 0).then_some(p.phase),
        }
    }
}
