// How the search for roots ended.
ghost use Rattle.std.specs.Prelude.{◌≡◌};
ghost use Rattle.root_locus.specs.Ending.{unless_nan, end_of, ending_number, ending_value};

use complex::Complex;

// Settled: in so many rounds, 0 where there was nothing to search for. Spent: 200 rounds ran, and the last one's
// largest change was this, not below 1e-12. Broken: some part of a root is NaN, however the rounds ended. What has
// settled has stopped; nothing says that it is right.
#[derive(Clone, Copy)]
pub enum Ending {
    Settled(usize),
    Spent(f64),
    Broken,
}

impl Ending {
    // A host gets an ending as this number and the value below; `u32::from` would not say which of its numbers it is.
    pub fn number(self) -> u32
        ensures { result ≡ ending_number self }
    {
        match self {
            Ending::Settled(_) => 0,
            Ending::Spent(_) => 1,
            Ending::Broken => 2,
        }
    }

    // The rounds or the last change; 0 where it is broken.
    pub fn value(self) -> f64
        ensures { result ≡ ending_value self }
    {
        match self {
            Ending::Settled(rounds) => std::num::nearest_u64_to_f64(rounds as u64),
            Ending::Spent(change) => change,
            Ending::Broken => 0.0,
        }
    }

    // The end of so many rounds, by the last one's largest change.
    #[tactic(auto, unfolding(crate::specs::Ending::end_of))]
    pub(super) fn of_rounds(used: usize, last_change: f64) -> Ending
        ensures { result ≡ end_of used last_change }
    {
        if last_change < 1e-12 {
            Ending::Settled(used)
        } else {
            Ending::Spent(last_change)
        }
    }

    // Broken where some part of a root is NaN, and else as it is.
    #[tactic(auto, unfolding(crate::specs::Ending::some_nan, crate::specs::Ending::unless_nan))]
    pub(super) fn unless_nan(self, roots: &[Complex]) -> Ending
        ensures { result ≡ unless_nan roots.now self }
    {
        if roots.iter().any(|z| z.re.is_nan() || z.im.is_nan()) {
            Ending::Broken
        } else {
            self
        }
    }
}
