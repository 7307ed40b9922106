// Three lists of one length: the frequencies of a sweep, and two values at each. (The Rust and the C interface lend them
// so.)
ghost use Rattle.std.specs.Prelude.{◌≡◌, length, get_or, IfOk};
ghost use Rattle.sweep.specs.Refusal.{SameLength, refusal_of, lists_refusal};
ghost use Rattle.sweep.specs.Scan.{zip3};

use super::{FreqError, Reading, Readings};

#[derive(Clone, Copy)]
pub struct Lists<'a> {
    omega: &'a [f64],
    first: &'a [f64],
    second: &'a [f64],
    pub ghost same: { SameLength omega.now first.now second.now },
}

impl<'a> Lists<'a> {
    // The lists as a sweep, where they meet the conditions of a scan.
    #[tactic(auto, unfolding(crate::specs::Refusal::lists_refusal), using(crate::proofs::Conditions::same_length))]
    pub fn new(
        omega: &'a [f64],
        first: &'a [f64],
        second: &'a [f64],
    ) -> Result<Lists<'a>, FreqError>
        ensures refusal { refusal_of result ≡ lists_refusal omega.now first.now second.now }
        ensures lists { IfOk result (λ l. (l.omega.now ≡ omega.now) × (l.first.now ≡ first.now) × (l.second.now ≡ second.now)) }
    {
        let same = (omega.len() == first.len()) & (first.len() == second.len());
        super::check_scan(same, omega.len())?;
        Ok(Lists {
            omega,
            first,
            second,
        })
    }
}

#[tactic(auto, using(crate::proofs::Scans::zip3_same, crate::proofs::Scans::zip3_in, crate::proofs::Scans::zip3_past))]
impl<R: Reading> Readings<R> for Lists<'_> {
    ghost readings = { λ l. zip3 R.reading l.omega.now l.first.now l.second.now };

    fn len(&self) -> usize {
        self.omega.len()
    }

    fn at(&self, i: usize) -> R {
        if i < self.omega.len() {
            return R::new(self.omega[i], self.first[i], self.second[i]);
        }
        R::zeros()
    }
}
