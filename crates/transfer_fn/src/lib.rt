// Transfer functions and their value at a frequency ω. The host lends cosine and sine of -(ω * k) for k = 0, 1,
// 2 and on, as the Rust computes them.
#![tactic(auto)]

ghost use Rattle.std.specs.Prelude.{◌≡◌, ◌+◌, ◌<◌, ◌≤◌, max, length, IfOk};
ghost use Rattle.sweep.specs.Refusal.{refusal_of};
ghost use Rattle.transfer_fn.specs.Evaluation.{pair_sum, value_at, evaluation_refusal, outcome_of, outcome_of_both, evaluation, evaluation_of_both};

use complex::Complex;
use sweep::FreqError;

// (b[0] + b[1] z^-1 + ..) / (1 + a[0] z^-1 + a[1] z^-2 + ..), with `order` coefficients of each kind. (Arrays with a count, for
// the C interface.)
#[derive(Clone, Copy)]
pub struct TransferFn {
    pub b: [f64; 8],
    pub a: [f64; 8],
    pub order: usize,
}

// The pairs of a frequency: cosine and sine of -(ω * k) at place k, for k up to `order`. (Two lists, as the C interface lends
// them.)
#[derive(Clone, Copy)]
struct Pairs<'a> {
    order: usize,
    cosines: &'a [f64],
    sines: &'a [f64],
    ghost few: { order ≤ 8 },
    ghost enough: { order < length cosines.now },
    ghost same: { length cosines.now ≡ length sines.now },
}

impl<'a> Pairs<'a> {
    // Pairs that serve for an evaluation up to `order`.
    #[tactic(auto, unfolding(crate::specs::Evaluation::evaluation_refusal))]
    fn new(order: usize, cosines: &'a [f64], sines: &'a [f64]) -> Result<Pairs<'a>, FreqError>
        ensures refusal { refusal_of result ≡ evaluation_refusal order (length cosines.now) (length sines.now) }
        ensures pairs { IfOk result (λ p. (p.order ≡ order) × (p.cosines.now ≡ cosines.now) × (p.sines.now ≡ sines.now)) }
    {
        if 8 < order {
            return Err(FreqError::WrongOrder);
        }
        if cosines.len() != sines.len() {
            return Err(FreqError::LengthsDiffer);
        }
        if cosines.len() <= order {
            return Err(FreqError::TooFewPairs);
        }
        Ok(Pairs {
            order,
            cosines,
            sines,
        })
    }

    // `start` and the first n coefficients, each times its pair; coefficient 0 has the pair `first`. (By place: three lists, two
    // of them from `first` on, zipped in two steps would be no plainer.)
    fn sum(self, start: f64, coefficients: &[f64; 8], n: usize, first: usize) -> Complex
        requires { (n ≤ self.order) × (first ≤ 1) }
        ensures { result ≡ pair_sum start coefficients.now n self.entry.cosines.now self.entry.sines.now first }
    {
        let mut re = start;
        let mut im = 0.0;
        for k in 0..n {
            re += coefficients[k] * self.cosines[k + first];
            im += coefficients[k] * self.sines[k + first];
        }
        Complex { re, im }
    }

    // The value of `tf` there.
    #[tactic(auto, unfolding(crate::specs::Evaluation::value_at, crate::specs::Evaluation::numerator, crate::specs::Evaluation::denominator))]
    fn value_of(self, tf: TransferFn) -> Complex
        requires { tf.order ≤ self.order }
        ensures { result ≡ value_at tf self.entry.cosines.now self.entry.sines.now }
    {
        let b = tf.b;
        let a = tf.a;
        let num = self.sum(0.0, &b, tf.order, 0);
        let den = self.sum(1.0, &a, tf.order, 1);
        num.divide_or_zero(den)
    }
}

// The value of `tf` at the frequency whose pairs are lent.
#[tactic(auto, unfolding(crate::specs::Evaluation::outcome_of, crate::specs::Evaluation::evaluation), using(sweep::proofs::Answers::refusal_handed_on, sweep::proofs::Answers::values_found))]
pub fn eval_tf_complex(tf: TransferFn, cosines: &[f64], sines: &[f64]) -> Result<Complex, FreqError>
    ensures { outcome_of result ≡ evaluation tf cosines.now sines.now }
{
    let pairs = Pairs::new(tf.order, cosines, sines)?;
    Ok(pairs.value_of(tf))
}

// The values of `p` and `c` there, under the conditions of the larger order.
#[tactic(auto, unfolding(crate::specs::Evaluation::outcome_of_both, crate::specs::Evaluation::evaluation_of_both), using(sweep::proofs::Answers::refusal_handed_on, sweep::proofs::Answers::values_found))]
pub fn eval_both(
    p: TransferFn,
    c: TransferFn,
    cosines: &[f64],
    sines: &[f64],
) -> Result<(Complex, Complex), FreqError>
    ensures { outcome_of_both result ≡ evaluation_of_both p c cosines.now sines.now }
{
    let pairs = Pairs::new(p.order.max(c.order), cosines, sines)?;
    Ok((pairs.value_of(p), pairs.value_of(c)))
}
