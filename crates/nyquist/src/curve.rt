// A curve: the points whose real and imaginary parts stand in two lists of one length. (The Rust and the C interface lend
// them so.)
ghost use Rattle.std.specs.Prelude.{◌≡◌, length, IfOk};
ghost use Rattle.sweep.specs.Refusal.{refusal_of};
ghost use Rattle.nyquist.specs.Curve.{points, point_square, least_square, curve_refusal};
ghost use Rattle.nyquist.specs.Summary.{first_within, nearest_of};

use complex::Complex;
use sweep::FreqError;

// The square of the distance of z from (-1, 0).
#[tactic(auto, unfolding(crate::specs::Curve::point_square, crate::specs::Curve::from_critical, complex::specs::Complex::magnitude_sq))]
pub(crate) fn point_square(z: Complex) -> f64
    ensures { result ≡ point_square z }
{
    let dr = z.re - -1.0;
    dr * dr + z.im * z.im
}

#[derive(Clone, Copy)]
pub(crate) struct Curve<'a> {
    re: &'a [f64],
    im: &'a [f64],
    ghost same: { length re.now ≡ length im.now },
}

impl<'a> Curve<'a> {
    // The lists as a curve, where they meet the conditions of a scan.
    #[tactic(auto, unfolding(crate::specs::Curve::curve_refusal), using(crate::proofs::Scan::same_length))]
    pub(crate) fn new(re: &'a [f64], im: &'a [f64]) -> Result<Curve<'a>, FreqError>
        ensures refusal { refusal_of result ≡ curve_refusal re.now im.now }
        ensures lists { IfOk result (λ c. (c.re.now ≡ re.now) × (c.im.now ≡ im.now)) }
    {
        sweep::check_scan(re.len() == im.len(), re.len())?;
        Ok(Curve { re, im })
    }

    // The least of the squares, and infinity where none is finite.
    pub(crate) fn least_square(&self) -> f64
        ensures { result ≡ least_square (points self.now.re.now self.now.im.now) }
    {
        let mut least = f64::INFINITY;
        // (As long as the other, so that one end is looked for and not two.)
        let im = &self.im[..self.re.len()];
        for (re, im) in self.re.iter().zip(im) {
            let square = point_square(Complex::new(*re, *im));
            if square < least {
                least = square;
            }
        }
        least
    }

    // The first point whose square is no greater than this one.
    fn first_within(&self, square: f64) -> Option<Complex>
        ensures { result ≡ first_within square (points self.now.re.now self.now.im.now) }
    {
        self.re
            .iter()
            .zip(self.im)
            .map(|(re, im)| Complex::new(*re, *im))
            .find(|z| point_square(*z) <= square)
    }

    // The nearest point. The least square of each block shows the first block that has the least of all, and only there
    // is the point looked for: a scan for the least alone is quicker.
    pub(crate) fn nearest(&self) -> Option<Complex>
        ensures { result ≡ nearest_of (points self.now.re.now self.now.im.now) }
    {
        let mut lowest = f64::INFINITY;
        let mut deciding = Curve { re: &[], im: &[] };
        for (re, im) in self.re.chunks(64).zip(self.im.chunks(64)) {
            let block = Curve { re, im };
            let square = block.least_square();
            if square < lowest {
                lowest = square;
                deciding = block;
            }
        }
        deciding.first_within(lowest)
    }
}
