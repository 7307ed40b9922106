// Square root, absolute value and complex arithmetic.
#![tactic(auto, unfolding(complex::specs::Complex::outcome_of))]

ghost use Rattle.std.specs.Prelude.{◌≡◌};
ghost use Rattle.scalar.specs.Scalar.{abs_of};
ghost use Rattle.scalar.specs.Sqrt.{sqrt_of};
ghost use Rattle.complex.specs.Complex.{product, sum, difference, magnitude_of, magnitude_sq, reciprocal_of, quotient, quotient_or_zero, complex_of, values_of};
ghost use Rattle.laws.specs.Outcome.{Answers};

use complex::Complex;
use places::Answer;

#[unsafe(no_mangle)]
pub extern "C" fn bazintroa_sqrt(x: f64) -> f64
    ensures { result ≡ sqrt_of x }
{
    scalar::sqrt(x)
}

#[unsafe(no_mangle)]
pub extern "C" fn bazintroa_abs(x: f64) -> f64
    ensures { result ≡ abs_of x }
{
    scalar::abs(x)
}

#[unsafe(no_mangle)]
pub extern "C" fn bazintroa_complex_multiply(z: &[f64; 2], w: &[f64; 2], out: &mut [f64; 2])
    ensures { out.new ≡ values_of (product (complex_of z.now) (complex_of w.now)) }
{
    *out = Complex::from(*z).multiply(Complex::from(*w)).into();
}

#[unsafe(no_mangle)]
pub extern "C" fn bazintroa_complex_add(z: &[f64; 2], w: &[f64; 2], out: &mut [f64; 2])
    ensures { out.new ≡ values_of (sum (complex_of z.now) (complex_of w.now)) }
{
    *out = Complex::from(*z).add(Complex::from(*w)).into();
}

#[unsafe(no_mangle)]
pub extern "C" fn bazintroa_complex_sub(z: &[f64; 2], w: &[f64; 2], out: &mut [f64; 2])
    ensures { out.new ≡ values_of (difference (complex_of z.now) (complex_of w.now)) }
{
    *out = Complex::from(*z).sub(Complex::from(*w)).into();
}

#[unsafe(no_mangle)]
pub extern "C" fn bazintroa_complex_magnitude(z: &[f64; 2]) -> f64
    ensures { result ≡ magnitude_of (complex_of z.now) }
{
    Complex::from(*z).magnitude()
}

#[unsafe(no_mangle)]
pub extern "C" fn bazintroa_complex_magnitude_sq(z: &[f64; 2]) -> f64
    ensures { result ≡ magnitude_sq (complex_of z.now) }
{
    Complex::from(*z).magnitude_sq()
}

#[unsafe(no_mangle)]
pub extern "C" fn bazintroa_complex_reciprocal(z: &[f64; 2], out: &mut [f64; 2]) -> u32
    ensures { Answers (reciprocal_of (complex_of z.now)) result out.old out.new }
{
    Complex::from(*z).reciprocal().put(out)
}

#[unsafe(no_mangle)]
pub extern "C" fn bazintroa_complex_divide(z: &[f64; 2], w: &[f64; 2], out: &mut [f64; 2]) -> u32
    ensures { Answers (quotient (complex_of z.now) (complex_of w.now)) result out.old out.new }
{
    Complex::from(*z).divide(Complex::from(*w)).put(out)
}

#[unsafe(no_mangle)]
pub extern "C" fn bazintroa_complex_divide_or_zero(z: &[f64; 2], w: &[f64; 2], out: &mut [f64; 2])
    ensures { out.new ≡ values_of (quotient_or_zero (complex_of z.now) (complex_of w.now)) }
{
    *out = Complex::from(*z).divide_or_zero(Complex::from(*w)).into();
}
