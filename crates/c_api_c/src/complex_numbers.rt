// Square root, absolute value and complex arithmetic.
ghost use Rattle.std.specs.Prelude.{◌≡◌};
ghost use Rattle.scalar.specs.Scalar.{abs_of};
ghost use Rattle.scalar.specs.Sqrt.{sqrt_of};
ghost use Rattle.complex.specs.Complex.{product, sum, difference, magnitude_of, magnitude_sq, reciprocal_of, quotient, quotient_or_zero, complex_of, values_of};
ghost use Rattle.laws.specs.Outcome.{Answers};

#[unsafe(no_mangle)]
pub extern "C" fn bazintroa_sqrt(x: f64) -> f64
    ensures { result ≡ sqrt_of x }
{
    c_api::complex_numbers::bazintroa_sqrt(x)
}

#[unsafe(no_mangle)]
pub extern "C" fn bazintroa_abs(x: f64) -> f64
    ensures { result ≡ abs_of x }
{
    c_api::complex_numbers::bazintroa_abs(x)
}

#[unsafe(no_mangle)]
pub extern "C" fn bazintroa_complex_multiply(z: &[f64; 2], w: &[f64; 2], out: &mut [f64; 2])
    ensures { out.new ≡ values_of (product (complex_of z.now) (complex_of w.now)) }
{
    c_api::complex_numbers::bazintroa_complex_multiply(z, w, out);
}

#[unsafe(no_mangle)]
pub extern "C" fn bazintroa_complex_add(z: &[f64; 2], w: &[f64; 2], out: &mut [f64; 2])
    ensures { out.new ≡ values_of (sum (complex_of z.now) (complex_of w.now)) }
{
    c_api::complex_numbers::bazintroa_complex_add(z, w, out);
}

#[unsafe(no_mangle)]
pub extern "C" fn bazintroa_complex_sub(z: &[f64; 2], w: &[f64; 2], out: &mut [f64; 2])
    ensures { out.new ≡ values_of (difference (complex_of z.now) (complex_of w.now)) }
{
    c_api::complex_numbers::bazintroa_complex_sub(z, w, out);
}

#[unsafe(no_mangle)]
pub extern "C" fn bazintroa_complex_magnitude(z: &[f64; 2]) -> f64
    ensures { result ≡ magnitude_of (complex_of z.now) }
{
    c_api::complex_numbers::bazintroa_complex_magnitude(z)
}

#[unsafe(no_mangle)]
pub extern "C" fn bazintroa_complex_magnitude_sq(z: &[f64; 2]) -> f64
    ensures { result ≡ magnitude_sq (complex_of z.now) }
{
    c_api::complex_numbers::bazintroa_complex_magnitude_sq(z)
}

#[unsafe(no_mangle)]
pub extern "C" fn bazintroa_complex_reciprocal(z: &[f64; 2], out: &mut [f64; 2]) -> u32
    ensures { Answers (reciprocal_of (complex_of z.now)) result out.old out.new }
{
    c_api::complex_numbers::bazintroa_complex_reciprocal(z, out)
}

#[unsafe(no_mangle)]
pub extern "C" fn bazintroa_complex_divide(z: &[f64; 2], w: &[f64; 2], out: &mut [f64; 2]) -> u32
    ensures { Answers (quotient (complex_of z.now) (complex_of w.now)) result out.old out.new }
{
    c_api::complex_numbers::bazintroa_complex_divide(z, w, out)
}

#[unsafe(no_mangle)]
pub extern "C" fn bazintroa_complex_divide_or_zero(z: &[f64; 2], w: &[f64; 2], out: &mut [f64; 2])
    ensures { out.new ≡ values_of (quotient_or_zero (complex_of z.now) (complex_of w.now)) }
{
    c_api::complex_numbers::bazintroa_complex_divide_or_zero(z, w, out);
}
