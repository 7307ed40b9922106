// Square root, absolute value and complex arithmetic.
use super::lines;
use c_api::complex_numbers as api;
use std::io;
use std::io::Print;

// The root of 2.25 is 1.5.
fn scalars(rt: &impl Print) -> io::Result<()> {
    lines::real(rt, "sqrt", 0, 0, api::bazintroa_sqrt(2.25), 1.5)?;
    lines::real(rt, "abs", 0, 0, api::bazintroa_abs(-2.0), 2.0)
}

// (1,2)(3,4) = (-5,10); |3+4j| = 5
fn arithmetic(rt: &impl Print) -> io::Result<()> {
    let z = [1.0, 2.0];
    let w = [3.0, 4.0];
    let mut out = [lines::MARK; 2];
    api::bazintroa_complex_multiply(&z, &w, &mut out);
    lines::list(rt, "complex_multiply", 0, 0, &out, &[-5.0, 10.0])?;
    api::bazintroa_complex_add(&z, &w, &mut out);
    lines::list(rt, "complex_add", 0, 0, &out, &[4.0, 6.0])?;
    api::bazintroa_complex_sub(&[3.0, 5.0], &z, &mut out);
    lines::list(rt, "complex_sub", 0, 0, &out, &[2.0, 3.0])?;
    let magnitude = api::bazintroa_complex_magnitude(&w);
    lines::real(rt, "complex_magnitude", 0, 0, magnitude, 5.0)?;
    let square = api::bazintroa_complex_magnitude_sq(&w);
    lines::real(rt, "complex_magnitude_sq", 0, 0, square, 25.0)
}

// (-5,10)/(3,4) = (1,2), by (0,0) none; 1/(2j) = -0.5j
fn quotients(rt: &impl Print) -> io::Result<()> {
    let z = [-5.0, 10.0];
    let w = [3.0, 4.0];
    let mut out = [lines::MARK; 2];
    let number = api::bazintroa_complex_divide(&z, &w, &mut out);
    lines::list(rt, "complex_divide", number, 0, &out, &[1.0, 2.0])?;
    let number = api::bazintroa_complex_divide(&z, &[0.0, 0.0], &mut out);
    lines::list(rt, "complex_divide by 0", number, 100, &out, &[1.0, 2.0])?;
    let number = api::bazintroa_complex_reciprocal(&[0.0, 2.0], &mut out);
    lines::list(rt, "complex_reciprocal", number, 0, &out, &[0.0, -0.5])?;
    api::bazintroa_complex_divide_or_zero(&z, &w, &mut out);
    lines::list(rt, "complex_divide_or_zero", 0, 0, &out, &[1.0, 2.0])
}

pub(crate) fn run(rt: &impl Print) -> io::Result<()> {
    scalars(rt)?;
    arithmetic(rt)?;
    quotients(rt)
}
