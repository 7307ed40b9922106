// Complex numbers of two f64, by value. Each operation is the Rust's, rounded in its order.
#![tactic(auto)]

ghost use Rattle.std.specs.Prelude.{◌≡◌};
ghost use Rattle.complex.specs.Complex.{new_of, from_real, product, sum, difference, magnitude_sq, magnitude_of, outcome_of, reciprocal_of, quotient, quotient_or_zero, complex_of, values_of};

#[derive(Clone, Copy)]
pub struct Complex {
    pub re: f64,
    pub im: f64,
}

#[tactic(auto, unfolding(crate::specs::Complex::new_of, crate::specs::Complex::from_real, crate::specs::Complex::product, crate::specs::Complex::sum, crate::specs::Complex::difference, crate::specs::Complex::magnitude_sq, crate::specs::Complex::magnitude_of, crate::specs::Complex::small, crate::specs::Complex::inverse, crate::specs::Complex::ratio, crate::specs::Complex::outcome_of, crate::specs::Complex::reciprocal_of, crate::specs::Complex::quotient), using(crate::proofs::Quotients::or_zero_is))]
impl Complex {
    pub fn new(re: f64, im: f64) -> Self
        ensures { result ≡ new_of re im }
    {
        Self { re, im }
    }

    pub fn from_real(re: f64) -> Self
        ensures { result ≡ from_real re }
    {
        Self { re, im: 0.0 }
    }

    pub fn multiply(self, other: Complex) -> Self
        ensures { result ≡ product self other }
    {
        Self {
            re: self.re * other.re - self.im * other.im,
            im: self.re * other.im + self.im * other.re,
        }
    }

    pub fn add(self, other: Complex) -> Self
        ensures { result ≡ sum self other }
    {
        Self {
            re: self.re + other.re,
            im: self.im + other.im,
        }
    }

    pub fn sub(self, other: Complex) -> Self
        ensures { result ≡ difference self other }
    {
        Self {
            re: self.re - other.re,
            im: self.im - other.im,
        }
    }

    pub fn magnitude(self) -> f64
        ensures { result ≡ magnitude_of self }
    {
        scalar::sqrt(self.re * self.re + self.im * self.im)
    }

    pub fn magnitude_sq(self) -> f64
        ensures { result ≡ magnitude_sq self }
    {
        self.re * self.re + self.im * self.im
    }

    // None where the squared magnitude is below epsilon.
    pub fn reciprocal(self) -> Option<Complex>
        ensures { outcome_of result ≡ reciprocal_of self }
    {
        let mag_sq = self.magnitude_sq();
        if mag_sq < scalar::EPSILON {
            return None;
        }
        Some(Complex {
            re: self.re / mag_sq,
            im: -self.im / mag_sq,
        })
    }

    // None where the divisor's squared magnitude is below epsilon.
    pub fn divide(self, other: Complex) -> Option<Complex>
        ensures { outcome_of result ≡ quotient self other }
    {
        let denom = other.magnitude_sq();
        if denom < scalar::EPSILON {
            return None;
        }
        Some(Complex {
            re: (self.re * other.re + self.im * other.im) / denom,
            im: (self.im * other.re - self.re * other.im) / denom,
        })
    }

    // The Rust's `divide(..).unwrap_or(Complex::from_real(S::ZERO))`.
    pub fn divide_or_zero(self, other: Complex) -> Self
        ensures { result ≡ quotient_or_zero self other }
    {
        self.divide(other).unwrap_or(Complex::from_real(0.0))
    }
}

// A complex number crosses to a host as its real and its imaginary part.
impl From<[f64; 2]> for Complex {
    ghost from_gives = { λ parts z. z ≡ complex_of parts };

    fn from(parts: [f64; 2]) -> Complex {
        Complex::new(parts[0], parts[1])
    }
}

impl From<Complex> for [f64; 2] {
    ghost from_gives = { λ z parts. parts ≡ values_of z };

    fn from(z: Complex) -> [f64; 2] {
        [z.re, z.im]
    }
}
