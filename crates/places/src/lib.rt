// Poles and transfer functions from places that a host lends, and answers to them: the number is returned, and the values
// are written only on 0.
#![tactic(auto)]

ghost use Rattle.std.specs.Prelude.{◌≡◌, ◌<◌, ℕ, List, [], ◌∷◌, Float};
ghost use Rattle.complex.specs.Complex.{values_of};
ghost use Rattle.sweep.specs.Refusal.{number_of};
ghost use Rattle.laws.specs.Outcome.{Outcome, found, option_outcome, result_outcome, Answers};
ghost use Rattle.places.specs.Complex.{pole_at, poles_of, parts_of};
ghost use Rattle.places.specs.Coefficients.{transfer_fn};

use complex::Complex;
use std::array;
use sweep::{FreqError, NotKept};
use transfer_fn::TransferFn;

// Eight poles in an array of sixteen: real and imaginary part of the first, then of the second, and on. (No `From`: neither
// array is of this crate.)
pub fn poles_of(parts: &[f64; 16]) -> [Complex; 8]
    ensures { result ≡ poles_of parts.now }
{
    array::from_fn(
        |i|
            requires { i < 8 }
        { Complex::new(parts[2 * i], parts[2 * i + 1]) },
    )
}

// Eight poles into such an array. (No `From`, for the reason at `poles_of`.)
pub fn put_poles(z: [Complex; 8], parts: &mut [f64; 16])
    ensures { parts.new ≡ parts_of z }
{
    *parts = array::from_fn(
        |i|
            requires { i < 16 }
        { if i % 2 == 0 { z[i / 2].re } else { z[i / 2].im } },
    );
}

// (No `From`: it would be from a tuple, whose three parts have no names.)
pub fn transfer_fn(b: &[f64; 8], a: &[f64; 8], order: usize) -> TransferFn
    ensures { result ≡ transfer_fn b.now a.now order }
{
    TransferFn {
        b: *b,
        a: *a,
        order,
    }
}

// What is answered to a host: its number is returned, and its values go to the place, on 0 alone. (Numbers, for the C
// interface.)
pub trait Answer {
    type Place;

    ghost outcome: { Self → Outcome };

    ghost values: { Self.Place → List Float };

    fn put(self, out: &mut Self::Place) -> u32
        ensures { Answers (outcome self) result (values out.old) (values out.new) };
}

// No value.
impl Answer for () {
    type Place = ();

    ghost outcome = { λ x. found [] };

    ghost values = { λ x. [] };

    fn put(self, _: &mut ()) -> u32 {
        0
    }
}

impl Answer for f64 {
    type Place = f64;

    ghost outcome = { λ x. found (x ∷ []) };

    ghost values = { λ x. x ∷ [] };

    fn put(self, out: &mut f64) -> u32 {
        *out = self;
        0
    }
}

impl Answer for Complex {
    type Place = [f64; 2];

    ghost outcome = { λ z. found (values_of z) };

    ghost values = { λ l. l };

    fn put(self, out: &mut [f64; 2]) -> u32 {
        *out = self.into();
        0
    }
}

// 100 for none.
impl<A: Answer> Answer for Option<A> {
    type Place = A::Place;

    ghost outcome = { option_outcome A.outcome };

    ghost values = { A.values };

    fn put(self, out: &mut A::Place) -> u32 {
        match self {
            Some(x) => x.put(out),
            None => 100,
        }
    }
}

// A refusal's number. (One impl of this and the next would need a trait that numbers what is refused, and be no shorter.)
impl<A: Answer> Answer for Result<A, FreqError> {
    type Place = A::Place;

    ghost outcome = { result_outcome number_of A.outcome };

    ghost values = { A.values };

    fn put(self, out: &mut A::Place) -> u32 {
        match self {
            Ok(x) => x.put(out),
            Err(e) => e.number(),
        }
    }
}

// 101 for what is not kept.
impl<A: Answer> Answer for Result<A, NotKept> {
    type Place = A::Place;

    ghost outcome = { result_outcome (λ e. 101) A.outcome };

    ghost values = { A.values };

    fn put(self, out: &mut A::Place) -> u32 {
        match self {
            Ok(x) => x.put(out),
            Err(NotKept) => 101,
        }
    }
}
