// Poles of a closed loop under a gain: the loop polynomial, its roots, whether they are stable, the points of the
// root locus and the grid of their gains.
#![tactic(auto)]

mod ending;

ghost use Rattle.std.specs.Prelude.{◌≡◌, ◌+◌, ◌<◌, ◌≤◌, ◌∷◌, length, take, drop};
ghost use Rattle.laws.specs.Loops.{filled};
ghost use Rattle.sweep.specs.Refusal.{refusal_of};
ghost use Rattle.sweep.specs.Answer.{outcome_of_grid};
ghost use Rattle.root_locus.specs.Gain.{gain_at, gain_outcome, gain_grid};
ghost use Rattle.root_locus.specs.Polynomial.{coefficient, nine_zeros, loop_polynomial, counting};
ghost use Rattle.root_locus.specs.StartingPoints.{start_table, first_point, starting_points};
ghost use Rattle.root_locus.specs.Search.{eval_poly, begun, run};
ghost use Rattle.root_locus.specs.Ending.{end_of};
ghost use Rattle.root_locus.specs.Roots.{linear, quadratic, searched, search_end, padded, as_roots, degree_cases};
ghost use Rattle.root_locus.specs.Stability.{stable};
ghost use Rattle.root_locus.specs.Locus.{locus_refusal, point_of, locus_point_at, lent_point_at};
ghost use Rattle.transfer_fn.specs.declared.TransferFn.{TransferFn};

use complex::Complex;
pub use ending::Ending;
use std::array;
use std::marker::Model;
use sweep::FreqError;
use transfer_fn::TransferFn;

// Where the root search starts: cosine and sine of 2π * i / degree for each i below the degree, as the Rust computes
// them.
static START: [[f64; 2]; 30] = [
    // degree 4
    [1.0, 0.0],
    [6.123233995736766e-17, 1.0],
    [-1.0, 1.2246467991473532e-16],
    [-1.8369701987210297e-16, -1.0],
    // degree 5
    [1.0, 0.0],
    [0.30901699437494745, 0.9510565162951535],
    [-0.8090169943749473, 0.5877852522924732],
    [-0.8090169943749476, -0.587785252292473],
    [0.30901699437494723, -0.9510565162951536],
    // degree 6
    [1.0, 0.0],
    [0.5000000000000001, 0.8660254037844386],
    [-0.4999999999999998, 0.8660254037844387],
    [-1.0, 1.2246467991473532e-16],
    [-0.5000000000000004, -0.8660254037844384],
    [0.5000000000000001, -0.8660254037844386],
    // degree 7
    [1.0, 0.0],
    [0.6234898018587336, 0.7818314824680298],
    [-0.22252093395631434, 0.9749279121818236],
    [-0.900968867902419, 0.43388373911755823],
    [-0.9009688679024191, -0.433883739117558],
    [-0.2225209339563146, -0.9749279121818236],
    [0.6234898018587334, -0.7818314824680299],
    // degree 8
    [1.0, 0.0],
    [0.7071067811865476, 0.7071067811865475],
    [6.123233995736766e-17, 1.0],
    [-0.7071067811865475, 0.7071067811865476],
    [-1.0, 1.2246467991473532e-16],
    [-0.7071067811865477, -0.7071067811865475],
    [-1.8369701987210297e-16, -1.0],
    [0.7071067811865474, -0.7071067811865477],
];

// Roots with their count, and how the search for them ended; the places past the count hold (0, 0). They are what the
// formulas and the search give: nothing says that the polynomial is 0 there. (An array with a count: there is no heap. So each
// function that fills such an array requires a bound of 8 of its own argument.)
#[derive(Clone, Copy)]
struct Roots {
    z: [Complex; 8],
    count: usize,
    ending: Ending,
}

impl Roots {
    // These roots, found as `ending` says unless some part of one is NaN.
    #[tactic(auto, unfolding(crate::specs::Roots::as_roots), using(crate::proofs::Padding::eight_padded))]
    fn new(roots: &[Complex], ending: Ending) -> Roots
        requires { length roots.now ≤ 8 }
        ensures { result ≡ as_roots roots.now ending }
    {
        let mut z = [Complex::from_real(0.0); 8];
        z[..roots.len()].copy_from_slice(roots);
        Roots {
            z,
            count: roots.len(),
            ending: ending.unless_nan(roots),
        }
    }
}

// The pairs of a degree from 4 to 8, as many as the degree, in one table, as their definition has it. (Below 4 nothing is
// searched for.)
#[tactic(auto, unfolding(crate::specs::StartingPoints::start_table, crate::specs::StartingPoints::pair, crate::specs::StartingPoints::first_point))]
fn start(degree: usize) -> &'static [[f64; 2]]
    requires { degree ≤ 8 }
    ensures { result.now ≡ take degree (drop (first_point degree) start_table) }
{
    match degree {
        8 => &START[22..],
        7 => &START[15..22],
        6 => &START[9..15],
        5 => &START[4..9],
        _ => &START[..degree],
    }
}

// The starting points of a degree. (By place: the check knows nothing of an array after `iter_mut().zip(..)`.)
#[tactic(auto, unfolding(crate::specs::StartingPoints::starting_points, crate::specs::StartingPoints::starting_point, crate::specs::StartingPoints::as_complex), using(laws::proofs::Loops::filled_none, laws::proofs::Loops::filled_more, laws::proofs::Loops::arrived, crate::proofs::Padding::filled_padded, crate::proofs::Table::degree_pairs, crate::proofs::Table::degree_pair))]
fn starting_points(degree: usize) -> [Complex; 8]
    requires { degree ≤ 8 }
    ensures { result ≡ padded (starting_points degree) }
{
    let mut z = [Complex::from_real(0.0); 8];
    for (i, pair) in start(degree).iter().enumerate() {
        z[i] = Complex::from(*pair);
    }
    z
}

// z^n + norm[0] z^(n - 1) + .. + norm[n - 1] by Horner's rule.
#[tactic(auto, unfolding(crate::specs::Search::eval_poly), using(crate::proofs::Rounds::horner_next))]
fn eval_poly_complex(norm: &[f64], z: Complex) -> Complex
    ensures { result ≡ eval_poly norm.now z }
{
    let mut acc = Complex::from_real(1.0);
    for c in norm {
        acc = acc.multiply(z);
        acc.re += *c;
    }
    acc
}

// The method of Durand and Kerner: in up to 200 rounds each root moves by the polynomial's value there over the
// product of its differences to the others, and the next one sees it moved. Where that product is too small the
// root stays. A round keeps its largest squared change and takes no root: a change is below 1e-12 exactly where its
// square is below 1e-24. The search takes one, of the last round's square. (The loops are nested and have labels by a
// rule of the project: a root that stays goes on by its label, and a round that settles leaves the outer one. They go by
// place, since each root is written while the others are read. The ending is made once, behind them, as its definition
// is.)
#[tactic(auto, unfolding(crate::specs::Search::one_round, crate::specs::Search::differences), using(laws::proofs::Loops::up_begin, laws::proofs::Loops::up_next, laws::proofs::Loops::up_end))]
fn durand_kerner(norm: &[f64], z: &mut [Complex]) -> Ending
    requires { length z.old ≡ length norm.now }
    ensures roots { z.new ≡ (run norm.now 200 (begun z.old)).roots }
    ensures ending { result ≡ end_of (run norm.now 200 (begun z.old)).used (run norm.now 200 (begun z.old)).last }
{
    let degree = norm.len();
    let mut used: usize = 0;
    let mut last_square = 0.0;
    'rounds: for round in 0usize..200 {
        let mut max_square = 0.0;
        'roots: for i in 0..degree {
            let zi = z[i];
            let p_val = eval_poly_complex(norm, zi);
            let mut denom = Complex::from_real(1.0);
            for j in 0..degree {
                if j != i {
                    denom = denom.multiply(zi.sub(z[j]));
                }
            }
            if denom.magnitude_sq() < scalar::EPSILON {
                continue 'roots;
            }
            let update = p_val.divide_or_zero(denom);
            let square = update.magnitude_sq();
            if square > max_square {
                max_square = square;
            }
            z[i] = zi.sub(update);
        }
        used = round + 1;
        last_square = max_square;
        if max_square < 1e-24 {
            break 'rounds;
        }
    }
    Ending::of_rounds(used, scalar::sqrt(last_square))
}

// The roots of degrees 4 to 8: the search on the coefficients over the leading one. (By place, as `starting_points` says. The
// array that the search leaves is handed on as it is, with the zeros past its roots.)
#[tactic(auto, unfolding(crate::specs::Roots::quotient_at), using(laws::proofs::Loops::filled_none, laws::proofs::Loops::filled_more))]
fn companion_matrix_roots(lead: f64, rest: &[f64]) -> Roots
    requires { length rest.now ≤ 8 }
    ensures { result ≡ as_roots (searched (lead ∷ rest.now)) (search_end (lead ∷ rest.now)) }
{
    let degree = rest.len();
    let mut norm = [0.0f64; 8];
    for (i, c) in rest.iter().enumerate() {
        norm[i] = *c / lead;
    }
    let mut z = starting_points(degree);
    let ending = durand_kerner(&norm[..degree], &mut z[..degree]);
    Roots {
        z,
        count: degree,
        ending: ending.unless_nan(&z[..degree]),
    }
}

// c0 z + c1 = 0
#[tactic(auto, unfolding(crate::specs::Roots::linear))]
fn linear_root(c0: f64, c1: f64) -> Roots
    ensures { result ≡ as_roots (linear c0 c1) (Ending.Settled 0) }
{
    Roots::new(&[Complex::from_real(-(c1 / c0))], Ending::Settled(0))
}

// c0 z^2 + c1 z + c2 = 0
#[tactic(auto, unfolding(crate::specs::Roots::quadratic, crate::specs::Roots::discriminant, crate::specs::Roots::real_pair, crate::specs::Roots::complex_pair))]
fn quadratic_roots(c0: f64, c1: f64, c2: f64) -> Roots
    ensures { result ≡ as_roots (quadratic c0 c1 c2) (Ending.Settled 0) }
{
    let disc = c1 * c1 - 4.0 * c0 * c2;
    let two_c0 = 2.0 * c0;
    let pair = if disc >= 0.0 {
        let sq = scalar::sqrt(disc);
        [
            Complex::from_real((-c1 + sq) / two_c0),
            Complex::from_real((-c1 - sq) / two_c0),
        ]
    } else {
        let sq = scalar::sqrt(-disc);
        [
            Complex::new(-c1 / two_c0, sq / two_c0),
            Complex::new(-c1 / two_c0, -(sq / two_c0)),
        ]
    };
    Roots::new(&pair, Ending::Settled(0))
}

// A polynomial of a degree up to 8: its coefficients from the highest power down.
#[derive(Clone, Copy)]
struct Polynomial<'a> {
    coeffs: &'a [f64],
    ghost few: { length coeffs.now ≤ 9 },
}

impl Polynomial<'_> {
    // Its roots by the degree, where the first coefficient counts. Those of a cubic are left out.
    #[tactic(auto, using(crate::proofs::ByDegree::case_none, crate::proofs::ByDegree::case_linear, crate::proofs::ByDegree::case_quadratic, crate::proofs::ByDegree::case_cubic, crate::proofs::ByDegree::case_searched, crate::proofs::ByDegree::taken_apart))]
    fn degree_cases(self) -> Result<Roots, FreqError>
        ensures { result ≡ degree_cases self.entry.coeffs.now }
    {
        match self.coeffs {
            [] | [_] => Ok(Roots::new(&[], Ending::Settled(0))),
            [c0, c1] => Ok(linear_root(*c0, *c1)),
            [c0, c1, c2] => Ok(quadratic_roots(*c0, *c1, *c2)),
            [_, _, _, _] => Err(FreqError::CubicLeftOut),
            [lead, rest @ ..] => Ok(companion_matrix_roots(*lead, rest)),
        }
    }

    // Its roots. Leading coefficients that are too small to count are dropped; a NaN counts.
    fn find_roots(self) -> Result<Roots, FreqError>
        ensures { result ≡ degree_cases (counting self.entry.coeffs.now) }
    {
        let coeffs = self.coeffs;
        let start = coeffs
            .iter()
            .position(|c| !(scalar::abs(*c) < scalar::EPSILON))
            .unwrap_or(coeffs.len());
        Polynomial {
            coeffs: &coeffs[start..],
        }
        .degree_cases()
    }
}

// A transfer function whose coefficients are lent, so that none is copied. Contracts see it as the transfer function.
#[derive(Drop)]
struct LentTransferFn<'a> {
    b: &'a [f64; 8],
    a: &'a [f64; 8],
    order: usize,
}

impl<'a> Model for LentTransferFn<'a> {
    ghost Value = { TransferFn };

    ghost view = { λ tf. record { b = tf.b.now; a = tf.a.now; order = tf.order } };
}

// A transfer function of an order from 1 to 8, around which a loop is closed.
#[derive(Drop)]
struct OpenLoop<'a> {
    tf: LentTransferFn<'a>,
    ghost least: { 1 ≤ tf.order },
    ghost most: { tf.order ≤ 8 },
}

impl OpenLoop<'_> {
    // The loop polynomial at gain k, and zeros past its order. (Made by place, as `coefficient` has its cases: an array that a
    // loop fills is copied once more when it is handed back.)
    fn loop_polynomial(&self, k: f64) -> [f64; 9]
        ensures { result ≡ filled (coefficient self.now.tf k) nine_zeros (self.now.tf.order + 1) }
    {
        let LentTransferFn { b, a, order } = &self.tf;
        array::from_fn(
            |i|
                requires { (i < 9) × (order.now ≤ 8) }
            {
                if *order < i {
                    0.0
                } else if i == 0 {
                    1.0 + k * b[0]
                } else if i < *order {
                    a[i - 1] + k * b[i]
                } else {
                    a[i - 1]
                }
            },
        )
    }

    // The poles of the closed loop at gain k.
    #[tactic(auto, using(crate::proofs::Coefficients::polynomial_lent))]
    fn closed_loop_poles(&self, k: f64) -> Result<Roots, FreqError>
        ensures { result ≡ degree_cases (counting (loop_polynomial self.now.tf k)) }
    {
        let poly = self.loop_polynomial(k);
        Polynomial {
            coeffs: &poly[..self.tf.order + 1],
        }
        .find_roots()
    }
}

// Whether no counted pole lies on or outside the unit circle. (Poles come as in a locus point. By
// place: `any` on the counted ones copies all eight first, and took 1.7 times as long for two poles.)
pub fn stability_region(poles: [Complex; 8], count: usize) -> bool
    ensures { result ≡ stable poles count }
{
    for i in 0..count.min(8) {
        if poles[i].magnitude_sq() >= 1.0 {
            return false;
        }
    }
    true
}

// A point of the root locus: the gain and so many poles, with (0, 0) in the places past them, and how the search for
// them ended. (The poles are an array with a count, since the C interface hands them on so. Poles, count and ending are
// fields and no `Roots`, which is the search's own and private.)
#[derive(Clone, Copy)]
pub struct LocusPoint {
    pub gain: f64,
    pub poles: [Complex; 8],
    pub count: usize,
    pub ending: Ending,
}

// The conditions of a locus point but for the last one, on the degree that is left, which a degree of 0 passes. (A grid's
// check is no part of them: its first two stand here too, but its third comes after those on the order. k_max, n and i stay
// three parameters, as C has them: a struct would serve this call and the gain's alone.)
#[tactic(auto, unfolding(crate::specs::Locus::locus_refusal))]
fn check_locus(order: usize, k_max: f64, n: usize, i: usize) -> Result<(), FreqError>
    ensures { refusal_of result ≡ locus_refusal order k_max n i 0 }
{
    if n < 2 {
        return Err(FreqError::InsufficientPoints);
    }
    if k_max <= 0.0 {
        return Err(FreqError::InvalidParameter);
    }
    if 8 < order {
        return Err(FreqError::InvalidParameter);
    }
    if order == 0 {
        return Err(FreqError::WrongOrder);
    }
    if 4096 < n {
        return Err(FreqError::TooMany);
    }
    if n <= i {
        return Err(FreqError::WrongIndex);
    }
    Ok(())
}

// Gain i of n: evenly spaced from 0 to k_max. (In one expression: where both conversions come first, the second goes to a
// register that is not cleared, and a point waits for the poles of the one before.)
#[tactic(auto, unfolding(crate::specs::Gain::gain_at))]
fn gain_at(k_max: f64, n: usize, i: usize) -> f64
    requires { (2 ≤ n) × (n ≤ 4096) × (i < n) }
    ensures { result ≡ gain_at k_max n i }
{
    k_max * i as f64 / (n - 1) as f64
}

// Point i of n of the root locus, with gains from 0 to k_max.
pub fn locus_point(
    open_loop_tf: TransferFn,
    k_max: f64,
    n: usize,
    i: usize,
) -> Result<LocusPoint, FreqError>
    ensures { point_of result ≡ locus_point_at open_loop_tf k_max n i }
{
    let TransferFn { b, a, order } = open_loop_tf;
    locus_point_lent(&b, &a, order, k_max, n, i)
}

// The same of coefficients that are lent, as a host lends them: none is copied.
#[tactic(auto, using(crate::proofs::Conditions::passing, crate::proofs::Conditions::point_turned_away, crate::proofs::Conditions::point_cubic, crate::proofs::Conditions::point_let_through))]
pub fn locus_point_lent(
    b: &[f64; 8],
    a: &[f64; 8],
    order: usize,
    k_max: f64,
    n: usize,
    i: usize,
) -> Result<LocusPoint, FreqError>
    ensures { point_of result ≡ lent_point_at b.now a.now order k_max n i }
{
    check_locus(order, k_max, n, i)?;
    let open_loop = OpenLoop {
        tf: LentTransferFn { b, a, order },
    };
    let gain = gain_at(k_max, n, i);
    let roots = open_loop.closed_loop_poles(gain)?;
    let poles = roots.z;
    Ok(LocusPoint {
        gain,
        poles,
        count: roots.count,
        ending: roots.ending,
    })
}

// Writes the n gains into the first n places of the list. (The grid of frequencies says why each has a function.)
#[tactic(auto, unfolding(crate::specs::Gain::gain_outcome, crate::specs::Gain::gain_grid), using(laws::proofs::Loops::filled_none, laws::proofs::Loops::filled_more, sweep::proofs::Answers::grid_let_through, sweep::proofs::Grids::grid_two, sweep::proofs::Grids::grid_most, sweep::proofs::Grids::grid_fits, sweep::proofs::Grids::grid_places, sweep::proofs::Grids::grid_filled))]
pub fn fill_gain_grid(k_max: f64, n: usize, list: &mut [f64]) -> Result<(), FreqError>
    ensures { (outcome_of_grid result ≡ gain_outcome k_max n list.old) × (list.new ≡ gain_grid k_max n list.old) }
{
    sweep::check_grid(FreqError::InvalidParameter, n, k_max, list.len())?;
    for (i, place) in list[..n].iter_mut().enumerate() {
        *place = gain_at(k_max, n, i);
    }
    Ok(())
}
