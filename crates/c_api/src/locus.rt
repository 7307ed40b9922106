// Points of the root locus, and whether poles are stable.
ghost use Rattle.std.specs.Prelude.{◌≡◌};
ghost use Rattle.root_locus.specs.Stability.{stable};
ghost use Rattle.root_locus.specs.Locus.{locus_point_at, point_of};
ghost use Rattle.places.specs.Complex.{poles_of};
ghost use Rattle.places.specs.Coefficients.{transfer_fn};
ghost use Rattle.c_api.specs.Points.{PointAnswers};

use root_locus::LocusPoint;
use sweep::FreqError;

#[unsafe(no_mangle)]
pub extern "C" fn bazintroa_stability_region(poles: &[f64; 16], count: usize) -> bool
    ensures { result ≡ stable (poles_of poles.now) count }
{
    root_locus::stability_region(places::poles_of(poles), count)
}

// The number of a point; gain, poles, count and the ending's kind and value go to their places. (One for each, as the C
// interface has them, where `places::Answer` has one place.)
fn put_point(
    point: Result<LocusPoint, FreqError>,
    gain: &mut f64,
    poles: &mut [f64; 16],
    count: &mut usize,
    ending: &mut u32,
    ending_value: &mut f64,
) -> u32
    ensures { PointAnswers (point_of point) result gain.old gain.new poles.old poles.new count.old count.new
        ending.old ending.new ending_value.old ending_value.new }
{
    match point {
        Err(e) => e.number(),
        Ok(point) => {
            *gain = point.gain;
            places::put_poles(point.poles, poles);
            *count = point.count;
            *ending = point.ending.number();
            *ending_value = point.ending.value();
            0
        }
    }
}

#[unsafe(no_mangle)]
pub extern "C" fn bazintroa_locus_point(
    b: &[f64; 8],
    a: &[f64; 8],
    order: usize,
    k_max: f64,
    n: usize,
    i: usize,
    gain: &mut f64,
    poles: &mut [f64; 16],
    count: &mut usize,
    ending: &mut u32,
    ending_value: &mut f64,
) -> u32
    ensures { PointAnswers (locus_point_at (transfer_fn b.now a.now order) k_max n i) result
        gain.old gain.new poles.old poles.new count.old count.new
        ending.old ending.new ending_value.old ending_value.new }
{
    put_point(
        root_locus::locus_point_lent(b, a, order, k_max, n, i),
        gain,
        poles,
        count,
        ending,
        ending_value,
    )
}
