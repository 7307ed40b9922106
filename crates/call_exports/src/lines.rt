// The lines that the program writes.
use std::io;
use std::io::Print;

// What a place holds before a call.
pub(crate) const MARK: f64 = -7.25;

// Whether a call gave what is expected.
pub(crate) fn verdict(rt: &impl Print, name: &str, right: bool) -> io::Result<()> {
    let outcome = if right {
        "as expected"
    } else {
        "NOT as expected"
    };
    println!(rt; "bazintroa_{name}: {outcome}")
}

// The first place in which two lists differ, as far as the shorter goes.
fn first_other(x: &[f64], y: &[f64]) -> Option<usize> {
    x.iter()
        .zip(y)
        .position(|(x, y)| wire::f64_to_bits(*x) != wire::f64_to_bits(*y))
}

// A number and places, each with what is expected; where they differ, what they are. No list has more than 16 places, so
// place 16 is told where all are the same. (A call that returns no number has 0 for it: functions without one beside these
// would be longer.)
pub(crate) fn list(
    rt: &impl Print,
    name: &str,
    number: u32,
    is: u32,
    places: &[f64],
    are: &[f64],
) -> io::Result<()> {
    let other = first_other(places, are);
    let right = (number == is) & (places.len() == are.len()) & other.is_none();
    verdict(rt, name, right)?;
    if !right {
        let place = other.unwrap_or(16);
        let bits = places.get(place).map_or(0, |x| wire::f64_to_bits(*x));
        println!(rt; "    number {number}, place {place} holds {bits:016x}")?;
    }
    Ok(())
}

pub(crate) fn real(
    rt: &impl Print,
    name: &str,
    number: u32,
    is: u32,
    x: f64,
    expected: f64,
) -> io::Result<()> {
    list(rt, name, number, is, &[x], &[expected])
}

// A comparison that finds nothing is found here.
pub(crate) fn tell_apart(rt: &impl Print) -> io::Result<()> {
    let last = first_other(&[1.0, 2.0], &[1.0, 3.0]);
    let sign = first_other(&[0.0], &[-0.0]);
    if (last == Some(1)) & (sign == Some(0)) {
        println!(rt; "lists that differ: told apart")?;
    }
    Ok(())
}
