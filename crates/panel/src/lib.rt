// The entries of the regulator's set-up panel: gain and phase crossover of readings in bytes. A reading has 24 bytes:
// the frequency, the magnitude in decibels and the phase in degrees, each an f64, the least byte first. `panel_c` exports
// the entries.
#![tactic(auto)]

ghost use Rattle.std.specs.Prelude.{◌≡◌, ℕ, refl, ◌+◌, ◌*◌, ◌/◌, ◌<◌, ◌≤◌, length, get_or, [], IfOk};
ghost use Rattle.wire.specs.Bytes.{u64_at};
ghost use Rattle.sweep.specs.Refusal.{refusal_of};
ghost use Rattle.sweep.specs.Answer.{outcome_of, scanned};
ghost use Rattle.bode.specs.Bode.{gain_crossover, phase_crossover, Crossover, Gain, Phase, pair_of, crossover_of};
ghost use Rattle.bode.specs.declared.Reading.{Reading};
ghost use Rattle.panel.specs.Panel.{decoded, panel_refusal, panel_outcome, Replies};
ghost use Rattle.panel.specs.Scanning.{read, place_of, lies_on, side_of};

use bode::{Gain, Phase, Reading};
use sweep::{Crossing, FreqError, Readings};

// Readings in bytes. (`sweep::first_crossing` scans them too, and took 1.3 to 2.4 times the list scan's time, where the bar is
// 1.5 and `first_crossing` below takes 0.4 to 1.2.)
#[derive(Clone, Copy)]
struct Bytes<'a> {
    readings: &'a [[u8; 24]],
}

impl<'a> Bytes<'a> {
    // The whole readings of bytes.
    #[tactic(auto, using(crate::proofs::Chunks::chunks_read))]
    fn of(bytes: &'a [u8]) -> Bytes<'a>
        ensures { read result.readings.now ≡ decoded bytes.now }
    {
        Bytes {
            readings: bytes.as_chunks().0,
        }
    }

    // The bit pattern of the value that tells, in reading i.
    fn pattern<T: Told>(self, i: usize) -> u64
        requires { i < length self.readings.now }
        ensures { result ≡ u64_at (get_or self.entry.readings.now i []) (place_of T.which) }
    {
        wire::u64_at(&self.readings[i], T::PLACE)
    }
}

#[tactic(auto, unfolding(crate::specs::Panel::reading_at), using(crate::proofs::Decoded::read_length, crate::proofs::Decoded::read_at, crate::proofs::Decoded::read_past))]
impl Readings<Reading> for Bytes<'_> {
    ghost readings = { λ s. read s.readings.now };

    fn len(&self) -> usize {
        self.readings.len()
    }

    fn at(&self, i: usize) -> Reading {
        match self.readings.get(i) {
            Some(bytes) => Reading {
                omega: wire::f64_at(bytes, 0),
                db: wire::f64_at(bytes, 8),
                phase: wire::f64_at(bytes, 16),
            },
            None => sweep::Reading::zeros(),
        }
    }
}

// A side of what is sought. Two values that lie on one do not cross; no value lies on the third. (An `Option` of two sides was
// tried: the gain's scan then took up to 1.8 times the list scan's time, with `is_some_and` 2.5, where the bar is 1.5.)
#[derive(Clone, Copy)]
enum Side {
    Above,
    Below,
    Neither,
}

// A crossover that one value of a reading tells: the value's place in the bytes of a reading, and whether it lies on a side,
// by its bit pattern.
trait Told: Crossing<Reading> {
    ghost which: { Crossover };

    ghost PLACE: { ℕ };

    const PLACE: usize;

    fn lies(side: Side, pattern: u64) -> bool
        ensures { result ≡ lies_on which side pattern };

    ghost place: { PLACE ≡ place_of which };

    ghost pairs: { (s : Self) (a b : Reading) → Self.pair s a b ≡ pair_of which a b };
}

// Of 0 dB: a NaN, which crosses nothing, goes by its sign.
impl Told for Gain {
    ghost which = { Gain };

    ghost PLACE = { place_of Gain };

    ghost place = { refl };

    ghost pairs = { λ s a b. refl };

    const PLACE: usize = 8;

    fn lies(side: Side, pattern: u64) -> bool {
        let sign = 0x8000_0000_0000_0000;
        match side {
            Side::Above => (0 < pattern) & (pattern < sign),
            Side::Below => sign < pattern,
            Side::Neither => false,
        }
    }
}

// Of -180 degrees: what is not above counts as below, a NaN too.
impl Told for Phase {
    ghost which = { Phase };

    ghost PLACE = { place_of Phase };

    ghost place = { refl };

    ghost pairs = { λ s a b. refl };

    const PLACE: usize = 16;

    fn lies(side: Side, pattern: u64) -> bool {
        match side {
            Side::Above => wire::f64_from_bits(pattern) > -180.0,
            Side::Below => !(wire::f64_from_bits(pattern) > -180.0),
            Side::Neither => false,
        }
    }
}

// The side on which a value lies.
fn side_of<T: Told>(pattern: u64) -> Side
    ensures { result ≡ side_of T.which pattern }
{
    if T::lies(Side::Above, pattern) {
        return Side::Above;
    }
    if T::lies(Side::Below, pattern) {
        return Side::Below;
    }
    Side::Neither
}

// The first crossing. Readings are passed over while they lie on the side of the one before; the others are looked at with
// it. (By place: a run is passed over by one value of each reading, and two whole readings are made where the side changes;
// pairs of chunks would be no plainer.)
#[tactic(auto, using(bode::proofs::Crossovers::crossover_is, sweep::proofs::Scans::pair_next, sweep::proofs::Scans::pair_found, sweep::proofs::Scans::pairs_done, crate::proofs::Decoded::read_length, crate::proofs::Scanning::nowhere, crate::proofs::Scanning::quiet_next, crate::proofs::Scanning::run_on, crate::proofs::Scanning::run_begins))]
fn first_crossing<T: Told>(told: &T, readings: Bytes) -> Option<f64>
    ensures { result ≡ crossover_of T.which (read readings.entry.readings.now) }
{
    let mut side = Side::Neither;
    for i in 1..readings.len() {
        let pattern = readings.pattern::<T>(i);
        if T::lies(side, pattern) {
            continue;
        }
        let found = told.pair(readings.at(i - 1), readings.at(i));
        if found.is_some() {
            return found;
        }
        side = side_of::<T>(pattern);
    }
    None
}

// The conditions of a call with n bytes of readings and `room` bytes for the answer.
#[tactic(auto, unfolding(crate::specs::Panel::panel_refusal))]
fn check_panel(n: usize, room: usize) -> Result<(), FreqError>
    ensures refusal { refusal_of result ≡ panel_refusal n room }
    ensures room { IfOk result (λ x. 8 ≤ room) }
{
    if n % 24 != 0 {
        return Err(FreqError::WrongByteCount);
    }
    if 4096 < n / 24 {
        return Err(FreqError::TooMany);
    }
    if room < 8 {
        return Err(FreqError::NoRoom);
    }
    Ok(())
}

// The first crossing, or the refusal: what a call with `room` bytes for the answer comes to.
#[tactic(auto, using(sweep::proofs::Answers::scan_turned_away, sweep::proofs::Answers::scan_let_through))]
fn crossing<T: Told>(told: &T, readings: &[u8], room: usize) -> Result<Option<f64>, FreqError>
    ensures outcome { outcome_of result ≡ scanned (panel_refusal (length readings.now) room) (crossover_of T.which (decoded readings.now)) }
    ensures room { IfOk result (λ x. 8 ≤ room) }
{
    check_panel(readings.len(), room)?;
    Ok(first_crossing(told, Bytes::of(readings)))
}

// The number of what a call comes to; a frequency goes to the first eight bytes of `answer`. (Bytes and a number, for the C
// interface. `places::Answer` puts floats: the frequency would be put into a float first, and its bytes be written from there.)
#[tactic(auto, using(crate::proofs::Replies::value_written, crate::proofs::Replies::none_told, crate::proofs::Replies::refusal_told))]
fn reply<T: Told>(told: &T, readings: &[u8], answer: &mut [u8]) -> u32
    ensures { Replies (panel_outcome (crossover_of T.which) readings.now answer.old) result answer.old answer.new }
{
    match crossing(told, readings, answer.len()) {
        Ok(Some(x)) => {
            wire::put_f64(answer, x);
            0
        }
        Ok(None) => 100,
        Err(e) => e.number(),
    }
}

// The gain crossover of readings in bytes.
#[unsafe(no_mangle)]
pub extern "C" fn bazintroa_panel_gain_crossover(readings: &[u8], answer: &mut [u8]) -> u32
    ensures { Replies (panel_outcome gain_crossover readings.now answer.old) result answer.old answer.new }
{
    reply(&Gain, readings, answer)
}

// The phase crossover of readings in bytes.
#[unsafe(no_mangle)]
pub extern "C" fn bazintroa_panel_phase_crossover(readings: &[u8], answer: &mut [u8]) -> u32
    ensures { Replies (panel_outcome phase_crossover readings.now answer.old) result answer.old answer.new }
{
    reply(&Phase, readings, answer)
}
