// The first and the last reading of a sweep, which are what it shows to another one that comes behind it.
ghost use Rattle.std.specs.Prelude.{◌≡◌, []};
ghost use Rattle.sweep.specs.Scan.{zeros};
ghost use Rattle.sweep.specs.Ends.{ends_of, ends_behind, crossing_between};

use super::{Crossing, Reading, Readings};

// Where there are no readings the first and the last are zeros. (A host's struct may say so of others, and gets them back:
// so `read` stands beside them, and they are no Option.)
#[derive(Clone, Copy)]
pub struct Ends<R> {
    pub read: bool,
    pub first: R,
    pub last: R,
}

impl<R: Reading> Ends<R> {
    // Of no readings.
    pub fn none() -> Ends<R>
        ensures { result ≡ ends_of (zeros R.reading) [] }
    {
        Ends {
            read: false,
            first: R::zeros(),
            last: R::zeros(),
        }
    }

    // Of a sweep.
    pub fn of<S: Readings<R>>(sweep: &S) -> Ends<R>
        ensures { result ≡ ends_of (zeros R.reading) (S.readings sweep.now) }
    {
        let n = sweep.len();
        Ends {
            read: n != 0,
            first: sweep.at(0),
            last: sweep.at(n.saturating_sub(1)),
        }
    }

    // Of one sweep with another behind it.
    pub fn then(self, later: Ends<R>) -> Ends<R>
        ensures { result ≡ ends_behind self later }
    {
        Ends {
            read: self.read | later.read,
            first: if self.read { self.first } else { later.first },
            last: if later.read { later.last } else { self.last },
        }
    }

    // The crossing where one sweep goes over into another, if both have readings.
    pub fn crossing<C: Crossing<R>>(self, later: Ends<R>, crossing: &C) -> Option<f64>
        ensures { result ≡ crossing_between (C.pair crossing.now) self later }
    {
        if self.read & later.read {
            return crossing.pair(self.last, later.first);
        }
        None
    }
}
