ghost use Rattle.std.specs.Prelude.{◌≡◌, ◌≤◌};
ghost use Rattle.cg_io.specs.Calls.{no_calls, will_fail, after_call};

use cg_base::List;

/// Calls counted from 0, of which those fail whose numbers stand in a list.
#[derive(Debug, Drop)]
pub(crate) struct Calls {
    /// The numbers of the calls that fail.
    failing: List<u64>,
    /// The number of the next call. None where it is past 2^64 - 1, which no list holds.
    next: Option<u64>,
    /// How many calls have failed. It stays at 2^64 - 1.
    faults: u64,
}

impl Calls {
    /// No call yet, and those with these numbers will fail.
    pub(crate) fn new(failing: List<u64>) -> Calls
        ensures { result ≡ no_calls failing }
    {
        Calls {
            failing,
            next: Some(0),
            faults: 0,
        }
    }

    /// Counts a call, and says whether it fails.
    pub(crate) fn count(&mut self) -> bool
        ensures fails { result ≡ will_fail self.old }
        ensures counted { self.new ≡ after_call self.old }
        ensures later { self.old.faults ≤ self.new.faults }
    {
        let fails = match self.next {
            Some(number) => self.failing.as_slice().contains(&number),
            None => false,
        };
        if fails {
            self.faults = self.faults.saturating_add(1);
        }
        self.next = match self.next {
            Some(number) => number.checked_add(1),
            None => None,
        };
        fails
    }
}
