//! The calls of an end in memory: which of them fail, and how many did.
ghost use Rattle.std.specs.Prelude.{◌≡◌, ◌≤◌, true};
ghost use Rattle.serve_io.specs.Causes.{Rose, one_more};
ghost use Rattle.serve_io.specs.Calls.{fails_next, calls_after};

/// Counts calls from 1. Those whose numbers are listed fail.
#[derive(Debug, Drop)]
pub(crate) struct Calls {
    failing: Vec<u64>,
    count: u64,
    /// How many faults there were.
    pub faults: u64,
}

impl Calls {
    /// No call yet.
    pub fn new(failing: Vec<u64>) -> Calls
        ensures { result ≡ record { failing = failing; count = 0; faults = 0 } }
    {
        Calls {
            failing,
            count: 0,
            faults: 0,
        }
    }

    /// Counts a fault.
    pub fn fault(&mut self)
        ensures calls { self.new ≡ record self.old { faults = one_more self.old.faults } }
        ensures later { self.old.faults ≤ self.new.faults }
        ensures rose { Rose self.old.faults self.new.faults }
    {
        self.faults = self.faults.saturating_add(1);
    }

    /// Counts a call, and its fault where it is one that fails.
    pub fn next_fails(&mut self) -> bool
        ensures fails { result ≡ fails_next self.old }
        ensures calls { self.new ≡ calls_after self.old result }
        ensures later { self.old.faults ≤ self.new.faults }
        ensures rose { result ≡ true → Rose self.old.faults self.new.faults }
    {
        self.count = self.count.saturating_add(1);
        if self.failing.contains(&self.count) {
            self.fault();
            return true;
        }
        false
    }
}
