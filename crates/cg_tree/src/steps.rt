ghost use Rattle.std.specs.Prelude.{◌≡◌, ◌^◌, ◌<◌};
ghost use Rattle.cg_base.specs.Counts.{raised};

/// How many steps some work took.
#[derive(Debug, Drop)]
pub struct Steps {
    count: u64,
    ghost small: { count < 2 ^ 64 },
}

impl Steps {
    /// No steps so far.
    pub fn new() -> Steps
        ensures { result.count ≡ 0 }
    {
        Steps { count: 0 }
    }

    /// One step more. The count stays at 2^64 - 1 once there.
    pub fn tick(&mut self)
        ensures { self.new.count ≡ raised self.old.count }
    {
        self.count = self.count.saturating_add(1);
    }

    /// How many steps there were, at most 2^64 - 1.
    pub fn count(&self) -> u64
        ensures { result ≡ self.now.count }
    {
        self.count
    }
}
