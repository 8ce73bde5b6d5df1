ghost use Rattle.std.specs.Prelude.{◌≡◌};
ghost use Rattle.cg_demo.specs.Demo.{next, drawn};

/// Numbers that look random, and are determined by the first state.
#[derive(Drop)]
pub(crate) struct Draws {
    pub(crate) state: u64,
}

impl Draws {
    /// The next number, below 2^31.
    pub(crate) fn draw(&mut self) -> u64
        ensures drawn { result ≡ drawn self.old.state }
        ensures next { self.new.state ≡ next self.old.state }
    {
        let state = u128::from(self.state) * 6364136223846793005 + 1442695040888963407;
        self.state = (state % (1 << 64)) as u64;
        self.state / (1 << 33)
    }
}
