//! A thread that waits, or runs until it does.
ghost use Rattle.std.specs.Prelude.{◌≡◌};
ghost use Rattle.wait_set.specs.Waits.{is_left, is_ready};

use crate::spot_list::SpotList;

/// What is kept of a thread that waits, or runs until it does.
#[derive(Drop)]
pub struct Waiting {
    /// The spots at which it stands.
    pub spots: SpotList,

    /// Whether it stands at each spot, those of the list or not.
    pub everywhere: bool,

    /// Whether it was ready when it was tested last.
    pub ready: bool,

    /// Whether it is left to be tested.
    pub left: bool,

    /// Whether it runs, and doesn't wait.
    pub runs: bool,
}

impl Waiting {
    /// Whether it waits, and is marked as ready.
    pub fn is_ready(&self) -> bool
        ensures { result ≡ is_ready self.now }
    {
        self.ready && !self.runs
    }

    /// Whether it waits, and is left to be tested.
    pub fn is_left(&self) -> bool
        ensures { result ≡ is_left self.now }
    {
        self.left && !self.runs
    }
}
