ghost use Rattle.std.specs.Prelude.{◌≡◌, ◌≤◌, ◌<◌, ◌+◌, true, false};

/// When a caller unloads loaded directories that nobody uses any more, so that memory doesn't grow with all that was
/// ever touched. What the mount shows stays.
#[derive(Clone, Copy)]
pub struct Unloading {
    /// After how many requests of its own. Below 2 it is after each.
    pub every: u32,
    /// For how many turns of the mount a directory wasn't used.
    pub age: u64,
    /// How many requests came since directories were last let go.
    pub came: u32,
}

impl Unloading {
    /// Seldom enough that the walk over what is loaded costs little beside the requests.
    pub fn usual() -> Unloading {
        Unloading {
            every: 4_096,
            age: 65_536,
            came: 0,
        }
    }

    /// Counts a request. Whether it is time to let go, from which on requests are counted anew.
    pub fn is_due(&mut self) -> bool
        ensures due { result ≡ true → (self.old.every ≤ self.old.came + 1) × (self.new ≡ record self.old { came = 0 }) }
        ensures not_yet { result ≡ false → (self.old.came + 1 < self.old.every)
            × (self.new ≡ record self.old { came = self.old.came + 1 }) }
    {
        if self.every > 1 && self.came < self.every - 1 {
            self.came += 1;
            return false;
        }
        self.came = 0;
        true
    }
}
