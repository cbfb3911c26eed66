use std::alloc::Global;
use std::io;
use std::time::Instant;

/// What is printed of a part of a workload: the text around the number that came of it, and the name of its time.
#[derive(Clone, Copy)]
pub struct Part<'a> {
    pub before: &'a str,
    pub after: &'a str,
    pub time: &'a str,
}

/// By what a workload allocates and prints, and whether it prints times. The gate compares outputs, so it runs without.
#[derive(Clone, Copy)]
pub struct Bench<'a> {
    pub rt: &'a HostRuntime,
    pub is_timed: bool,
}

impl Bench<'_> {
    pub fn alloc(self) -> Global {
        self.rt.alloc()
    }

    /// When a part begins; none if times aren't printed, or if there is no clock.
    pub fn start(self) -> Option<Instant> {
        if self.is_timed {
            Instant::now(self.rt).ok()
        } else {
            None
        }
    }

    /// How many seconds passed since a part began.
    fn seconds(self, start: Option<Instant>) -> Option<f64> {
        match start?.elapsed(self.rt) {
            Ok(passed) => Some(passed.as_secs_f64()),
            Err(_) => None,
        }
    }

    /// How many nanoseconds each of this many took since a part began.
    pub fn nanoseconds_each(self, start: Option<Instant>, count: u32) -> Option<f64> {
        let seconds = self.seconds(start)?;
        Some(seconds * 1e9 / f64::from(count.max(1)))
    }

    /// Prints how long a part took since it began.
    pub fn time(self, part: &str, start: Option<Instant>) -> io::Result<()> {
        match self.seconds(start) {
            None => Ok(()),
            Some(seconds) => println!(self.rt; "  {part}: {seconds:.3} s"),
        }
    }

    /// Prints how long each of this many took since they began.
    pub fn time_each(self, part: &str, start: Option<Instant>, count: u32) -> io::Result<()> {
        match self.nanoseconds_each(start, count) {
            None => Ok(()),
            Some(nanoseconds) => println!(self.rt; "  {part}: {nanoseconds:.1} ns"),
        }
    }

    /// Prints what came of a part, and how long each of this many took since it began.
    pub fn tell(self, part: Part, came: u64, start: Option<Instant>, count: u32) -> io::Result<()> {
        println!(self.rt; "{}{came}{}", part.before, part.after)?;
        self.time_each(part.time, start, count)
    }
}
