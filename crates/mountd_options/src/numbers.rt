//! Options that take a number.
ghost use Rattle.std.specs.Prelude.{◌≡◌, ◌≤◌, ◌↔◌, IsTrue, MatchOption};
ghost use Rattle.mountd_options.specs.Numbers.{IsNoNumber, NamesNumber, IsWithin, NoneWithin, SaysNone};
ghost use Rattle.mountd_options.specs.Numbers.{least_of, most_of, number_name};

use eden_wire::read_number;
use std::fmt::{self, Display, Formatter, Write};

/// An option whose value is a number.
#[derive(Clone, Copy, Debug)]
pub enum NumberOption {
    /// How many entries the history holds.
    History,
    /// How many objects the cache holds.
    CacheEntries,
    /// How many bytes the cache's objects have together.
    CacheBytes,
    /// The port of a server; 0 lets the machine choose one.
    Port,
    /// How many connections a server takes.
    Sessions,
    /// How many objects a served mount asks for at once.
    Fetchers,
    /// How many threads serve a folder.
    Threads,
    /// When what a folder shows was changed, if it never was; in seconds since 1970.
    Since,
}

impl NumberOption {
    /// Its name, without the dashes.
    pub fn name(self) -> &'static str
        ensures { result.now ≡ number_name self }
    {
        match self {
            NumberOption::History => "history",
            NumberOption::CacheEntries => "cache-entries",
            NumberOption::CacheBytes => "cache-bytes",
            NumberOption::Port => "port",
            NumberOption::Sessions => "sessions",
            NumberOption::Fetchers => "fetchers",
            NumberOption::Threads => "threads",
            NumberOption::Since => "since",
        }
    }

    /// The least number that it takes.
    pub fn least(self) -> u64
        ensures { result ≡ least_of self }
    {
        match self {
            NumberOption::Port | NumberOption::Since => 0,
            NumberOption::History
            | NumberOption::CacheEntries
            | NumberOption::CacheBytes
            | NumberOption::Sessions
            | NumberOption::Fetchers
            | NumberOption::Threads => 1,
        }
    }

    /// The greatest number that it takes.
    pub fn most(self) -> u64
        ensures { result ≡ most_of self }
    {
        match self {
            NumberOption::History => u32::MAX as u64,
            NumberOption::CacheEntries => 65_536,
            NumberOption::CacheBytes => 1 << 40,
            NumberOption::Port => u16::MAX as u64,
            NumberOption::Sessions => 64,
            NumberOption::Fetchers => 16,
            NumberOption::Threads => 63,
            NumberOption::Since => 1 << 40,
        }
    }

    /// Whether the text stands for no number. The history's alone may: with `none` there is none.
    pub fn is_none(self, text: &str) -> bool
        ensures { IsTrue result ↔ SaysNone self text.now }
    {
        match self {
            NumberOption::History => text == "none",
            NumberOption::CacheEntries
            | NumberOption::CacheBytes
            | NumberOption::Port
            | NumberOption::Sessions
            | NumberOption::Fetchers
            | NumberOption::Threads
            | NumberOption::Since => false,
        }
    }

    /// The number that the text spells, in decimal digits with neither a sign nor a leading zero.
    ///
    /// None exactly if the text spells no number, or one that the option doesn't take.
    pub fn read(self, text: &str) -> Option<u64>
        ensures { MatchOption result (IsNoNumber self text.now) (NamesNumber self text.now) }
    {
        read_within(text, self.least(), self.most())
    }
}

/// The number within these bounds that the text spells, in decimal digits with neither a sign nor a leading zero.
pub(crate) fn read_within(text: &str, least: u64, most: u64) -> Option<u64>
    ensures { MatchOption result (NoneWithin least most text.now) (IsWithin least most text.now) }
{
    let number = read_number(text.as_bytes())?;
    if number < least || number > most {
        return None;
    }
    Some(number)
}

/// What the option takes.
impl Display for NumberOption {
    fn fmt<W: Write>(&self, f: &mut Formatter<W>) -> fmt::Result {
        write!(
            f,
            "--{} takes a number from {} to {}",
            self.name(),
            self.least(),
            self.most()
        )?;
        match self {
            NumberOption::History => f.write_str(", or none"),
            _ => Ok(()),
        }
    }
}
