// How fast a run reads, and when that is told.
ghost use Rattle.std.specs.Prelude.{◌≡◌, ◌≤◌, ◌+◌, ◌-◌, ◌^◌, ◌↔◌, min, IsTrue, None, Some, unwrap_or};
ghost use Rattle.std.specs.Bool.{OnFalse, OnTrue};
ghost use Rattle.real_terminal.specs.Pace.{IsDue};

use std::time::Instant;

/// How many bytes are read between two looks at the clock.
pub const LOOK_BYTES: u64 = 1_000_000;

// For how many nanoseconds a run reads before the first line.
const SILENT_NANOS: u128 = 1_000_000_000;

// For how many nanoseconds a line stands at least.
const STANDING_NANOS: u128 = 200_000_000;

/// How many bytes were read, when reading began, and when a line was shown last.
#[derive(Clone, Copy)]
pub struct Pace {
    total: u64,
    unlooked: u64,
    began: Option<Instant>,
    shown: Option<Instant>,
}

impl Pace {
    /// Nothing was read. The first read looks at the clock.
    pub fn new() -> Self
        ensures total { result.total ≡ 0 }
        ensures began { result.began ≡ None }
        ensures shown { result.shown ≡ None }
    {
        Pace {
            total: 0,
            unlooked: LOOK_BYTES,
            began: None,
            shown: None,
        }
    }

    /// How many bytes were read.
    pub fn total(&self) -> u64
        ensures { result ≡ self.now.total }
    {
        self.total
    }

    /// Counts bytes that were read, and answers whether to look at the clock.
    pub fn count(&mut self, bytes: u64) -> bool
        ensures total { self.new.total ≡ min (self.old.total + bytes) (2 ^ 64 - 1) }
        ensures looks { IsTrue result ↔ (LOOK_BYTES ≤ self.old.unlooked + bytes) }
        ensures unlooked { OnFalse result (self.new.unlooked ≡ self.old.unlooked + bytes) }
        ensures looked { OnTrue result (self.new.unlooked ≡ 0) }
        ensures began { self.new.began ≡ self.old.began }
        ensures shown { self.new.shown ≡ self.old.shown }
    {
        self.total = self.total.saturating_add(bytes);
        self.unlooked = self.unlooked.saturating_add(bytes);
        let looks = self.unlooked >= LOOK_BYTES;
        if looks {
            self.unlooked = 0;
        }
        looks
    }

    /// Takes a look at the clock, and answers whether a line is to be shown. The first look tells when reading began.
    pub fn look(&mut self, now: Instant) -> bool
        ensures due { IsTrue result ↔ IsDue self.old.began self.old.shown now }
        ensures shown { OnTrue result (self.new.shown ≡ Some now) }
        ensures stands { OnFalse result (self.new.shown ≡ self.old.shown) }
        ensures began { self.new.began ≡ Some (unwrap_or self.old.began now) }
        ensures total { self.new.total ≡ self.old.total }
    {
        let began = self.began.unwrap_or(now);
        self.began = Some(began);
        let is_late = now.duration_since(began).as_nanos() >= SILENT_NANOS;
        let has_stood = match self.shown {
            Some(shown) => now.duration_since(shown).as_nanos() >= STANDING_NANOS,
            None => true,
        };
        let is_due = is_late && has_stood;
        if is_due {
            self.shown = Some(now);
        }
        is_due
    }

    /// How many bytes were read in a millisecond, from the first look on.
    pub fn bytes_a_millisecond(&self, now: Instant) -> u64 {
        let began = self.began.unwrap_or(now);
        let milliseconds = now.duration_since(began).as_millis().max(1);
        let rate = u128::from(self.total) / milliseconds;
        u64::try_from(rate).unwrap_or(u64::MAX)
    }
}
