//! What every stream of bytes has: the number of its failed calls.

ghost use Rattle.std.specs.Prelude.{◌≡◌, ℕ, None};

use std::io;

/// A stream of bytes that counts its failed calls.
pub trait Device {
    // How many calls have failed.
    ghost failed_calls: { Self → ℕ };

    /// How many calls of `read` or `write` have failed so far.
    fn failures(&self) -> u64
        ensures { result ≡ failed_calls self.now };

    /// What the system said of the last call that failed, where that is known.
    fn reason(&self) -> Option<io::Error> {
        None
    }
}

/// A reader or a writer of the standard library, and the number of its failed calls.
#[derive(Drop)]
pub struct Counted<D> {
    /// The reader or writer.
    pub device: D,
    /// How many of its calls have failed.
    pub failures: u64,
    /// What the system said of the last one that failed, where that is known.
    pub reason: Option<io::Error>,
}

impl<D> Counted<D> {
    /// The reader or writer, with no failed call yet.
    pub fn new(device: D) -> Counted<D>
        ensures { result ≡ record { device = device; failures = 0; reason = None } }
    {
        Counted {
            device,
            failures: 0,
            reason: None,
        }
    }
}

impl<D> Device for Counted<D> {
    ghost failed_calls = { λ s. s.failures };

    fn failures(&self) -> u64 {
        self.failures
    }

    fn reason(&self) -> Option<io::Error> {
        self.reason
    }
}
