//! The faults of a real device: they are counted, and the first hundred are said on standard error.
#![tactic(auto)]

#[cfg(test)]
mod tests;

ghost use Rattle.std.specs.Prelude.{◌≡◌, ◌≤◌};
ghost use Rattle.gt_causes.specs.Causes.{Rose};
ghost use Rattle.gt_causes.specs.Counts.{counted};

use gt_causes::Failed;
use std::fmt::Display;
use std::io::{self, Cursor, Write};
use std::marker::Model;

// So many faults of a device are said.
const SAID: u64 = 100;

// The longest text of a fault, in bytes: a path of the system has 4,096, and so has one below it.
const ROOM: usize = 10_000;

/// The faults of a device: their count, which stops at 2^64 - 1, and the name by which a person knows the device.
#[derive(Drop)]
pub struct Faults {
    name: String,
    count: u64,
}

impl Model for Faults {
    ghost use Rattle.std.specs.Prelude.{ℕ};

    ghost Value = { ℕ };

    ghost view = { λ f. f.count };
}

impl Faults {
    /// None yet, of a device of this name.
    pub fn new(name: String) -> Faults
        ensures { result ≡ 0 }
    {
        Faults { name, count: 0 }
    }

    /// How many there were.
    pub fn count(&self) -> u64
        ensures { result ≡ self.now }
    {
        self.count
    }

    /// Counts a fault. The first hundred are said, with the operation that failed and the system's reason.
    pub fn add(&mut self, operation: &str, reason: io::Error) -> Failed
        ensures value { self.new ≡ counted self.old }
        ensures same { self.old ≤ self.new }
        ensures cause { Rose self.old self.new }
    {
        if self.count < SAID {
            say_fault(self.name.as_str(), operation, reason);
        }
        self.count = self.count.saturating_add(1);
        Failed
    }

    /// Counts a fault in the same way, and says it of this part of the device.
    pub fn add_at<N: Display + Drop>(
        &mut self,
        part: N,
        operation: &str,
        reason: io::Error,
    ) -> Failed
        ensures value { self.new ≡ counted self.old }
        ensures same { self.old ≤ self.new }
        ensures cause { Rose self.old self.new }
    {
        if self.count < SAID {
            say_fault(part, operation, reason);
        }
        self.count = self.count.saturating_add(1);
        Failed
    }
}

// Says a fault in one write, so that two devices don't mix their lines. That standard error fails is let pass.
fn say_fault<N: Display + Drop>(name: N, operation: &str, reason: io::Error) {
    let mut line = Cursor::new([0u8; ROOM]);
    let _ = write_fault(&mut line, name, operation, reason);
    let length = (line.position() as usize).min(ROOM);
    let text = line.into_inner();
    let _ = libc::write(libc::STDERR_FILENO, &text[..length]);
}

// The line that says a fault: the device, the operation, and the system's reason.
fn write_fault<W: Write, N: Display + Drop>(
    to: &mut W,
    name: N,
    operation: &str,
    reason: io::Error,
) -> io::Result<()> {
    writeln!(to, "transferd: {name}: {operation} failed: {reason}")
}
