ghost use Rattle.std.specs.Prelude.{IfNone, IfSome, IsNone, None, false, length, true, ◌<◌, ◌≡◌, ◌≢◌, ℕ};
ghost use Rattle.gt_folders.specs.Slots.{is_filled};

use std::alloc::{AllocError, Global};
use std::os::fd::{AsRawFd, OwnedFd};

// How many can be open at once: more than a forest needs.
const ROOM: usize = 32;

/// What is open, by number.
#[derive(Drop)]
pub(crate) struct Table {
    slots: Vec<Option<OwnedFd>>,
}

impl Table {
    /// Nothing is open.
    pub(crate) fn new(alloc: Global) -> Result<Table, AllocError> {
        let mut slots = Vec::with_capacity(alloc, ROOM)?;
        for _ in 0..ROOM {
            slots.push(None)?;
        }
        Ok(Table { slots })
    }

    // The first number that is free.
    fn free(&self) -> Option<usize>
        ensures room { IfSome result (λ n. n < length self.now.slots.items) }
        ensures value { IfSome result (λ n. is_filled self.now.slots.items n ≡ false) }
    {
        for number in 0..self.slots.len() {
            if self.slots[number].is_none() {
                return Some(number);
            }
        }
        None
    }

    /// Puts a descriptor under a number that is free. It is closed where there is none.
    pub(crate) fn put(&mut self, fd: OwnedFd) -> Option<usize>
        ensures was { IfSome result (λ n. is_filled self.old.slots.items n ≡ false) }
        ensures is { IfSome result (λ n. is_filled self.new.slots.items n ≡ true) }
        ensures others { IfSome result (λ n. (m : ℕ) → m ≢ n
            → is_filled self.new.slots.items m ≡ is_filled self.old.slots.items m) }
        ensures err { result ≡ None → self.new ≡ self.old }
    {
        let number = self.free()?;
        self.slots[number] = Some(fd);
        Some(number)
    }

    /// The descriptor that is open under a number.
    pub(crate) fn get(&self, number: usize) -> Option<i32>
        ensures { is_filled self.now.slots.items number ≡ false → result ≡ None }
    {
        if number >= self.slots.len() {
            return None;
        }
        match &self.slots[number] {
            Some(fd) => Some(fd.as_raw_fd()),
            None => None,
        }
    }

    /// Closes what is open under a number.
    pub(crate) fn close(&mut self, number: usize)
        ensures is { is_filled self.new.slots.items number ≡ false }
        ensures others { (m : ℕ) → m ≢ number
            → is_filled self.new.slots.items m ≡ is_filled self.old.slots.items m }
    {
        if number < self.slots.len() {
            self.slots[number] = None;
        }
    }
}
