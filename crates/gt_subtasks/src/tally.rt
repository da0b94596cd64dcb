ghost use Rattle.std.specs.Prelude.{◌≡◌, ◌^◌};
ghost use Rattle.gt_values.specs.Capped.{capped};
ghost use Rattle.gt_subtasks.specs.Kept.{IsPart, IsSmall, IsWithin};
ghost use Rattle.gt_subtasks.specs.Tally as spec;
ghost use Rattle.gt_subtasks.specs.TallySums as sums;

use crate::item::{Class, Item};
use gt_types::Counters;

/// The running numbers of a task. Sums are kept exactly, so that an item can be taken out of them: the rows are too few for
/// sums of 64-bit numbers to pass 128 bits.
#[derive(Clone, Copy, Debug)]
pub(crate) struct Tally {
    pub(crate) total: u64,
    pub(crate) pending: u64,
    pub(crate) retrying: u64,
    pub(crate) succeeded: u64,
    pub(crate) expired: u64,
    pub(crate) canceled: u64,
    pub(crate) failed: u64,
    pub(crate) skipped_errors: u64,
    pub(crate) files: u64,
    pub(crate) directories: u64,
    pub(crate) files_skipped: u64,
    pub(crate) files_transferred: u64,
    pub(crate) bytes_transferred: u128,
    pub(crate) bytes_checksummed: u128,
    pub(crate) faults: u128,
}

impl Tally {
    /// The numbers of a task without items.
    pub(crate) fn none() -> Tally
        ensures { result ≡ spec.no_items }
    {
        Tally {
            total: 0,
            pending: 0,
            retrying: 0,
            succeeded: 0,
            expired: 0,
            canceled: 0,
            failed: 0,
            skipped_errors: 0,
            files: 0,
            directories: 0,
            files_skipped: 0,
            files_transferred: 0,
            bytes_transferred: 0,
            bytes_checksummed: 0,
            faults: 0,
        }
    }

    /// What the item adds to the numbers of its task.
    pub(crate) fn of(item: &Item) -> Tally
        ensures share { result ≡ spec.share_of item.now }
        ensures small { IsSmall item.now }
    {
        Tally {
            total: 1,
            pending: bit(item.is_in(Class::Pending)),
            retrying: bit(item.is_in(Class::Retrying)),
            succeeded: bit(item.is_in(Class::Succeeded)),
            expired: bit(item.is_in(Class::Expired)),
            canceled: bit(item.is_in(Class::Canceled)),
            failed: bit(item.is_in(Class::Failed)),
            skipped_errors: bit(item.is_in(Class::Skipped)),
            files: bit(item.is_file()),
            directories: bit(item.is_directory()),
            files_skipped: bit(item.is_skipped_file()),
            files_transferred: bit(item.is_copied()),
            bytes_transferred: item.size_copied() as u128,
            bytes_checksummed: item.checked as u128,
            faults: item.faults as u128,
        }
    }

    /// The numbers with those of an item more.
    pub(crate) fn with(self, one: Tally) -> Tally
        requires all { IsWithin (2 ^ 32) (2 ^ 96) self }
        requires one { IsWithin 1 (2 ^ 64) one }
        ensures { result ≡ sums.with_share self one }
    {
        Tally {
            total: self.total + one.total,
            pending: self.pending + one.pending,
            retrying: self.retrying + one.retrying,
            succeeded: self.succeeded + one.succeeded,
            expired: self.expired + one.expired,
            canceled: self.canceled + one.canceled,
            failed: self.failed + one.failed,
            skipped_errors: self.skipped_errors + one.skipped_errors,
            files: self.files + one.files,
            directories: self.directories + one.directories,
            files_skipped: self.files_skipped + one.files_skipped,
            files_transferred: self.files_transferred + one.files_transferred,
            bytes_transferred: self.bytes_transferred + one.bytes_transferred,
            bytes_checksummed: self.bytes_checksummed + one.bytes_checksummed,
            faults: self.faults + one.faults,
        }
    }

    /// The numbers without those of an item.
    pub(crate) fn without(self, one: Tally) -> Tally
        requires { IsPart one self }
        ensures { result ≡ sums.without_share self one }
    {
        Tally {
            total: self.total - one.total,
            pending: self.pending - one.pending,
            retrying: self.retrying - one.retrying,
            succeeded: self.succeeded - one.succeeded,
            expired: self.expired - one.expired,
            canceled: self.canceled - one.canceled,
            failed: self.failed - one.failed,
            skipped_errors: self.skipped_errors - one.skipped_errors,
            files: self.files - one.files,
            directories: self.directories - one.directories,
            files_skipped: self.files_skipped - one.files_skipped,
            files_transferred: self.files_transferred - one.files_transferred,
            bytes_transferred: self.bytes_transferred - one.bytes_transferred,
            bytes_checksummed: self.bytes_checksummed - one.bytes_checksummed,
            faults: self.faults - one.faults,
        }
    }

    /// The numbers as they are told: a sum that would pass 2^64 - 1 stays there.
    pub(crate) fn counters(self) -> Counters
        ensures { result ≡ sums.told self }
    {
        Counters {
            total: self.total,
            pending: self.pending,
            retrying: self.retrying,
            succeeded: self.succeeded,
            expired: self.expired,
            canceled: self.canceled,
            failed: self.failed,
            skipped_errors: self.skipped_errors,
            files: self.files,
            directories: self.directories,
            files_skipped: self.files_skipped,
            files_transferred: self.files_transferred,
            bytes_transferred: told(self.bytes_transferred),
            bytes_checksummed: told(self.bytes_checksummed),
            faults: told(self.faults),
        }
    }
}

fn bit(is_so: bool) -> u64
    ensures { result ≡ spec.bit is_so }
{
    if is_so { 1 } else { 0 }
}

fn told(sum: u128) -> u64
    ensures { result ≡ capped sum }
{
    if sum > u64::MAX as u128 {
        u64::MAX
    } else {
        sum as u64
    }
}
