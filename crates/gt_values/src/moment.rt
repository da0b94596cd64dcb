ghost use Rattle.gt_values.specs.Moment as spec;
ghost use Rattle.gt_values.specs.Moment.{last_moment};
ghost use Rattle.jiff.specs.Words.{civil_nanos, iso_datetime_text};
ghost use Rattle.std.specs.Option.{ok_or};
ghost use Rattle.std.specs.Prelude.{◌≡◌, ◌≤◌, ◌*◌, ◌++◌, IfOk, None, Some, codes, if◌then◌else◌, nat_le, pos, string_bytes};

use crate::moment_text;
use crate::sequence::Exact;
use jiff::civil::DateTime;
use jiff_core::civil;
use std::alloc::{AllocError, Global};
use std::marker::Model;
use thiserror::Error;

/// The seconds of the last moment, 9999-12-31T23:59:59Z.
pub(crate) const LAST: u64 = 253_402_300_799;

/// Why a text is no moment.
#[derive(Clone, Copy, Debug, PartialEq, Eq, Error)]
pub enum MomentFault {
    /// The text is outside the form, names an impossible date, or stands for a time before 1970 or after the year 9999.
    #[error("the text is no moment")]
    Refused,
}

/// A moment: whole seconds since 1970-01-01T00:00:00Z, from 0 to 253,402,300,799. Contracts see the number.
#[derive(Clone, Copy, Debug, PartialEq, Eq, PartialOrd, Ord)]
pub struct Moment {
    seconds: u64,
}

impl Model for Moment {
    ghost use Rattle.gt_values.specs.Moment.{last_moment};
    ghost use Rattle.std.specs.Prelude.{ℕ, ◌≤◌};

    ghost Value = { ℕ };

    ghost view = { λ m. m.seconds };

    ghost inverse = { λ n. record { seconds = n } };

    ghost invariant = { λ m. m.seconds ≤ last_moment };
}

impl Moment {
    /// The moment so many seconds after 1970-01-01T00:00:00Z, if it is in range.
    pub fn of(seconds: u64) -> Option<Moment>
        ensures { result ≡ (if nat_le seconds last_moment then Some seconds else None) }
    {
        if seconds <= LAST {
            Some(Moment { seconds })
        } else {
            None
        }
    }

    /// 1970-01-01T00:00:00Z.
    pub fn zero() -> Moment
        ensures { result ≡ 0 }
    {
        Moment { seconds: 0 }
    }

    /// The seconds since 1970-01-01T00:00:00Z.
    pub fn seconds(&self) -> u64
        ensures value { result ≡ self.now }
        ensures bound { result ≤ last_moment }
    {
        self.seconds
    }

    /// The moment that a text stands for, in a profile of RFC 3339: `YYYY-MM-DD`, then `T`, `t` or a space, `hh:mm:ss`,
    /// optionally `.` and 1 to 9 digits that are dropped, then `Z`, `z`, `+hh:mm`, `-hh:mm` or nothing for UTC.
    ///
    /// A second of 60 is read as 59. `Refused` for a text of another form, an impossible date, or a time out of range.
    pub fn read(text: &str) -> Result<Moment, MomentFault>
        ensures { result ≡ ok_or (spec.moment_of text.now) MomentFault.Refused }
    {
        match moment_text::seconds(text.as_bytes()) {
            Some(seconds) => Ok(Moment { seconds }),
            None => Err(MomentFault::Refused),
        }
    }

    /// The text of the moment: `YYYY-MM-DDThh:mm:ss+00:00`.
    pub fn print(&self, alloc: Global) -> Result<String, AllocError>
        ensures text { IfOk result (λ text. string_bytes text ≡ spec.printed self.now) }
        ensures back { IfOk result (λ text. spec.moment_of (string_bytes text) ≡ Some self.now) }
    {
        text_of(alloc, civil_at(self.seconds))
    }
}

impl Exact for Moment {
    ghost use Rattle.std.proofs.Common.{rules};

    ghost exact = { Prim.search rules };
}

// What a clock in UTC shows.
fn civil_at(seconds: u64) -> DateTime
    requires { seconds ≤ last_moment }
    ensures { civil_nanos result ≡ pos (seconds * 1_000_000_000) }
{
    let nanos = seconds as i128 * 1_000_000_000;
    DateTime::from_plain(civil::DateTime::from_nanosecond_in_range(nanos))
}

// The text of that clock, with the offset of UTC.
fn text_of(alloc: Global, civil: DateTime) -> Result<String, AllocError>
    ensures { IfOk result (λ text. string_bytes text ≡ iso_datetime_text civil ++ codes "+00:00") }
{
    format!(in alloc; "{civil}+00:00")
}
