//! The readers of a moment's text. Each takes a part from the front of the bytes and gives its value and what is left.
ghost use Rattle.std.specs.Prelude.{◌≡◌, ◌+◌, ◌*◌, ◌<◌, ◌≤◌, length, IfSome, Some, None, option_map, pos, ◌≤ℤ◌, ◌+ℤ◌, ◌-ℤ◌, ◌*ℤ◌, neg_ℤ, unsigned_abs, if◌then◌else◌};
ghost use Rattle.jiff_core.specs.Calendar.{days_from_civil, IsEpochDay};
ghost use Rattle.gt_values.specs.Grammar as spec;
ghost use Rattle.gt_values.specs.Moment.{in_range, last_moment, moment_of};
ghost use Rattle.gt_values.specs.Reads.{rest_view, read_view};

use crate::moment::LAST;
use jiff::civil::Date;

// The text after this byte.
fn after(s: &[u8], byte: u8) -> Option<&[u8]>
    ensures { rest_view result ≡ spec.after byte s.now }
{
    match s {
        [first, rest @ ..] if *first == byte => Some(rest),
        _ => None,
    }
}

// A number of two digits.
#[tactic(auto, unfolding(crate::specs::Grammar::two_digits))]
fn two_digits(s: &[u8]) -> Option<(u8, &[u8])>
    ensures value { read_view result ≡ spec.two_digits s.now }
    ensures bound { IfSome result (λ p. p.0 < 100) }
{
    match s {
        [high @ b'0'..=b'9', low @ b'0'..=b'9', rest @ ..] => {
            Some(((*high - b'0') * 10 + (*low - b'0'), rest))
        }
        _ => None,
    }
}

// A number of four digits.
#[tactic(auto, unfolding(crate::specs::Grammar::four_digits))]
fn four_digits(s: &[u8]) -> Option<(u16, &[u8])>
    ensures value { read_view result ≡ spec.four_digits s.now }
    ensures bound { IfSome result (λ p. p.0 < 10_000) }
{
    let (century, s) = two_digits(s)?;
    let (year, s) = two_digits(s)?;
    Some((century as u16 * 100 + year as u16, s))
}

// The day number of a date, if the calendar has it.
fn day_number(year: u16, month: u8, day: u8) -> Option<i32>
    requires year_in { year < 10_000 }
    requires month_in { month < 100 }
    requires day_in { day < 100 }
    ensures value { result
        ≡ (if spec.is_date year month day
        then Some (days_from_civil (pos year) month day)
        else None) }
    ensures bound { IfSome result IsEpochDay }
{
    match Date::new(year as i16, month as i8, day as i8) {
        Ok(date) => Some(date.to_plain().to_unix_epoch_day()),
        Err(_) => None,
    }
}

// YYYY-MM-DD, as a day number.
#[tactic(auto, unfolding(crate::specs::Grammar::date))]
fn date(s: &[u8]) -> Option<(i32, &[u8])>
    ensures value { read_view result ≡ spec.date s.now }
    ensures bound { IfSome result (λ p. IsEpochDay p.0) }
{
    let (year, s) = four_digits(s)?;
    let s = after(s, b'-')?;
    let (month, s) = two_digits(s)?;
    let s = after(s, b'-')?;
    let (day, s) = two_digits(s)?;
    Some((day_number(year, month, day)?, s))
}

// hh:mm:ss, as seconds since midnight. A second of 60 counts as 59.
#[tactic(auto, unfolding(crate::specs::Grammar::clock))]
fn clock(s: &[u8]) -> Option<(u32, &[u8])>
    ensures value { read_view result ≡ spec.clock s.now }
    ensures bound { IfSome result (λ p. p.0 < 86_400) }
{
    let (hour, s) = two_digits(s)?;
    let s = after(s, b':')?;
    let (minute, s) = two_digits(s)?;
    let s = after(s, b':')?;
    let (second, s) = two_digits(s)?;
    if hour > 23 || minute > 59 || second > 60 {
        return None;
    }
    Some((
        hour as u32 * 3600 + minute as u32 * 60 + second.min(59) as u32,
        s,
    ))
}

// `T`, `t` or a space.
#[tactic(auto, unfolding(crate::specs::Grammar::after_mark))]
fn after_mark(s: &[u8]) -> Option<&[u8]>
    ensures { rest_view result ≡ spec.after_mark s.now }
{
    match s {
        [b'T' | b't' | b' ', rest @ ..] => Some(rest),
        _ => None,
    }
}

// How many digits stand at the front.
fn digits(s: &[u8]) -> usize
    ensures value { result ≡ spec.digits s.now }
    ensures within { result ≤ length s.now }
{
    s.iter().take_while(|b| b.is_ascii_digit()).count()
}

// A dot and one to nine digits, or nothing.
#[tactic(auto, unfolding(crate::specs::Grammar::after_fraction))]
fn after_fraction(s: &[u8]) -> Option<&[u8]>
    ensures { rest_view result ≡ spec.after_fraction s.now }
{
    match s {
        [b'.', rest @ ..] => {
            let len = digits(rest);
            if len < 1 || len > 9 {
                return None;
            }
            Some(&rest[len..])
        }
        _ => Some(s),
    }
}

// hh:mm to the end of the text, in seconds.
#[tactic(auto, unfolding(crate::specs::Grammar::hours_and_minutes))]
fn hours_and_minutes(s: &[u8]) -> Option<i32>
    ensures value { option_map unsigned_abs result ≡ spec.hours_and_minutes s.now }
    ensures bound { IfSome result (λ n. (pos 0 ≤ℤ n) × (n ≤ℤ pos 86_399)) }
{
    let (hour, s) = two_digits(s)?;
    let s = after(s, b':')?;
    let (minute, s) = two_digits(s)?;
    if hour > 23 || minute > 59 || !s.is_empty() {
        return None;
    }
    Some(hour as i32 * 3600 + minute as i32 * 60)
}

// The offset to the end of the text, in seconds east of UTC.
#[tactic(auto, unfolding(crate::specs::Grammar::offset))]
fn offset(s: &[u8]) -> Option<i32>
    ensures value { result ≡ spec.offset s.now }
    ensures bound { IfSome result (λ n. (neg_ℤ (pos 86_399) ≤ℤ n) × (n ≤ℤ pos 86_399)) }
{
    match s {
        [] | [b'Z'] | [b'z'] => Some(0),
        [b'+', rest @ ..] => hours_and_minutes(rest),
        [b'-', rest @ ..] => Some(-hours_and_minutes(rest)?),
        _ => None,
    }
}

// The seconds, if they are those of a moment.
fn in_range(seconds: i64) -> Option<u64>
    ensures value { result ≡ in_range seconds }
    ensures bound { IfSome result (λ n. n ≤ last_moment) }
{
    if seconds >= 0 && seconds <= LAST as i64 {
        Some(seconds as u64)
    } else {
        None
    }
}

// The seconds of a day number and a time of day on a clock that is so far east of UTC.
fn seconds_at(day: i32, time: u32, east: i32) -> i64
    requires day_in { IsEpochDay day }
    requires time_in { time < 86_400 }
    requires east_in { (neg_ℤ (pos 86_399) ≤ℤ east) × (east ≤ℤ pos 86_399) }
    ensures { result ≡ day *ℤ pos 86_400 +ℤ pos time -ℤ east }
{
    day as i64 * 86_400 + time as i64 - east as i64
}

/// The seconds of the moment that the text stands for.
#[tactic(auto, unfolding(crate::specs::Moment::moment_of))]
pub(crate) fn seconds(s: &[u8]) -> Option<u64>
    ensures value { result ≡ moment_of s.now }
    ensures bound { IfSome result (λ n. n ≤ last_moment) }
{
    let (day, s) = date(s)?;
    let s = after_mark(s)?;
    let (time, s) = clock(s)?;
    let s = after_fraction(s)?;
    let east = offset(s)?;
    in_range(seconds_at(day, time, east))
}
