ghost use Rattle.std.specs.Prelude.{◌≡◌, ◌==◌, ◌&&◌, ◌∷◌, ◌++◌, ◌+◌, ◌≤◌, IfSome, MatchOption, None, Some, drop, if◌then◌else◌, length, nat_le, position};
ghost use Rattle.std.specs.Str.{chars};
ghost use Rattle.gt_select.specs.Pattern.{is_in, is_negated, members_of, ranges};

use crate::piece::split_first;

/// Whether the text begins with `!`, and the text without that.
pub(crate) fn without_negation(text: &str) -> (bool, &str)
    ensures negated { result.0 ≡ is_negated (chars text.now) }
    ensures members { chars result.1.now
        ≡ (if is_negated (chars text.now) then drop 1 (chars text.now) else chars text.now) }
{
    match split_first(text) {
        Some(('!', rest)) => (true, rest),
        _ => (false, text),
    }
}

/// The first member of a class that begins there, its further members, and what stands behind its end.
pub(crate) fn class_at(text: &str) -> Option<(char, &str, &str)>
    ensures members { MatchOption result (members_of (chars text.now) ≡ None)
        (λ x. members_of (chars text.now) ≡ Some (x.0 ∷ chars x.1.now)) }
    ensures behind { IfSome result
        (λ x. chars x.2.now ≡ drop (length (chars x.1.now) + 2) (chars text.now)) }
{
    let (first, rest) = split_first(text)?;
    match split_at_end(rest) {
        Some((inner, behind)) => Some((first, inner, behind)),
        None => None,
    }
}

/// What stands before the first `]`, and what stands behind it.
fn split_at_end(text: &str) -> Option<(&str, &str)>
    ensures { MatchOption result (position (λ x. x == 93) (chars text.now) ≡ None)
        (λ x. (position (λ y. y == 93) (chars text.now) ≡ Some (length (chars x.0.now)))
        × (chars text.now ≡ chars x.0.now ++ 93 ∷ chars x.1.now)) }
{
    text.split_once(']')
}

/// Whether the character is in the class of these members.
pub(crate) fn is_in_class(first: char, inner: &str, character: char) -> bool
    ensures { result ≡ is_in character (ranges (first ∷ chars inner.now)) }
{
    let mut low = first;
    let mut rest = inner;
    'members: loop {
        let (high, behind) = range_end(low, rest);
        if is_between(low, character, high) {
            return true;
        }
        let Some((next, after)) = split_first(behind) else {
            return false;
        };
        low = next;
        rest = after;
    }
}

/// Whether the character is in the range of these two, both included.
fn is_between(low: char, character: char, high: char) -> bool
    ensures { result ≡ (nat_le low character && nat_le character high) }
{
    low <= character && character <= high
}

/// The last character of the range that begins with `first`, and the members behind it.
fn range_end(first: char, rest: &str) -> (char, &str)
    ensures range { ranges (first ∷ chars rest.now)
        ≡ (first, result.0) ∷ ranges (chars result.1.now) }
    ensures shorter { length result.1.now ≤ length rest.now }
{
    let Some(('-', after)) = split_first(rest) else {
        return (first, rest);
    };
    match split_first(after) {
        Some(range) => range,
        None => (first, rest),
    }
}
