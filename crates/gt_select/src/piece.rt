ghost use Rattle.std.specs.Prelude.{◌≡◌, ◌∷◌, ◌<◌, [], MatchOption, IfSome, drop, length, false, true};
ghost use Rattle.std.specs.Str.{chars};
ghost use Rattle.gt_select.specs.Pattern.{fits, single_at};

use crate::class::{class_at, is_in_class, without_negation};

/// The first character of the text, and the text behind it.
pub(crate) fn split_first(text: &str) -> Option<(char, &str)>
    ensures chars { MatchOption result (chars text.now ≡ [])
        (λ x. chars text.now ≡ x.0 ∷ chars x.1.now) }
    ensures shorter { IfSome result (λ x. length x.1.now < length text.now) }
{
    let mut chars = text.chars();
    let first = chars.next()?;
    Some((first, chars.as_str()))
}

/// What stands behind the piece that begins with `first`, where the piece stands for the character.
pub(crate) fn behind_fit<'a>(first: char, rest: &'a str, character: char) -> Option<&'a str>
    ensures { MatchOption result (fits (single_at first (chars rest.now)).0 character ≡ false)
        (λ behind. (fits (single_at first (chars rest.now)).0 character ≡ true)
        × (chars behind.now ≡ drop (single_at first (chars rest.now)).1 (chars rest.now))) }
{
    match first {
        '?' => Some(rest),
        '[' => behind_class(rest, character),
        _ if first == character => Some(rest),
        _ => None,
    }
}

/// The same of a piece that begins with `[`: a class, or the bracket itself where no class ends.
fn behind_class(rest: &str, character: char) -> Option<&str>
    ensures { MatchOption result (fits (single_at 91 (chars rest.now)).0 character ≡ false)
        (λ behind. (fits (single_at 91 (chars rest.now)).0 character ≡ true)
        × (chars behind.now ≡ drop (single_at 91 (chars rest.now)).1 (chars rest.now))) }
{
    let (negated, text) = without_negation(rest);
    match class_at(text) {
        Some((first, inner, behind)) => {
            let is_in = is_in_class(first, inner, character);
            if is_in != negated { Some(behind) } else { None }
        }
        None if character == '[' => Some(rest),
        None => None,
    }
}
