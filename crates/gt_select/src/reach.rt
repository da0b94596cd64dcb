ghost use Rattle.gt_select.specs.Reached.{Tells};

use crate::piece::{behind_fit, split_first};

/// How far a pattern's pieces went over a name, each taking one character.
pub(crate) enum Reached<'a> {
    /// To a `*`: what the pattern has behind it, and what is left of the name.
    AtStar(&'a str, &'a str),
    /// To the end: whether the name matches.
    Ended(bool),
}

/// Goes over the pattern up to its next `*`.
pub(crate) fn reach<'a>(pattern: &'a str, name: &'a str) -> Reached<'a>
    ensures { Tells pattern.now name.now result }
{
    let mut rest = pattern;
    let mut left = name;
    'pieces: loop {
        let Some((first, behind)) = split_first(rest) else {
            return Reached::Ended(left.is_empty());
        };
        if first == '*' {
            return Reached::AtStar(behind, left);
        }
        let Some((character, after)) = split_first(left) else {
            return Reached::Ended(false);
        };
        let Some(next) = behind_fit(first, behind, character) else {
            return Reached::Ended(false);
        };
        rest = next;
        left = after;
    }
}
