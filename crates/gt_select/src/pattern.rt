ghost use Rattle.std.specs.Prelude.{◌≡◌};
ghost use Rattle.std.specs.Str.{chars};
ghost use Rattle.gt_select.specs.Pattern.{matches, pieces_after};
ghost use Rattle.gt_select.specs.Reached.{is_match_of_end};

use crate::piece::split_first;
use crate::reach::{Reached, reach};

/// Whether the whole name matches the pattern, by characters and with case.
///
/// `*` is any characters, none included, and `?` is one. `[..]` is one character of a class and `[!..]` one that isn't;
/// a class ends at the next `]` that isn't its first member, has ranges as `a-z`, and without an end the `[` is itself.
/// Takes no memory, and time in the product of the two lengths at most.
#[tactic(auto, unfolding(crate::specs::Pattern::matches))]
pub fn pattern_matches(pattern: &str, name: &str) -> bool
    ensures { result ≡ matches (chars pattern.now) (chars name.now) }
{
    match reach(pattern, name) {
        Reached::AtStar(behind, left) => matches_an_end(behind, left),
        Reached::Ended(matched) => matched,
    }
}

/// Whether the pattern matches an end of the name. Only the place of the last `*` is remembered: what its characters
/// are matters no more once a later `*` is reached.
fn matches_an_end(pattern: &str, name: &str) -> bool
    ensures { result ≡ is_match_of_end (pieces_after 0 (chars pattern.now)) (chars name.now) }
{
    let mut behind = pattern;
    let mut from = name;
    'ends: loop {
        match reach(behind, from) {
            Reached::AtStar(next, left) => {
                behind = next;
                from = left;
            }
            Reached::Ended(true) => return true,
            Reached::Ended(false) => {
                let Some((_, after)) = split_first(from) else {
                    return false;
                };
                from = after;
            }
        }
    }
}
