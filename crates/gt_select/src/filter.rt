ghost use Rattle.std.specs.Option.{option_map_or};
ghost use Rattle.std.specs.Prelude.{◌≡◌, option_and_then, slice_get, true};
ghost use Rattle.gt_select.specs.Filter.{first_rule_of, is_about, is_chosen, is_of_kind};

use crate::pattern::pattern_matches;
use gt_paths::Name;
use gt_types::{FilterRule, Kind};

/// The place of the first rule that is about an entry of this name and kind. That rule decides whether the entry is
/// taken; where there is none, it is.
pub fn first_rule(rules: &[FilterRule], name: &Name, kind: Kind) -> Option<usize>
    ensures first { result ≡ first_rule_of rules.now name.now kind }
    ensures chosen { is_chosen rules.now name.now kind
        ≡ option_map_or (λ rule. rule.include) (option_and_then (slice_get rules.now) result) true }
{
    rules.iter().position(|rule| is_about(rule, name, kind))
}

/// Whether the rule is about an entry of this name and kind.
fn is_about(rule: &FilterRule, name: &Name, kind: Kind) -> bool
    ensures { result ≡ is_about name.now kind rule.now }
{
    is_of_kind(kind, rule.kind) && pattern_matches(rule.pattern.as_str(), name.as_str())
}

/// Whether a rule for this kind is about the kind of an entry.
fn is_of_kind(kind: Kind, rule: Option<Kind>) -> bool
    ensures { result ≡ is_of_kind kind rule }
{
    match rule {
        Some(of) => of == kind,
        None => true,
    }
}
