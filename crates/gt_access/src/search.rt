ghost use Rattle.std.specs.List.{list_any};
ghost use Rattle.std.specs.Prelude.{◌≡◌, ◌<◌, filter, max, ℕ};
ghost use Rattle.gt_access.specs.Best.{rank, top};
ghost use Rattle.gt_access.specs.Indexed.{is_rule_at, is_rule_of};
ghost use Rattle.gt_access.specs.Filed.{NoneAfter};
ghost use Rattle.gt_access.specs.Right.{applies as row_applies, deepest, greatest_right};
ghost use Rattle.gt_access.specs.Rule.{is_live_access};
ghost use Rattle.gt_index.specs.Index.{IsIndex, passes_at, places_where};

use crate::key::{Place, RuleKey};
use crate::row::{AccessRow, Right};
use gt_index::{Index, Keyed};
use gt_paths::{Name, Path};
use gt_types::{Principal, Who};

/// The places of the live rows for the collection, the path of these names, and the principal.
pub(crate) fn live_run<'a>(
    rows: &[AccessRow],
    live: &'a Index,
    collection: u32,
    names: &[Name],
    principal: Principal,
) -> &'a [u32]
    requires { IsIndex ⟦<RuleKey as Ord>⟧.cmp ⟦<AccessRow as Keyed>⟧.key
        is_live_access rows.now live.now.places }
    ensures { result.now ≡ places_where (is_rule_at collection names.now principal) rows.now }
{
    live.run(
        rows,
        &Place {
            collection,
            names,
            principal,
        },
    )
}

/// What the live rows let the caller do with the path at an event that comes after all that made or ended a row.
///
/// Of the fronts of the path, longest first, the first that has a rule for the caller decides.
pub(crate) fn right_now(
    rows: &[AccessRow],
    live: &Index,
    seq: u64,
    who: &Who,
    collection: u32,
    path: &Path,
) -> Right
    requires index { IsIndex ⟦<RuleKey as Ord>⟧.cmp ⟦<AccessRow as Keyed>⟧.key
        is_live_access rows.now live.now.places }
    requires coming { (last : ℕ) × NoneAfter last rows.now × (last < seq) }
    ensures { result ≡ greatest_right
        (deepest (filter (row_applies seq who.now collection path.now) rows.now)) }
{
    let names = path.as_slice();
    let mut depth = names.len() + 1;
    while depth > 0 {
        depth -= 1;
        let right = front_right(rows, live, who, collection, &names[..depth]);
        if right != Right::Nothing {
            return right;
        }
    }
    Right::Nothing
}

// What the live rows of just this path give the caller: as its identity, as each of its groups,
// and as anybody.
fn front_right(
    rows: &[AccessRow],
    live: &Index,
    who: &Who,
    collection: u32,
    names: &[Name],
) -> Right
    requires { IsIndex ⟦<RuleKey as Ord>⟧.cmp ⟦<AccessRow as Keyed>⟧.key
        is_live_access rows.now live.now.places }
    ensures { rank result ≡ top (is_rule_of collection names.now who.now) rows.now }
{
    let own = Principal::Identity(who.identity);
    let own = live_right(rows, live, collection, names, own);
    let all = live_right(rows, live, collection, names, Principal::AllAuthenticated);
    let any = live_right(rows, live, collection, names, Principal::Anonymous);
    let mut best = greater(own, greater(all, any));
    for group in who.groups.as_slice() {
        let group = live_right(rows, live, collection, names, Principal::Group(*group));
        best = greater(best, group);
    }
    best
}

// What the live rows of just this path give the principal.
fn live_right(
    rows: &[AccessRow],
    live: &Index,
    collection: u32,
    names: &[Name],
    principal: Principal,
) -> Right
    requires { IsIndex ⟦<RuleKey as Ord>⟧.cmp ⟦<AccessRow as Keyed>⟧.key
        is_live_access rows.now live.now.places }
    ensures { rank result ≡ top (is_rule_at collection names.now principal) rows.now }
{
    let run = live_run(rows, live, collection, names, principal);
    if any_writes(rows, run) {
        Right::Write
    } else if run.is_empty() {
        Right::Nothing
    } else {
        Right::Read
    }
}

// Whether a row at one of the places lets one write.
fn any_writes(rows: &[AccessRow], places: &[u32]) -> bool
    ensures { result ≡ list_any (passes_at (λ row. row.spec.write) rows.now) places.now }
{
    places.iter().any(|place| may_write(rows, *place))
}

// Whether the row at the place lets one write.
fn may_write(rows: &[AccessRow], place: u32) -> bool
    ensures { result ≡ passes_at (λ row. row.spec.write) rows.now place }
{
    rows.get(place as usize).is_some_and(|row| row.spec.write)
}

// The greater of the two.
fn greater(a: Right, b: Right) -> Right
    ensures { rank result ≡ max (rank a) (rank b) }
{
    if a > b { a } else { b }
}
