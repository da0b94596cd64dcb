ghost use Rattle.std.specs.FinMap as map;
ghost use Rattle.std.specs.Option.{unwrap_or};
ghost use Rattle.std.specs.Prelude.{◌≡◌, ◌≤◌, ◌<◌, ◌+◌, IfSome, IsNone, OnOk, false, filter, min, nat_eq, not, ℕ};
ghost use Rattle.std.specs.Vec.{vec_capacity, vec_len};
ghost use Rattle.gt_claims.specs.Claims.{IsLeastClaimed, IsLeastConflict, is_claimed_with, is_in_conflict, uses};

use crate::claim::Claim;
use crate::conflict::{InConflict, Test, Uses};
use gt_paths::Path;
use gt_types::Act;
use std::alloc::{AllocError, Global};
use std::marker::Model;

/// The claims of the running items. Contracts see the map from items to claims, and the number of claims that can be added
/// without memory.
#[derive(Debug, Drop)]
pub struct Claims {
    // Each item once, in no order.
    entries: Vec<(u64, Claim)>,
}

impl Model for Claims {
    ghost use Rattle.std.specs.FinMap.{from_entries};
    ghost use Rattle.std.specs.Prelude.{◌-◌};
    ghost use Rattle.std.specs.Vec.{vec_capacity, vec_len};
    ghost use Rattle.gt_claims.specs.Table.{ClaimTable, IsEachOnce, claim_table_code};
    ghost use Rattle.gt_claims.specs.contracts.claim.Claim.{the_row};
    ghost use Rattle.gt_claims.specs.declared.claim.Claim.{Claim};

    ghost Value = { ClaimTable Claim };

    ghost coded = { claim_table_code the_row.coded };

    ghost view = { λ c. record {
      claims = from_entries c.entries.items;
      spare = vec_capacity c.entries - vec_len c.entries;
    } };

    ghost invariant = { λ c. IsEachOnce c.entries.items };
}

impl Claims {
    /// No claim. Takes no memory.
    pub fn new(alloc: Global) -> Claims
        ensures { result.claims ≡ map.empty }
    {
        Claims {
            entries: Vec::new(alloc),
        }
    }

    /// Takes room for so many more claims.
    pub fn reserve(&mut self, more: u64) -> Result<(), AllocError>
        ensures claims { self.new.claims ≡ self.old.claims }
        ensures room { OnOk result (more ≤ self.new.spare) }
        ensures kept { self.old.spare ≤ self.new.spare }
    {
        self.entries.reserve(more as usize)
    }

    /// The least item whose claim is in conflict with the act on these collections of its task, if there is one.
    /// Takes no memory.
    ///
    /// Two acts are in conflict where, on one collection, a path that one writes overlaps a path that the other reads or
    /// writes.
    pub fn conflict(&self, act: &Act, source: u32, destination: u32) -> Option<u64>
        ensures least { IfSome result (IsLeastConflict source destination act.now self.now.claims) }
        ensures none { IsNone result → (item : ℕ)
            → is_in_conflict source destination act.now self.now.claims item ≡ false }
    {
        self.least(&InConflict {
            act,
            source,
            destination,
        })
    }

    /// The least item whose claim reads or writes a path of the collection that overlaps with this one, if there is one.
    /// Takes no memory.
    pub fn user_of(&self, collection: u32, path: &Path) -> Option<u64>
        ensures least { IfSome result (IsLeastClaimed (uses collection path.now) self.now.claims) }
        ensures none { IsNone result → (item : ℕ)
            → is_claimed_with (uses collection path.now) self.now.claims item ≡ false }
    {
        self.least(&Uses { collection, path })
    }

    // The least item whose claim passes.
    fn least<T: Test>(&self, asked: &T) -> Option<u64>
        ensures least { IfSome result (IsLeastClaimed (T.test asked.now) self.now.claims) }
        ensures none { IsNone result → (item : ℕ)
            → is_claimed_with (T.test asked.now) self.now.claims item ≡ false }
    {
        let mut least = None;
        for (item, claim) in &self.entries {
            if asked.passes(claim) {
                least = Some(lesser(*item, least));
            }
        }
        least
    }

    /// Puts the claim of the item, in place of one that the item has. Takes no memory.
    pub fn put(&mut self, item: u64, claim: Claim)
        requires { 0 < self.old.spare }
        ensures claims { self.new.claims ≡ map.insert self.old.claims item claim }
        ensures spare { self.old.spare ≤ self.new.spare + 1 }
    {
        self.drop_item(item);
        self.entries.push_reserved((item, claim));
    }

    /// Drops the claim of the item, if it has one.
    pub fn drop_item(&mut self, item: u64)
        ensures claims { self.new.claims ≡ map.remove self.old.claims item }
        ensures spare { self.old.spare ≤ self.new.spare }
    {
        drop_entry(&mut self.entries, item);
    }
}

// The item, or the least one so far where that is less.
fn lesser(item: u64, least: Option<u64>) -> u64
    ensures { result ≡ min (unwrap_or least item) item }
{
    match least {
        Some(other) if other < item => other,
        _ => item,
    }
}

// Drops the entries of the item.
fn drop_entry(entries: &mut Vec<(u64, Claim)>, item: u64)
    ensures entries { entries.new.items
        ≡ filter (λ entry. not (nat_eq entry.0 item)) entries.old.items }
    ensures bound { vec_len entries.new ≤ vec_len entries.old }
    ensures capacity { vec_capacity entries.new ≡ vec_capacity entries.old }
{
    entries.retain(|entry| entry.0 != item);
}
