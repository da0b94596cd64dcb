ghost use Rattle.std.specs.Prelude.{◌≡◌, find, option_map};
ghost use Rattle.gt_pauses.specs.Paused as spec;

use crate::row::{PauseAct, PauseRow};
use gt_types::PauseSpec;
use gt_values::{Id, is_alive};

/// The number of the first row that pauses this act of the identity on the collection at the event `seq`, by a walk over
/// all of them.
pub(crate) fn paused_on(
    rows: &[PauseRow],
    seq: u64,
    identity: &Id,
    collection: u32,
    act: PauseAct,
) -> Option<u64>
    ensures { result ≡ option_map (λ row. row.number)
        (find (spec.pauses seq identity.now collection act) rows.now) }
{
    rows.iter()
        .find(|row| pauses(row, seq, identity, collection, act))
        .map(|row| row.number)
}

// Whether the row is alive at the event `seq`, and pauses this act of the identity on the collection.
fn pauses(row: &PauseRow, seq: u64, identity: &Id, collection: u32, act: PauseAct) -> bool
    ensures { result ≡ spec.pauses seq identity.now collection act row.now }
{
    is_alive(seq, row.born, row.ended)
        && row.spec.collection == collection
        && has_act(&row.spec, act)
        && is_for(&row.spec, identity)
}

/// The rule's member for the act.
pub(crate) fn has_act(rule: &PauseSpec, act: PauseAct) -> bool
    ensures { result ≡ spec.has_act act rule.now }
{
    match act {
        PauseAct::TransferRead => rule.transfer_read,
        PauseAct::TransferWrite => rule.transfer_write,
        PauseAct::Delete => rule.delete,
        PauseAct::Ls => rule.ls,
        PauseAct::Mkdir => rule.mkdir,
    }
}

// Whether the rule is for this identity: a rule that names none is for all.
fn is_for(rule: &PauseSpec, identity: &Id) -> bool
    ensures { result ≡ spec.is_for identity.now rule.now }
{
    match &rule.identity {
        None => true,
        Some(id) => id == identity,
    }
}
