ghost use Rattle.std.specs.Prelude.{◌≡◌};
ghost use Rattle.gt_types.specs.Event as events;
ghost use Rattle.gt_values.specs.Forms as values;

use gt_types::{
    Event, Happening, is_access_spec, is_recordable_outcome, is_transfer_spec, is_worker,
};
use gt_values::Moment;

/// Whether the event is within the forms and limits of a record, where the collections are so many.
pub(crate) fn is_recordable(count: u32, event: &Event) -> bool
    ensures { result ≡ events.is_recordable count event.now }
{
    is_moment(event.moment) && has_collections(count, &event.what) && is_happening(&event.what)
}

fn has_collections(count: u32, what: &Happening) -> bool
    ensures { result ≡ events.has_collections count what.now }
{
    match what {
        Happening::SubmitTransfer { spec, .. } => spec.source < count && spec.destination < count,
        Happening::SubmitDelete { spec, .. } => spec.collection < count,
        Happening::PauseAdd { spec } => spec.collection < count,
        Happening::AccessAdd { collection, .. } => *collection < count,
        Happening::Issue { .. }
        | Happening::AccessReplace { .. }
        | Happening::AccessEnd { .. }
        | Happening::PauseEnd { .. }
        | Happening::Cancel { .. }
        | Happening::Update { .. }
        | Happening::GrantItem { .. }
        | Happening::RefuseItem { .. }
        | Happening::ReportItem { .. }
        | Happening::Sweep { .. }
        | Happening::Restart => true,
    }
}

fn is_happening(what: &Happening) -> bool
    ensures { result ≡ events.is_recordable_happening what.now }
{
    match what {
        Happening::Issue { identity } => identity.is_id(),
        Happening::SubmitTransfer {
            owner,
            submission,
            spec,
        } => owner.is_id() && submission.is_id() && is_transfer_spec(spec),
        Happening::AccessAdd { spec, .. } => is_access_spec(spec),
        Happening::AccessReplace { rule, .. } | Happening::AccessEnd { rule } => *rule <= u64::MAX,
        Happening::GrantItem { worker, item } => is_worker(*worker) && *item <= u64::MAX,
        Happening::RefuseItem { item, .. } => *item <= u64::MAX,
        Happening::ReportItem {
            item,
            grant,
            outcome,
        } => *item <= u64::MAX && *grant <= u64::MAX && is_recordable_outcome(outcome),
        Happening::Restart => true,
        Happening::SubmitDelete { .. }
        | Happening::PauseAdd { .. }
        | Happening::PauseEnd { .. }
        | Happening::Cancel { .. }
        | Happening::Update { .. }
        | Happening::Sweep { .. } => false,
    }
}

// A moment is in range by its type.
fn is_moment(moment: Moment) -> bool
    ensures { result ≡ values.is_moment moment }
{
    let _seconds = moment.seconds();
    true
}
