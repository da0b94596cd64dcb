//! The members that the documents of several submissions have.
ghost use Rattle.gt_documents.specs.Reading.{ReadsAs};
ghost use Rattle.gt_requests.specs.Shared as spec;
ghost use Rattle.gt_requests.specs.Shared.{deadline_at, kept_at, label_at};
ghost use Rattle.gt_types.specs.Forms.{is_kept, is_label};
ghost use Rattle.gt_types.specs.Kept.{bit_of};
ghost use Rattle.gt_values.specs.Forms.{if_there};
ghost use Rattle.serde_json.specs.View.{view};
ghost use Rattle.std.specs.Prelude.{◌≡◌, ◌<◌, ◌*◌, IfOk, true};

use gt_documents::{DocumentFault, Place, TextLimit, absent, flag, text_if_there};
use gt_types::{Kept, KeptMember};
use gt_values::Text;
use serde_json::Value;
use std::alloc::Global;

/// The label, if there is one: at most 128 characters.
pub(crate) fn read_label(alloc: Global, object: &Value) -> Result<Option<Text>, DocumentFault>
    ensures value { ReadsAs (label_at (view object.now)) result }
    ensures limits { IfOk result (λ label. if_there is_label label ≡ true) }
{
    text_if_there(alloc, object, "label", TextLimit::Characters(128))
}

/// Tests that no deadline is asked.
pub(crate) fn read_deadline(object: &Value) -> Result<(), Place>
    ensures { result ≡ deadline_at (view object.now) }
{
    absent(object, "deadline")
}

/// Which of the members without effect are given, and which of those are true.
#[tactic(auto, unfolding(crate::specs::Shared::kept_at))]
pub(crate) fn read_kept(object: &Value) -> Result<Kept, Place>
    ensures value { result ≡ kept_at (view object.now) }
    ensures limits { IfOk result (λ kept. is_kept kept ≡ true) }
{
    let kept = with_member(object, Kept::none(), KeptMember::NotifyOnSucceeded)?;
    let kept = with_member(object, kept, KeptMember::NotifyOnFailed)?;
    let kept = with_member(object, kept, KeptMember::NotifyOnInactive)?;
    let kept = with_member(object, kept, KeptMember::EncryptData)?;
    let kept = with_member(object, kept, KeptMember::FailOnQuotaErrors)?;
    let kept = with_member(object, kept, KeptMember::StoreBasePathInfo)?;
    Ok(kept)
}

// The same with what is given of one more member.
fn with_member(object: &Value, kept: Kept, member: KeptMember) -> Result<Kept, Place>
    requires below { kept.given < bit_of member }
    requires good { is_kept kept ≡ true }
    ensures value { result ≡ spec.with_member (view object.now) kept member }
    ensures below { IfOk result (λ kept. kept.given < 2 * bit_of member) }
    ensures good { IfOk result (λ kept. is_kept kept ≡ true) }
{
    let flag = flag(object, member.name())?;
    Ok(kept.with(member, flag))
}
