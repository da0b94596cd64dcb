//! The tests of limits, one function each.
ghost use Rattle.gt_paths.specs.Path as paths;
ghost use Rattle.gt_paths.specs.Name.{is_name};
ghost use Rattle.gt_types.specs.Event as events;
ghost use Rattle.gt_types.specs.Forms as forms;
ghost use Rattle.gt_types.specs.Listing as listing;
ghost use Rattle.gt_types.specs.Outcome as outcomes;
ghost use Rattle.gt_types.specs.SpecForms as limits;
ghost use Rattle.gt_values.specs.Forms as values;
ghost use Rattle.gt_values.specs.Forms.{if_there, is_id, is_moment};
ghost use Rattle.std.specs.List.{list_all};
ghost use Rattle.std.specs.Prelude.{◌≡◌, length};
ghost use Rattle.std.specs.Str.{chars};

use crate::change::{DeadlineChange, LabelChange};
use crate::kept::Kept;
use crate::listing::Entry;
use crate::outcome::{Evidence, Outcome};
use crate::rule::{AccessSpec, PauseSpec, Principal};
use crate::spec::{DeleteSpec, FilterRule, TransferEntry, TransferSpec};
use gt_paths::Path;
use gt_values::{Digest, Id, Moment, Text};

/// Whether the text is a label: at most 128 characters.
pub fn is_label(label: &str) -> bool
    ensures { result ≡ forms.is_label label.now }
{
    count_of(label) <= 128
}

fn count_of(text: &str) -> usize
    ensures { result ≡ length (chars text.now) }
{
    text.chars().count()
}

/// Whether the text is a pause rule's message: at most 1,024 bytes.
pub fn is_message(message: &str) -> bool
    ensures { result ≡ forms.is_message message.now }
{
    message.len() <= 1024
}

/// Whether the text is a pattern: 1 to 255 bytes.
pub fn is_pattern(pattern: &str) -> bool
    ensures { result ≡ forms.is_pattern pattern.now }
{
    1 <= pattern.len() && pattern.len() <= 255
}

/// Whether the bits are of the six kept members, and only bits that were given are set.
pub fn is_kept(kept: Kept) -> bool
    ensures { result ≡ forms.is_kept kept }
{
    kept.given < 64 && kept.given & kept.set == kept.set
}

/// Whether there are 1 to 10,000 entries of paths, none of which overlap where the collections are one.
fn are_transfer_entries(is_within_one: bool, entries: &[TransferEntry]) -> bool
    ensures { result ≡ forms.is_entries (limits.is_transfer_entry is_within_one) entries.now }
{
    is_entry_count(entries.len()) && all_transfer_entries(is_within_one, entries)
}

/// Whether a document may have so many entries.
fn is_entry_count(entries: usize) -> bool
    ensures { result ≡ forms.is_entry_count entries }
{
    1 <= entries && entries <= 10_000
}

fn all_transfer_entries(is_within_one: bool, entries: &[TransferEntry]) -> bool
    ensures { result ≡ list_all (limits.is_transfer_entry is_within_one) entries.now }
{
    entries
        .iter()
        .all(|entry| is_transfer_entry(is_within_one, entry))
}

/// Whether the entry's paths don't overlap where the collections are one.
pub fn is_transfer_entry(is_within_one: bool, entry: &TransferEntry) -> bool
    ensures { result ≡ limits.is_transfer_entry is_within_one entry.now }
{
    is_path(&entry.source)
        && is_path(&entry.destination)
        && !(is_within_one && entry.source.overlaps(&entry.destination))
}

/// Whether there are at most 64 filter rules, each with a pattern.
pub fn is_rules(rules: &[FilterRule]) -> bool
    ensures { result ≡ limits.is_rules rules.now }
{
    rules.len() <= 64 && have_patterns(rules)
}

fn have_patterns(rules: &[FilterRule]) -> bool
    ensures { result ≡ list_all (λ rule. forms.is_pattern rule.pattern) rules.now }
{
    rules.iter().all(has_pattern)
}

fn has_pattern(rule: &FilterRule) -> bool
    ensures { result ≡ forms.is_pattern rule.now.pattern }
{
    is_pattern(rule.pattern.as_str())
}

/// Whether the specification is one that a document may ask.
pub fn is_transfer_spec(spec: &TransferSpec) -> bool
    ensures { result ≡ limits.is_transfer_spec spec.now }
{
    is_label_if_there(&spec.label)
        && is_moment_if_there(spec.deadline)
        && spec.level.is_none_or(|level| level <= 3)
        && is_kept(spec.kept)
        && is_rules(spec.rules.as_slice())
        && are_transfer_entries(spec.source == spec.destination, spec.entries.as_slice())
}

/// Whether the specification is one that a document may ask.
pub fn is_delete_spec(spec: &DeleteSpec) -> bool
    ensures { result ≡ limits.is_delete_spec spec.now }
{
    is_label_if_there(&spec.label)
        && is_moment_if_there(spec.deadline)
        && is_kept(spec.kept)
        && are_delete_entries(spec.entries.as_slice())
}

fn are_delete_entries(entries: &[Path]) -> bool
    ensures { result ≡ forms.is_entries limits.is_delete_entry entries.now }
{
    is_entry_count(entries.len()) && all_delete_entries(entries)
}

fn all_delete_entries(entries: &[Path]) -> bool
    ensures { result ≡ list_all limits.is_delete_entry entries.now }
{
    entries.iter().all(is_delete_entry)
}

fn is_delete_entry(path: &Path) -> bool
    ensures { result ≡ limits.is_delete_entry path.now }
{
    is_path(path) && 1 <= path.names()
}

/// Whether the specification is one of an access rule, which it always is.
pub fn is_access_spec(spec: &AccessSpec) -> bool
    ensures { result ≡ limits.is_access_spec spec.now }
{
    is_principal(&spec.principal) && is_path(&spec.path)
}

fn is_principal(principal: &Principal) -> bool
    ensures { result ≡ forms.is_principal principal.now }
{
    match principal {
        Principal::Identity(id) | Principal::Group(id) => id.is_id(),
        Principal::AllAuthenticated | Principal::Anonymous => true,
    }
}

/// Whether the specification is one of a pause rule.
pub fn is_pause_spec(spec: &PauseSpec) -> bool
    ensures { result ≡ limits.is_pause_spec spec.now }
{
    is_id_if_there(spec.identity) && is_message(spec.message.as_str())
}

/// Whether a label that is set is one.
pub fn is_label_change(change: &LabelChange) -> bool
    ensures { result ≡ limits.is_label_change change.now }
{
    match change {
        LabelChange::Keep => true,
        LabelChange::Set(label) => is_label_if_there(label),
    }
}

/// Whether a deadline that is set is a moment, which it always is.
pub fn is_deadline_change(change: DeadlineChange) -> bool
    ensures { result ≡ limits.is_deadline_change change }
{
    match change {
        DeadlineChange::Keep => true,
        DeadlineChange::Set(deadline) => is_moment_if_there(deadline),
    }
}

fn is_label_if_there(label: &Option<Text>) -> bool
    ensures { result ≡ if_there forms.is_label label.now }
{
    match label {
        None => true,
        Some(label) => is_label(label.as_str()),
    }
}

fn is_id_if_there(id: Option<Id>) -> bool
    ensures { result ≡ if_there is_id id }
{
    match id {
        None => true,
        Some(id) => id.is_id(),
    }
}

// A moment is in range by its type.
fn is_moment_if_there(moment: Option<Moment>) -> bool
    ensures { result ≡ if_there is_moment moment }
{
    match moment {
        None => true,
        Some(moment) => {
            let _seconds = moment.seconds();
            true
        },
    }
}

// A path is within its limits by its type.
fn is_path(path: &Path) -> bool
    ensures { result ≡ paths.is_path path.now }
{
    let _names = path.names();
    true
}

/// Whether the entries are those of a folder: at most 4,096 names, which rise by bytes.
pub fn is_listing(entries: &[Entry]) -> bool
    ensures { result ≡ listing.is_listing entries.now }
{
    entries.len() <= 4096 && is_rising(entries) && have_names(entries)
}

// A name is one by its type.
fn have_names(entries: &[Entry]) -> bool
    ensures { result ≡ list_all (λ entry. is_name entry.name) entries.now }
{
    entries.iter().all(has_name)
}

fn has_name(entry: &Entry) -> bool
    ensures { result ≡ is_name entry.now.name }
{
    let _text = entry.name.as_str();
    true
}

fn is_rising(entries: &[Entry]) -> bool
    ensures { result ≡ listing.is_rising entries.now }
{
    let mut rest = entries;
    while let [first, after @ ..] = rest {
        if !is_first(first, after) {
            return false;
        }
        rest = after;
    }
    true
}

/// Whether the entry comes before the first of those that follow, if any do.
fn is_first(entry: &Entry, after: &[Entry]) -> bool
    ensures { result ≡ listing.is_first entry.now.name after.now }
{
    match after {
        [] => true,
        [next, ..] => entry.name < next.name,
    }
}

/// Whether the number is a worker's: 1 to 16.
pub fn is_worker(worker: u8) -> bool
    ensures { result ≡ events.is_worker worker }
{
    1 <= worker && worker <= 16
}

/// Whether a record can hold the outcome.
pub fn is_recordable_outcome(outcome: &Outcome) -> bool
    ensures { result ≡ outcomes.is_recordable_outcome outcome.now }
{
    match outcome {
        Outcome::Copied { evidence, checked } => is_evidence(evidence) && is_u64(*checked),
        Outcome::Failed { .. } => true,
        Outcome::TreeFault { before, after } => is_u64(*before) && is_u64(*after),
        Outcome::Mismatch {
            size,
            source,
            back_size,
            back,
            checked,
        } => {
            is_u64(*size)
                && is_digest(source)
                && is_u64(*back_size)
                && is_digest(back)
                && is_u64(*checked)
        }
        Outcome::Present { .. }
        | Outcome::Expanded { .. }
        | Outcome::Listed { .. }
        | Outcome::Removed
        | Outcome::Missing => false,
    }
}

fn is_evidence(evidence: &Evidence) -> bool
    ensures { result ≡ outcomes.is_evidence evidence.now }
{
    is_u64(evidence.size) && is_digest(&evidence.source) && is_digest_if_there(&evidence.back)
}

fn is_digest_if_there(digest: &Option<Digest>) -> bool
    ensures { result ≡ if_there values.is_digest digest.now }
{
    match digest {
        None => true,
        Some(digest) => is_digest(digest),
    }
}

// A digest has its form by its type.
fn is_digest(digest: &Digest) -> bool
    ensures { result ≡ values.is_digest digest.now }
{
    let _bytes = digest.as_bytes();
    true
}

// A number of 8 bytes is one by its type.
fn is_u64(number: u64) -> bool
    ensures { result ≡ values.is_u64 number }
{
    number <= u64::MAX
}
