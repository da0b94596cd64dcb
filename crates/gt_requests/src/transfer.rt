ghost use Rattle.gt_documents.specs.Reading.{ReadsAs};
ghost use Rattle.gt_requests.specs.Entries.{entries_of};
ghost use Rattle.gt_requests.specs.Transfer.{ends_of, flags_of, home_or_root, no_rules_at, options_of, sides_of, spec_of, submission_of};
ghost use Rattle.gt_types.specs.Forms.{is_entries, is_kept, is_label};
ghost use Rattle.gt_types.specs.SpecForms.{is_transfer_entry};
ghost use Rattle.gt_types.specs.declared.command.Command.TheVariants as command;
ghost use Rattle.gt_values.specs.Forms.{if_there, is_id};
ghost use Rattle.serde_json.specs.View.{view};
ghost use Rattle.std.specs.Prelude.{◌≡◌, ◌&&◌, ◌<◌, [], IfOk, length, true};
ghost use Rattle.std.specs.Option.{ForSome};
ghost use Rattle.std.specs.Str.{bytes_eq};

use crate::entries::{Sides, read_entries};
use crate::shared::{read_deadline, read_kept, read_label};
use gt_documents::{
    DocumentFault, Place, absent, constant, constant_if_there, id, list_in, switch, unset,
};
use gt_paths::Path;
use gt_setup::Setup;
use gt_types::{Command, Kept, TransferEntry, TransferSpec};
use gt_values::{Id, Sequence, Text};
use serde_json::Value;
use std::alloc::Global;

/// The submission of a transfer, and its two collections.
#[derive(Clone, Copy, Debug)]
pub(crate) struct Ends {
    pub(crate) submission: Id,
    pub(crate) source: Id,
    pub(crate) destination: Id,
}

/// The booleans of a transfer that have an effect.
#[derive(Clone, Copy, Debug)]
pub(crate) struct Flags {
    pub(crate) verify: bool,
    pub(crate) preserve: bool,
    pub(crate) skip_source: bool,
}

/// What holds of a whole transfer.
#[derive(Debug, Drop)]
pub(crate) struct Options {
    pub(crate) label: Option<Text>,
    pub(crate) flags: Flags,
    pub(crate) kept: Kept,
}

/// A transfer document, as read.
#[derive(Debug, Drop)]
pub(crate) struct Submission {
    pub(crate) ends: Ends,
    pub(crate) options: Options,
    pub(crate) entries: Sequence<TransferEntry>,
}

/// Reads a transfer document.
#[tactic(auto, unfolding(crate::specs::Transfer::submission_of))]
pub(crate) fn read_submission(
    alloc: Global,
    setup: &Setup,
    object: &Value,
) -> Result<Submission, DocumentFault>
    ensures value { ReadsAs (submission_of setup.now (view object.now)) result }
    ensures ids { IfOk result (λ s. is_id s.ends.submission ≡ true) }
    ensures options { IfOk result
        (λ s. (if_there is_label s.options.label && is_kept s.options.kept) ≡ true) }
    ensures entries { IfOk result (λ s.
        is_entries (is_transfer_entry (bytes_eq s.ends.source s.ends.destination)) s.entries
        ≡ true) }
{
    constant(object, "DATA_TYPE", "transfer")?;
    let ends = read_ends(object)?;
    let options = read_options(alloc, object)?;
    let entries = entries_between(alloc, setup, object, &ends)?;
    Ok(Submission {
        ends,
        options,
        entries,
    })
}

// The entries of a transfer document between its collections.
fn entries_between(
    alloc: Global,
    setup: &Setup,
    object: &Value,
    ends: &Ends,
) -> Result<Sequence<TransferEntry>, DocumentFault>
    ensures value { ReadsAs (entries_of (sides_of setup.now ends.now) (view object.now)) result }
    ensures limits { IfOk result (λ entries.
        is_entries (is_transfer_entry (bytes_eq ends.now.source ends.now.destination)) entries
        ≡ true) }
{
    let root = Path::root(alloc);
    let source = home_or(setup, setup.collection_of(&ends.source), &root);
    let destination = home_or(setup, setup.collection_of(&ends.destination), &root);
    let sides = Sides {
        source,
        destination,
        are_one: ends.source == ends.destination,
    };
    read_entries(alloc, object, &sides)
}

/// The home of the collection, or the root where it is unknown.
pub(crate) fn home_or<'a>(setup: &'a Setup, collection: Option<u32>, root: &'a Path) -> &'a Path
    requires known { ForSome collection (λ c. c < length setup.now.collections) }
    requires root { root.now ≡ [] }
    ensures { result.now ≡ home_or_root setup.now collection }
{
    match collection {
        Some(collection) => setup.home_of(collection),
        None => root,
    }
}

// The submission and the two collections.
#[tactic(auto, unfolding(crate::specs::Transfer::ends_of))]
fn read_ends(object: &Value) -> Result<Ends, Place>
    ensures value { result ≡ ends_of (view object.now) }
    ensures limits { IfOk result (λ ends. is_id ends.submission ≡ true) }
{
    let submission = id(object, "submission_id")?;
    let source = id(object, "source_endpoint")?;
    let destination = id(object, "destination_endpoint")?;
    Ok(Ends {
        submission,
        source,
        destination,
    })
}

// What holds of the whole transfer.
#[tactic(auto, unfolding(crate::specs::Transfer::options_of))]
fn read_options(alloc: Global, object: &Value) -> Result<Options, DocumentFault>
    ensures value { ReadsAs (options_of (view object.now)) result }
    ensures limits { IfOk result (λ o. (if_there is_label o.label && is_kept o.kept) ≡ true) }
{
    let label = read_label(alloc, object)?;
    read_deadline(object)?;
    absent(object, "sync_level")?;
    let flags = read_flags(object)?;
    constant_if_there(object, "recursive_symlinks", "ignore")?;
    let kept = read_kept(object)?;
    no_rules(object)?;
    Ok(Options { label, flags, kept })
}

// The booleans that have an effect.
#[tactic(auto, unfolding(crate::specs::Transfer::flags_of))]
fn read_flags(object: &Value) -> Result<Flags, Place>
    ensures { result ≡ flags_of (view object.now) }
{
    let verify = switch(object, "verify_checksum", false)?;
    let preserve = switch(object, "preserve_timestamp", false)?;
    unset(object, "delete_destination_extra")?;
    let skip_source = switch(object, "skip_source_errors", false)?;
    Ok(Flags {
        verify,
        preserve,
        skip_source,
    })
}

// Tests that there are no filter rules.
#[tactic(auto, unfolding(crate::specs::Transfer::no_rules_at), using(crate::proofs::CountLemmas::count_view))]
fn no_rules(object: &Value) -> Result<(), Place>
    ensures { result ≡ no_rules_at (view object.now) }
{
    match list_in(object, "filter_rules") {
        Some(rules) if rules.is_empty() => Ok(()),
        _ => Err(Place::member("filter_rules")),
    }
}

/// What the document asks, between these collections.
pub(crate) fn submit_between(
    alloc: Global,
    submission: Submission,
    source: u32,
    destination: u32,
) -> Command
    ensures { result
        ≡ command.SubmitTransfer submission.ends.submission
        (spec_of submission source destination) }
{
    let Submission {
        ends,
        options,
        entries,
    } = submission;
    let spec = TransferSpec {
        source,
        destination,
        label: options.label,
        deadline: None,
        level: None,
        verify: options.flags.verify,
        preserve: options.flags.preserve,
        extra: false,
        skip_source: options.flags.skip_source,
        kept: options.kept,
        rules: Sequence::new(alloc),
        entries,
    };
    Command::SubmitTransfer {
        submission: ends.submission,
        spec,
    }
}
