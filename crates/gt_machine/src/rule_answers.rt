// Answers on access rules, of which only the collection's owner is told.
ghost use Rattle.std.specs.Prelude.{◌≡◌, ◌&&◌, ◌<◌, ◌==◌, IfOk, filter, is_none, length, map};
ghost use Rattle.gt_machine.specs.Document.{access_document, access_rules};
ghost use Rattle.gt_machine.specs.Lists.{sorted_by};
ghost use Rattle.gt_machine.specs.RuleAnswer as answers;
ghost use Rattle.gt_machine.specs.declared.decision.Decision.TheVariants.{Say};
ghost use Rattle.gt_setup.specs.Setup.{is_owner};

use crate::decision::{Decision, refusing};
use crate::documents::access_document;
use crate::state::State;
use gt_access::AccessRow;
use gt_setup::Setup;
use gt_types::{AccessDocument, AccessSpec, Happening, Reply, ReplyCode, ResultCode};
use gt_values::{Id, Moment, Sequence};
use std::alloc::{AllocError, Global};

impl State {
    /// The live rules of the caller's collection, by number.
    pub(crate) fn list_access(
        &self,
        alloc: Global,
        setup: &Setup,
        caller: &Id,
        collection: u32,
    ) -> Result<Decision<Reply>, AllocError>
        requires { collection < length setup.now.collections }
        ensures { IfOk result (λ d. d ≡ answers.as_owner setup.now caller.now collection
            (Say (answers.access_list_reply self.now.machine collection))) }
    {
        if !owns(setup, caller, collection) {
            return Ok(refusing(ReplyCode::PermissionDenied));
        }
        let rows = self.access_rules(alloc, collection)?;
        let rows = Sequence::from_vec(access_documents(alloc, &rows)?);
        Ok(Decision::Say(Reply::AccessList { rows, collection }))
    }

    /// A new rule of the caller's collection.
    pub(crate) fn add_access(
        &self,
        setup: &Setup,
        caller: &Id,
        collection: u32,
        spec: &AccessSpec,
        now: Moment,
    ) -> Result<Decision<Reply>, AllocError>
        requires { collection < length setup.now.collections }
        ensures { IfOk result (λ d. d ≡ answers.as_owner setup.now caller.now collection
            (answers.add_access_answer self.now.machine collection spec.now now)) }
    {
        if !owns(setup, caller, collection) {
            return Ok(refusing(ReplyCode::PermissionDenied));
        }
        if self.access.same(collection, spec) {
            return Ok(refusing(ReplyCode::Exists));
        }
        if !self.has_room() {
            return Ok(refusing(ReplyCode::LimitReached));
        }
        let rule = self.access.next_number();
        let spec = spec.clone()?;
        Ok(self.doing(
            now,
            Happening::AccessAdd { collection, spec },
            Reply::AccessCreated { rule },
        ))
    }

    /// The rule of the caller's collection with this identifier.
    pub(crate) fn show_access(
        &self,
        setup: &Setup,
        caller: &Id,
        collection: u32,
        id: &Id,
    ) -> Result<Decision<Reply>, AllocError>
        requires { collection < length setup.now.collections }
        ensures { IfOk result (λ d. d ≡ answers.on_rule setup.now self.now.machine caller.now collection
            id.now (λ row. Say (answers.access_reply row))) }
    {
        if !owns(setup, caller, collection) {
            return Ok(refusing(ReplyCode::PermissionDenied));
        }
        match self.rule_named(setup, collection, id) {
            Some(row) => Ok(Decision::Say(Reply::Access(access_document(row)?))),
            None => Ok(refusing(ReplyCode::RuleNotFound)),
        }
    }

    /// Another permission of the rule of the caller's collection with this identifier. It takes a row, so it wants room.
    pub(crate) fn replace_access(
        &self,
        setup: &Setup,
        caller: &Id,
        collection: u32,
        id: &Id,
        write: bool,
        now: Moment,
    ) -> Decision<Reply>
        requires { collection < length setup.now.collections }
        ensures { result ≡ answers.on_rule setup.now self.now.machine caller.now collection id.now
            (answers.replace_access_answer self.now.machine write now) }
    {
        if !owns(setup, caller, collection) {
            return refusing(ReplyCode::PermissionDenied);
        }
        let rule = match self.rule_named(setup, collection, id) {
            Some(row) => row.number,
            None => return refusing(ReplyCode::RuleNotFound),
        };
        if !self.has_room() {
            return refusing(ReplyCode::LimitReached);
        }
        self.doing(
            now,
            Happening::AccessReplace { rule, write },
            Reply::Done(ResultCode::Updated),
        )
    }

    /// The end of the rule of the caller's collection with this identifier.
    pub(crate) fn end_access(
        &self,
        setup: &Setup,
        caller: &Id,
        collection: u32,
        id: &Id,
        now: Moment,
    ) -> Decision<Reply>
        requires { collection < length setup.now.collections }
        ensures { result ≡ answers.on_rule setup.now self.now.machine caller.now collection id.now
            (answers.end_access_answer self.now.machine now) }
    {
        if !owns(setup, caller, collection) {
            return refusing(ReplyCode::PermissionDenied);
        }
        match self.rule_named(setup, collection, id) {
            Some(row) => {
                let rule = row.number;
                self.doing(
                    now,
                    Happening::AccessEnd { rule },
                    Reply::Done(ResultCode::Deleted),
                )
            }
            None => refusing(ReplyCode::RuleNotFound),
        }
    }

    // The live rules of the collection, by number.
    fn access_rules(&self, alloc: Global, collection: u32) -> Result<Vec<&AccessRow>, AllocError>
        ensures { IfOk result (λ rows. map (λ row. row.now) rows.items
            ≡ access_rules self.now.machine collection) }
    {
        by_number(live_rows(alloc, self.access.rows(), collection)?)
    }
}

// Whether the identity owns the collection.
fn owns(setup: &Setup, identity: &Id, collection: u32) -> bool
    requires { collection < length setup.now.collections }
    ensures { result ≡ is_owner setup.now identity.now collection }
{
    setup.owner_of(collection) == *identity
}

// The live rows of the collection, in order of making.
fn live_rows<'a>(
    alloc: Global,
    rows: &'a [AccessRow],
    collection: u32,
) -> Result<Vec<&'a AccessRow>, AllocError>
    ensures { IfOk result (λ found. map (λ row. row.now) found.items
        ≡ filter (λ row. is_none row.ended && (row.collection == collection)) rows.now) }
{
    rows.iter()
        .filter(|row| row.ended.is_none() && row.collection == collection)
        .collect(alloc)
}

// These rows by number: after a replacement the order of making is another.
fn by_number(rows: Vec<&AccessRow>) -> Result<Vec<&AccessRow>, AllocError>
    ensures { IfOk result (λ sorted. map (λ row. row.now) sorted.items
        ≡ sorted_by (λ row. row.number) (map (λ row. row.now) rows.entry.items)) }
{
    let mut sorted = rows;
    sorted.sort_by_key(|row| row.number)?;
    Ok(sorted)
}

// What the documents of these rules show.
fn access_documents(alloc: Global, rows: &[&AccessRow]) -> Result<Vec<AccessDocument>, AllocError>
    ensures { IfOk result (λ shown. shown.items
        ≡ map access_document (map (λ row. row.now) rows.now)) }
{
    let mut shown = Vec::new(alloc);
    for row in rows {
        shown.push(access_document(row)?)?;
    }
    Ok(shown)
}
