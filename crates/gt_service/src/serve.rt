ghost use Rattle.std.specs.Option.{option_map};
ghost use Rattle.std.specs.Prelude.{IfOk, IsTrue, length, true, ℕ, ◌≡◌};
ghost use Rattle.std.specs.Result.{result_ok};
ghost use Rattle.gt_causes.specs.Causes.{HasFailed};
ghost use Rattle.gt_desk.specs.Desk.{IsSameDesk, Stays, StaysDuring};
ghost use Rattle.gt_service.specs.Service.{IsAsked, RefusesAs, Serves, is_status};
ghost use Rattle.gt_setup.specs.Setup.{has_identity};
ghost use Rattle.gt_types.specs.Command.{is_command};

use gt_desk::{Desk, DeskFault};
use gt_disk::Disk;
use gt_replies::{write_refusal, write_reply};
use gt_requests::{Incoming, RequestFault, Routes, first_cause_refuses};
use gt_types::{Command, ReplyCode};
use gt_values::{Id, Moment};
use std::alloc::{AllocError, Global};

/// Serves a request at this moment: gives the status and the bytes of its reply. It makes the routes for this one request;
/// `serve_with` says the rest.
pub fn serve_one<D: Disk>(
    alloc: Global,
    desk: &mut Desk<D>,
    incoming: &Incoming,
    now: Moment,
) -> Result<(u16, Vec<u8>), AllocError>
    ensures call { Serves D.words incoming.now now desk.old
        (option_map (λ w. (w.0, w.1.items)) (result_ok result)) desk.new }

    // A crash during the call leaves what stands for the ledger before it or after it; behind it, for the one after it.
    ensures any_moment { StaysDuring D.words desk.old desk.new }
    ensures images { Stays D.words desk.new }

    ensures same { IsSameDesk D.words desk.old desk.new }
    ensures cause { IfOk result
        (λ w. w.0 ≡ 503 → HasFailed D.words.faults desk.old.disk desk.new.disk) }
    ensures status { IfOk result (λ w. is_status w.0 ≡ true) }
{
    // For the proof: a crash leaves now what stands for the ledger.
    let _ = desk.state();
    let routes = Routes::new(alloc)?;
    serve_with(alloc, &routes, desk, incoming, now)
}

/// The same with routes that are made.
///
/// A request that reading refuses (413, 404, 405, 401, 400) doesn't reach the desk: nothing is settled, and the disk isn't
/// called. Every other one settles the event in doubt first, a read too, and makes at most one event. After `AllocError` the
/// request's event was made or not; sending a submission again finds out. `close` has no effect here.
pub fn serve_with<D: Disk>(
    alloc: Global,
    routes: &Routes,
    desk: &mut Desk<D>,
    incoming: &Incoming,
    now: Moment,
) -> Result<(u16, Vec<u8>), AllocError>
    ensures call { Serves D.words incoming.now now desk.old
        (option_map (λ w. (w.0, w.1.items)) (result_ok result)) desk.new }

    ensures any_moment { StaysDuring D.words desk.old desk.new }
    ensures images { Stays D.words desk.new }

    ensures same { IsSameDesk D.words desk.old desk.new }
    ensures cause { IfOk result
        (λ w. w.0 ≡ 503 → HasFailed D.words.faults desk.old.disk desk.new.disk) }
    ensures status { IfOk result (λ w. is_status w.0 ≡ true) }
{
    // For the proof: a crash leaves now what stands for the ledger, and refusals without the desk have few codes.
    let _ = desk.state();
    first_cause_refuses();
    let token = match &incoming.token {
        Some(token) => Some(token.as_str()),
        None => None,
    };
    let method = incoming.method.as_str();
    let target = incoming.target.as_str();
    let body = incoming.body.as_slice();
    match routes.read(alloc, desk.setup(), method, target, token, body) {
        Ok((identity, command)) => ask(alloc, desk, &identity, &command, now),
        Err(fault) => refuse(alloc, &fault),
    }
}

// Writes the refusal of a request that isn't read.
fn refuse(alloc: Global, fault: &RequestFault) -> Result<(u16, Vec<u8>), AllocError>
    ensures { RefusesAs fault.now (option_map (λ w. (w.0, w.1.items)) (result_ok result)) }
{
    match fault {
        RequestFault::Refused { code, place } => write_refusal(alloc, *code, place.as_str()),
        RequestFault::OutOfMemory => Err(AllocError),
    }
}

// Asks the desk, and writes its answer.
fn ask<D: Disk>(
    alloc: Global,
    desk: &mut Desk<D>,
    identity: &Id,
    command: &Command,
    now: Moment,
) -> Result<(u16, Vec<u8>), AllocError>
    requires known { IsTrue (has_identity desk.old.setup identity.now) }
    requires within { IsTrue (is_command (length desk.old.setup.collections) command.now) }

    ensures call { IsAsked D.words identity.now command.now now desk.old
        (option_map (λ w. (w.0, w.1.items)) (result_ok result)) desk.new }
    ensures any_moment { StaysDuring D.words desk.old desk.new }
    ensures images { Stays D.words desk.new }
    ensures same { IsSameDesk D.words desk.old desk.new }
    ensures cause { IfOk result
        (λ w. w.0 ≡ 503 → HasFailed D.words.faults desk.old.disk desk.new.disk) }
    ensures status { IfOk result (λ w. is_status w.0 ≡ true) }
{
    match desk.answer(alloc, identity, command, now) {
        Ok(reply) => write_reply(alloc, desk.setup(), &reply),
        Err(DeskFault::JournalFault) => write_refusal(alloc, ReplyCode::JournalFault, ""),
        Err(DeskFault::OutOfMemory) => Err(AllocError),
    }
}
