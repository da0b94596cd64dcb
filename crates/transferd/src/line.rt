// A line of a script: what it does with the desk, the text that it makes, and its printing.
ghost use Rattle.gt_disk.specs.Disk.{IsSameDisk};
ghost use Rattle.gt_script.specs.declared.line.Line.TheVariants.{End, Now, Restart, Send};
ghost use Rattle.gt_streams.specs.Streams.{IsSameSink};
ghost use Rattle.std.specs.Prelude.{IfErr, IfOk, ◌≡◌};
ghost use Rattle.transferd.specs.Endings.{written_to};
ghost use Rattle.transferd.specs.Progress.{CarriesOut, HasLineCause, HasMakingCause, MakesLine, disk_of_line, disk_of_made};

use crate::exit::Exit;
use crate::output::{reply_line, restart_line, table};
use crate::session::{Ended, Made, Session, stop};
use gt_disk::Disk;
use gt_machine::{runs_are_sound, runs_go_on};
use gt_requests::{Incoming, Routes};
use gt_script::Line;
use gt_service::serve_with;
use gt_streams::{Sink, write_all};
use gt_values::{Bytes, Moment, Text};
use std::alloc::Global;

/// Carries out a line, by `make_line`, and then writes what it prints.
pub fn run_line<D: Disk, K: Sink>(
    alloc: Global,
    routes: &Routes,
    session: Session<D>,
    line: Line,
    out: &mut K,
) -> Result<Session<D>, Ended<D>>
    ensures carried { CarriesOut D.words line session result
        (written_to K.words out.old out.new) }
    ensures setup { IfOk result (λ next. next.desk.setup ≡ session.desk.setup) }
    ensures same { IsSameDisk D.words session.desk.disk (disk_of_line result) }
    ensures same_out { IsSameSink K.words out.old out.new }
    ensures cause { IfErr result (HasLineCause D.words session.desk.disk K.words out.old out.new) }
{
    let Made { session, text } = make_line(alloc, routes, session, line)?;
    match write_all(out, &text) {
        Ok(()) => Ok(session),
        Err(_) => Err(stop(session.desk, Exit::SinkFault)),
    }
}

/// Carries out a line, and makes the text that it prints.
///
/// What the line makes of the world, by the kinds of lines: `specs/Run.antt`.
pub fn make_line<D: Disk>(
    alloc: Global,
    routes: &Routes,
    session: Session<D>,
    line: Line,
) -> Result<Made<D>, Ended<D>>
    ensures made { MakesLine D.words line session result }
    ensures setup { IfOk result (λ made. made.session.desk.setup ≡ session.desk.setup) }
    ensures same { IsSameDisk D.words session.desk.disk (disk_of_made result) }
    ensures cause { IfErr result (HasMakingCause D.words session.desk.disk) }
{
    match line {
        Line::End => make_end(alloc, session),
        Line::Now(moment) => make_now(alloc, session, moment),
        Line::Send {
            token,
            method,
            target,
            body,
        } => make_request(alloc, routes, session, token, method, target, body),
        Line::Restart => make_restart(alloc, session),
    }
}

// The table of tasks.
fn make_end<D: Disk>(alloc: Global, session: Session<D>) -> Result<Made<D>, Ended<D>>
    ensures made { MakesLine D.words End session result }
    ensures setup { IfOk result (λ made. made.session.desk.setup ≡ session.desk.setup) }
    ensures same { IsSameDisk D.words session.desk.disk (disk_of_made result) }
    ensures cause { IfErr result (HasMakingCause D.words session.desk.disk) }
{
    runs_are_sound();
    match table(alloc, session.desk.state()) {
        Ok(text) => Ok(Made { session, text }),
        Err(_) => Err(stop(session.desk, Exit::OutOfMemory)),
    }
}

// Another moment, which prints nothing.
fn make_now<D: Disk>(
    alloc: Global,
    session: Session<D>,
    moment: Moment,
) -> Result<Made<D>, Ended<D>>
    ensures made { MakesLine D.words (Now moment) session result }
    ensures setup { IfOk result (λ made. made.session.desk.setup ≡ session.desk.setup) }
    ensures same { IsSameDisk D.words session.desk.disk (disk_of_made result) }
    ensures cause { IfErr result (HasMakingCause D.words session.desk.disk) }
{
    let desk = session.desk;
    Ok(Made {
        session: Session { desk, now: moment },
        text: Vec::new(alloc),
    })
}

// Serves a request, by `serve_with` (`gt_service/src/serve.rt`), at the present moment.
fn make_request<D: Disk>(
    alloc: Global,
    routes: &Routes,
    session: Session<D>,
    token: Option<Text>,
    method: Text,
    target: Text,
    body: Bytes,
) -> Result<Made<D>, Ended<D>>
    ensures made { MakesLine D.words (Send token method target body) session result }
    ensures setup { IfOk result (λ made. made.session.desk.setup ≡ session.desk.setup) }
    ensures same { IsSameDisk D.words session.desk.disk (disk_of_made result) }
    ensures cause { IfErr result (HasMakingCause D.words session.desk.disk) }
{
    let Session { desk, now } = session;
    let mut desk = desk;
    let incoming = Incoming {
        method,
        target,
        token,
        body,
        close: false,
    };
    // For the proof: a run goes on by the events of the call.
    runs_go_on();
    let Ok((status, document)) = serve_with(alloc, routes, &mut desk, &incoming, now) else {
        return Err(stop(desk, Exit::OutOfMemory));
    };
    match reply_line(alloc, status, &document) {
        Ok(text) => Ok(Made {
            session: Session { desk, now },
            text,
        }),
        Err(_) => Err(stop(desk, Exit::OutOfMemory)),
    }
}

// Closes the desk and opens it again, by `Desk::reopen`; it prints the number of its events.
fn make_restart<D: Disk>(alloc: Global, session: Session<D>) -> Result<Made<D>, Ended<D>>
    ensures made { MakesLine D.words Restart session result }
    ensures setup { IfOk result (λ made. made.session.desk.setup ≡ session.desk.setup) }
    ensures same { IsSameDisk D.words session.desk.disk (disk_of_made result) }
    ensures cause { IfErr result (HasMakingCause D.words session.desk.disk) }
{
    let Session { desk, now } = session;
    match desk.reopen(alloc) {
        Ok(desk) => {
            runs_are_sound();
            runs_go_on();
            match restart_line(alloc, desk.state().events()) {
                Ok(text) => Ok(Made {
                    session: Session { desk, now },
                    text,
                }),
                Err(_) => Err(stop(desk, Exit::OutOfMemory)),
            }
        }
        Err(refused) => Err(Ended {
            exit: Exit::of_opening(refused.fault),
            disk: refused.disk,
        }),
    }
}
