ghost use Rattle.gt_disk.specs.Disk.{IsSameDisk};
ghost use Rattle.gt_machine.specs.Run.{run_of};
ghost use Rattle.gt_streams.specs.Streams.{IsSameSink, IsSameSource};
ghost use Rattle.gt_types.specs.declared.event.Event.{Event};
ghost use Rattle.std.specs.Prelude.{IsTrue, List, None, Some, ◌<◌, ◌^◌, ◌≡◌};
ghost use Rattle.transferd.specs.Endings.{read_from, written_to};
ghost use Rattle.transferd.specs.Exits.{HasScriptCauses, exit_of_read, faults_of};
ghost use Rattle.transferd.specs.MainTheorem.{DeskTheorem, Ran};
ghost use Rattle.gt_world.specs.World.{world_on};

use crate::exit::Exit;
use crate::laws::lines_make_one_run;
use crate::line::run_line;
use crate::session::{Ended, Session, stop};
use gt_desk::Desk;
use gt_disk::Disk;
use gt_machine::runs_go_on;
use gt_requests::Routes;
use gt_script::{SCRIPT_LIMIT, ScriptFault, lines_end_with_their_text, read_script_line};
use gt_setup::Setup;
use gt_streams::{Sink, Source};
use gt_values::Moment;
use gt_world::{acknowledged_events_stay_in_a_run, histories_of_a_run_are_sound};
use std::alloc::Global;

/// Opens the desk on the disk of its journal, by `Desk::open`, and runs the lines of a script on it, by `run_script`.
pub fn serve_script<T: Source, K: Sink, D: Disk>(
    alloc: Global,
    routes: &Routes,
    setup: Setup,
    disk: D,
    script: &mut T,
    out: &mut K,
) -> Ended<D>
    ensures theorem { DeskTheorem D.words (D.words.honest disk) result.exit setup disk result.disk
        (read_from T.words script.old script.new) (written_to K.words out.old out.new) }
    ensures causes { HasScriptCauses result.exit
        (faults_of T.words script.old K.words out.old D.words disk)
        (faults_of T.words script.new K.words out.new D.words result.disk) }
    ensures same { IsSameDisk D.words disk result.disk }
    ensures same_script { IsSameSource T.words script.old script.new }
    ensures same_out { IsSameSink K.words out.old out.new }
{
    match Desk::open(alloc, setup, disk) {
        Ok(desk) => {
            // For the proof: each history of the run leads through sound states, and nothing acknowledged is lost.
            runs_go_on();
            lines_make_one_run();
            histories_of_a_run_are_sound();
            acknowledged_events_stay_in_a_run::<D>();
            run_script(alloc, routes, desk, script, out)
        }
        Err(refused) => Ended {
            exit: Exit::of_opening(refused.fault),
            disk: refused.disk,
        },
    }
}

// The exit where no line was read.
fn exit_of_reading(fault: ScriptFault) -> Exit
    ensures { result ≡ exit_of_read fault }
{
    match fault {
        ScriptFault::Refused { line } => Exit::ScriptRefused { line },
        ScriptFault::SourceFault => Exit::SourceFault,
        ScriptFault::OutOfMemory => Exit::OutOfMemory,
    }
}

// Runs the lines of a script up to its end on a desk. Each is carried out, by `run_line` (`line.rt`), before the next is
// read.
fn run_script<T: Source, K: Sink, D: Disk>(
    alloc: Global,
    routes: &Routes,
    desk: Desk<D>,
    script: &mut T,
    out: &mut K,
) -> Ended<D>
    ensures ran { (history : List Event) → run_of desk.setup history ≡ Some desk.ledger.machine
        → (IsTrue (D.words.honest desk.disk) → history ≡ desk.ledger.history)
        → Ran D.words (D.words.honest desk.disk) result.exit desk.setup
        (world_on (record desk.ledger { history = history })
        (D.words.faults desk.disk)) desk.disk result.disk
        (read_from T.words script.old script.new) (written_to K.words out.old out.new) }
    ensures causes { HasScriptCauses result.exit
        (faults_of T.words script.old K.words out.old D.words desk.disk)
        (faults_of T.words script.new K.words out.new D.words result.disk) }
    ensures same { IsSameDisk D.words desk.disk result.disk }
    ensures same_script { IsSameSource T.words script.old script.new }
    ensures same_out { IsSameSink K.words out.old out.new }
{
    // For the proof: a crash before the first line leaves what stands for the ledger, and what stands behind some lines says
    // which follows them.
    let _ = desk.state();
    lines_end_with_their_text();
    let mut session = Session {
        desk,
        now: Moment::zero(),
    };
    let mut taken = 0;
    let mut ran = 0;
    while taken < SCRIPT_LIMIT {
        let line = match read_script_line(
            alloc,
            script,
            session.desk.setup(),
            ran + 1,
            &mut taken,
            ran > 0,
        ) {
            Ok(line) => line,
            Err(fault) => return stop(session.desk, exit_of_reading(fault)),
        };
        let is_last = line.is_end();
        match run_line(alloc, routes, session, line, out) {
            Ok(next) => session = next,
            Err(stopped) => return stopped,
        }
        if is_last {
            return stop(session.desk, Exit::Done);
        }
        ran += 1;
    }
    stop(session.desk, Exit::ScriptRefused { line: ran + 1 })
}
