// What follows from the definitions alone.
ghost use Rattle.gt_causes.specs.Causes.{Rose};
ghost use Rattle.gt_desk.specs.Opening.{Finds};
ghost use Rattle.gt_setup.specs.Grammar.{setup_of};
ghost use Rattle.gt_setup.specs.Setup.{Setup};
ghost use Rattle.std.specs.Prelude.{Bool, IsTrue, List, Ok, length, ◌++◌, ◌<◌, ◌^◌, ◌≡◌, ℕ};
ghost use Rattle.transferd.specs.Calm.{IsCalmRun, IsSettled};
ghost use Rattle.transferd.specs.Chain.{ServedOn, found_by, left_by};
ghost use Rattle.transferd.specs.Exits.{ExitFor, setup_read};
ghost use Rattle.transferd.specs.Run.{Played, ScriptRun, steps_of, world_at};
ghost use Rattle.gt_world.specs.World.{Taken, World, WorldRun};
ghost use Rattle.transferd.specs.declared.exit.Exit.{Exit};

use gt_desk::one_history;
use gt_disk::Disk;
use gt_machine::runs_go_on;
use gt_script::a_script_has_one_reading;

/// Where nothing fails, the bytes of a setup, of a script and of a journal come to one exit. A setup has fewer than 2^32
/// collections.
pub fn one_exit_where_nothing_fails()
    ensures { (setup script file : List ℕ) (exit other : Exit)
        → ((opened : Setup) → setup_of (setup_read setup) ≡ Ok opened
        → length opened.collections < 2 ^ 32)
        → ExitFor setup script file exit → ExitFor setup script file other → exit ≡ other }
{
    a_script_has_one_reading();
    one_history();
}

/// The steps of a script's lines, and those of a last line that was not finished, are one run of the world.
pub fn lines_make_one_run()
    ensures { (setup : Setup) (honest : Bool) (start : World) (run : List Played)
        (last : List Taken)
        → ScriptRun setup honest start run → WorldRun setup honest (world_at start run) last
        → WorldRun setup honest start (steps_of run ++ last) }
{}

/// A run in which the disk's count of faults didn't rise, and each of whose lines was carried out, prints and adds what the
/// lines do where nothing fails.
pub fn runs_without_faults_are_calm()
    ensures { (setup : Setup) (honest : Bool) (start : World) (run : List Played)
        → IsTrue honest → IsSettled setup start → ScriptRun setup honest start run
        → (Rose start.faults (world_at start run).faults → ⊥) → IsCalmRun setup start run }
{
    runs_go_on();
}

/// A script that runs on the disk of an earlier one finds all that the earlier one acknowledged, and behind it the event then
/// in doubt or nothing: at once, and after a crash. A setup has fewer than 2^32 collections.
pub fn scripts_chain<D: Disk>()
    ensures at_once { (setup : Setup) (old mid new : D) → length setup.collections < 2 ^ 32
        → IsTrue (D.words.honest mid)
        → (first : ServedOn D.words setup old mid) (second : ServedOn D.words setup mid new)
        → Finds (left_by D.words setup old mid first) (found_by D.words setup mid new second) }
    ensures crashed { (setup : Setup) (old mid again new : D) → length setup.collections < 2 ^ 32
        → D.words.may_leave mid (D.words.seen again)
        → (first : ServedOn D.words setup old mid) (second : ServedOn D.words setup again new)
        → Finds (left_by D.words setup old mid first) (found_by D.words setup again new second) }
{
    one_history();
}
