// What holds of each run of a world.
ghost use Rattle.gt_machine.specs.Run.{run_of};
ghost use Rattle.gt_setup.specs.Setup.{Setup};
ghost use Rattle.gt_world.specs.Crashes.{CrashesKeep, KeepsAcknowledged};
ghost use Rattle.gt_world.specs.SoundRuns.{AreSound, HaveOneTaskEach};
ghost use Rattle.gt_world.specs.World.{Taken, World, WorldRun};
ghost use Rattle.std.specs.Prelude.{Bool, List, Some, true, ◌≡◌};

use gt_desk::acknowledged_events_stay;
use gt_disk::Disk;
use gt_machine::{runs_are_sound, runs_go_on, runs_have_fronts};

/// Nothing acknowledged is lost: wherever a run on an honest disk is split, there is a state of the disk right behind the
/// first part, and from it on, through restarts too, a crash at each moment leaves a file that stands for all of the first
/// part's history, with what came after it.
pub fn acknowledged_events_stay_in_a_run<D: Disk>()
    ensures { (setup : Setup) (disk last : D) (start : World) (steps : List Taken)
        → WorldRun setup true start steps → CrashesKeep D.words setup disk start steps last
        → KeepsAcknowledged D.words setup disk start steps last }
{
    acknowledged_events_stay::<D>();
}

/// From a world whose history leads to its state, each history of a run leads through sound states, whatever the disk tells:
/// so in each of them an owner's submission identifier has made at most one task.
pub fn histories_of_a_run_are_sound()
    ensures sound { (setup : Setup) (honest : Bool) (start : World) (steps : List Taken)
        → run_of setup start.ledger.history ≡ Some start.ledger.machine
        → WorldRun setup honest start steps → AreSound setup start steps }
    ensures one_task { (setup : Setup) (start : World) (steps : List Taken)
        → AreSound setup start steps → HaveOneTaskEach setup start steps }
{
    runs_are_sound();
    runs_go_on();
    runs_have_fronts();
}
