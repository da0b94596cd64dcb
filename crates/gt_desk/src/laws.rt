// What holds of calls of a desk one after another.
ghost use Rattle.std.specs.Prelude.{Bool, List, Ok, length, ℕ, ◌<◌, ◌^◌, ◌≡◌};
ghost use Rattle.gt_desk.specs.Calls.{AreCalls, Call, IsOnlyTask};
ghost use Rattle.gt_desk.specs.Damage.{IsDamagedAt};
ghost use Rattle.gt_desk.specs.DeskCall.{DeskCall};
ghost use Rattle.gt_desk.specs.History.{Keeps, Ledger, StandsFor};
ghost use Rattle.gt_disk.specs.Disk.{LeavesOnly};
ghost use Rattle.gt_machine.specs.Answer.{answer_of};
ghost use Rattle.gt_machine.specs.Run.{run_of};
ghost use Rattle.gt_setup.specs.Setup.{Setup};
ghost use Rattle.gt_types.specs.declared.command.Command.TheVariants.{SubmitTransfer as AskTransfer};
ghost use Rattle.gt_types.specs.declared.event.Event.{Event};
ghost use Rattle.gt_types.specs.declared.reply.Reply.TheVariants.{Submitted};
ghost use Rattle.gt_types.specs.declared.spec.TransferSpec.{TransferSpec};

use gt_disk::Disk;
use gt_journal::one_reading;
use gt_machine::{runs_are_sound, runs_go_on, steps_are_recordable};
use gt_records::record_text_reads_back;

/// Nothing acknowledged is lost: whatever calls follow, and whatever they answer, a crash at each moment from now on leaves
/// a file that stands for all of the present history, with what came after it.
pub fn acknowledged_events_stay<D: Disk>()
    ensures { (setup : Setup) (disk last : D) (ledger : Ledger) (calls : List (Call D))
        → AreCalls D.words setup disk ledger calls last
        → LeavesOnly D.words disk last (Keeps setup ledger.history) }
{}

/// Where a submission is answered with a task, that is the only task of its owner and identifier, however often it was
/// sent before, and whatever became of those tries.
pub fn submission_sent_again_makes_one_task()
    ensures { (setup : Setup) (owner submission : List ℕ) (spec : TransferSpec) (now : ℕ)
        (old new : Ledger)
        (moved : List Event) (is_delete is_new : Bool) (identifier : List ℕ) (task : ℕ)
        → run_of setup old.history ≡ Some old.machine
        → DeskCall setup (λ m. answer_of setup m owner (AskTransfer submission spec) now) old
        (Ok (Submitted is_delete is_new identifier task)) moved new
        → IsOnlyTask owner submission task new.machine.tasks }
{
    runs_go_on();
    runs_are_sound();
}

/// Under a setup a file stands for one history, or is damaged at one record, and never both.
pub fn one_history()
    ensures one { (setup : Setup) (a b : List Event) (file : List ℕ)
        → length setup.collections < 2 ^ 32
        → StandsFor setup a file → StandsFor setup b file → a ≡ b }
    ensures apart { (setup : Setup) (history : List Event) (number : ℕ) (file : List ℕ)
        → length setup.collections < 2 ^ 32
        → StandsFor setup history file → IsDamagedAt setup number file → ⊥ }
    ensures one_damage { (setup : Setup) (a b : ℕ) (file : List ℕ)
        → length setup.collections < 2 ^ 32
        → IsDamagedAt setup a file → IsDamagedAt setup b file → a ≡ b }
{
    one_reading();
    record_text_reads_back();
    steps_are_recordable();
}
