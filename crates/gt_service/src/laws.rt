//! What holds of all requests, as clauses that a caller can cite.
ghost use Rattle.std.specs.Prelude.{Bool, List, Ok, Option, Some, ℕ, ◌≡◌};
ghost use Rattle.gt_desk.specs.Calls.{IsOnlyTask};
ghost use Rattle.gt_desk.specs.Desk.{Desk};
ghost use Rattle.gt_machine.specs.Run.{run_of};
ghost use Rattle.gt_service.specs.Grounds.{FirstGroundRefuses};
ghost use Rattle.gt_service.specs.Laws.{MakesOne, ReadsMakeNone, RefusalsMakeNone};
ghost use Rattle.gt_service.specs.Service.{IsAsked, Response};
ghost use Rattle.gt_types.specs.declared.command.Command.TheVariants.{SubmitTransfer as AskTransfer};
ghost use Rattle.gt_types.specs.declared.reply.Reply.TheVariants.{Submitted};
ghost use Rattle.gt_types.specs.declared.spec.TransferSpec.{TransferSpec};

use gt_desk::submission_sent_again_makes_one_task;
use gt_disk::Disk;
use gt_requests::first_cause_refuses;

/// A request is refused with the code of the first ground that holds, in the order of `grounds`, and answered where none does.
/// A journal that fails, and want of memory, come in the place of an answer.
pub fn first_ground_refuses()
    ensures { FirstGroundRefuses }
{
    first_cause_refuses();
}

/// A request makes at most one event. One that reads makes none, and neither does one that is refused: behind a status of 400
/// to 413 the desk is as before, or the event in doubt was settled and nothing is in doubt.
pub fn requests_make_at_most_one_event<D: Disk>()
    ensures one { MakesOne D.words }
    ensures reads { ReadsMakeNone D.words }
    ensures refusals { RefusalsMakeNone D.words }
{}

/// Where a submission is answered with a task, that is the only task of its owner and identifier, whatever became of earlier
/// tries.
pub fn submission_served_again_makes_one_task<D: Disk>()
    ensures { (identity submission : List ℕ) (spec : TransferSpec) (now : ℕ) (old new : Desk D)
        (response : Option Response)
        (is_delete is_new : Bool) (identifier : List ℕ) (task : ℕ)
        → run_of old.setup old.ledger.history ≡ Some old.ledger.machine
        → (asked : IsAsked D.words identity (AskTransfer submission spec) now old response new)
        → asked.answer ≡ Ok (Submitted is_delete is_new identifier task)
        → IsOnlyTask identity submission task new.ledger.machine.tasks }
{
    submission_sent_again_makes_one_task();
}
