ghost use Rattle.std.specs.Prelude.{◌≡◌, ◌<◌, ◌^◌, IfOk, IsTrue, length};
ghost use Rattle.gt_machine.specs.Answer.{HasStep, answer_of};
ghost use Rattle.gt_machine.specs.Decision as decisions;
ghost use Rattle.gt_machine.specs.Decision.{said};
ghost use Rattle.gt_machine.specs.Run.{IsReached};
ghost use Rattle.gt_machine.specs.TaskAnswer as answers;
ghost use Rattle.gt_setup.specs.Setup.{has_identity};
ghost use Rattle.gt_types.specs.Command.{is_command};
ghost use Rattle.gt_types.specs.Reply.{is_printable};

use crate::decision::{Decision, refusing};
use crate::state::State;
use gt_setup::Setup;
use gt_types::{Command, Event, Happening, Reply, ReplyCode, TransferSpec, Who};
use gt_values::{Id, Moment};
use std::alloc::{AllocError, Global};

impl State {
    /// What the machine answers to the command of this caller at this moment. The state stays as it is.
    pub fn decide(
        &self,
        alloc: Global,
        setup: &Setup,
        who: &Who,
        command: &Command,
        now: Moment,
    ) -> Result<Decision<Reply>, AllocError>
        requires reached { IsReached setup.now self.now.machine }
        requires countable { self.now.machine.events < 2 ^ 63 }
        requires known { IsTrue (has_identity setup.now who.now.identity) }
        requires within { IsTrue (is_command (length setup.now.collections) command.now) }

        ensures answer { IfOk result (λ d. d
            ≡ answer_of setup.now self.now.machine who.now.identity command.now now) }

        // The reply can be printed, and the event, if there is one, has a step and a record.
        ensures printable { IfOk result
            (λ d. IsTrue (is_printable (length setup.now.collections) (said d))) }
        ensures has_step { IfOk result (HasStep setup.now self.now.machine) }
    {
        // What the types say of the identity and of the number of collections.
        let _identity = who.identity.as_bytes();
        let _collections = setup.collections();
        let _seconds = now.seconds();
        self.answer(alloc, setup, who, command, now)
    }

    fn answer(
        &self,
        alloc: Global,
        setup: &Setup,
        who: &Who,
        command: &Command,
        now: Moment,
    ) -> Result<Decision<Reply>, AllocError>
        requires { IsTrue (is_command (length setup.now.collections) command.now) }
        ensures { IfOk result (λ d. d
            ≡ answer_of setup.now self.now.machine who.now.identity command.now now) }
    {
        let caller = &who.identity;
        match command {
            Command::IssueId => Ok(self.issue(who, now)),
            Command::SubmitTransfer { submission, spec } => {
                self.submit(caller, submission, spec, now)
            }
            Command::ListTasks { limit, offset } => Ok(Decision::Say(self.tasks_reply(
                alloc, caller, *limit, *offset,
            )?)),
            Command::ShowTask { task } => self.show_task(setup, caller, task),
            Command::ListSuccesses {
                task,
                limit,
                offset,
            } => self.list_successes(alloc, setup, caller, task, (*limit, *offset)),
            Command::ListSkipped {
                task,
                limit,
                offset,
            } => self.list_skipped(alloc, setup, caller, task, (*limit, *offset)),
            Command::ShowEndpoint { collection } => Ok(Decision::Say(Reply::Endpoint {
                collection: *collection,
            })),
            Command::ListAccess { collection } => {
                self.list_access(alloc, setup, caller, *collection)
            }
            Command::AddAccess { collection, spec } => {
                self.add_access(setup, caller, *collection, spec, now)
            }
            Command::ShowAccess { collection, rule } => {
                self.show_access(setup, caller, *collection, rule)
            }
            Command::EndAccess { collection, rule } => {
                Ok(self.end_access(setup, caller, *collection, rule, now))
            }
            Command::ReplaceAccess {
                collection,
                rule,
                write,
            } => Ok(self.replace_access(setup, caller, *collection, rule, *write, now)),
            Command::SubmitDelete { .. }
            | Command::UpdateTask { .. }
            | Command::CancelTask { .. }
            | Command::ListPauses
            | Command::AddPause { .. }
            | Command::ShowPause { .. }
            | Command::EndPause { .. } => unreachable!(),
        }
    }

    fn issue(&self, who: &Who, now: Moment) -> Decision<Reply>
        ensures { result ≡ answers.issue_answer self.now.machine who.now.identity now }
    {
        if !self.can_issue() {
            return refusing(ReplyCode::LimitReached);
        }
        let identity = who.identity;
        let number = self.issued + 1;
        self.doing(
            now,
            Happening::Issue { identity },
            Reply::Identifier { number },
        )
    }

    fn submit(
        &self,
        owner: &Id,
        submission: &Id,
        spec: &TransferSpec,
        now: Moment,
    ) -> Result<Decision<Reply>, AllocError>
        ensures { IfOk result (λ d. d
            ≡ answers.submit_answer self.now.machine owner.now submission.now spec.now now) }
    {
        if let Some(task) = self.tasks.find(owner, submission) {
            return Ok(Decision::Say(submitted(false, submission, task)));
        }
        if self.is_full(spec.entries.len()) {
            return Ok(refusing(ReplyCode::LimitReached));
        }
        let task = self.tasks.rows().len() as u64 + 1;
        let what = Happening::SubmitTransfer {
            owner: *owner,
            submission: *submission,
            spec: spec.clone()?,
        };
        Ok(self.doing(now, what, submitted(true, submission, task)))
    }

    pub(crate) fn doing(&self, now: Moment, what: Happening, reply: Reply) -> Decision<Reply>
        ensures { result ≡ decisions.doing self.now.machine now what reply }
    {
        let moment = now.max(self.greatest);
        Decision::Do(Event { moment, what }, reply)
    }
}

fn submitted(is_new: bool, submission: &Id, task: u64) -> Reply
    ensures { result ≡ answers.submitted is_new submission.now task }
{
    Reply::Submitted {
        is_delete: false,
        is_new,
        submission: *submission,
        task,
    }
}
