// The parts of a call: what is in doubt is settled, the machine decides, and its event is recorded.
ghost use Rattle.std.specs.Prelude.{IfOk, IsErr, IsErrOf, IsSome, IsTrue, None, OnOk, Some, length, ◌<◌, ◌^◌, ◌≡◌};
ghost use Rattle.gt_desk.specs.Desk.{HasRecorded, HasSettled, IsSameDesk, IsSameLedger, Stays, StaysDuring};
ghost use Rattle.gt_desk.specs.History.{Stands};
ghost use Rattle.gt_causes.specs.Causes.{HasFailed};
ghost use Rattle.gt_disk.specs.Disk.{LeavesOnly};
ghost use Rattle.gt_machine.specs.Answer.{HasStep, answer_of};
ghost use Rattle.gt_machine.specs.Decision.{said};
ghost use Rattle.gt_machine.specs.Step.{step_of};
ghost use Rattle.gt_machine.specs.declared.decision.Decision.TheVariants.{Do};
ghost use Rattle.gt_setup.specs.Setup.{has_identity};
ghost use Rattle.gt_types.specs.Command.{is_command};
ghost use Rattle.gt_types.specs.Event.{is_recordable, recordable_collections};
ghost use Rattle.gt_types.specs.Reply.{is_printable};

use crate::record::plan_record;
use crate::{Desk, DeskFault};
use gt_disk::Disk;
use gt_journal::{JournalFault, Settled};
use gt_machine::{Decision, runs_are_sound};
use gt_records::record_text_reads_back;
use gt_types::{Command, Event, Reply};
use gt_values::{Id, Moment};
use std::alloc::{AllocError, Global};

impl<D: Disk> Desk<D> {
    /// Settles the event in doubt: kept, its step is made; dropped, it never was.
    pub(crate) fn settle(&mut self) -> Result<(), JournalFault>
        ensures ok { OnOk result (HasSettled D.words self.old self.new) }
        ensures err { IsErr result → IsSome self.old.ledger.doubt
            × IsSameLedger D.words self.old self.new }

        ensures any_moment { IsTrue (D.words.honest self.old.disk)
            → LeavesOnly D.words self.old.disk self.new.disk
            (Stands self.old.setup self.old.ledger) }
        ensures images { Stays D.words self.new }

        ensures same { IsSameDesk D.words self.old self.new }
        ensures cause { IsErr result → HasFailed D.words.faults self.old.disk self.new.disk }
    {
        // For the proof: a state counts the events that led to it, and the text of each reads back as that event.
        runs_are_sound();
        record_text_reads_back();
        match self.journal.settle()? {
            Settled::Kept => {
                if let Some(change) = self.doubt.take() {
                    self.state.commit(change);
                }
            }
            Settled::Dropped => drop(self.doubt.take()),
            Settled::Nothing => drop(self.doubt.take()),
        }
        Ok(())
    }

    /// What the machine decides, by `State::decide` (`gt_machine/src/decide.rt`).
    pub(crate) fn decide(
        &self,
        alloc: Global,
        identity: &Id,
        command: &Command,
        now: Moment,
    ) -> Result<Decision<Reply>, AllocError>
        requires known { IsTrue (has_identity self.now.setup identity.now) }
        requires within { IsTrue (is_command (length self.now.setup.collections) command.now) }
        ensures answer { IfOk result
            (λ decision. decision ≡ answer_of self.now.setup self.now.ledger.machine
            identity.now command.now now) }
        ensures printable { IfOk result (λ decision. IsTrue (is_printable
            (length self.now.setup.collections) (said decision))) }
        ensures has_step { IfOk result (HasStep self.now.setup self.now.ledger.machine) }
        ensures few { self.now.ledger.machine.events < 2 ^ 63 }
    {
        // For the proof: the journal has room for fewer than 2^63 bytes, and each event takes 9 of them.
        let _ = self.journal.in_doubt();
        match self.setup.who(identity) {
            Some(who) => self.state.decide(alloc, &self.setup, who, command, now),
            None => unreachable!(),
        }
    }

    // Records the event, and makes its step once the record counts.
    fn make(&mut self, alloc: Global, event: Event) -> Result<(), DeskFault>
        requires clear { self.old.ledger.doubt ≡ None }
        requires few { self.old.ledger.machine.events < 2 ^ 63 }
        requires step { IsSome (step_of self.old.setup self.old.ledger.machine event) }
        requires recordable { IsTrue (is_recordable recordable_collections event) }

        ensures made { HasRecorded D.words (Do event tt) self.old result self.new }
        ensures any_moment { StaysDuring D.words self.old self.new }
        ensures images { Stays D.words self.new }
        ensures same { IsSameDesk D.words self.old self.new }
        ensures cause { IsErrOf result DeskFault.JournalFault
            → HasFailed D.words.faults self.old.disk self.new.disk }
    {
        // For the proof: a state counts the events that led to it, and the text of each reads back as that event.
        runs_are_sound();
        record_text_reads_back();
        let prepared = plan_record(alloc, &mut self.journal, &mut self.state, event);
        let Ok((change, body)) = prepared else {
            return Err(DeskFault::OutOfMemory);
        };
        match self.journal.append(&body) {
            Ok(()) => {
                self.state.commit(change);
                Ok(())
            }
            Err(_) => {
                if self.journal.in_doubt() {
                    self.doubt = Some(change);
                    Err(DeskFault::JournalFault)
                } else {
                    drop(change);
                    Err(DeskFault::JournalFault)
                }
            }
        }
    }

    /// Records the event of a decision, where there is one, and gives its answer.
    pub(crate) fn carry_out<A: Drop>(
        &mut self,
        alloc: Global,
        decision: Decision<A>,
    ) -> Result<A, DeskFault>
        requires clear { self.old.ledger.doubt ≡ None }
        requires few { self.old.ledger.machine.events < 2 ^ 63 }
        requires has_step { HasStep self.old.setup self.old.ledger.machine decision }

        ensures recorded { HasRecorded D.words decision self.old result self.new }
        ensures any_moment { StaysDuring D.words self.old self.new }
        ensures images { Stays D.words self.new }
        ensures same { IsSameDesk D.words self.old self.new }
        ensures cause { IsErrOf result DeskFault.JournalFault
            → HasFailed D.words.faults self.old.disk self.new.disk }
    {
        // For the proof: a crash leaves now what stands for the ledger.
        let _ = self.state();
        match decision {
            Decision::Say(answer) => Ok(answer),
            Decision::Do(event, answer) => match self.make(alloc, event) {
                Ok(()) => Ok(answer),
                Err(fault) => Err(fault),
            },
        }
    }
}
