ghost use Rattle.std.specs.Prelude.{IfErr, IfOk, IsErrOf, IsTrue, List, Some, length, ℕ, ◌≡◌};
ghost use Rattle.gt_desk.specs.Damage.{IsDamagedAs};
ghost use Rattle.gt_desk.specs.Desk.{IsCall, IsSameDesk, Stays, StaysDuring};
ghost use Rattle.gt_desk.specs.Opening.{IsNotOpened, IsNotReopened, IsOpened, IsReopened, disk_in, setup_in};
ghost use Rattle.gt_desk.specs.declared.fault.OpenFault.TheVariants.{JournalFault as OpenDiskFault};
ghost use Rattle.gt_causes.specs.Causes.{HasFailed};
ghost use Rattle.gt_disk.specs.Disk.{IsSameDisk};
ghost use Rattle.gt_journal.specs.Opening as journal;
ghost use Rattle.gt_journal.specs.declared.open_fault.OpenFault.TheVariants.{JournalFault as DiskFault};
ghost use Rattle.gt_machine.specs.Answer.{answer_of};
ghost use Rattle.gt_machine.specs.Run.{IsReached, run_of};
ghost use Rattle.gt_setup.specs.Setup.{has_identity};
ghost use Rattle.gt_types.specs.Command.{is_command};
ghost use Rattle.gt_types.specs.Reply.{is_printable};

use crate::laws::one_history;
use crate::replay::replay_bodies;
use crate::{DeskFault, OpenFault, OpenRefused};
use gt_disk::Disk;
use gt_journal::{Journal, OpenFault as JournalOpenFault, one_reading};
use gt_machine::{Change, State};
use gt_setup::Setup;
use gt_types::{Command, Reply};
use gt_values::{Id, Moment};
use std::alloc::Global;
use std::marker::Model;

/// The machine on a journal: each event that it acknowledged is on the disk.
///
/// At most one event is in doubt: its record may or may not be there, since the disk failed in the last two of its four
/// calls. The next call settles it first.
#[derive(Drop)]
pub struct Desk<D: Disk> {
    pub(crate) setup: Setup,
    pub(crate) journal: Journal<D>,
    pub(crate) state: State,
    // The planned step of the event in doubt.
    pub(crate) doubt: Option<Change>,
}

impl<D: Disk> Model for Desk<D> {
    ghost use Rattle.gt_desk.specs.Desk as spec;
    ghost use Rattle.gt_desk.specs.Desk.{IsConsistent, desk_of};

    ghost Value = { spec.Desk D };

    ghost view = { λ d. desk_of d.setup d.state d.doubt d.journal };

    ghost invariant = { λ d. IsConsistent D.words d.setup d.state d.doubt d.journal };
}

// What a journal's refusal is for the desk: where a record runs past the end, one before it may be the first that is bad.
fn refusal(alloc: Global, setup: &Setup, fault: JournalOpenFault) -> OpenFault
    ensures damaged { (file : List ℕ) → journal.IsDamagedAs fault file
        → IsDamagedAs setup.now file result }
    ensures disk { result ≡ OpenDiskFault → fault ≡ DiskFault }
{
    match fault {
        JournalOpenFault::JournalFault => OpenFault::JournalFault,
        JournalOpenFault::Damaged { at_record, bodies } => match replay_bodies(
            alloc, setup, &bodies,
        ) {
            Ok(_) => OpenFault::Damaged { at_record },
            Err(fault) => fault,
        },
        JournalOpenFault::OutOfMemory => OpenFault::OutOfMemory,
    }
}

impl<D: Disk> Desk<D> {
    /// Opens the desk on a disk that a crash may have left, and replays its journal. An empty file is a desk with no event.
    pub fn open(alloc: Global, setup: Setup, disk: D) -> Result<Desk<D>, OpenRefused<D>>
        ensures opened { IfOk result (IsOpened D.words setup disk) }
        ensures images { IfOk result (Stays D.words) }
        // A damaged file is refused, with the place of its damage.
        ensures refused { IfErr result (IsNotOpened D.words setup disk) }

        ensures setup { setup_in result ≡ setup }
        ensures same { IsSameDisk D.words disk (disk_in result) }
        ensures cause { IfErr result (λ refused. refused.fault ≡ OpenDiskFault
            → HasFailed D.words.faults disk refused.disk) }
    {
        // For the proof: a file has one reading.
        one_reading();
        match Journal::open(alloc, disk) {
            Err(refused) => {
                let (fault, disk) = refused;
                let fault = refusal(alloc, &setup, fault);
                Err(OpenRefused { fault, setup, disk })
            }
            Ok((journal, bodies)) => match replay_bodies(alloc, &setup, &bodies) {
                Ok(state) => Ok(Desk {
                    setup,
                    journal,
                    state,
                    doubt: None,
                }),
                Err(fault) => Err(OpenRefused {
                    fault,
                    setup,
                    disk: journal.close(),
                }),
            },
        }
    }

    /// Closes the desk and opens it again on its disk, which settles the event in doubt: it counts where its record is there.
    /// All that was acknowledged is still there.
    pub fn reopen(self, alloc: Global) -> Result<Desk<D>, OpenRefused<D>>
        ensures reopened { IfOk result (IsReopened D.words self) }
        ensures crash { IfOk result (λ desk. StaysDuring D.words self desk × Stays D.words desk) }
        // The journal of an honest disk is never found damaged.
        ensures refused { IfErr result (IsNotReopened D.words self) }

        ensures setup { setup_in result ≡ self.setup }
        ensures same { IsSameDisk D.words self.disk (disk_in result) }
        ensures cause { IfErr result (λ refused. refused.fault ≡ OpenDiskFault
            → HasFailed D.words.faults self.disk refused.disk) }
    {
        // For the proof: a file has one reading, and what a crash leaves now stands for the ledger.
        one_reading();
        one_history();
        let _ = self.setup.collections();
        let _ = self.state();
        let (setup, disk) = self.close();
        Desk::open(alloc, setup, disk)
    }

    /// Answers the command of this identity at this moment. The event in doubt is settled first, then the machine decides,
    /// and the event that it makes is recorded, by `settle`, `decide` and `carry_out` (`steps.rt`).
    pub fn answer(
        &mut self,
        alloc: Global,
        identity: &Id,
        command: &Command,
        now: Moment,
    ) -> Result<Reply, DeskFault>
        requires known { IsTrue (has_identity self.old.setup identity.now) }
        requires within { IsTrue (is_command (length self.old.setup.collections) command.now) }

        ensures call { IsCall D.words
            (λ m. answer_of self.old.setup m identity.now command.now now)
            self.old result self.new }
        ensures printable { IfOk result (λ reply. IsTrue (is_printable
            (length self.old.setup.collections) reply)) }

        // A crash during the call leaves what stands for the ledger before it or after it; behind it, for the one after it.
        ensures any_moment { StaysDuring D.words self.old self.new }
        ensures images { Stays D.words self.new }

        ensures same { IsSameDesk D.words self.old self.new }
        ensures cause { IsErrOf result DeskFault.JournalFault
            → HasFailed D.words.faults self.old.disk self.new.disk }
    {
        match self.settle() {
            Ok(()) => {}
            Err(_) => return Err(DeskFault::JournalFault),
        }
        match self.decide(alloc, identity, command, now) {
            Ok(decision) => self.carry_out(alloc, decision),
            Err(_) => Err(DeskFault::OutOfMemory),
        }
    }

    /// The setup.
    pub fn setup(&self) -> &Setup
        ensures { result.now ≡ self.now.setup }
    {
        &self.setup
    }

    /// The state of the machine.
    pub fn state(&self) -> &State
        ensures machine { result.now.machine ≡ self.now.ledger.machine }
        ensures reached { IsReached self.now.setup self.now.ledger.machine }
        ensures runs { IsTrue (D.words.honest self.now.disk)
            → run_of self.now.setup self.now.ledger.history ≡ Some self.now.ledger.machine }
        ensures images { Stays D.words self.now }
    {
        &self.state
    }

    /// The count of faults of its disk.
    pub fn faults(&self) -> u64
        ensures { result ≡ D.words.faults self.now.disk }
    {
        self.journal.faults()
    }

    /// The setup and the disk, as they are.
    pub fn close(self) -> (Setup, D)
        ensures setup { result.0 ≡ self.setup }
        ensures disk { result.1 ≡ self.disk }
    {
        (self.setup, self.journal.close())
    }
}
