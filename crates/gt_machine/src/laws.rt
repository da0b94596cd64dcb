ghost use Rattle.std.specs.Prelude.{◌≡◌, ◌≤◌, ◌*◌, ◌++◌, ◌∷◌, [], IsTrue, List, Some, length, ℕ};
ghost use Rattle.gt_machine.specs.Answer.{answer_of};
ghost use Rattle.gt_machine.specs.Decision.{said};
ghost use Rattle.gt_machine.specs.Lists.{joined_pages};
ghost use Rattle.gt_machine.specs.MachineState.{MachineState, empty_state};
ghost use Rattle.gt_machine.specs.Named.{NamesWhatIsMade};
ghost use Rattle.gt_machine.specs.Run.{IsReached, run_from, run_of};
ghost use Rattle.gt_machine.specs.Shown.{ShowsOwn};
ghost use Rattle.gt_machine.specs.Sound.{IsSound};
ghost use Rattle.gt_machine.specs.Step.{step_of};
ghost use Rattle.gt_setup.specs.Setup.{Setup};
ghost use Rattle.gt_types.specs.Event.{is_recordable};
ghost use Rattle.gt_types.specs.declared.command.Command.{Command};
ghost use Rattle.gt_types.specs.declared.event.Event.{Event};

/// The state that a history leads to is sound.
pub fn runs_are_sound()
    ensures { (setup : Setup) (history : List Event) (m : MachineState)
        → run_of setup history ≡ Some m → IsSound setup history m }
{}

/// A run goes on: by a step from where it led, or by a run from there.
pub fn runs_go_on()
    ensures step { (setup : Setup) (history : List Event) (m next : MachineState) (event : Event)
        → run_of setup history ≡ Some m → step_of setup m event ≡ Some next
        → run_of setup (history ++ event ∷ []) ≡ Some next }
    ensures run { (setup : Setup) (m middle last : MachineState) (front back : List Event)
        → run_from setup m front ≡ Some middle → run_from setup middle back ≡ Some last
        → run_from setup m (front ++ back) ≡ Some last }
{}

/// A run has its fronts: each led to a state from which the rest leads on; and its last event made a step.
pub fn runs_have_fronts()
    ensures front { (setup : Setup) (m last : MachineState) (front back : List Event)
        → run_from setup m (front ++ back) ≡ Some last
        → (middle : MachineState) × (run_from setup m front ≡ Some middle)
        × (run_from setup middle back ≡ Some last) }
    ensures last { (setup : Setup) (history : List Event) (next : MachineState) (event : Event)
        → run_of setup (history ++ event ∷ []) ≡ Some next
        → (m : MachineState) × (run_of setup history ≡ Some m)
        × (step_of setup m event ≡ Some next) }
{}

/// The state before any event is one that events lead to, where its namespace is the setup's.
pub fn empty_states_are_reached()
    ensures { (setup : Setup) → IsReached setup (empty_state setup.namespace) }
{}

/// A step from a state that events lead to leads to such a state.
pub fn steps_stay_reached()
    ensures { (setup : Setup) (m next : MachineState) (event : Event)
        → IsReached setup m → step_of setup m event ≡ Some next → IsReached setup next }
{}

/// Each event that has a step has a record.
pub fn steps_are_recordable()
    ensures { (setup : Setup) (m next : MachineState) (event : Event)
        → step_of setup m event ≡ Some next
        → IsTrue (is_recordable (length setup.collections) event) }
{}

/// An identifier names a number exactly where the desk makes it of this number.
pub fn identifiers_name_what_is_made()
    ensures { NamesWhatIsMade }
{}

/// No reply shows what isn't the caller's: its tasks are, its successes and skipped rows are of the caller's tasks, and its
/// access rules are of collections that the caller owns.
pub fn replies_show_what_is_the_callers()
    ensures { (setup : Setup) (m : MachineState) (identity : List ℕ) (command : Command) (now : ℕ)
        → IsReached setup m
        → ShowsOwn setup m identity (said (answer_of setup m identity command now)) }
{}

/// Pages join: those of one limit, one after another from the first row on, are the whole list, each row once.
pub fn pages_join<T>()
    ensures { (limit pages : ℕ) (rows : List T)
        → length rows ≤ pages * limit → joined_pages limit pages 0 rows ≡ rows }
{}
