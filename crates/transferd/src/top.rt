ghost use Rattle.gt_causes.specs.Causes.{Rose};
ghost use Rattle.gt_streams.specs.Streams.{IsSameSink, IsSameSource};
ghost use Rattle.std.specs.Prelude.{IsTrue, false, true, ◌↔◌, ◌≡◌, ◌⊎◌};
ghost use Rattle.transferd.specs.Calm.{IsCalm};
ghost use Rattle.transferd.specs.Endings.{read_from, written_to};
ghost use Rattle.transferd.specs.Exits.{ExitFor, HasCauses, IsUnlessFault, NoneRose, faults_of};
ghost use Rattle.transferd.specs.MainTheorem.{MainTheorem};
ghost use Rattle.transferd.specs.Words.{is_script_form, texts_of};
ghost use Rattle.transferd.specs.declared.exit.Exit.{Exit};
ghost use Rattle.transferd.specs.declared.exit.Exit.TheVariants.{Done, OutOfMemory, Usage};

use crate::exit::Exit;
use crate::laws::{one_exit_where_nothing_fails, runs_without_faults_are_calm};
use crate::script::serve_script;
use crate::session::Ended;
use crate::setup::read_setup;
use crate::words::are_script_words;
use gt_disk::Disk;
use gt_machine::runs_go_on;
use gt_requests::Routes;
use gt_streams::{Sink, Source};
use std::alloc::Global;
use std::rc::RcStr;

/// Runs a script under a setup on the desk whose journal is on the disk, and writes what its lines print.
///
/// The words are judged before anything is read, and are `script SETUP`. Then the setup is read, to its end or until it is
/// too long, and the desk is opened, by `serve_script` (`script.rt`). Then the script's lines are read one by one, and each
/// is carried out before the next is read. Nothing behind the `end` line is read.
pub fn script_top<S: Source, T: Source, K: Sink, D: Disk>(
    alloc: Global,
    words: &[RcStr],
    setup: &mut S,
    script: &mut T,
    out: &mut K,
    disk: &mut D,
) -> Exit
    // The main theorem.
    ensures machine { is_script_form (texts_of words.now) ≡ true
        → MainTheorem D.words (D.words.honest disk.old) result
        (read_from S.words setup.old setup.new) disk.old disk.new
        (read_from T.words script.old script.new) (written_to K.words out.old out.new) }

    // Which exit comes, and that only a fault of a device or want of memory takes its place; where no device fails, that
    // exit comes, or memory was wanted.
    ensures exact { is_script_form (texts_of words.now) ≡ true
        → IsTrue (S.words.told setup.old) → IsTrue (T.words.told script.old)
        → IsTrue (D.words.honest disk.old)
        → (exit : Exit) → ExitFor (S.words.left setup.old) (T.words.left script.old)
        (D.words.seen disk.old) exit
        → IsUnlessFault exit result
        × (NoneRose (S.words.faults setup.old) (S.words.faults setup.new)
        (faults_of T.words script.old K.words out.old D.words disk.old)
        (faults_of T.words script.new K.words out.new D.words disk.new)
        → (result ≡ exit) ⊎ (result ≡ OutOfMemory)) }
    ensures causes { HasCauses result (S.words.faults setup.old) (S.words.faults setup.new)
        (faults_of T.words script.old K.words out.old D.words disk.old)
        (faults_of T.words script.new K.words out.new D.words disk.new) }

    // Where no fault of the disk was counted, a script that ran through its end printed what its lines print, and added the
    // events that they add, by `specs/Calm.antt`.
    ensures calm { result ≡ Done
        → IsTrue (S.words.told setup.old) → IsTrue (T.words.told script.old)
        → IsTrue (K.words.told out.old) → IsTrue (D.words.honest disk.old)
        → (Rose (D.words.faults disk.old) (D.words.faults disk.new) → ⊥)
        → IsCalm D.words (read_from S.words setup.old setup.new) disk.old disk.new
        (read_from T.words script.old script.new) (written_to K.words out.old out.new) }

    // Words in another form, of which nothing is read and nothing written.
    ensures usage { ((result ≡ Usage) ↔ (is_script_form (texts_of words.now) ≡ false))
        × (result ≡ Usage
        → (setup.new ≡ setup.old) × (script.new ≡ script.old) × (out.new ≡ out.old)
        × (disk.new ≡ disk.old)) }

    // The disk that comes back is as honest as the one that was lent; so with the others.
    ensures same { IsSameSource S.words setup.old setup.new
        × IsSameSource T.words script.old script.new
        × IsSameSink K.words out.old out.new × (D.words.honest disk.new ≡ D.words.honest disk.old) }
{
    if !are_script_words(words) {
        return Exit::Usage;
    }
    one_exit_where_nothing_fails();
    let Ok(routes) = Routes::new(alloc) else {
        return Exit::OutOfMemory;
    };
    match read_setup(alloc, setup) {
        Ok(opened) => {
            // For the proof: a setup has fewer than 2^32 collections, and a run without faults is calm.
            let _ = opened.collections();
            runs_go_on();
            runs_without_faults_are_calm();
            let ended = serve_script(alloc, &routes, opened, &mut *disk, script, out);
            let Ended { exit, disk: _disk } = ended;
            exit
        }
        Err(exit) => exit,
    }
}
