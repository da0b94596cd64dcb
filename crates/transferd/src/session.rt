// What goes from line to line of a script, and what is left where a run stops.
ghost use Rattle.std.specs.Prelude.{◌≡◌};

use crate::exit::Exit;
use gt_desk::Desk;
use gt_disk::Disk;
use gt_values::Moment;

/// What goes from one line of a script to the next: the desk, and the present moment.
#[derive(Drop)]
pub struct Session<D: Disk> {
    pub desk: Desk<D>,
    pub now: Moment,
}

/// A line that was carried out, with the text that it prints.
#[derive(Drop)]
pub struct Made<D: Disk> {
    pub session: Session<D>,
    pub text: Vec<u8>,
}

/// How a run on a disk ended, with the disk.
#[derive(Drop)]
pub struct Ended<D> {
    pub exit: Exit,
    pub disk: D,
}

/// The end of a run on this desk.
pub fn stop<D: Disk>(desk: Desk<D>, exit: Exit) -> Ended<D>
    ensures exit { result.exit ≡ exit }
    ensures disk { result.disk ≡ desk.disk }
{
    let (_setup, disk) = desk.close();
    Ended { exit, disk }
}
