// A lent disk: what is said of it is said of the disk that it refers to.
ghost use Rattle.gt_disk.specs.Disk.{lent, lent_laws};

use crate::Disk;
use gt_causes::Failed;

impl<D: Disk> Disk for &mut D {
    ghost words = { lent (λ d. d.now) (λ d. d.ghost_name) D.words };

    ghost laws = { lent_laws (λ d. d.now) (λ d. d.ghost_name) D.words D.laws };

    fn faults(&self) -> u64 {
        Disk::faults(&**self)
    }

    fn len(&mut self) -> Result<u64, Failed> {
        Disk::len(&mut **self)
    }

    fn read(&mut self, at: u64, into: &mut [u8]) -> Result<(), Failed> {
        Disk::read(&mut **self, at, into)
    }

    fn write_at(&mut self, at: u64, from: &[u8]) -> Result<(), Failed> {
        Disk::write_at(&mut **self, at, from)
    }

    fn sync(&mut self) -> Result<(), Failed> {
        Disk::sync(&mut **self)
    }
}
