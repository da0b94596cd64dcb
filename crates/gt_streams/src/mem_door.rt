ghost use Rattle.gt_causes.specs.Causes.{HasFailed};
ghost use Rattle.gt_streams.specs.Doors.{AsksNext, HandsOut, IsSameDoor, KeepsBack, TakesBack};
ghost use Rattle.gt_streams.specs.Memory.{IsFresh};
ghost use Rattle.gt_streams.specs.MemoryDoor.{HandsNext, door_words};
ghost use Rattle.std.specs.List.{slice_get};
ghost use Rattle.std.specs.Option.{option_copied};
ghost use Rattle.std.specs.Prelude.{IfOk, IsErr, IsErrOf, [], false, length, true, ◌++◌, ◌<◌, ◌∷◌, ◌≡◌};

use crate::{Door, DoorFault, MemSink, MemSource};
use gt_causes::CallCounts;
use std::alloc::{AllocError, Global};
use std::marker::Model;

/// A door in memory. It hands out copies of its links, and tells those that were given back.
#[derive(Drop)]
pub struct MemDoor {
    links: Vec<(MemSource, MemSink)>,
    next: usize,
    back: Vec<(MemSource, MemSink)>,
    is_out: bool,
    has_ended: bool,
    counts: CallCounts,
}

impl Model for MemDoor {
    ghost use Rattle.gt_streams.specs.MemoryDoor.{DoorState, number_out};
    ghost use Rattle.std.specs.Prelude.{length, ◌+◌, ◌≤◌};
    ghost use Rattle.std.specs.Vec.{vec_capacity};

    ghost Value = { DoorState };

    ghost view = { λ d. record {
      links = d.links.items;
      next = d.next;
      back = d.back.items;
      is_out = d.is_out;
      has_ended = d.has_ended;
      counts = d.counts;
    } };

    ghost invariant = { λ d. (length d.back.items + number_out d.is_out ≤ d.next)
        × (d.next ≤ length d.links.items) × (length d.links.items ≤ vec_capacity d.back) };
}

impl MemDoor {
    /// A door to these links, in this order. Its calls for a link are counted from 1, and those that `fails` lists fail.
    pub fn new(
        alloc: Global,
        links: Vec<(MemSource, MemSink)>,
        fails: Vec<u64>,
    ) -> Result<MemDoor, AllocError>
        ensures value { IfOk result (λ door. door
            ≡ record {
              links = links.items;
              next = 0;
              back = [];
              is_out = false;
              has_ended = false;
              counts = door.counts;
            }) }
        ensures listed { IfOk result (λ door. IsFresh fails.items door.counts) }
    {
        let back = Vec::with_capacity(alloc, links.len())?;
        Ok(MemDoor {
            links,
            next: 0,
            back,
            is_out: false,
            has_ended: false,
            counts: CallCounts::new(fails),
        })
    }

    /// The link that was given back at this place, counted from 0. There is none exactly where so many weren't given back.
    pub fn link(&self, place: u64) -> Option<&(MemSource, MemSink)>
        ensures value { option_copied result ≡ slice_get self.now.back place }
    {
        self.back.get(usize::try_from(place).ok()?)
    }

    // The next link once more, or none behind the last.
    fn copy_next(&self, alloc: Global) -> Result<Option<(MemSource, MemSink)>, AllocError>
        ensures ok { IfOk result (λ link. link ≡ slice_get self.now.links self.now.next) }
        ensures err { IsErr result → self.now.next < length self.now.links }
    {
        match self.links.get(self.next) {
            Some((source, sink)) => Ok(Some((source.copy(alloc)?, sink.copy(alloc)?))),
            None => Ok(None),
        }
    }
}

impl Door for MemDoor {
    type In = MemSource;

    type Out = MemSink;

    ghost words = { door_words };

    fn faults(&self) -> u64 {
        self.counts.faults()
    }

    #[tactic(auto, using(crate::proofs::DoorLemmas::take_next))]
    fn next_link(&mut self, alloc: Global) -> Result<Option<(MemSource, MemSink)>, DoorFault>
        requires { self.old.is_out ≡ false }
        ensures same { IsSameDoor door_words self.old self.new }
        ensures cause { IsErrOf result DoorFault.Failed
            → HasFailed door_words.faults self.old self.new }
        ensures value { AsksNext door_words self.old result self.new }
        ensures told { HandsOut door_words self.old result self.new }
        ensures listed { HandsNext self.old result self.new }
    {
        self.has_ended = false;
        if self.counts.count_call().is_err() {
            return Err(DoorFault::Failed);
        }
        match self.copy_next(alloc) {
            Ok(Some(link)) => {
                self.next += 1;
                self.is_out = true;
                Ok(Some(link))
            }
            Ok(None) => {
                self.has_ended = true;
                Ok(None)
            }
            Err(AllocError) => Err(DoorFault::OutOfMemory),
        }
    }

    fn give_back(&mut self, link: (MemSource, MemSink))
        requires { self.old.is_out ≡ true }
        ensures value { self.new
            ≡ record self.old { back = self.old.back ++ link ∷ []; is_out = false } }
    {
        self.back.push_reserved(link);
        self.is_out = false;
    }
}
