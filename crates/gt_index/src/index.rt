ghost use Rattle.std.specs.Prelude.{◌≡◌, ◌≤◌, ◌<◌, ◌+◌, [], OnOk, false, length, slice_get, true};
ghost use Rattle.gt_index.specs.Index.{IsFiled, IsFirstFrom, IsRun, key_at};
ghost use Rattle.gt_index.specs.Split.{FindsKey, FindsPlace, is_at};

use crate::keyed::{Asked, Keyed};
use crate::search::{comes_before, standing};
use std::alloc::{AllocError, Global};
use std::marker::Model;

/// The places of some rows of a list, in rising order of their keys, and of one key in their own order. Contracts see the
/// places, and the number of places that can be inserted without memory.
#[derive(Debug, Drop)]
pub struct Index {
    places: Vec<u32>,
}

impl Model for Index {
    ghost use Rattle.std.specs.Prelude.{◌-◌};
    ghost use Rattle.std.specs.Vec.{vec_capacity, vec_len};
    ghost use Rattle.gt_index.specs.Places.{Places, places_code};

    ghost Value = { Places };

    ghost coded = { places_code };

    ghost view = { λ i. record {
      places = i.places.items;
      spare = vec_capacity i.places - vec_len i.places;
    } };
}

impl Index {
    /// No place. Takes no memory.
    pub fn new(alloc: Global) -> Index
        ensures { result.places ≡ [] }
    {
        Index {
            places: Vec::new(alloc),
        }
    }

    /// Takes room for so many more places.
    pub fn reserve(&mut self, more: u64) -> Result<(), AllocError>
        ensures places { self.new.places ≡ self.old.places }
        ensures room { OnOk result (more ≤ self.new.spare) }
        ensures kept { self.old.spare ≤ self.new.spare }
    {
        self.places.reserve(more as usize)
    }

    /// Puts the place of a row that has come, or that is kept from now on. Takes no memory.
    pub fn insert<R: Keyed>(&mut self, rows: &[R], place: u32)
        requires { 0 < self.old.spare }
        ensures index { IsFiled R.Key.cmp R.key true place rows.now
            self.old.places self.new.places }
        ensures spare { self.old.spare ≤ self.new.spare + 1 }
    {
        let at = self.position(rows, place);
        if !self.holds(at, place) {
            let inserted = self.places.insert(at, place).is_ok();
            prove!(inserted);
        }
    }

    /// Drops the place of a row that isn't kept from now on.
    pub fn remove<R: Keyed>(&mut self, rows: &[R], place: u32)
        ensures index { IsFiled R.Key.cmp R.key false place rows.now
            self.old.places self.new.places }
        ensures spare { self.old.spare ≤ self.new.spare }
    {
        let at = self.position(rows, place);
        if self.holds(at, place) {
            self.places.remove(at);
        }
    }

    /// The places of the rows with this key, in order.
    pub fn run<R: Keyed, Q: Asked<R>>(&self, rows: &[R], key: &Q) -> &[u32]
        ensures { IsRun R.Key.cmp R.key rows.now self.now.places (Q.asked key.now) result.now }
    {
        let first = self.first_at(rows, key);
        let rest = &self.places[first..];
        let count = rest.partition_point(|place| standing(rows, *place, key).is_le());
        &rest[..count]
    }

    /// The place of the first row whose key is at least this one, if there is one.
    pub fn first_from<R: Keyed, Q: Asked<R>>(&self, rows: &[R], key: &Q) -> Option<u32>
        ensures { IsFirstFrom R.Key.cmp R.key rows.now self.now.places (Q.asked key.now) result }
    {
        self.places.get(self.first_at(rows, key)).copied()
    }

    // Where the place is, or where it is to be inserted.
    fn position<R: Keyed>(&self, rows: &[R], place: u32) -> usize
        ensures within { result ≤ length self.now.places }
        ensures split { FindsPlace R.Key.cmp (key_at R.key rows.now) self.now.places place result }
    {
        self.places
            .partition_point(|other| comes_before(rows, *other, place))
    }

    // Whether the place stands there.
    fn holds(&self, at: usize, place: u32) -> bool
        ensures { result ≡ is_at place (slice_get self.now.places at) }
    {
        self.places.get(at).is_some_and(|other| *other == place)
    }

    // Where the first place is whose row isn't below the key.
    fn first_at<R: Keyed, Q: Asked<R>>(&self, rows: &[R], key: &Q) -> usize
        ensures within { result ≤ length self.now.places }
        ensures split { FindsKey R.Key.cmp (key_at R.key rows.now) self.now.places
            (Q.asked key.now) result }
    {
        self.places
            .partition_point(|place| standing(rows, *place, key).is_lt())
    }
}
