// A vector of at most so many items, which lie in the value itself and are copied with it. A contract sees its items, as it does of the kit's
// ArrayVec. That one cannot be copied: a copy is what lies in every place, and nothing is known there of the places behind the items.
#![tactic(auto)]

ghost use Rattle.std.specs.Prelude.{⊤, ◌≡◌, ◌+◌, ◌-◌, ◌^◌, ◌<◌, ◌≤◌, ◌==◌, ◌↔◌, [], ◌∷◌, ◌++◌, length, take, drop, replicate, IsOk, OnOk, OnErr, IfErr};
ghost use Rattle.std.specs.Cmp.{on_equiv, on_per};
ghost use Rattle.std.specs.Cmp.Lexicographic.{pointwise, lists_per, lists_equiv};
ghost use Rattle.std.specs.Iterator.Runs.{EveryRun, ItemsMapTo};
ghost use Rattle.std.specs.Slice.Iter.{iter_rest, iter_steps};
ghost use Rattle.arrayvec.specs.ArrayVec.{array_vec_len};
ghost use Rattle.arrayvec.specs.CapacityError.{error_element};

use arrayvec::CapacityError;
use std::alloc::AllocError;
use std::marker::Model;
use std::ops::DerefSlice;
use std::{fmt, slice};

// What stands in a place that has no item.
pub trait Blank: Copy {
    ghost blank: { Self };

    fn blank() -> Self
        ensures { result ≡ blank };
}

impl Blank for u8 {
    ghost blank = { 0 };

    fn blank() -> u8 {
        0
    }
}

// A blank stands in each place behind the items, so that they say what lies in every place, and the vector can be `Copy`.
#[derive(Copy)]
pub struct BoundedVec<T: Blank, const N: usize> {
    places: [T; N],
    count: usize,
}

impl<T: Blank, const N: usize> Model for BoundedVec<T, N> {
    ghost use Rattle.std.specs.Prelude.{length, take};
    ghost use Rattle.arrayvec.specs.ArrayVec.{ArrayVec as Items, array_vec_code};
    ghost use Rattle.bounded_vec.specs.Places.{Holds, places_of, places_back, count_back};

    ghost Value = { Items T };

    ghost coded = { array_vec_code T.code };

    ghost view = { λ v. record { items = take v.count v.places } };

    ghost invariant = { λ v. Holds N v.count T.blank v.places };

    ghost inverse = { λ v. record { places = places_of N T.blank v.items; count = length v.items } };

    ghost inverse_ok = { λ v h i. record {
      places = places_back N v.count T.blank v.places h i;
      count = count_back N v.count T.blank v.places h i;
    } };
}

impl<T: Blank, const N: usize> BoundedVec<T, N> {
    // A vector of no items.
    pub fn new() -> Self
        ensures { result.items ≡ [] }
    {
        BoundedVec {
            places: [T::blank(); N],
            count: 0,
        }
    }

    pub fn len(&self) -> usize
        ensures value { result ≡ array_vec_len self.now }
        ensures fits { result ≤ N }
    {
        self.as_slice().len()
    }

    pub fn is_empty(&self) -> bool
        ensures { result ≡ (array_vec_len self.now == 0) }
    {
        self.count == 0
    }

    pub fn as_slice(&self) -> &[T]
        ensures value { result.now ≡ self.now.items }
        ensures fits { length result.now ≤ N }
    {
        &self.places[..self.count]
    }

    // Appends an item, for which there is room.
    #[tactic(auto, using(crate::proofs::Blanks::put_next, std::proofs::lemmas::Grind::common_steps))]
    fn put_next(&mut self, item: T)
        requires { array_vec_len self.old < N }
        ensures items { self.new.items ≡ self.old.items ++ item ∷ [] }
        ensures len { array_vec_len self.new ≡ array_vec_len self.old + 1 }
    {
        let count = self.count;
        self.places[count] = item;
        self.count = count + 1;
    }

    // Appends an item, or hands it back where there is no room.
    pub fn try_push(&mut self, item: T) -> Result<(), CapacityError<T>>
        ensures variant { IsOk result ↔ (array_vec_len self.old < N) }
        ensures ok { OnOk result (self.new.items ≡ self.old.items ++ item ∷ []) }
        ensures len { OnOk result (array_vec_len self.new ≡ array_vec_len self.old + 1) }
        ensures err { OnErr result (self.new ≡ self.old) }
        ensures full { OnErr result (array_vec_len self.old ≡ N) }
        ensures element_returned { IfErr result (λ e. error_element e ≡ item) }
    {
        if self.len() == N {
            return Err(CapacityError::new(item));
        }
        self.put_next(item);
        Ok(())
    }

    // Appends an item, or leaves it out where there is no room.
    pub fn push(&mut self, item: T)
        ensures room { array_vec_len self.old < N → self.new.items ≡ self.old.items ++ item ∷ [] }
        ensures full { N ≤ array_vec_len self.old → self.new ≡ self.old }
    {
        let _ = self.try_push(item);
    }

    // Keeps the first `kept` items, or all where there are fewer.
    #[tactic(auto, using(crate::proofs::Blanks::blanks_from, crate::proofs::Blanks::take_kept))]
    pub fn truncate(&mut self, kept: usize)
        ensures items { self.new.items ≡ take kept self.old.items }
        ensures len { array_vec_len self.new + (array_vec_len self.old - kept) ≡ array_vec_len self.old }
    {
        let count = self.count;
        if kept < count {
            blank_between(&mut self.places, kept, count);
            self.count = kept;
        }
    }

    pub fn clear(&mut self)
        ensures { self.new.items ≡ [] }
    {
        self.truncate(0);
    }

    // Moves what stands behind the first `removed` items, which are there, to the front.
    #[tactic(auto, using(crate::proofs::Blanks::removed_holds, crate::proofs::Blanks::removed_items, std::proofs::lemmas::Grind::common_steps))]
    fn move_to_front(&mut self, removed: usize)
        requires { removed ≤ array_vec_len self.old }
        ensures items { self.new.items ≡ drop removed self.old.items }
        ensures len { array_vec_len self.new + removed ≡ array_vec_len self.old }
    {
        let count = self.count;
        self.places.copy_within(removed..count, 0);
        blank_between(&mut self.places, count - removed, count);
        self.count = count - removed;
    }

    // Removes the first `removed` items, or all where there are fewer, and moves the others to the front.
    pub fn remove_first(&mut self, removed: usize)
        ensures { self.new.items ≡ drop removed self.old.items }
    {
        self.move_to_front(removed.min(self.len()));
    }
}

// Puts a blank in each place from `start` up to `end`.
#[tactic(auto, using(crate::proofs::Blanks::blank_more))]
fn blank_between<T: Blank>(places: &mut [T], start: usize, end: usize)
    requires { (start ≤ end) × (end ≤ length places.old) }
    ensures { places.new ≡ take start places.old ++ replicate (end - start) T.blank ++ drop end places.old }
{
    for place in start..end {
        places[place] = T::blank();
    }
}

// ---- what a vector is by the traits of the library

impl<T: Blank, const N: usize> Clone for BoundedVec<T, N> {
    ghost is_clone = { λ v w. w ≡ v };

    ghost is_infallible = { λ _. ⊤ };

    fn clone(&self) -> Result<Self, AllocError> {
        Ok(*self)
    }
}

impl<T: Blank, const N: usize> Default for BoundedVec<T, N> {
    ghost is_default = { λ v. v.items ≡ [] };

    fn default() -> Self {
        Self::new()
    }
}

impl<T: Blank, const N: usize> From<[T; N]> for BoundedVec<T, N> {
    ghost from_gives = { λ array v. (v.items ≡ array) × (array_vec_len v ≡ N) };

    fn from(array: [T; N]) -> Self {
        BoundedVec {
            places: array,
            count: N,
        }
    }
}

impl<T: Blank, const N: usize> DerefSlice for BoundedVec<T, N> {
    type Elem = T;

    ghost deref_gives = { λ v xs. (xs ≡ v.items) × (length xs ≤ N) };

    fn deref(&self) -> &[T] {
        BoundedVec::as_slice(self)
    }
}

impl<'a, T: Blank, const N: usize> IntoIterator for &'a BoundedVec<T, N> {
    type Item = &'a T;

    type IntoIter = slice::Iter<'a, T>;

    ghost into_iter_gives = { λ v it. (iter_rest it ≡ v.now.items) × (length (iter_rest it) < 2 ^ 64)
        × EveryRun (iter_steps {A = T}) (λ p. ItemsMapTo p (λ x. x.now) (iter_rest p.from)) };

    fn into_iter(self) -> slice::Iter<'a, T> {
        self.as_slice().iter()
    }
}

impl<T: Blank + PartialEq, const N: usize> PartialEq for BoundedVec<T, N> {
    ghost eq = { λ v w. pointwise T.eq v.items w.items };

    ghost laws = { on_per (λ v. v.items) (lists_per T.laws) };

    fn eq(&self, other: &Self) -> bool {
        self.as_slice() == other.as_slice()
    }
}

impl<T: Blank + Eq, const N: usize> Eq for BoundedVec<T, N> {
    ghost laws = { on_equiv (λ v. v.items) (lists_equiv T.Eq.laws) };
}

impl<T: Blank + fmt::Debug, const N: usize> fmt::Debug for BoundedVec<T, N> {
    fn fmt<W: fmt::Write>(&self, f: &mut fmt::Formatter<W>) -> fmt::Result {
        f.debug_list().entries(self.as_slice()).finish()
    }
}
