#![tactic(auto)]

ghost use Rattle.std.specs.Prelude.{◌≡◌, ℕ, ◌<◌, ◌≤◌, [], ◌∷◌, ◌++◌, length, take, slice_set};

use std::alloc::AllocError;
use std::marker::Model;

// A type with a value for the places of an array where nothing counts.
pub trait Blank: Copy {
    ghost blank_value: { Self };

    fn blank() -> Self
        ensures { result ≡ blank_value };
}

impl Blank for u8 {
    ghost blank_value = { 0 };

    fn blank() -> u8 {
        0
    }
}

impl Blank for u16 {
    ghost blank_value = { 0 };

    fn blank() -> u16 {
        0
    }
}

impl Blank for u32 {
    ghost blank_value = { 0 };

    fn blank() -> u32 {
        0
    }
}

// A list of at most N elements in fixed memory: an array and how many of it count. Clauses see the list.
#[derive(Copy)]
pub struct Few<T: Blank, const N: usize> {
    items: [T; N],
    count: usize,
}

impl<T: Blank, const N: usize> Model for Few<T, N> {
    ghost use Rattle.std.specs.Prelude.{List, take, length};
    ghost use Rattle.lists.specs.Padding.{padded, IsPadded};
    ghost use Rattle.lists.specs.Fields.{padded_back};

    ghost Value = { List T };

    ghost view = { λ l. take l.count l.items };

    ghost invariant = { λ l. IsPadded N T.blank_value l.items l.count };

    ghost inverse = { λ xs. record { items = padded N T.blank_value xs; count = length xs } };

    ghost inverse_ok = { λ l h. padded_back N T.blank_value l h };
}

impl<T: Blank, const N: usize> Clone for Few<T, N> {
    ghost is_clone = { λ x y. y ≡ x };

    ghost is_infallible = { λ _. Unit {0} };

    fn clone(&self) -> Result<Few<T, N>, AllocError> {
        Ok(*self)
    }
}

impl<T: Blank, const N: usize> Few<T, N> {
    pub fn new() -> Self
        ensures { result ≡ [] }
    {
        Few {
            items: [T::blank(); N],
            count: 0,
        }
    }

    // The first elements of a slice, as many as there is room for.
    pub fn of(xs: &[T]) -> Self
        ensures { result ≡ take N xs.now }
    {
        let mut list = Few::new();
        list.extend(xs);
        list
    }

    // Adds the elements of a slice behind the others, as many as there is room for.
    pub fn extend(&mut self, xs: &[T])
        ensures items { self.new ≡ take N (self.old ++ xs.now) }
        ensures fits { length self.new ≤ N }
    {
        // Told by its length: the list is no longer than its room.
        let _ = self.len();
        for x in xs {
            self.push(*x);
        }
    }

    pub fn len(&self) -> usize
        ensures count { result ≡ length self.now }
        ensures fits { result ≤ N }
    {
        self.as_slice().len()
    }

    pub fn as_slice(&self) -> &[T]
        ensures items { result.now ≡ self.now }
        ensures fits { length self.now ≤ N }
    {
        &self.items[..self.count]
    }

    // An array that begins with the list.
    pub fn padded(&self) -> [T; N]
        ensures { take (length self.now) result ≡ self.now }
    {
        self.items
    }

    // Adds an element behind the others, if there is room.
    pub fn push(&mut self, x: T)
        ensures items { self.new ≡ take N (self.old ++ x ∷ []) }
        ensures fits { length self.new ≤ N }
    {
        if self.count < N {
            self.items[self.count] = x;
            self.count += 1;
        }
    }

    // Puts an element in the place of element i, if there is one.
    pub fn set(&mut self, i: usize, x: T)
        ensures items { self.new ≡ slice_set self.old i x }
        ensures fits { length self.new ≤ N }
    {
        if i < self.count {
            self.items[i] = x;
        }
    }
}
