// What is done with a register.
ghost use Rattle.std.specs.Prelude.{◌≡◌, length, map, IfOk, IfErr, None, MatchBool, MatchResult, ◌==◌, ◌≢◌};
ghost use Rattle.model.specs.Uses.{standing};
ghost use Rattle.register.specs.Lookups.{nothing, what_of, numbered, put_at};
ghost use Rattle.register.specs.Standing.{items_of, stands, IsAt, IsGapFor, Accepts, Refuses};

use super::{NoInsert, Register};
use crate::records::{Numbered, is_slip_number};
use std::alloc::{AllocError, Global};

impl<T: Copy, const MOST: usize> Register<T, MOST> {
    // An empty register, with memory for all the records that it may ever hold.
    pub fn new(heap: Global) -> Result<Register<T, MOST>, AllocError>
        ensures { IfOk result (λ s. stands s ≡ nothing) }
    {
        let items = Vec::with_capacity(heap, MOST)?;
        Ok(Register { items })
    }

    // The records that stand, by rising number.
    pub fn as_slice(&self) -> &[Numbered<T>]
        ensures items { result.now ≡ items_of self.now }
        ensures gathered { result.now ≡ standing (numbered (stands self.now)) }
        ensures unnumbered { map what_of result.now ≡ standing (stands self.now) }
    {
        self.items.as_slice()
    }

    // How many records stand.
    pub fn len(&self) -> usize
        ensures { result ≡ length (items_of self.now) }
    {
        self.items.len()
    }

    // Whether nothing stands.
    pub fn is_empty(&self) -> bool
        ensures count { result ≡ (length (items_of self.now) == 0) }
        ensures empty { MatchBool result (stands self.now ≡ nothing) (stands self.now ≢ nothing) }
    {
        self.items.is_empty()
    }

    // The place of the record under `number`, or else the place where it would be.
    fn seat(&self, number: u32) -> Result<usize, usize>
        ensures found { IfOk result (IsAt self.now number) }
        ensures absent { IfErr result (IsGapFor self.now number) }
    {
        self.items.binary_search_by_key(&number, |x| x.number)
    }

    // The record that stands under `number`.
    pub fn find(&self, number: u32) -> Option<T>
        ensures { result ≡ stands self.now number }
    {
        let i = self.seat(number).ok()?;
        Some(self.items[i].what)
    }

    // Puts `what` under `number`, or says why not. It never fails for want of memory.
    pub fn insert(&mut self, number: u32, what: T) -> Result<(), NoInsert>
        ensures { MatchResult result (λ _. Accepts self.old self.new number what) (λ e. Refuses self.old number e × (self.new ≡ self.old)) }
    {
        if !is_slip_number(number) {
            return Err(NoInsert::OutOfRange);
        }
        // here an `Ok` is what is refused
        let Err(i) = self.seat(number) else {
            return Err(NoInsert::Stands);
        };
        if self.len() >= MOST {
            return Err(NoInsert::Full);
        }
        // cannot fail: the room was claimed when the register was made
        let _ = self.items.insert(i, Numbered { number, what });
        Ok(())
    }

    // Takes out the record that stands under `number`.
    pub fn remove(&mut self, number: u32) -> Option<T>
        ensures stood { result ≡ stands self.old number }
        ensures after { stands self.new ≡ put_at (stands self.old) number None }
        ensures unchanged { result ≡ None → self.new ≡ self.old }
    {
        let i = self.seat(number).ok()?;
        Some(self.items.remove(i).what)
    }
}
