//! Where things with names stand.

ghost use Rattle.std.specs.Prelude.{◌≡◌, ◌<◌, ℕ, None, Some, OnOk, length, nat_eq, if◌then◌else◌};
ghost use Rattle.c_meaning.specs.PlaceTables.{place_at};

use std::alloc::{AllocError, Global};

/// A place, or none, for each number.
#[derive(Debug, Drop)]
pub struct PlaceTable {
    places: Vec<Option<usize>>,
}

impl PlaceTable {
    /// No number has a place.
    pub fn new(alloc: Global) -> PlaceTable
        ensures { (n : ℕ) → place_at result n ≡ None }
    {
        PlaceTable {
            places: Vec::new(alloc),
        }
    }

    /// The place of a number.
    pub fn get(&self, number: usize) -> Option<usize>
        ensures { result ≡ place_at self.now number }
    {
        if number < self.places.len() {
            self.places[number]
        } else {
            None
        }
    }

    /// Makes room for a number. No place is changed, also where memory is wanting.
    #[tactic(auto, using(crate::proofs::PlaceTables::room))]
    pub fn make_room(&mut self, number: usize) -> Result<(), AllocError>
        ensures room { OnOk result (number < length self.new.places.items) }
        ensures same { (n : ℕ) → place_at self.new n ≡ place_at self.old n }
    {
        'each: while self.places.len() <= number {
            self.places.push(None)?;
        }
        Ok(())
    }

    /// Gives a number another place, or none.
    pub fn put(&mut self, number: usize, place: Option<usize>)
        requires { number < length self.old.places.items }
        ensures { (n : ℕ) → place_at self.new n ≡ (if nat_eq n number then place else place_at self.old n) }
    {
        self.places[number] = place;
    }

    /// Gives a number a place.
    pub fn set(&mut self, number: usize, place: usize) -> Result<(), AllocError>
        ensures { OnOk result ((n : ℕ) → place_at self.new n ≡ (if nat_eq n number then Some place else place_at self.old n)) }
    {
        self.make_room(number)?;
        self.put(number, Some(place));
        Ok(())
    }
}
