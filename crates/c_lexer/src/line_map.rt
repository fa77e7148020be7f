//! Lines and columns of a text that comes in pieces.

ghost use Rattle.std.specs.Prelude.{◌≡◌, ℕ, ◌+◌, ◌-◌, ◌<◌, ◌≤◌, ◌^◌, List, [], ◌∷◌, ◌++◌, length, count_by, vec_len, vec_capacity, slice_index, EachIndex, OnOk, OnErr};
ghost use Rattle.c_tree.specs.Place.{is_line_feed, line_at, column_at};
ghost use Rattle.c_lexer.specs.Lines.{MapsLines, Splits, feed_places};

use std::alloc::{AllocError, Global};
use std::marker::Model;

/// A map of lines stands for the bytes that it was fed. It keeps how many they are, and the places of their line feeds.
#[derive(Drop)]
pub struct LineMap {
    feeds: Vec<u64>,
    count: u64,
}

impl Model for LineMap {
    ghost use Rattle.std.specs.Prelude.{◌-◌, ◌<◌, ◌^◌, IsTrue, vec_len, vec_capacity};
    ghost use Rattle.c_lexer.specs.Lines.{Lines, rises};

    ghost Value = { Lines };

    ghost view = { λ m. record { count = m.count; feeds = m.feeds.items; spare = vec_capacity m.feeds - vec_len m.feeds } };

    ghost invariant = { λ m. IsTrue (rises 0 m.feeds.items m.count) × (m.count < 2 ^ 63) };
}

/// Adds a place where there is room for it.
fn push_place(feeds: &mut Vec<u64>, place: u64)
    requires { vec_len feeds.old < vec_capacity feeds.old }
    ensures items { feeds.new.items ≡ feeds.old.items ++ place ∷ [] }
    ensures len { vec_len feeds.new ≡ vec_len feeds.old + 1 }
    ensures capacity { vec_capacity feeds.old ≤ vec_capacity feeds.new }
{
    match feeds.push(place) {
        Ok(()) => {}
        Err(_) => unreachable!(),
    }
}

/// Adds the places of the line feeds of a piece whose first byte has a place.
fn push_places(feeds: &mut Vec<u64>, at: u64, piece: &[u8])
    requires room { vec_len feeds.old + count_by is_line_feed piece.now ≤ vec_capacity feeds.old }
    requires fits { at + length piece.now < 2 ^ 63 }
    ensures items { feeds.new.items ≡ feeds.old.items ++ feed_places at piece.now }
    ensures room { vec_capacity feeds.old - vec_len feeds.old ≤ vec_capacity feeds.new - vec_len feeds.new + count_by is_line_feed piece.now }
{
    for (i, byte) in piece.iter().enumerate() {
        if *byte == b'\n' {
            push_place(feeds, at + i as u64);
        }
    }
}

/// How many places that rise are below one.
fn places_below(places: &[u64], place: u64) -> usize
    requires { EachIndex places.now (λ j. (i : ℕ) → i ≤ j → slice_index places.now i ≤ slice_index places.now j) }
    ensures { Splits places.now place result }
{
    places.partition_point(|other| *other < place)
}

impl LineMap {
    /// A map that stands for no bytes. It takes no memory.
    pub fn new(alloc: Global) -> LineMap
        ensures { MapsLines result [] }
    {
        LineMap {
            feeds: Vec::new(alloc),
            count: 0,
        }
    }

    /// Makes room for the line feeds of a piece. After an error, want of memory, the map is as it was before.
    pub fn room(&mut self, piece: &[u8]) -> Result<(), AllocError>
        ensures ok { OnOk result (count_by is_line_feed piece.now ≤ self.new.spare) }
        ensures count { self.new.count ≡ self.old.count }
        ensures feeds { self.new.feeds ≡ self.old.feeds }
        ensures err { OnErr result (self.new ≡ self.old) }
    {
        let more = piece.iter().filter(|byte| **byte == b'\n').count();
        self.feeds.reserve(more)
    }

    /// Takes the next piece of the text, for which it has room. It takes no memory.
    pub fn feed(&mut self, piece: &[u8])
        requires count { self.old.count + length piece.now < 2 ^ 63 }
        requires room { count_by is_line_feed piece.now ≤ self.old.spare }
        ensures stands { (bytes : List ℕ) → MapsLines self.old bytes → MapsLines self.new (bytes ++ piece.now) }
        ensures count { self.new.count ≡ self.old.count + length piece.now }
        ensures room { self.old.spare ≤ self.new.spare + count_by is_line_feed piece.now }
    {
        push_places(&mut self.feeds, self.count, piece);
        self.count += piece.len() as u64;
    }

    /// The line and the column of a place in the bytes that the map stands for, both counted from 1. The end of the
    /// bytes is a place too. It takes no memory.
    pub fn line_col(&self, place: u64) -> (u64, u64)
        requires { place ≤ self.now.count }
        ensures line { (bytes : List ℕ) → MapsLines self.now bytes → result.0 ≡ line_at bytes place }
        ensures column { (bytes : List ℕ) → MapsLines self.now bytes → result.1 ≡ column_at bytes place }
    {
        let before = places_below(&self.feeds, place);
        let line = before as u64 + 1;
        if before == 0 {
            (line, place + 1)
        } else {
            (line, place - self.feeds[before - 1])
        }
    }
}
