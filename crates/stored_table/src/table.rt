#![tactic(auto, using(crate::proofs::IndexLaws::counted, crate::proofs::IndexLaws::few_places, crate::proofs::IndexLaws::has_place, crate::proofs::IndexLaws::stands_at, crate::proofs::IndexLaws::stored_at, crate::proofs::IndexLaws::sized_at, crate::proofs::IndexLaws::short_at, crate::proofs::IndexLaws::key_sized, crate::proofs::IndexLaws::mixed_sized, crate::proofs::IndexLaws::name_short))]

ghost use Rattle.std.specs.Prelude.{◌≡◌, ◌≤◌, ◌<◌, length, get_or, MatchOption};
ghost use Rattle.std.proofs.Math.Option.{none, some};
ghost use Rattle.model.specs.Records.{decode};
ghost use Rattle.std.specs.List.{sum_by};
ghost use Rattle.stored_table.specs.Stored.{no_record, table_in, Indexed};
ghost use Rattle.stored_table.specs.Chosen.{ChosenOf};

use crate::index::index_of;
use crate::records::{MAX_RECORDS, count_at, key_at, mixed_at, name_at, name_len_at};
use std::marker::Model;

// A table in its stored form, where it lies, and where each of its records starts. Contracts see the table that it is the stored form of. A record is told
// by its number, the oldest of all being 0.
#[derive(Drop)]
pub struct StoredTable<'a> {
    pub(crate) bytes: &'a [u8],
    pub(crate) places: &'a [usize],
}

impl<'a> Model for StoredTable<'a> {
    ghost use Rattle.model.specs.Records as model;
    ghost use Rattle.stored_table.specs.Stored.{table_in, Indexed};

    ghost Value = { model.Table };

    ghost view = { λ t. table_in t.bytes.now };

    ghost invariant = { λ t. Indexed t.bytes.now t.places.now };
}

impl<'a> StoredTable<'a> {
    // The table of which a stretch is the stored form, if it is one. It keeps the places of its records in what is lent for them. Made part of its
    // callers: else the Option goes through memory, and a call refused with 3 on an empty table takes a third more time.
    #[inline(always)]
    pub fn read(bytes: &'a [u8], places: &'a mut [usize; MAX_RECORDS]) -> Option<StoredTable<'a>>
        ensures { MatchOption result (decode bytes.now ≡ none) (λ t. decode bytes.now ≡ some t) }
    {
        let len = index_of(bytes, places)?;
        Some(StoredTable {
            bytes,
            places: &places[..len],
        })
    }

    // A table whose bytes and places are at hand: the bytes are its stored form, and each of its records starts at its place.
    pub fn of(bytes: &'a [u8], places: &'a [usize]) -> StoredTable<'a>
        requires { Indexed bytes.now places.now }
        ensures { result ≡ table_in bytes.now }
    {
        StoredTable { bytes, places }
    }

    // How many records it has.
    pub fn len(&self) -> usize
        ensures { (result ≡ length self.now) × (result ≤ 32) }
    {
        self.places.len()
    }

    // How long the name of a record is.
    pub fn name_len(&self, i: usize) -> usize
        requires { i < length self.now }
        ensures { (result ≡ length (get_or self.now i no_record).name) × (result ≤ 128) }
    {
        name_len_at(self.bytes, self.places[i])
    }

    // How many bytes the names of the records with these numbers take.
    pub fn names_len(&self, named: &[usize]) -> usize
        requires { ChosenOf self.now named.now }
        ensures { (result ≡ sum_by (λ i. length (get_or self.now i no_record).name) named.now) × (result ≤ 1024) }
    {
        let table = self.bytes;
        let places = self.places;
        named.iter().map(|&i| name_len_at(table, places[i])).sum()
    }

    // The name of a record.
    pub fn name_of(&self, i: usize) -> &'a [u8]
        requires { i < length self.now }
        ensures { (result.now ≡ (get_or self.now i no_record).name) × (length result.now ≤ 128) }
    {
        name_at(self.bytes, self.places[i])
    }

    // The KeyID of a record.
    pub fn key_of(&self, i: usize) -> &'a [u8]
        requires { i < length self.now }
        ensures { (result.now ≡ (get_or self.now i no_record).key_id) × (length result.now ≡ 32) }
    {
        key_at(self.bytes, self.places[i])
    }

    // The mixed token of a record.
    pub fn mixed_of(&self, i: usize) -> &'a [u8]
        requires { i < length self.now }
        ensures { (result.now ≡ (get_or self.now i no_record).mixed) × (length result.now ≡ 32) }
    {
        mixed_at(self.bytes, self.places[i])
    }

    // The counter of a record.
    pub fn count_of(&self, i: usize) -> u32
        requires { i < length self.now }
        ensures { result ≡ (get_or self.now i no_record).count }
    {
        count_at(self.bytes, self.places[i])
    }
}
