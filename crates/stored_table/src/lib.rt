// The key table in its stored form, where it lies: what stands in the record at a place, where the records start, lookups, and what is written of the
// table that a change leaves. Nothing is copied to look at it, and no other crate knows how a stored record is laid out.
#![tactic(auto)]

pub mod index;
pub mod left;
pub mod lookups;
pub mod records;
pub mod table;
