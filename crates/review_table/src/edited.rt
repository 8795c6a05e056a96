//! A table with edits beside it that are noted and not made.
ghost use Rattle.std.specs.{BTreeMap.is_at, List.list_any, Map.keys_of};
ghost use Rattle.std.specs.Prelude.{◌≡◌, IfOk, IsSome, None, OnOk, map, true, option_copied, if◌then◌else◌};
ghost use Rattle.review_table.specs.Edited.{edited_row};
ghost use Rattle.review_table.specs.Rows.{NamesOnce, place_at, row_edit_of, row_in, rows_of};

use crate::table::{RowEdit, Table};
use review_names::Key;
use std::alloc::{AllocError, Global};
use std::collections::BTreeMap;

/// A table that stays as it is, and what is to change in it: at most one edit at each key.
#[derive(Drop)]
pub struct Edited<'t, K: Ord, V> {
    rows: &'t Table<K, V>,
    edits: BTreeMap<K, Option<V>>,
}

impl<'t, K: Key, V: Drop> Edited<'t, K, V> {
    /// A table with no edit yet.
    pub fn new(alloc: Global, rows: &'t Table<K, V>) -> Edited<'t, K, V>
        ensures table { result.rows ≡ rows.entry }
        ensures rows { (q : K) → edited_row K.cmp result q ≡ row_in K.cmp (rows_of rows.now) q }
    {
        Edited {
            rows,
            edits: BTreeMap::new(alloc),
        }
    }

    /// The row that a key has once the edits are made.
    pub fn get(&self, key: &K) -> Option<&V>
        ensures { option_copied result ≡ edited_row K.cmp self.now key.now }
    {
        match self.edits.get(key) {
            Some(Some(row)) => Some(row),
            Some(None) => None,
            None => self.rows.get(key),
        }
    }

    /// Notes the row that a key is to have, or that it is to have none, in place of what was noted for it.
    pub fn set(&mut self, key: K, row: Option<V>) -> Result<(), AllocError>
        ensures table { self.new.rows ≡ self.old.rows }
        ensures rows { OnOk result ((q : K) → edited_row K.cmp self.new q ≡ (if is_at (K.cmp key) q then row else edited_row K.cmp self.old q)) }
    {
        self.edits.insert(key, row)?;
        Ok(())
    }

    /// The keys of the table's rows and those that are edited: each that has a row once the edits are made is among them.
    pub fn keys(&self, alloc: Global) -> Result<Vec<&K>, AllocError>
        ensures { IfOk result (λ keys. (q : K) → IsSome (edited_row K.cmp self.now q) → list_any (is_at (K.cmp q)) (map (λ k. k.now) keys.items) ≡ true) }
    {
        let rows = self.rows;
        let mut keys = Vec::with_capacity(alloc, rows.places.len())?;
        for (key, place) in &rows.places {
            if place.is_some() {
                keys.push(key)?;
            }
        }
        for (key, _) in &self.edits {
            keys.push(key)?;
        }
        Ok(keys)
    }

    /// Notes that these keys are to have no row.
    pub fn take_away(&mut self, keys: Vec<K>) -> Result<(), AllocError>
        ensures table { self.new.rows ≡ self.old.rows }
        ensures rows { OnOk result ((q : K) → edited_row K.cmp self.new q ≡ (if list_any (is_at (K.cmp q)) keys.items then None else edited_row K.cmp self.old q)) }
    {
        for key in keys {
            self.set(key, None)?;
        }
        Ok(())
    }

    /// Notes that no key is to have a row.
    pub fn clear(&mut self, alloc: Global) -> Result<(), AllocError>
        ensures table { self.new.rows ≡ self.old.rows }
        ensures rows { OnOk result ((q : K) → edited_row K.cmp self.new q ≡ None) }
    {
        let keys = copied_keys(alloc, &self.keys(alloc)?)?;
        self.take_away(keys)
    }

    /// The edits, in the order of their keys.
    pub fn into_edits(self, alloc: Global) -> Result<Vec<RowEdit<K, V>>, AllocError>
        ensures edits { IfOk result (λ edits. (q : K) → row_edit_of K.cmp edits.items q ≡ place_at K.cmp self.entry.edits.entries q) }
        ensures once { IfOk result (λ edits. NamesOnce K.cmp edits.items) }
        ensures order { IfOk result (λ edits. map (λ c. c.key) edits.items ≡ keys_of self.entry.edits.entries) }
    {
        let mut edits = Vec::with_capacity(alloc, self.edits.len())?;
        for (key, row) in self.edits {
            edits.push(RowEdit { key, row })?;
        }
        Ok(edits)
    }
}

fn copied_keys<K: Key>(alloc: Global, keys: &[&K]) -> Result<Vec<K>, AllocError>
    ensures { IfOk result (λ copies. copies.items ≡ map (λ k. k.now) keys.now) }
{
    let mut copies = Vec::with_capacity(alloc, keys.len())?;
    for key in keys {
        copies.push(key.copy()?)?;
    }
    Ok(copies)
}
