//! A table in memory: rows by their keys.
ghost use Rattle.std.specs.BTreeMap.{is_at, IsFromIterResult, Range.IsLeBy, Range.range_contains};
ghost use Rattle.std.specs.List.{All, IsDistinct, filter, Sorted.IsStrictlySortedBy};
ghost use Rattle.std.specs.{Map.keys_of, Map.Iter.deref_pair, Ordering.eq_by_cmp};
ghost use Rattle.std.specs.Prelude.{◌≡◌, ◌∷◌, ◌++◌, ◌&&◌, List, Option, Some, None, [], IfOk, IfErr, IfNone, IfSome, IsNone, OnOk, OnErr, ◌↔◌, map, length, option_copied, option_map, if◌then◌else◌, Result, Ok, Err, IsSome, true, false};
ghost use Rattle.std.specs.declared.{cmp.Ordering.TheVariants.Less, ops.Bound.TheVariants.Included};
ghost use Rattle.review_table.specs.Rows.{row_at, row_in, rows_of, HasEmptyOnly, HasNoEmptyPlace, HasPlace, HavePlaces, IsEmptyPlace, changed, has_place, is_named, place_at, placed};
ghost use Rattle.review_table.specs.{declared.table.BadRows.TheVariants.Double, inner.Words.place_of};

use review_names::Key;
use std::alloc::{AllocError, AllocFailed, Global};
use std::cmp::Ordering;
use std::collections::BTreeMap;
use std::marker::Model;

/// A row for a key, or that the key has none.
#[derive(Drop)]
pub struct RowEdit<K, V> {
    pub key: K,
    pub row: Option<V>,
}

/// Why rows make no table.
#[derive(Clone, Copy, Debug, PartialEq, Eq, Drop)]
pub enum BadRows {
    Double,
    Memory,
}

/// Rows by their keys, each key once, in the order of the keys. A place may hold no row.
#[derive(Drop)]
pub struct Table<K: Ord, V> {
    pub(crate) places: BTreeMap<K, Option<V>>,
}

impl<K: Ord, V> Model for Table<K, V> {
    ghost use Rattle.std.specs.Prelude.{List, Option};

    ghost Value = { List (K × Option V) };

    ghost view = { λ a. a.places.entries };
}

impl<K: Key, V: Drop> Table<K, V> {
    pub fn new(alloc: Global) -> Table<K, V>
        ensures { result ≡ [] }
    {
        Table {
            places: BTreeMap::new(alloc),
        }
    }

    /// The row at a key.
    pub fn get(&self, key: &K) -> Option<&V>
        ensures { option_copied result ≡ row_in K.cmp (rows_of self.now) key.now }
    {
        self.once();
        self.at(key)
    }

    fn at(&self, key: &K) -> Option<&V>
        ensures { option_copied result ≡ row_at K.cmp self.now key.now }
    {
        match self.places.get(key) {
            Some(Some(row)) => Some(row),
            Some(None) => None,
            None => None,
        }
    }

    /// Each key stands once, in order, so the row at a key is the one that the rows have. Where every
    /// place has a row, there are as many places as rows.
    pub fn once(&self)
        ensures sorted { IsStrictlySortedBy K.cmp (keys_of (rows_of self.now)) }
        ensures rows { (q : K) → row_at K.cmp self.now q ≡ row_in K.cmp (rows_of self.now) q }
        ensures bounded { HasNoEmptyPlace K.cmp self.now → length self.now ≡ length (rows_of self.now) }
    {
        let _ = self.places.len();
    }

    /// Makes a place for a key. An `Err` changes no row.
    #[tactic(auto, using(crate::proofs::Places::rows_of_inserted))]
    pub fn reserve(&mut self, key: K) -> Result<(), AllocError>
        ensures same { rows_of self.new ≡ rows_of self.old }
        ensures rows { (q : K) → row_at K.cmp self.new q ≡ row_at K.cmp self.old q }
        ensures stay { (q : K) → HasPlace K.cmp self.old q → HasPlace K.cmp self.new q }
        ensures ok { OnOk result (HasPlace K.cmp self.new key) }
        ensures each { OnOk result ((q : K) → place_at K.cmp self.new q ≡ (if is_at (K.cmp key) q then Some (row_at K.cmp self.old q) else place_at K.cmp self.old q)) }
        ensures err { OnErr result (self.new ≡ self.old) }
        ensures only { HasNoEmptyPlace K.cmp self.old → HasEmptyOnly K.cmp (is_at (K.cmp key)) self.new }
    {
        if !self.places.contains_key(&key) {
            self.places.insert(key, None)?;
        }
        Ok(())
    }

    /// Makes a place for a key, which is copied where it has none. An `Err` changes no row.
    #[tactic(auto, using(crate::proofs::Places::rows_of_inserted))]
    fn reserve_like(&mut self, key: &K) -> Result<(), AllocError>
        ensures same { rows_of self.new ≡ rows_of self.old }
        ensures rows { (q : K) → row_at K.cmp self.new q ≡ row_at K.cmp self.old q }
        ensures stay { (q : K) → HasPlace K.cmp self.old q → HasPlace K.cmp self.new q }
        ensures ok { OnOk result (HasPlace K.cmp self.new key.now) }
        ensures each { OnOk result ((q : K) → place_at K.cmp self.new q ≡ (if is_at (K.cmp key.now) q then Some (row_at K.cmp self.old q) else place_at K.cmp self.old q)) }
        ensures err { OnErr result (self.new ≡ self.old) }
    {
        if !self.places.contains_key(key) {
            let copied = key.copy()?;
            self.places.insert(copied, None)?;
        }
        Ok(())
    }

    /// Makes an edit, where its key has a place.
    fn set(&mut self, key: K, row: Option<V>)
        ensures rows { (q : K) → row_at K.cmp self.new q ≡ (if has_place K.cmp self.old key && is_at (K.cmp key) q then row else row_at K.cmp self.old q) }
        ensures stay { (q : K) → has_place K.cmp self.new q ≡ has_place K.cmp self.old q }
        ensures each { (q : K) → place_at K.cmp self.new q ≡ option_map (λ was. if is_at (K.cmp key) q then row else was) (place_at K.cmp self.old q) }
    {
        if let Some(place) = self.places.get_mut(&key) {
            *place = row;
        }
    }

    /// Makes a place for the key of each edit. An `Err` changes no row.
    pub fn reserve_all(&mut self, edits: &[RowEdit<K, V>]) -> Result<(), AllocError>
        ensures same { rows_of self.new ≡ rows_of self.old }
        ensures rows { (q : K) → row_at K.cmp self.new q ≡ row_at K.cmp self.old q }
        ensures stay { (q : K) → HasPlace K.cmp self.old q → HasPlace K.cmp self.new q }
        ensures ok { OnOk result (HavePlaces K.cmp self.new edits.now) }
        ensures each { OnOk result ((q : K) → place_at K.cmp self.new q ≡ (if is_named K.cmp edits.now q then Some (row_at K.cmp self.old q) else place_at K.cmp self.old q)) }
        ensures others { (q : K) → is_named K.cmp edits.now q ≡ false → place_at K.cmp self.new q ≡ place_at K.cmp self.old q }
        ensures only { HasNoEmptyPlace K.cmp self.old → HasEmptyOnly K.cmp (is_named K.cmp edits.now) self.new }
    {
        for edit in edits {
            self.reserve_like(&edit.key)?;
        }
        Ok(())
    }

    /// Makes the edits whose keys have places: after `reserve_all` all of them, and it can't fail.
    pub fn apply(&mut self, edits: Vec<RowEdit<K, V>>)
        ensures placed { (q : K) → row_in K.cmp (rows_of self.new) q ≡ changed K.cmp (placed K.cmp self.old edits.items) q (row_in K.cmp (rows_of self.old) q) }
        ensures all { HavePlaces K.cmp self.old edits.items → (q : K) → row_in K.cmp (rows_of self.new) q ≡ changed K.cmp edits.items q (row_in K.cmp (rows_of self.old) q) }
        ensures each { (q : K) → place_at K.cmp self.new q ≡ option_map (changed K.cmp edits.items q) (place_at K.cmp self.old q) }
        ensures only { HasEmptyOnly K.cmp (is_named K.cmp edits.items) self.old → HasEmptyOnly K.cmp (is_named K.cmp edits.items) self.new }
        ensures mended { All (λ c. IsSome c.row) edits.items → HasEmptyOnly K.cmp (is_named K.cmp edits.items) self.old → HasNoEmptyPlace K.cmp self.new }
    {
        self.once();
        self.set_all(edits);
        self.once();
    }

    /// Puts one row. An `Err` changes no row.
    pub fn put(&mut self, key: K, row: V) -> Result<(), AllocError>
        ensures ok { OnOk result ((q : K) → row_in K.cmp (rows_of self.new) q ≡ (if is_at (K.cmp key) q then Some row else row_in K.cmp (rows_of self.old) q)) }
        ensures err { OnErr result (rows_of self.new ≡ rows_of self.old) }
        ensures each { OnOk result ((q : K) → place_at K.cmp self.new q ≡ (if is_at (K.cmp key) q then Some (Some row) else place_at K.cmp self.old q)) }
        ensures same { OnErr result (self.new ≡ self.old) }
        ensures kept { HasNoEmptyPlace K.cmp self.old → HasNoEmptyPlace K.cmp self.new }
    {
        self.once();
        self.put_place(key, row)?;
        self.once();
        Ok(())
    }

    fn put_place(&mut self, key: K, row: V) -> Result<(), AllocError>
        ensures ok { OnOk result ((q : K) → row_at K.cmp self.new q ≡ (if is_at (K.cmp key) q then Some row else row_at K.cmp self.old q)) }
        ensures each { OnOk result ((q : K) → place_at K.cmp self.new q ≡ (if is_at (K.cmp key) q then Some (Some row) else place_at K.cmp self.old q)) }
        ensures err { OnErr result (self.new ≡ self.old) }
    {
        self.places.insert(key, Some(row))?;
        Ok(())
    }

    /// Takes the row of a key away, with its place.
    pub fn remove(&mut self, key: &K)
        ensures rows { (q : K) → row_in K.cmp (rows_of self.new) q ≡ (if is_at (K.cmp key.now) q then None else row_in K.cmp (rows_of self.old) q) }
        ensures places { (q : K) → has_place K.cmp self.new q ≡ (if is_at (K.cmp key.now) q then false else has_place K.cmp self.old q) }
        ensures each { (q : K) → place_at K.cmp self.new q ≡ (if is_at (K.cmp key.now) q then None else place_at K.cmp self.old q) }
        ensures mended { HasEmptyOnly K.cmp (is_at (K.cmp key.now)) self.old → HasNoEmptyPlace K.cmp self.new }
    {
        self.once();
        self.remove_place(key);
        self.once();
    }

    fn remove_place(&mut self, key: &K)
        ensures rows { (q : K) → row_at K.cmp self.new q ≡ (if is_at (K.cmp key.now) q then None else row_at K.cmp self.old q) }
        ensures places { (q : K) → has_place K.cmp self.new q ≡ (if is_at (K.cmp key.now) q then false else has_place K.cmp self.old q) }
        ensures each { (q : K) → place_at K.cmp self.new q ≡ (if is_at (K.cmp key.now) q then None else place_at K.cmp self.old q) }
    {
        let _ = self.places.remove(key);
    }

    /// Takes the row of a key out, and keeps its place.
    pub fn take(&mut self, key: K) -> Option<V>
        ensures row { result ≡ row_in K.cmp (rows_of self.old) key }
        ensures rows { (q : K) → row_in K.cmp (rows_of self.new) q ≡ (if is_at (K.cmp key) q then None else row_in K.cmp (rows_of self.old) q) }
        ensures stay { (q : K) → has_place K.cmp self.new q ≡ has_place K.cmp self.old q }
        ensures each { (q : K) → place_at K.cmp self.new q ≡ option_map (λ was. if is_at (K.cmp key) q then None else was) (place_at K.cmp self.old q) }
        ensures only { HasEmptyOnly K.cmp (is_at (K.cmp key)) self.old → HasEmptyOnly K.cmp (is_at (K.cmp key)) self.new }
    {
        self.once();
        let row = self.take_place(key);
        self.once();
        row
    }

    fn take_place(&mut self, key: K) -> Option<V>
        ensures row { result ≡ row_at K.cmp self.old key }
        ensures rows { (q : K) → row_at K.cmp self.new q ≡ (if is_at (K.cmp key) q then None else row_at K.cmp self.old q) }
        ensures stay { (q : K) → has_place K.cmp self.new q ≡ has_place K.cmp self.old q }
        ensures each { (q : K) → place_at K.cmp self.new q ≡ option_map (λ was. if is_at (K.cmp key) q then None else was) (place_at K.cmp self.old q) }
    {
        match self.places.get_mut(&key) {
            Some(place) => place.take(),
            None => None,
        }
    }

    /// Puts a row at the place of a key, which takes no memory. A key without a place stays as it was.
    pub fn restore(&mut self, key: K, row: V)
        ensures rows { (q : K) → row_in K.cmp (rows_of self.new) q ≡ (if has_place K.cmp self.old key && is_at (K.cmp key) q then Some row else row_in K.cmp (rows_of self.old) q) }
        ensures stay { (q : K) → has_place K.cmp self.new q ≡ has_place K.cmp self.old q }
        ensures each { (q : K) → place_at K.cmp self.new q ≡ option_map (λ was. if is_at (K.cmp key) q then Some row else was) (place_at K.cmp self.old q) }
        ensures mended { HasEmptyOnly K.cmp (is_at (K.cmp key)) self.old → HasNoEmptyPlace K.cmp self.new }
    {
        self.once();
        self.set(key, Some(row));
        self.once();
    }

    /// Drops the places of these keys that hold no row: those that were reserved for nothing, or emptied.
    pub fn release(&mut self, edits: &[RowEdit<K, V>])
        ensures same { rows_of self.new ≡ rows_of self.old }
        ensures gone { All (λ c. IsEmptyPlace K.cmp self.new c.key → ⊥) edits.now }
        ensures no_more { (q : K) → IsEmptyPlace K.cmp self.new q → IsEmptyPlace K.cmp self.old q }
        ensures each { (q : K) → place_at K.cmp self.new q ≡ (if is_named K.cmp edits.now q then option_map Some (row_at K.cmp self.old q) else place_at K.cmp self.old q) }
        ensures mended { HasEmptyOnly K.cmp (is_named K.cmp edits.now) self.old → HasNoEmptyPlace K.cmp self.new }
    {
        for edit in edits {
            self.release_one(&edit.key);
        }
    }

    /// Drops the place of a key that holds no row.
    pub fn release_one(&mut self, key: &K)
        ensures same { rows_of self.new ≡ rows_of self.old }
        ensures gone { IsEmptyPlace K.cmp self.new key.now → ⊥ }
        ensures no_more { (q : K) → IsEmptyPlace K.cmp self.new q → IsEmptyPlace K.cmp self.old q }
        ensures each { (q : K) → place_at K.cmp self.new q ≡ (if is_at (K.cmp key.now) q then option_map Some (row_at K.cmp self.old q) else place_at K.cmp self.old q) }
        ensures mended { HasEmptyOnly K.cmp (is_at (K.cmp key.now)) self.old → HasNoEmptyPlace K.cmp self.new }
    {
        if let Some(None) = self.places.get(key) {
            let _ = self.places.remove(key);
        }
    }

    fn set_all(&mut self, edits: Vec<RowEdit<K, V>>)
        ensures rows { (q : K) → row_at K.cmp self.new q ≡ changed K.cmp (placed K.cmp self.old edits.items) q (row_at K.cmp self.old q) }
        ensures each { (q : K) → place_at K.cmp self.new q ≡ option_map (changed K.cmp edits.items q) (place_at K.cmp self.old q) }
    {
        let mut left = edits;
        while let Some(edit) = left.pop() {
            self.set(edit.key, edit.row);
        }
    }

    /// The table of rows with different keys. It takes the number of rows where they are in the order of their keys, and that number times
    /// its logarithm otherwise.
    pub fn from_vec(alloc: Global, rows: Vec<(K, V)>) -> Result<Table<K, V>, BadRows>
        ensures ok { IfOk result (λ t. IsDistinct (eq_by_cmp K.cmp) (keys_of rows.items) × ((q : K) → row_in K.cmp (rows_of t) q ≡ row_in K.cmp rows.items q)) }
        ensures double { IfErr result (λ e. e ≡ Double → IsDistinct (eq_by_cmp K.cmp) (keys_of rows.items) → ⊥) }
        ensures full { IfOk result (λ t. HasNoEmptyPlace K.cmp t) }
    {
        let count = rows.len();
        let Ok(places) = map_of(alloc, rows) else {
            return Err(BadRows::Memory);
        };
        if places.len() < count {
            return Err(BadRows::Double);
        }
        let table = Table { places };
        table.once();
        Ok(table)
    }

    /// The rows, in the order of their keys.
    pub fn into_rows(self, alloc: Global) -> Result<Vec<(K, V)>, AllocError>
        ensures { IfOk result (λ rows. rows.items ≡ rows_of self) }
    {
        let mut rows = Vec::with_capacity(alloc, self.places.len())?;
        for (key, place) in self.places {
            if let Some(row) = place {
                rows.push((key, row))?;
            }
        }
        Ok(rows)
    }

    /// The rows, in the order of their keys.
    pub fn rows<'a>(&'a self, alloc: Global) -> Result<Vec<(&'a K, &'a V)>, AllocError>
        ensures rows { IfOk result (λ rows. map deref_pair rows.items ≡ rows_of self.now) }
        ensures sorted { IsStrictlySortedBy K.cmp (keys_of (rows_of self.now)) }
    {
        self.once();
        let mut rows = Vec::with_capacity(alloc, self.places.len())?;
        for (key, place) in &self.places {
            if let Some(row) = place {
                rows.push((key, row))?;
            }
        }
        Ok(rows)
    }

    /// The rows whose keys lie between two, these included, in the order of their keys. None where
    /// the first key is behind the second.
    pub fn select<'a>(
        &'a self,
        alloc: Global,
        from: K,
        to: K,
    ) -> Result<Vec<(&'a K, &'a V)>, AllocError>
        ensures rows { IfOk result (λ rows. map deref_pair rows.items ≡ filter (λ e. range_contains K.cmp (Included from) (Included to) e.0) (rows_of self.now)) }
        ensures found { IfOk result (λ rows. (q : K) → row_in K.cmp (map deref_pair rows.items) q ≡ (if range_contains K.cmp (Included from) (Included to) q then row_in K.cmp (rows_of self.now) q else None)) }
    {
        match from.cmp(&to) {
            Ordering::Greater => Ok(Vec::new(alloc)),
            Ordering::Less | Ordering::Equal => self.select_ordered(alloc, from, to),
        }
    }

    fn select_ordered<'a>(
        &'a self,
        alloc: Global,
        from: K,
        to: K,
    ) -> Result<Vec<(&'a K, &'a V)>, AllocError>
        requires { IsLeBy K.cmp from to }
        ensures rows { IfOk result (λ rows. map deref_pair rows.items ≡ filter (λ e. range_contains K.cmp (Included from) (Included to) e.0) (rows_of self.now)) }
        ensures found { IfOk result (λ rows. (q : K) → row_in K.cmp (map deref_pair rows.items) q ≡ (if range_contains K.cmp (Included from) (Included to) q then row_in K.cmp (rows_of self.now) q else None)) }
    {
        let mut rows = Vec::new(alloc);
        for (key, place) in self.places.range(from..=to) {
            if let Some(row) = place {
                rows.push((key, row))?;
            }
        }
        Ok(rows)
    }

    /// The greatest key that has a row.
    pub fn last_key(&self) -> Option<&K>
        ensures none { IsNone result ↔ (rows_of self.now ≡ []) }
        ensures there { IfSome result (λ k. IsSome (row_in K.cmp (rows_of self.now) k.now)) }
        ensures above { IfSome result (λ k. (q : K) → K.cmp k.now q ≡ Less → row_in K.cmp (rows_of self.now) q ≡ None) }
    {
        self.once();
        let mut left = self.places.iter();
        while let Some((key, place)) = left.next_back() {
            if place.is_some() {
                return Some(key);
            }
        }
        None
    }

    /// The greatest key between two, these included, that has a row. None where none has one, as where
    /// the first is behind the second.
    pub fn last_between(&self, from: K, to: K) -> Option<&K>
        ensures none { IfNone result ((q : K) → range_contains K.cmp (Included from) (Included to) q ≡ true → row_in K.cmp (rows_of self.now) q ≡ None) }
        ensures there { IfSome result (λ k. IsSome (row_in K.cmp (rows_of self.now) k.now)) }
        ensures within { IfSome result (λ k. range_contains K.cmp (Included from) (Included to) k.now ≡ true) }
        ensures above { IfSome result (λ k. (q : K) → K.cmp k.now q ≡ Less → range_contains K.cmp (Included from) (Included to) q ≡ true → row_in K.cmp (rows_of self.now) q ≡ None) }
    {
        match from.cmp(&to) {
            Ordering::Greater => None,
            Ordering::Less | Ordering::Equal => self.last_ordered(from, to),
        }
    }

    fn last_ordered(&self, from: K, to: K) -> Option<&K>
        requires { IsLeBy K.cmp from to }
        ensures none { IfNone result (filter (λ e. range_contains K.cmp (Included from) (Included to) e.0) (rows_of self.now) ≡ []) }
        ensures last { IfSome result (λ k. (front : List (K × V)) × (row : V) × (filter (λ e. range_contains K.cmp (Included from) (Included to) e.0) (rows_of self.now) ≡ front ++ (k.now, row) ∷ [])) }
        ensures sorted { IsStrictlySortedBy K.cmp (keys_of (rows_of self.now)) }
    {
        self.once();
        let mut left = self.places.range(from..=to);
        while let Some((key, place)) = left.next_back() {
            if place.is_some() {
                return Some(key);
            }
        }
        None
    }
}

/// The map of the places that hold these rows. Of those with one key it has the last.
fn map_of<K: Key, V: Drop>(
    alloc: Global,
    rows: Vec<(K, V)>,
) -> Result<BTreeMap<K, Option<V>>, AllocError>
    ensures { IfOk result (IsFromIterResult K.cmp (map place_of rows.items)) }
{
    rows.into_iter()
        .map(|(key, row)| (key, Some(row)))
        .collect(alloc)
}
