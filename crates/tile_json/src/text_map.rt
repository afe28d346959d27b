// A map from texts, in the order of their bytes.
ghost use Rattle.std.specs.Prelude.{◌≡◌, ◌<◌, slice_get, Some, None, IfOk, IfErr, OnOk, OnErr, option_map};
ghost use Rattle.tile_json.specs.Common.{nat_cmp, slice_cmp};
ghost use Rattle.std.specs.FinMap as map;
ghost use Rattle.tile_json.specs.Places.{IsAt, IsGap};

use crate::JsonVal;
use base_values::{OutOfMemory, TextVal};
use std::alloc::Global;
use std::marker::Model;

/// A map from texts to texts.
pub type TextFields = TextMap<TextVal>;

/// A map from texts to values of JSON.
pub type JsonFields = TextMap<JsonVal>;

/// A map from texts to values, in the order of the texts' bytes.
#[derive(Debug, Drop)]
pub struct TextMap<V> {
    entries: Vec<(TextVal, V)>,
}

impl<V> Model for TextMap<V> {
    ghost use Rattle.std.specs.Prelude.{IsTrue};
    ghost use Rattle.tile_json.specs.Common.{coded_list, coded_ℕ, nat_cmp, slice_cmp};
    ghost use Rattle.std.specs.FinMap as map;

    ghost Value = { map.FinMap (slice_cmp nat_cmp) V };

    ghost coded = { map.code (coded_list coded_ℕ) V.code };

    ghost view = { λ m. map.from_sorted m.entries.items };

    ghost invariant = { λ m. IsTrue (map.is_sorted (slice_cmp nat_cmp) m.entries.items) };
}

impl<V: Drop> TextMap<V> {
    /// The map without names. It takes no memory, and grows by this allocator.
    pub fn new(alloc: Global) -> TextMap<V>
        ensures { result ≡ map.empty }
    {
        TextMap {
            entries: Vec::new(alloc),
        }
    }

    /// Puts a value at a name, in place of the one that is there. Refused, it changes nothing; a name
    /// that is there isn't refused.
    pub fn insert(&mut self, name: TextVal, value: V) -> Result<(), OutOfMemory>
        ensures ok { OnOk result (self.new ≡ map.insert self.old name value) }
        ensures err { OnErr result (self.new ≡ self.old) }
        ensures absent { OnErr result (map.get self.old name ≡ None) }
    {
        match self.search(name.as_str()) {
            Ok(at) => {
                self.entries[at].1 = value;
                Ok(())
            }
            Err(at) => Ok(self.entries.insert(at, (name, value))?),
        }
    }

    /// The value of a name, where it is there.
    pub fn get(&self, name: &str) -> Option<&V>
        ensures { option_map (λ v. v.now) result ≡ map.get self.now name.now }
    {
        match self.search(name) {
            Ok(at) => Some(&self.entries[at].1),
            Err(_) => None,
        }
    }

    /// How many names there are.
    pub fn len(&self) -> usize
        ensures { result ≡ map.len self.now }
    {
        self.entries.len()
    }

    /// The name at a place in the order, from 0 on, with its value.
    pub fn at(&self, index: usize) -> (&str, &V)
        requires { index < map.len self.now }
        ensures { slice_get (map.entries self.now) index ≡ Some (result.0.now, result.1.now) }
    {
        let (name, value) = &self.entries[index];
        (name.as_str(), value)
    }

    // Where the name is, or where it would go.
    fn search(&self, name: &str) -> Result<usize, usize>
        ensures found { IfOk result (IsAt (slice_cmp nat_cmp name.now) (map.entries self.now)) }
        ensures absent { IfErr result (IsGap (slice_cmp nat_cmp name.now) (map.entries self.now)) }
    {
        self.entries
            .binary_search_by(|entry| entry.0.as_str().cmp(name))
    }
}
