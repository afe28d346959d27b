// A store, and a cache that is open over it.
use crate::{once, open_calls, said};
use mb_cache::CacheState;
use mb_store::{MemStore, TileStore};
use rows_shared::{Words, said as said_value};
use set_words::{push, row, table};
use std::alloc::Global;
use std::marker::Model;

/// A store with a cache that is open over it, if one is: the cache agrees with what the store tells.
#[derive(Drop)]
pub struct Shelf<S: TileStore> {
    store: S,
    state: Option<CacheState>,
}

impl<S: TileStore> Model for Shelf<S> {
    ghost use Rattle.std.specs.Prelude.{◌≡◌, IfSome, true};
    ghost use Rattle.cache_rows.specs.Common.{Agrees};

    ghost Value = { Unit {0} };

    ghost view = { λ _. tt };

    ghost invariant = { λ s. S.tells s.store ≡ true → IfSome s.state (Agrees (S.told s.store)) };
}

impl<S: TileStore> Shelf<S> {
    /// A store without a cache.
    pub fn of(store: S) -> Shelf<S> {
        Shelf { store, state: None }
    }

    // Opens a cache, which is then kept.
    fn open(&mut self, alloc: Global, out: &mut String) -> Option<()> {
        self.state = None;
        match CacheState::open(alloc, &mut self.store) {
            Ok(opened) => {
                self.state = Some(opened);
                said_value(out, true)
            }
            Err(error) => said_value(out, error),
        }
    }

    // A call of the open cache.
    fn call(
        &mut self,
        alloc: Global,
        out: &mut String,
        call: &str,
        words: &mut Words,
    ) -> Option<()> {
        let mut state = self.state.take()?;
        let answered = open_calls::answer(alloc, out, &mut self.store, &mut state, call, words);
        self.state = Some(state);
        answered
    }

    // A call that leaves no cache open, or of the open one.
    fn further(
        &mut self,
        alloc: Global,
        out: &mut String,
        call: &str,
        words: &mut Words,
    ) -> Option<()> {
        match call {
            "once" => {
                self.state = None;
                once::opened(alloc, out, &mut self.store, words)
            }
            "over" => {
                self.state = None;
                once::over(alloc, out, &mut self.store, words)
            }
            call => self.call(alloc, out, call, words),
        }
    }

    /// The call of a line.
    pub fn answer(
        &mut self,
        alloc: Global,
        out: &mut String,
        call: &str,
        words: &mut Words,
    ) -> Option<()> {
        match call {
            "open" => self.open(alloc, out),
            "rows" => said::rows(alloc, out, &mut self.store),
            "live" => said::live(out, &mut self.store),
            "tables" => said::tables(alloc, out, &mut self.store),
            call => self.further(alloc, out, call, words),
        }
    }
}

impl Shelf<MemStore> {
    /// Pushes a row. No cache is open then.
    pub fn push_row(&mut self, alloc: Global, out: &mut String, words: &mut Words) -> Option<()> {
        self.state = None;
        let table = table(words)?;
        let row = row(alloc, words)?;
        said_value(out, push(alloc, &mut self.store, table, row)?)
    }

    /// The calls of these numbers fail, counted from 1 over all calls of the store.
    pub fn fail(&mut self, alloc: Global, words: &mut Words) -> Option<()> {
        let mut calls = Vec::new(alloc);
        for word in words {
            calls.push(word.parse::<u64>().ok()?).ok()?;
        }
        self.store.fail_at(calls);
        Some(())
    }
}
