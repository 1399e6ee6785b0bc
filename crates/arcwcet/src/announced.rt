//! Files that are announced when they are read.

ghost use Rattle.std.specs.Prelude.{◌≡◌, false};
ghost use Rattle.arcwcet.specs.Announced.{reads_announced, writes_announced};

use crate::fault::{FileFault, StoreFault};
use crate::files::Store;
use outputs::Output;
use progress::show_reading;
use std::alloc::Global;

/// A store that shows the name of each file on an output before it reads it. It answers what the store in it
/// answers; whether the lines are taken changes nothing.
#[derive(Drop)]
pub struct AnnouncedStore<S: Store, L: Output> {
    /// Where the files lie.
    pub store: S,
    /// What takes a line for each file that is read.
    pub lines: L,
    /// Whether lines are shown where nobody asked for them.
    pub unasked: bool,
}

impl<S: Store, L: Output> AnnouncedStore<S, L> {
    /// The store, and what takes its lines, which are shown where they are asked for.
    pub fn new(store: S, lines: L) -> Self
        ensures store { result.store ≡ store }
        ensures lines { result.lines ≡ lines }
        ensures asked { result.unasked ≡ false }
    {
        AnnouncedStore {
            store,
            lines,
            unasked: false,
        }
    }
}

impl<S: Store, L: Output> Store for AnnouncedStore<S, L> {
    ghost read_gives = { reads_announced L.taken L.failures S.read_gives };

    ghost write_gives = { writes_announced S.write_gives };

    fn read(&mut self, alloc: Global, name: &str) -> Result<Vec<u8>, StoreFault> {
        show_reading(name, &mut self.lines);
        self.store.read(alloc, name)
    }

    fn write(&mut self, name: &str, bytes: &[u8]) -> Result<(), StoreFault> {
        self.store.write(name, bytes)
    }

    fn file_fault(&self, name: &str) -> FileFault {
        self.store.file_fault(name)
    }
}
