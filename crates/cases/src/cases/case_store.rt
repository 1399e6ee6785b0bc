use arcwcet::{HostStore, Store, StoreFault};
use std::alloc::Global;
use std::rt::Files;

/// The files of a case's folder. What is written stays in memory.
#[derive(Drop)]
pub(crate) struct CaseStore<'a, R: Files + AllocGlobal> {
    rt: &'a R,
    folder: &'a str,
    pub(crate) written: Option<Vec<u8>>,
}

impl<'a, R: Files + AllocGlobal> CaseStore<'a, R> {
    /// The files of a case's folder.
    pub(crate) fn new(rt: &'a R, folder: &'a str) -> Self {
        CaseStore {
            rt,
            folder,
            written: None,
        }
    }
}

impl<R: Files + AllocGlobal> Store for CaseStore<'_, R> {
    fn read(&mut self, alloc: Global, name: &str) -> Result<Vec<u8>, StoreFault> {
        match format!(in alloc; "{}/{name}", self.folder) {
            Ok(path) => HostStore::new(self.rt).read(alloc, path.as_str()),
            Err(_) => Err(StoreFault::Memory),
        }
    }

    fn write(&mut self, _name: &str, bytes: &[u8]) -> Result<(), StoreFault> {
        match bytes.to_vec(self.rt.alloc()) {
            Ok(kept) => {
                self.written = Some(kept);
                Ok(())
            }
            Err(_) => Err(StoreFault::Device),
        }
    }
}
