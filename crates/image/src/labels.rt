ghost use Rattle.std.specs.Prelude.{◌≡◌, ◌⊎◌, ℕ, List, [], Some, None, IsSome, OnOk, OnErr, IfErr, cond};
ghost use Rattle.std.specs.Str.{bytes_eq};
ghost use Rattle.image.specs.Labels.{address_of};
ghost use Rattle.image.specs.declared.labels.LabelFault.TheVariants.{Memory};

use std::alloc::{AllocError, AllocFailed, Global};
use std::collections::BTreeMap;
use std::marker::Model;
use thiserror::Error;

/// Why a label is not put.
#[derive(Clone, Copy, Debug, PartialEq, Eq, Drop, Error)]
pub enum LabelFault {
    /// An allocation failed.
    #[error("Memory")]
    Memory,
    /// The name stands for an address already.
    #[error("Twice")]
    Twice,
}

impl From<AllocError> for LabelFault {
    ghost from_gives = { λ _ fault. fault ≡ Memory };

    fn from(_refused: AllocError) -> LabelFault {
        LabelFault::Memory
    }
}

impl<T: Drop> From<AllocFailed<T>> for LabelFault {
    ghost from_gives = { λ _ fault. fault ≡ Memory };

    fn from(_refused: AllocFailed<T>) -> LabelFault {
        LabelFault::Memory
    }
}

/// The addresses that the names of a source stand for, each name once.
#[derive(Drop)]
pub struct Labels {
    addresses: BTreeMap<Vec<u8>, u32>,
}

impl Model for Labels {
    ghost use Rattle.std.specs.Prelude.{map};
    ghost use Rattle.image.specs.Labels.{NamedAddresses};

    ghost Value = { NamedAddresses };

    ghost view = { λ labels. map (λ e. (e.0.items, e.1)) labels.addresses.entries };
}

impl Labels {
    /// No labels. It takes no memory.
    pub fn new(alloc: Global) -> Self
        ensures { result ≡ [] }
    {
        Labels {
            addresses: BTreeMap::new(alloc),
        }
    }

    /// The address of a name, by its bytes.
    pub fn get(&self, name: &[u8]) -> Option<u32>
        ensures { result ≡ address_of self.now name.now }
    {
        self.addresses.get(name).copied()
    }

    /// Puts a name that stands for no address yet.
    ///
    /// # Errors
    ///
    /// `Twice`: the name stands for one. `Memory`: an allocation failed. After either the labels are as they
    /// were.
    pub fn put(&mut self, alloc: Global, name: &[u8], address: u32) -> Result<(), LabelFault>
        ensures ok { OnOk result
            ((other : List ℕ)
            → address_of self.new other
            ≡ cond (bytes_eq other name.now) (Some address) (address_of self.old other)) }
        ensures fresh { OnOk result (address_of self.old name.now ≡ None) }
        ensures fault { IfErr result
            (λ fault. (fault ≡ LabelFault.Memory)
            ⊎ ((fault ≡ LabelFault.Twice) × IsSome (address_of self.old name.now))) }
        ensures unchanged { OnErr result (self.new ≡ self.old) }
    {
        if self.get(name).is_some() {
            return Err(LabelFault::Twice);
        }
        let key = Vec::from_slice(alloc, name)?;
        self.addresses.insert(key, address)?;
        Ok(())
    }
}
