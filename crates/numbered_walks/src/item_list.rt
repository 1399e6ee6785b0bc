ghost use Rattle.std.specs.Prelude.{◌≡◌, [], ◌∷◌, ◌++◌, OnOk, OnErr, IfErr};

use crate::fault::WalkFault;
use std::alloc::Global;
use std::marker::Model;

/// A list that is read as a slice and grows at its end: of a walk's parts, a certificate's rows, or the
/// instances of loops.
#[derive(Drop)]
pub struct ItemList<T> {
    list: Vec<T>,
}

impl<T> Model for ItemList<T> {
    ghost use Rattle.std.specs.Prelude.{List};
    ghost use base.Stored.{coded_list};

    ghost Value = { List T };

    ghost coded = { coded_list T.code };

    ghost view = { λ items. items.list.items };
}

impl<T: Drop> ItemList<T> {
    /// The empty list. It takes no memory.
    pub fn new(alloc: Global) -> ItemList<T>
        ensures { result ≡ [] }
    {
        ItemList {
            list: Vec::new(alloc),
        }
    }

    /// The list of these items.
    pub fn of(list: Vec<T>) -> ItemList<T>
        ensures { result ≡ list.items }
    {
        ItemList { list }
    }

    /// Adds an item at the end.
    ///
    /// # Errors
    ///
    /// `Memory`: an allocation failed, and the list is as it was.
    pub fn push(&mut self, _alloc: Global, item: T) -> Result<(), WalkFault>
        ensures ok { OnOk result (self.new ≡ self.old ++ item ∷ []) }
        ensures memory { IfErr result (λ fault. fault ≡ WalkFault.Memory) }
        ensures unchanged { OnErr result (self.new ≡ self.old) }
    {
        match self.list.push(item) {
            Ok(()) => Ok(()),
            Err(_) => Err(WalkFault::Memory),
        }
    }

    /// The items in their order.
    pub fn items(&self) -> &[T]
        ensures { result.now ≡ self.now }
    {
        &self.list
    }
}
