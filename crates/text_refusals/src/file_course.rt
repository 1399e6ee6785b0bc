ghost use Rattle.std.specs.Prelude.{◌≡◌};
ghost use Rattle.text_refusals.specs.FileCourses.{HasRoom, after, at_front, begun, counted, counted_if};
ghost use Rattle.text_refusals.specs.FileCourses.{entered, entry_list, named_list, value_list};
ghost use Rattle.text_refusals.specs.Outline.{item_of, key_value_of, table_of};

use crate::outline::{KeyValue, OutlineItem, OutlineTable};
use machine_file::{MachineList, PriceList, list_key, price_key};

/// A list of a machine file, of a cycle profile or of a file of facts.
#[derive(Clone, Copy)]
pub(crate) enum FileList {
    /// Of tables in a machine file.
    Tables(MachineList),
    /// Of prices in a cycle profile.
    Prices(PriceList),
    /// Of tables in a file of facts.
    Facts,
}

/// Where in its document an item of the text of such a file is, by the items before it.
#[derive(Clone, Copy)]
pub(crate) struct FileCourse {
    // how many entries of each list have begun
    pages: usize,
    events: usize,
    words: usize,
    rom: usize,
    io: usize,
    facts: usize,
    /// The list and the number of the entry that began last, if the last table is an entry.
    pub entry: Option<(FileList, usize)>,
}

/// The list that a word names.
pub(crate) fn named_list(word: &[u8]) -> Option<FileList>
    ensures { result ≡ named_list word.now }
{
    if word == list_key(MachineList::Pages).as_bytes() {
        return Some(FileList::Tables(MachineList::Pages));
    }
    if word == list_key(MachineList::Events).as_bytes() {
        return Some(FileList::Tables(MachineList::Events));
    }
    if word == list_key(MachineList::Words).as_bytes() {
        return Some(FileList::Tables(MachineList::Words));
    }
    if word == price_key(PriceList::Rom).as_bytes() {
        return Some(FileList::Prices(PriceList::Rom));
    }
    if word == price_key(PriceList::Io).as_bytes() {
        return Some(FileList::Prices(PriceList::Io));
    }
    if word == b"given".as_slice() {
        return Some(FileList::Facts);
    }
    None
}

/// The list of which the table is an entry.
pub(crate) fn entry_list(table: &OutlineTable<'_>) -> Option<FileList>
    ensures { result ≡ entry_list (table_of table.now) }
{
    if table.is_listed {
        return named_list(table.name);
    }
    None
}

/// The list of which the value, in an array of the file itself, is an entry.
pub(crate) fn value_list(pair: &KeyValue<'_>) -> Option<FileList>
    ensures { result ≡ value_list (key_value_of pair.now) }
{
    if pair.list.is_empty() && pair.depth == 1 {
        return named_list(pair.key);
    }
    None
}

impl FileCourse {
    /// At the front of a text.
    pub(crate) fn new() -> FileCourse
        ensures { result ≡ at_front }
    {
        FileCourse {
            pages: 0,
            events: 0,
            words: 0,
            rom: 0,
            io: 0,
            facts: 0,
            entry: None,
        }
    }

    /// How many entries of the list have begun.
    pub(crate) fn begun(&self, list: FileList) -> usize
        ensures { result ≡ begun list self.now }
    {
        match list {
            FileList::Tables(MachineList::Pages) => self.pages,
            FileList::Tables(MachineList::Events) => self.events,
            FileList::Tables(MachineList::Words) => self.words,
            FileList::Prices(PriceList::Rom) => self.rom,
            FileList::Prices(PriceList::Io) => self.io,
            FileList::Facts => self.facts,
        }
    }

    // With one entry of the list more.
    fn counted(mut self, list: FileList) -> FileCourse
        requires { HasRoom self }
        ensures { result ≡ counted list self }
    {
        match list {
            FileList::Tables(MachineList::Pages) => self.pages += 1,
            FileList::Tables(MachineList::Events) => self.events += 1,
            FileList::Tables(MachineList::Words) => self.words += 1,
            FileList::Prices(PriceList::Rom) => self.rom += 1,
            FileList::Prices(PriceList::Io) => self.io += 1,
            FileList::Facts => self.facts += 1,
        }
        self
    }

    // With one entry more, if the list is one.
    fn counted_if(self, list: Option<FileList>) -> FileCourse
        requires { HasRoom self }
        ensures { result ≡ counted_if list self }
    {
        match list {
            Some(list) => self.counted(list),
            None => self,
        }
    }

    // After a table of the list, if it is one of a list, has begun.
    fn entered(self, list: Option<FileList>) -> FileCourse
        requires { HasRoom self }
        ensures { result ≡ entered list self }
    {
        let Some(list) = list else {
            return FileCourse {
                entry: None,
                ..self
            };
        };
        FileCourse {
            entry: Some((list, self.begun(list))),
            ..self.counted(list)
        }
    }

    /// After the item.
    pub(crate) fn after(self, item: &OutlineItem<'_>) -> FileCourse
        requires { HasRoom self }
        ensures { result ≡ after self (item_of item.now) }
    {
        match item {
            OutlineItem::Begins(table) => self.entered(entry_list(table)),
            OutlineItem::States(pair) => self.counted_if(value_list(pair)),
            OutlineItem::Ends => self,
        }
    }
}
