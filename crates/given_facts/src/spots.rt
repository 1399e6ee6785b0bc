use machine_file::Part;

/// What of a file of facts may have a fault. Facts are counted from 0.
#[derive(Clone, Copy)]
pub enum GivenSpot<'a> {
    /// A key of the file itself, by the bytes of its name, that it may not have.
    Unknown(&'a [u8]),
    /// The value at `given`, which is no list.
    NoList,
    /// An entry of that list, which is no table.
    NoTable(usize),
    /// A key of a fact.
    Fact(usize, Part<'a>),
    /// A fact whose `from` is above its `to`.
    Disordered(usize),
    /// A fact on a register on which an earlier one is.
    Second(usize),
}
