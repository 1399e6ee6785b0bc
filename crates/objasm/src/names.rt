ghost use Rattle.std.specs.Prelude.{◌≡◌, OnOk, IfErr};
ghost use Rattle.objasm.specs.Names.{address_named, advanced, is_known, is_set, meanings_of, no_meanings};
ghost use Rattle.objasm.specs.Names.{with_address, with_counter, with_meaning, with_waiting};

use crate::faults::LineFault;
use image::Labels;
use std::alloc::Global;

/// What a name is set for.
#[derive(Clone, Copy)]
pub enum Kind {
    /// `EQU` or `*`: for a number.
    Constant,
    /// `RN`: for a register.
    Register,
}

/// What a name of a map with a base register stands for.
#[derive(Clone, Copy)]
pub struct Address {
    /// The register's number.
    pub base: u32,
    /// What is added to it.
    pub offset: u32,
}

/// The names that lines set, each once.
#[derive(Drop)]
pub(crate) struct Names {
    pub constants: Labels,
    pub registers: Labels,
    /// Those that had no value when their line was read first. Their values are of no use.
    pub waiting: Labels,
    /// Of the names that have addresses, what is added to their base registers, and these.
    pub offsets: Labels,
    pub bases: Labels,
    /// Where the next place of a map is, and the base register of places.
    pub counter: u32,
    pub base: Option<u32>,
}

impl Names {
    /// No names. It takes no memory.
    pub fn new(alloc: Global) -> Names
        ensures { meanings_of result ≡ no_meanings }
    {
        Names {
            constants: Labels::new(alloc),
            registers: Labels::new(alloc),
            waiting: Labels::new(alloc),
            offsets: Labels::new(alloc),
            bases: Labels::new(alloc),
            counter: 0,
            base: None,
        }
    }

    /// Whether the value of a name is known.
    pub fn is_known(&self, name: &[u8]) -> bool
        ensures { result ≡ is_known (meanings_of self.now) name.now }
    {
        self.constants.get(name).is_some()
            || self.registers.get(name).is_some()
            || self.bases.get(name).is_some()
    }

    /// Whether a line sets a name.
    pub fn is_set(&self, name: &[u8]) -> bool
        ensures { result ≡ is_set (meanings_of self.now) name.now }
    {
        self.is_known(name) || self.waiting.get(name).is_some()
    }

    /// The address that a name stands for.
    pub fn address(&self, name: &[u8]) -> Option<Address>
        ensures { result ≡ address_named (meanings_of self.now) name.now }
    {
        let base = self.bases.get(name)?;
        let offset = self.offsets.get(name)?;
        Some(Address { base, offset })
    }

    /// Begins places at a number, behind a base register or by themselves.
    pub fn begin(&mut self, at: u32, base: Option<u32>)
        ensures { meanings_of self.new ≡ with_counter at base (meanings_of self.old) }
    {
        self.counter = at;
        self.base = base;
    }

    /// Leaves so many bytes for a place.
    pub fn advance(&mut self, size: u32)
        ensures { meanings_of self.new ≡ advanced size (meanings_of self.old) }
    {
        self.counter = self.counter.wrapping_add(size);
    }

    /// Sets a name that is not set to an address. `Memory`: an allocation failed.
    pub fn put_address(
        &mut self,
        alloc: Global,
        name: &[u8],
        address: Address,
    ) -> Result<(), LineFault>
        ensures ok { OnOk result
            (meanings_of self.new ≡ with_address name.now address (meanings_of self.old)) }
        ensures memory { IfErr result (λ fault. fault ≡ LineFault.Memory) }
    {
        if self.offsets.put(alloc, name, address.offset).is_err() {
            return Err(LineFault::Memory);
        }
        match self.bases.put(alloc, name, address.base) {
            Ok(()) => Ok(()),
            Err(_) => Err(LineFault::Memory),
        }
    }

    /// Notes a name whose value is not known yet. `Memory`: an allocation failed.
    pub fn defer(&mut self, alloc: Global, name: &[u8]) -> Result<(), LineFault>
        ensures ok { OnOk result (meanings_of self.new ≡ with_waiting name.now (meanings_of self.old)) }
        ensures memory { IfErr result (λ fault. fault ≡ LineFault.Memory) }
    {
        match self.waiting.put(alloc, name, 0) {
            Ok(()) => Ok(()),
            Err(_) => Err(LineFault::Memory),
        }
    }

    /// Sets a name that is not set. `Memory`: an allocation failed.
    pub fn put(
        &mut self,
        alloc: Global,
        name: &[u8],
        kind: Kind,
        value: u32,
    ) -> Result<(), LineFault>
        ensures ok { OnOk result
            (meanings_of self.new ≡ with_meaning name.now kind value (meanings_of self.old)) }
        ensures memory { IfErr result (λ fault. fault ≡ LineFault.Memory) }
    {
        let put = match kind {
            Kind::Constant => self.constants.put(alloc, name, value),
            Kind::Register => self.registers.put(alloc, name, value),
        };
        match put {
            Ok(()) => Ok(()),
            Err(_) => Err(LineFault::Memory),
        }
    }
}
