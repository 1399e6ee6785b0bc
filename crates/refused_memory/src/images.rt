use crate::machine::word_in;
use crate::puts::{IN_TURN, Puts};
use crate::trial::{Answer, Trial};
use arcwcet::ReportFault;
use arm2_exec::Machine;
use assembler::assemble;
use bus_ticks::Profile;
use imports::{ImportFault, Part, import_parts};
use loader::{
    Image, ImageFault, LabelFault, Labels, LoadFault, PagePlan, PlacedPage, ReadFault, load,
    page_plan, read_image, write_image,
};
use memc::PageSize;
use samples::countdown::{IMAGE, SOURCE};
use std::alloc::Global;

/// The words of the countdown, as another tool writes them.
pub(crate) const CODE: &[u8] = b"\x03\x00\xA0\xE3\x01\x00\x50\xE2\xFD\xFF\xFF\x1A\x04\xF0\x5E\xE2";

// Words in RAM, by a logical and a physical address, and in ROM.
const SCATTERED: &[u8] =
    b" ORG &8000\n DCD 1\n ORG &2000010\n DCD 2\n ORG &3800000\n DCD &12345678\n";

/// A call that reads, imports, writes, lists or plans an image, and changes none.
#[derive(Clone, Copy)]
pub(crate) enum ImageCall {
    Read,
    Import,
    Write,
    List,
    Plan,
}

fn is_countdown(image: &Image) -> bool {
    let words = [
        image.word_at(0x8000),
        image.word_at(0x8004),
        image.word_at(0x8008),
        image.word_at(0x800C),
    ];
    image.words() == 4
        && image.segments() == 1
        && words
            == [
                Some(0xE3A0_0003),
                Some(0xE250_0001),
                Some(0x1AFF_FFFD),
                Some(0xE25E_F004),
            ]
}

fn read(alloc: Global) -> Answer {
    match read_image(alloc, &IMAGE) {
        Ok(image) => Answer::of_value(is_countdown(&image), image),
        Err(ReadFault::Memory) => Answer::Refused,
        Err(_) => Answer::Wrong,
    }
}

fn imported(alloc: Global) -> Answer {
    let part = Part {
        address: 0x8000,
        bytes: CODE,
    };
    match import_parts(alloc, &[part]) {
        Ok(image) => Answer::of_value(is_countdown(&image), image),
        Err(ImportFault::Memory) => Answer::Refused,
        Err(_) => Answer::Wrong,
    }
}

fn written(alloc: Global) -> Result<Answer, ReportFault> {
    let said = assemble(alloc, SOURCE)?;
    let answer = match write_image(alloc, &said.image) {
        Ok(bytes) => Answer::of(bytes.as_slice() == IMAGE.as_slice()),
        Err(ImageFault::Memory) => Answer::Refused,
        Err(_) => Answer::Wrong,
    };
    drop(said);
    Ok(answer)
}

fn listed(alloc: Global) -> Result<Answer, ReportFault> {
    let said = assemble(alloc, SCATTERED)?;
    let words = [
        (0x8000u32, 1u32),
        (0x200_0010, 2),
        (0x380_0000, 0x1234_5678),
    ];
    let answer = match said.image.listed(alloc) {
        Ok(list) => Answer::of(list.as_slice() == words.as_slice()),
        Err(_) => Answer::Refused,
    };
    drop(said);
    Ok(answer)
}

// Physical page 0 is taken, logical page 1 gets the next, and the one after that is spare.
fn is_planned(plan: &PagePlan) -> bool {
    let page = PlacedPage {
        logical: 1,
        physical: 1,
    };
    plan.pages.as_slice() == [page].as_slice() && plan.spare == 2
}

fn planned(alloc: Global) -> Result<Answer, ReportFault> {
    let said = assemble(alloc, SCATTERED)?;
    let answer = match page_plan(alloc, &said.image) {
        Ok(plan) => Answer::of(is_planned(&plan)),
        Err(_) => Answer::Refused,
    };
    drop(said);
    Ok(answer)
}

impl ImageCall {
    /// Makes the call, and answers what it did.
    pub(crate) fn made(self, alloc: Global) -> Result<Answer, ReportFault> {
        match self {
            ImageCall::Read => Ok(read(alloc)),
            ImageCall::Import => Ok(imported(alloc)),
            ImageCall::Write => written(alloc),
            ImageCall::List => listed(alloc),
            ImageCall::Plan => planned(alloc),
        }
    }
}

/// An image loaded into a machine.
#[derive(Drop)]
pub(crate) struct Load {
    image: Image,
    machine: Machine,
}

impl Load {
    /// What there is before the call.
    pub(crate) fn new(alloc: Global) -> Result<Load, ReportFault> {
        let machine = Machine::new(alloc, PageSize::K4, Profile::one())?;
        Ok(Load {
            image: assemble(alloc, SCATTERED)?.image,
            machine,
        })
    }

    fn words(&self) -> [Option<u32>; 3] {
        let memc = self.machine.memc();
        [
            word_in(memc, 0x8000),
            word_in(memc, 0x200_0010),
            word_in(memc, 0x380_0000),
        ]
    }
}

impl Trial for Load {
    fn make(&mut self, alloc: Global) -> Result<Answer, ReportFault> {
        Ok(match load(alloc, &mut self.machine, &self.image) {
            Ok(()) => Answer::of(self.words() == [Some(1), Some(2), Some(0x1234_5678)]),
            Err(LoadFault::Memory) => Answer::Refused,
            Err(LoadFault::NoPage) => Answer::Wrong,
        })
    }

    fn is_unchanged(&mut self, _alloc: Global) -> Result<bool, ReportFault> {
        Ok(self.words() == [Some(0); 3])
    }
}

// The address of the n-th word or label.
fn address_of(n: u8) -> u32 {
    u32::from(n).wrapping_mul(4).wrapping_add(0x8000)
}

impl Puts for Image {
    fn put_nth(&mut self, alloc: Global, n: u8) -> Answer {
        match self.put(alloc, address_of(n), u32::from(n)) {
            Ok(()) => Answer::Right,
            Err(ImageFault::Memory) => Answer::Refused,
            Err(_) => Answer::Wrong,
        }
    }

    fn has_first(&self, count: u8) -> bool {
        for n in 0..count {
            if self.word_at(address_of(n)) != Some(u32::from(n)) {
                return false;
            }
        }
        (self.words(), self.segments()) == (u32::from(count), u32::from(count > 0))
    }
}

// The name of the n-th label.
fn name_of(n: u8) -> [u8; 2] {
    [b'l', n]
}

impl Puts for Labels {
    fn put_nth(&mut self, alloc: Global, n: u8) -> Answer {
        match self.put(alloc, &name_of(n), address_of(n)) {
            Ok(()) => Answer::Right,
            Err(LabelFault::Memory) => Answer::Refused,
            Err(LabelFault::Twice) => Answer::Wrong,
        }
    }

    fn has_first(&self, count: u8) -> bool {
        for n in 0..IN_TURN {
            let address = if n < count { Some(address_of(n)) } else { None };
            if self.get(&name_of(n)) != address {
                return false;
            }
        }
        true
    }
}
