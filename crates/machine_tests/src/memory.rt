use bus_ticks::RomTimes;
use memc::{MapFault, Memc, PageSize, Refused, Spot};
use std::test::Fail;

/// The word that a privileged load returns, or none where the load is refused or goes to a device.
pub(crate) fn word(memc: &Memc, address: u32) -> Option<u32> {
    match memc.locate(address % 0x400_0000, false, false) {
        Ok(Spot::Ram(place)) => Some(memc.load(Spot::Ram(place))),
        Ok(Spot::Rom(address)) => Some(memc.load(Spot::Rom(address))),
        _ => None,
    }
}

// A privileged store, which changes nothing where it does not reach RAM.
fn put(memc: &mut Memc, address: u32, word: u32) {
    if let Ok(Spot::Ram(place)) = memc.locate(address % 0x400_0000, false, true) {
        memc.store(Spot::Ram(place), word);
    }
}

// Where an access goes.
fn spot(memc: &Memc, address: u32, user: bool, store: bool) -> Result<Spot, Refused> {
    memc.locate(address % 0x400_0000, user, store)
}

// A store to the translator, which changes nothing where it goes elsewhere.
fn write_to_translator(memc: &mut Memc, address: u32) {
    if let Ok(Spot::Translator(address)) = memc.locate(address % 0x400_0000, false, true) {
        memc.translator(address);
    }
}

// An address, whether user mode accesses it, whether that is a store, and where it goes.
type Access = (u32, bool, bool, Result<Spot, Refused>);

// The number of the first access that goes elsewhere.
fn first_elsewhere(memc: &Memc, accesses: &[Access]) -> Option<usize> {
    for (number, (address, user, store, wanted)) in accesses.iter().enumerate() {
        if spot(memc, *address, *user, *store) != *wanted {
            return Some(number);
        }
    }
    None
}

static BEFORE_A_WRITE: [Access; 1] = [(0x8101, false, false, Ok(Spot::Ram(0x8100)))];

static AFTER_A_WRITE: [Access; 5] = [
    (0x380_8105, false, true, Ok(Spot::Translator(0x380_8105))),
    (0x8000, false, true, Ok(Spot::Ram(0x5000))),
    (0x8000, true, true, Err(Refused::Protected)),
    (0x8000, true, false, Ok(Spot::Ram(0x5000))),
    (0x5000, false, false, Err(Refused::NoPage)),
];

// Whether a load from the first word of some logical page, of 4 KB, goes to that place.
fn is_reached(memc: &Memc, place: u32) -> bool {
    for page in 0u32..8192 {
        if spot(memc, page * 0x1000, false, false) == Ok(Spot::Ram(place)) {
            return true;
        }
    }
    false
}

// The bytes 11, 22, 33, 44 at 8100: an address within the word loads the whole word, not yet rotated. A
// write to the translator puts logical page 8 on physical page 5 at level 1, where logical page 5 was.
#[test]
fn pages_of_4_kb(rt: HostRuntime) -> Result<(), Fail> {
    let mut memc = Memc::new(rt.alloc(), PageSize::K4)?;
    put(&mut memc, 0x8100, 0x4433_2211);
    assert!(rt; [word(&memc, 0x8101), word(&memc, 0x8104)] == [Some(0x4433_2211), Some(0)]);
    put(&mut memc, 0x5000, 55);
    put(&mut memc, 0x8000, 88);
    let before = first_elsewhere(&memc, &BEFORE_A_WRITE);
    write_to_translator(&mut memc, 0x380_8105);
    assert!(rt; [before, first_elsewhere(&memc, &AFTER_A_WRITE)] == [None; 2]);
    // Physical page 8 holds no logical page, and still has its words.
    assert!(rt; !is_reached(&memc, 0x8000));
    assert!(rt; [word(&memc, 0x8000), word(&memc, 0x200_8000)] == [Some(55), Some(88)]);
    drop(memc);
    Ok(())
}

static LARGE_PAGES: [Access; 5] = [
    (0x380_8105, false, true, Err(Refused::UnsupportedWrite)),
    (0x380_8105, true, true, Err(Refused::Protected)),
    (0x36E_0000, false, true, Err(Refused::UnsupportedWrite)),
    (0x36E_00DC, false, true, Ok(Spot::Control(0x36E_00DC))),
    (0x360_0000, false, true, Ok(Spot::Ignored(0x360_0000))),
];

#[test]
fn pages_of_32_kb_and_rom(rt: HostRuntime) -> Result<(), Fail> {
    let mut memc = Memc::new(rt.alloc(), PageSize::K32)?;
    assert!(rt; first_elsewhere(&memc, &LARGE_PAGES) == None);
    memc.control(0x36E_00DC);
    let added = memc.add_rom(rt.alloc(), &[(0x380_0000, 1), (0x380_0000, 0x1234_5678)]);
    assert!(rt; added == Ok(()) && memc.rom_times() == RomTimes { low: 1, high: 3 });
    assert!(rt; [word(&memc, 0x380_0000), word(&memc, 0x380_0004)] == [Some(0x1234_5678), Some(0)]);
    drop(memc);
    Ok(())
}

// One step of a script. A page's word is its first or, where that is true, its last.
#[derive(Clone, Copy)]
enum Step {
    // A store of a word to a logical page.
    Store(u32, bool, u32),
    // A physical page, and the logical page that it takes.
    Map(u32, u32),
    Unmap(u32),
}

// No word, since the logical page lies nowhere.
const NO: u32 = 99;

// The first and last words of the pages 0, 1 and 127.
type Words = [u32; 6];

// A step, and after it the words of the logical pages.
type Row = (Step, Words);

// From a plain map of pages by their numbers.
static SCRIPT: [Row; 40] = [
    (Step::Store(0, false, 1), [1, 0, 0, 0, 0, 0]),
    (Step::Store(0, true, 2), [1, 2, 0, 0, 0, 0]),
    (Step::Store(1, false, 3), [1, 2, 3, 0, 0, 0]),
    (Step::Store(1, true, 4), [1, 2, 3, 4, 0, 0]),
    (Step::Store(127, false, 5), [1, 2, 3, 4, 5, 0]),
    (Step::Store(127, true, 6), [1, 2, 3, 4, 5, 6]),
    (Step::Map(127, 0), [5, 6, 3, 4, NO, NO]),
    (Step::Store(0, false, 7), [7, 6, 3, 4, NO, NO]),
    (Step::Store(127, true, 8), [7, 6, 3, 4, NO, NO]),
    (Step::Map(0, 127), [7, 6, 3, 4, 1, 2]),
    (Step::Store(127, true, 9), [7, 6, 3, 4, 1, 9]),
    (Step::Unmap(127), [NO, NO, 3, 4, 1, 9]),
    (Step::Store(0, true, 10), [NO, NO, 3, 4, 1, 9]),
    (Step::Map(1, 0), [3, 4, NO, NO, 1, 9]),
    (Step::Store(0, true, 11), [3, 11, NO, NO, 1, 9]),
    (Step::Map(1, 1), [NO, NO, 3, 11, 1, 9]),
    (Step::Map(127, 127), [NO, NO, 3, 11, 7, 6]),
    (Step::Unmap(1), [NO, NO, NO, NO, 7, 6]),
    (Step::Store(1, false, 12), [NO, NO, NO, NO, 7, 6]),
    (Step::Map(1, 127), [NO, NO, NO, NO, 3, 11]),
    (Step::Store(127, false, 13), [NO, NO, NO, NO, 13, 11]),
    (Step::Map(127, 1), [NO, NO, 7, 6, 13, 11]),
    (Step::Store(1, true, 14), [NO, NO, 7, 14, 13, 11]),
    (Step::Store(127, true, 15), [NO, NO, 7, 14, 13, 15]),
    (Step::Map(0, 0), [1, 9, 7, 14, 13, 15]),
    (Step::Store(0, false, 16), [16, 9, 7, 14, 13, 15]),
    (Step::Store(0, true, 17), [16, 17, 7, 14, 13, 15]),
    (Step::Map(0, 1), [NO, NO, 16, 17, 13, 15]),
    (Step::Store(1, false, 18), [NO, NO, 18, 17, 13, 15]),
    (Step::Store(0, false, 19), [NO, NO, 18, 17, 13, 15]),
    (Step::Map(127, 0), [7, 14, 18, 17, 13, 15]),
    (Step::Store(0, true, 20), [7, 20, 18, 17, 13, 15]),
    (Step::Unmap(0), [7, 20, NO, NO, 13, 15]),
    (Step::Store(1, true, 21), [7, 20, NO, NO, 13, 15]),
    (Step::Unmap(1), [7, 20, NO, NO, NO, NO]),
    (Step::Store(127, false, 22), [7, 20, NO, NO, NO, NO]),
    (Step::Map(1, 1), [7, 20, 13, 15, NO, NO]),
    (Step::Store(1, true, 23), [7, 20, 13, 23, NO, NO]),
    (Step::Map(0, 127), [7, 20, 13, 23, 18, 17]),
    (Step::Store(127, false, 24), [7, 20, 13, 23, 24, 17]),
];

// After each step, the same words of the physical pages.
static PHYSICAL: [Words; 40] = [
    [1, 0, 0, 0, 0, 0],
    [1, 2, 0, 0, 0, 0],
    [1, 2, 3, 0, 0, 0],
    [1, 2, 3, 4, 0, 0],
    [1, 2, 3, 4, 5, 0],
    [1, 2, 3, 4, 5, 6],
    [1, 2, 3, 4, 5, 6],
    [1, 2, 3, 4, 7, 6],
    [1, 2, 3, 4, 7, 6],
    [1, 2, 3, 4, 7, 6],
    [1, 9, 3, 4, 7, 6],
    [1, 9, 3, 4, 7, 6],
    [1, 9, 3, 4, 7, 6],
    [1, 9, 3, 4, 7, 6],
    [1, 9, 3, 11, 7, 6],
    [1, 9, 3, 11, 7, 6],
    [1, 9, 3, 11, 7, 6],
    [1, 9, 3, 11, 7, 6],
    [1, 9, 3, 11, 7, 6],
    [1, 9, 3, 11, 7, 6],
    [1, 9, 13, 11, 7, 6],
    [1, 9, 13, 11, 7, 6],
    [1, 9, 13, 11, 7, 14],
    [1, 9, 13, 15, 7, 14],
    [1, 9, 13, 15, 7, 14],
    [16, 9, 13, 15, 7, 14],
    [16, 17, 13, 15, 7, 14],
    [16, 17, 13, 15, 7, 14],
    [18, 17, 13, 15, 7, 14],
    [18, 17, 13, 15, 7, 14],
    [18, 17, 13, 15, 7, 14],
    [18, 17, 13, 15, 7, 20],
    [18, 17, 13, 15, 7, 20],
    [18, 17, 13, 15, 7, 20],
    [18, 17, 13, 15, 7, 20],
    [18, 17, 13, 15, 7, 20],
    [18, 17, 13, 15, 7, 20],
    [18, 17, 13, 23, 7, 20],
    [18, 17, 13, 23, 7, 20],
    [24, 17, 13, 23, 7, 20],
];

fn address(page: u32, bytes: u32, last: bool) -> u32 {
    let first = page.wrapping_mul(bytes);
    if last {
        first.wrapping_add(bytes).wrapping_sub(4)
    } else {
        first
    }
}

fn follow(memc: &mut Memc, bytes: u32, step: Step) -> Result<(), MapFault> {
    match step {
        Step::Store(page, last, word) => put(memc, address(page, bytes, last), word),
        Step::Map(physical, logical) => memc.map(physical, logical, 3)?,
        Step::Unmap(physical) => memc.unmap(physical)?,
    }
    Ok(())
}

// The words of the pages 0, 1 and 127, by the address of the first.
fn words(memc: &Memc, bytes: u32, base: u32) -> Words {
    let at = |page: u32, last: bool| word(
        memc,
        base.wrapping_add(address(page, bytes, last)),
    ).unwrap_or(NO);
    [
        at(0, false),
        at(0, true),
        at(1, false),
        at(1, true),
        at(127, false),
        at(127, true),
    ]
}

// The number of the first step after which there are other words.
fn first_wrong(memc: &mut Memc, bytes: u32) -> Result<Option<usize>, MapFault> {
    for (number, ((step, logical), physical)) in SCRIPT.iter().zip(PHYSICAL.iter()).enumerate() {
        follow(memc, bytes, *step)?;
        if words(memc, bytes, 0) != *logical || words(memc, bytes, 0x200_0000) != *physical {
            return Ok(Some(number));
        }
    }
    Ok(None)
}

#[test]
fn same_script_all_page_sizes(rt: HostRuntime) -> Result<(), Fail> {
    for (size, bytes) in [
        (PageSize::K4, 0x1000),
        (PageSize::K8, 0x2000),
        (PageSize::K16, 0x4000),
        (PageSize::K32, 0x8000),
    ] {
        let mut memc = Memc::new(rt.alloc(), size)?;
        let wrong = first_wrong(&mut memc, bytes);
        assert!(rt; wrong == Ok(None), "{bytes:x}");
        let refused = [memc.map(128, 0, 0), memc.unmap(128)];
        drop(memc);
        assert!(rt; refused == [Err(MapFault::OutOfRange); 2]);
    }
    Ok(())
}
