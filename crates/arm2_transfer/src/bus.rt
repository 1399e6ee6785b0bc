ghost use Rattle.std.specs.Prelude.{◌≡◌, ◌<◌};
ghost use Rattle.memc.specs.Memory.{Fits};
ghost use Rattle.arm2_transfer.specs.Bus.{put, put_byte, put_single, seen, with_byte, made_of};

use ioc::Ioc;
use memc::{Memc, Spot};
use vidc::Vidc;

/// What the processor's words go to and come from: memory with its controller, and the two devices that a
/// program sees.
#[derive(Drop)]
pub struct Bus {
    pub memc: Memc,
    pub ioc: Ioc,
    pub vidc: Vidc,
}

/// A word is stored at a spot that MEMC located.
#[inline(always)]
pub(crate) fn put(bus: &mut Bus, spot: Spot, word: u32)
    requires { Fits bus.old.memc.shift spot }
    ensures put { bus.new ≡ put spot word bus.old }
    ensures kept { bus.new.memc.shift ≡ bus.old.memc.shift }
{
    match spot {
        Spot::Ram(_) => bus.memc.store(spot, word),
        Spot::Io(address) => bus.ioc.write(address, word),
        Spot::Vidc(_) => bus.vidc.write(word),
        Spot::Control(address) => bus.memc.control(address),
        Spot::Translator(address) => bus.memc.translator(address),
        Spot::Rom(_) | Spot::Ignored(_) => {}
    }
}

/// The word at a spot that MEMC located for a load.
#[inline(always)]
pub(crate) fn seen(bus: &Bus, port: u32, spot: Spot) -> u32
    requires { Fits bus.now.memc.shift spot }
    ensures { result ≡ seen bus.now port spot }
{
    match spot {
        Spot::Ram(_) | Spot::Rom(_) => bus.memc.load(spot),
        Spot::Io(address) if Ioc::is_register(address) => bus.ioc.read(address),
        Spot::Io(_) => port,
        Spot::Vidc(_) | Spot::Control(_) | Spot::Translator(_) | Spot::Ignored(_) => 0,
    }
}

fn with_byte(word: u32, lane: usize, byte: u8) -> u32
    requires { lane < 4 }
    ensures { result ≡ with_byte lane byte word }
{
    let mut bytes = word.to_le_bytes();
    bytes[lane] = byte;
    u32::from_le_bytes(bytes)
}

// A byte is stored at a spot that MEMC located.
#[inline(never)]
fn put_byte(bus: &mut Bus, spot: Spot, address: u32, byte: u8)
    requires { Fits bus.old.memc.shift spot }
    ensures put { bus.new ≡ put_byte spot address byte bus.old }
    ensures kept { bus.new.memc.shift ≡ bus.old.memc.shift }
{
    match spot {
        Spot::Ram(_) => {
            let word = bus.memc.load(spot);
            put(bus, spot, with_byte(word, (address % 4) as usize, byte));
        }
        _ => put(bus, spot, u32::from(byte) * 0x0101_0101),
    }
}

/// A word, or its lowest byte, is stored at a spot that MEMC located for the address.
#[inline(always)]
pub(crate) fn put_single(bus: &mut Bus, byte: bool, spot: Spot, address: u32, value: u32)
    requires { Fits bus.old.memc.shift spot }
    ensures { bus.new ≡ put_single byte spot address value bus.old }
{
    if byte {
        put_byte(bus, spot, address, (value % 0x100) as u8);
    } else {
        put(bus, spot, value);
    }
}

/// What a load makes of the word that it sees.
#[inline(always)]
pub(crate) fn made_of(byte: bool, address: u32, word: u32) -> u32
    ensures { result ≡ made_of byte address word }
{
    let lane = address % 4;
    if byte {
        u32::from(word.to_le_bytes()[lane as usize])
    } else {
        word.rotate_right(8 * lane)
    }
}
