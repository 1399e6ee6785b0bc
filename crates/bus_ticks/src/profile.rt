ghost use Rattle.std.specs.Prelude.{◌≡◌, ◌↔◌, All, IsOk, IfOk, IsTrue, ◌*◌, ◌<◌, ◌≤◌, ◌^◌};
ghost use Rattle.bus_ticks.specs.Ranges.{AreInRange, AreOrdered, IsPrice, greatest};

use crate::worst::greatest;
use thiserror::Error;

/// What answers at an address.
#[derive(Clone, Copy, Debug, PartialEq, Eq)]
pub enum Class {
    /// 0000000 to 2FFFFFF, in logical or physical RAM.
    Ram,
    /// 3400000 to 3FFFFFF: a load reads ROM, a store goes to a control register.
    Rom,
    /// 3000000 to 33FFFFF, the devices.
    Io,
    /// Any of the others, in a statement of what an instruction may reach. No address has this class.
    Any,
    /// The slow devices, by address bits 20 and 19: 3000000 to 307FFFF, and again each 200000 bytes.
    Slow,
    /// The medium devices, 80000 bytes further on.
    Medium,
    /// The fast devices, 100000 bytes further on.
    Fast,
    /// The synchronous devices, 180000 bytes further on.
    Synchronous,
}

/// The time fields of the two halves of ROM, as the memory controller holds them.
#[derive(Clone, Copy, Debug, PartialEq, Eq)]
pub struct RomTimes {
    /// The field of 3400000 to 37FFFFF, from 0 to 3.
    pub low: u32,
    /// The field of 3800000 to 3FFFFFF, from 0 to 3.
    pub high: u32,
    ghost low_in_range: { low < 4 },
    ghost high_in_range: { high < 4 },
}

/// The prices of one machine, in ticks: each from 1 to 255, a burst's from 0 to 255.
///
/// They are ordered: s ≤ quad ≤ n, and none of n, the prices of ROM and control exceeds the
/// dearest device.
#[derive(Clone, Copy, Debug, PartialEq, Eq)]
pub struct Profile {
    /// An access to RAM that does not follow the one before.
    pub n: u32,
    /// An access to RAM that follows the one before.
    pub s: u32,
    /// An access to RAM that follows the one before, at a multiple of 16.
    pub quad: u32,
    /// A read of ROM at time field 0.
    pub rom_0: u32,
    /// A read of ROM at time field 1.
    pub rom_1: u32,
    /// A read of ROM at time field 2.
    pub rom_2: u32,
    /// A read of ROM at time field 3.
    pub rom_3: u32,
    /// A word to or from a slow device.
    pub slow: u32,
    /// A word to or from a medium device.
    pub medium: u32,
    /// A word to or from a fast device.
    pub fast: u32,
    /// A word to or from a synchronous device.
    pub synchronous: u32,
    /// A word stored where ROM is read.
    pub control: u32,
    /// A fetch of an instruction among the devices.
    pub unfitted: u32,
    /// A cycle without an access.
    pub internal: u32,
    /// A burst of the video or sound DMA.
    pub burst: u32,
    ghost n_price: { IsPrice n },
    ghost s_price: { IsPrice s },
    ghost quad_price: { IsPrice quad },
    ghost rom_0_price: { IsPrice rom_0 },
    ghost rom_1_price: { IsPrice rom_1 },
    ghost rom_2_price: { IsPrice rom_2 },
    ghost rom_3_price: { IsPrice rom_3 },
    ghost slow_price: { IsPrice slow },
    ghost medium_price: { IsPrice medium },
    ghost fast_price: { IsPrice fast },
    ghost synchronous_price: { IsPrice synchronous },
    ghost control_price: { IsPrice control },
    ghost unfitted_price: { IsPrice unfitted },
    ghost internal_price: { IsPrice internal },
    ghost burst_price: { burst < 256 },
    ghost s_first: { s ≤ quad },
    ghost quad_second: { quad ≤ n },
    ghost n_below: { n ≤ greatest slow medium fast synchronous },
    ghost rom_below: { greatest rom_0 rom_1 rom_2 rom_3 ≤ greatest slow medium fast synchronous },
    ghost control_below: { control ≤ greatest slow medium fast synchronous },
}

/// Why fifteen numbers are no profile.
#[derive(Clone, Copy, Debug, PartialEq, Eq, Error)]
pub enum NumbersFault {
    /// A price is not from 1 to 255, or a burst's is above 255.
    #[error("a number of the profile is out of its range")]
    OutOfRange,
    /// All are in range, but not in the order that [`Profile`] states.
    #[error("the numbers of the profile are not in order")]
    Disordered,
}

fn are_prices(numbers: &[u32]) -> bool
    ensures { IsTrue result ↔ All IsPrice numbers.now }
{
    numbers.iter().all(|&ticks| 1 <= ticks && ticks < 256)
}

fn are_in_range(numbers: [u32; 15]) -> bool
    ensures { IsTrue result ↔ AreInRange numbers }
{
    are_prices(&numbers[..14]) && numbers[14] < 256
}

fn are_ordered(numbers: [u32; 15]) -> bool
    ensures { IsTrue result ↔ AreOrdered numbers }
{
    let [n, s, quad, ..] = numbers;
    let rom = greatest(numbers[3], numbers[4], numbers[5], numbers[6]);
    let device = greatest(numbers[7], numbers[8], numbers[9], numbers[10]);
    let control = numbers[11];
    s <= quad && quad <= n && n <= device && rom <= device && control <= device
}

impl Profile {
    ghost use Rattle.bus_ticks.specs.Numbers.{numbers_of, profile_one};

    /// The profile of fifteen numbers, in the order of its fields.
    ///
    /// # Errors
    ///
    /// `OutOfRange`: a price is not from 1 to 255, or a burst's is above 255. `Disordered`: all are in range,
    /// but not in the order that [`Profile`] states.
    pub fn new(numbers: [u32; 15]) -> Result<Self, NumbersFault>
        ensures made { IfOk result (λ profile. numbers_of profile ≡ numbers) }
        ensures ok { IsOk result → AreInRange numbers × AreOrdered numbers }
        ensures out_of_range { (result ≡ Err NumbersFault.OutOfRange) ↔ ¬ AreInRange numbers }
        ensures disordered { (result ≡ Err NumbersFault.Disordered)
            ↔ (AreInRange numbers × ¬ AreOrdered numbers) }
    {
        if !are_in_range(numbers) {
            return Err(NumbersFault::OutOfRange);
        }
        if !are_ordered(numbers) {
            return Err(NumbersFault::Disordered);
        }
        Ok(Profile {
            n: numbers[0],
            s: numbers[1],
            quad: numbers[2],
            rom_0: numbers[3],
            rom_1: numbers[4],
            rom_2: numbers[5],
            rom_3: numbers[6],
            slow: numbers[7],
            medium: numbers[8],
            fast: numbers[9],
            synchronous: numbers[10],
            control: numbers[11],
            unfitted: numbers[12],
            internal: numbers[13],
            burst: numbers[14],
        })
    }

    /// The fifteen numbers, in the order of the fields.
    pub fn numbers(&self) -> [u32; 15]
        ensures { result ≡ numbers_of self.now }
    {
        [
            self.n,
            self.s,
            self.quad,
            self.rom_0,
            self.rom_1,
            self.rom_2,
            self.rom_3,
            self.slow,
            self.medium,
            self.fast,
            self.synchronous,
            self.control,
            self.unfitted,
            self.internal,
            self.burst,
        ]
    }

    /// The first profile, shaped on the cycle counts of the processor's data sheet.
    pub fn one() -> Self
        ensures { numbers_of result ≡ profile_one }
    {
        Profile {
            n: 2,
            s: 1,
            quad: 2,
            rom_0: 4,
            rom_1: 3,
            rom_2: 2,
            rom_3: 2,
            slow: 8,
            medium: 6,
            fast: 5,
            synchronous: 10,
            control: 2,
            unfitted: 2,
            internal: 1,
            burst: 6,
        }
    }

    /// The ticks of so many DMA bursts.
    pub fn burst_ticks(&self, bursts: u16) -> u32
        ensures ticks { result ≡ self.now.burst * bursts }
        ensures bound { result < 2 ^ 24 }
    {
        self.burst * u32::from(bursts)
    }
}
