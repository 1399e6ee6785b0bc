use arm2_decode::decode;
use arm2_effect::{Prices, Reg, Registers};
use arm2_transfer::{Bus, Processor};
use assembler::assemble;
use bus_ticks::{Profile, RomTimes};
use ioc::Ioc;
use memc::{Memc, PageSize};
use std::alloc::Global;
use std::test::Fail;
use vidc::Vidc;

// The word of a line.
fn word_of(alloc: Global, line: &[u8]) -> Result<u32, Fail> {
    let said = assemble(alloc, line)?;
    let word = said.image.word_at(0x8000);
    drop(said);
    Ok(word.unwrap_or(0))
}

// A block's two words to VIDC: two pixels a raster and two rasters, at 8 MHz. Flyback rises after 2 ticks.
#[test]
fn block_to_vidc(rt: HostRuntime) -> Result<(), Fail> {
    let mut processor = Processor {
        registers: Registers::new(),
        bus: Bus {
            memc: Memc::new(rt.alloc(), PageSize::K4)?,
            ioc: Ioc::new(),
            vidc: Vidc::new(),
        },
        port: 0,
        prices: Prices {
            profile: Profile::one(),
            rom: RomTimes { low: 0, high: 0 },
        },
    };
    processor.registers.set(Reg::R15, 0x0C00_8003);
    processor.registers.set(Reg::R1, 0x340_0000);
    processor.registers.set(Reg::R2, 0x8000_0000);
    processor.registers.set(Reg::R3, 0xA000_4000);
    let word = word_of(rt.alloc(), b" STMIA R1,{R2,R3}\n")?;
    let instr = decode(word).expect(&rt, "an instruction");
    processor.carry_out(&instr.operation);
    assert!(rt; processor.bus.vidc.advance(2) == 1);
    Ok(())
}
