ghost use Rattle.std.specs.Prelude.{◌≡◌, ◌≤◌, ◌<◌, ◌^◌, All, IfSome, IsTrue, true, length};
ghost use Rattle.std.specs.List.{list_all};
ghost use Rattle.std.specs.Map.{keys_of};
ghost use Rattle.image.specs.Image.{may_hold};
ghost use Rattle.memc.specs.Memory.{shift_of_size};
ghost use Rattle.toml_reading.specs.Documents.{are_distinct};
ghost use Rattle.bus_ticks.specs.Prices.{is_word_address};
ghost use Rattle.machine_file.specs.MachineFile.{are_latched, are_single, is_mappable};
ghost use Rattle.machine_file.specs.Parts.{AreWords, IsInRange, IsIocInRange, IsVidcInRange, HasNoneTwice};

use crate::events::{MOST_STEPS, Schedule};
use crate::ioc_settings::{IocSetting, Requests, TimerSetting};
use crate::machine_files::MachineFile;
use crate::pages::{Pages, RomFields};
use crate::processor::StartAddress;
use crate::registers::Bank;
use crate::vidc_settings::{RateBits, TenBits, VidcSetting};
use crate::words::PutWords;

fn starts_at_word(start: &StartAddress)
    ensures { IsTrue (is_word_address start.now) }
{
    let _address = start.address;
}

fn are_fields(rom: &RomFields)
    ensures low { rom.now.0 ≤ 3 }
    ensures high { rom.now.1 ≤ 3 }
{
    let _low = rom.low;
}

fn are_pages(pages: &Pages)
    ensures mappable { list_all (is_mappable (shift_of_size pages.now.0)) pages.now.1 ≡ true }
    ensures once { are_single pages.now.1 ≡ true }
{
    let _size = pages.size;
}

fn are_steps(schedule: &Schedule)
    ensures steps { schedule.now.steps ≤ MOST_STEPS }
    ensures port { schedule.now.port < 2 ^ 32 }
{
    let _steps = schedule.steps;
    let _port = schedule.port;
}

fn are_put_words(words: &PutWords)
    ensures held { All (λ w. IsTrue (may_hold w.0)) words.now }
    ensures once { are_distinct (keys_of words.now) ≡ true }
{
    let _words = &words.words;
}

fn are_words(words: &[u32])
    ensures { All (λ w. w < 2 ^ 32) words.now }
{}

fn is_bank(bank: &Bank)
    ensures count { length bank.now ≡ 26 }
    ensures words { All (λ w. w < 2 ^ 32) bank.now }
{
    are_words(&bank.words);
}

fn is_byte(byte: u8)
    ensures { byte ≤ 0xFF }
{}

fn is_count(timer: TimerSetting)
    ensures latch { timer.latch ≤ 0xFFFF }
    ensures count { IfSome timer.count (λ n. n ≤ 0xFFFF) }
{}

fn are_latched(requests: &Requests)
    ensures { IsTrue (are_latched requests.now) }
{
    let _bits = requests.bits;
}

fn is_ioc(ioc: &IocSetting)
    ensures { IsIocInRange ioc.now }
{
    is_byte(ioc.mask_a);
    is_byte(ioc.mask_b);
    is_byte(ioc.mask_fiq);
    are_latched(&ioc.requests_a);
    is_count(ioc.timer_0);
    is_count(ioc.timer_1);
}

fn is_value(register: &TenBits)
    ensures { register.now ≤ 0x3FF }
{
    let _value = register.value;
}

fn is_cycle(register: &Option<TenBits>)
    ensures { IfSome register.now (λ n. n ≤ 0x3FF) }
{
    if let Some(register) = register {
        is_value(register);
    }
}

fn is_rate(rate: &RateBits)
    ensures { rate.now ≤ 3 }
{
    let _bits = rate.bits;
}

fn is_vidc(vidc: &VidcSetting)
    ensures { IsVidcInRange vidc.now }
{
    is_cycle(&vidc.horizontal_cycle);
    is_cycle(&vidc.vertical_cycle);
    is_value(&vidc.display_end);
    is_rate(&vidc.pixel_rate);
    let _ticks = vidc.ticks;
}

/// Every machine file keeps the rules of its parts. It does nothing.
pub(crate) fn keeps_rules(file: &MachineFile)
    ensures in_range { IsInRange file.now }
    ensures once { HasNoneTwice file.now }
    ensures words { AreWords file.now }
    ensures ioc { IsIocInRange file.now.ioc }
    ensures vidc { IsVidcInRange file.now.vidc }
{
    starts_at_word(&file.processor.pc);
    is_bank(&file.processor.registers);
    are_fields(&file.controller.rom);
    are_pages(&file.controller.pages);
    are_steps(&file.schedule);
    are_put_words(&file.words);
    is_ioc(&file.ioc);
    is_vidc(&file.vidc);
}
