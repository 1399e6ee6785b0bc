use crate::memory::word;
use arm2_exec::Machine;
use bus_ticks::Profile;
use loader::{
    Image, ImageFault, LabelFault, Labels, LoadFault, ReadFault, load, put_words, read_image,
};
use memc::PageSize;
use std::alloc::Global;
use std::test::Fail;

#[test]
fn words_put(rt: HostRuntime) -> Result<(), Fail> {
    let mut image = Image::new(rt.alloc());
    image.put(rt.alloc(), 0x8000, 0xE3A0_0003)?;
    let refused = [
        image.put(rt.alloc(), 0x8000, 0),
        image.put(rt.alloc(), 0x8000, 0xE3A0_0003),
        image.put(rt.alloc(), 0x8002, 0),
        image.put(rt.alloc(), 0x300_0000, 0),
        image.put(rt.alloc(), 0x400_0000, 0),
    ];
    assert!(rt; refused == [Err(ImageFault::OutOfRange); 5]);
    assert!(rt; [image.word_at(0x8000), image.word_at(0x8004)] == [Some(0xE3A0_0003), None]);
    drop(image);
    Ok(())
}

// Puts words with a gap after each.
fn put_runs(alloc: Global, image: &mut Image, runs: u32) -> Result<(), ImageFault> {
    for run in 0..runs {
        image.put(alloc, run.wrapping_mul(8), run)?;
    }
    Ok(())
}

#[test]
fn seventeen_runs(rt: HostRuntime) -> Result<(), Fail> {
    let mut image = Image::new(rt.alloc());
    put_runs(rt.alloc(), &mut image, 16)?;
    let refused = (image.put(rt.alloc(), 0x80, 0), image.segments());
    let filled = [image.put(rt.alloc(), 4, 0), image.put(rt.alloc(), 0x80, 0)];
    assert!(rt; (refused, filled) == ((Err(ImageFault::TooLong), 16), [Ok(()); 2]));
    assert!(rt; (image.words(), image.address(2), image.address(18)) == (18, Some(8), None));
    drop(image);
    Ok(())
}

#[test]
fn labels_put(rt: HostRuntime) -> Result<(), Fail> {
    let mut labels = Labels::new(rt.alloc());
    let answers = [
        labels.put(rt.alloc(), b"loop", 0x8004),
        labels.put(rt.alloc(), b"loop", 0x8008),
        labels.put(rt.alloc(), b"Loop", 0x8008),
    ];
    assert!(rt; answers == [Ok(()), Err(LabelFault::Twice), Ok(())]);
    assert!(rt; [labels.get(b"loop"), labels.get(b"lo")] == [Some(0x8004), None]);
    Ok(())
}

// The countdown's four words at 8000; a word at 0 and one at 8000, where what is left of the second head
// could still be another address than 0.
const IMAGES: [&[u8; 36]; 2] = [
    b"ARC2IMG1\x01\0\0\0\0\x80\0\0\x04\0\0\0\x03\0\xA0\xE3\x01\0\x50\xE2\xFD\xFF\xFF\x1A\x04\xF0\x5E\xE2",
    b"ARC2IMG1\x02\0\0\0\0\0\0\0\x01\0\0\0\x01\0\0\0\0\x80\0\0\x01\0\0\0\x02\0\0\0",
];

fn refusal(alloc: Global, bytes: &[u8]) -> Option<ReadFault> {
    read_image(alloc, bytes).err()
}

// The first length below the whole at which the cut image is not refused as truncated.
fn first_uncut(alloc: Global, image: &[u8; 36]) -> Option<usize> {
    for length in 0usize..36 {
        if refusal(alloc, &image[..length]) != Some(ReadFault::Truncated) {
            return Some(length);
        }
    }
    None
}

#[test]
fn images_cut(rt: HostRuntime) {
    let [countdown, two_words] = IMAGES;
    let uncut = [
        first_uncut(rt.alloc(), countdown),
        first_uncut(rt.alloc(), two_words),
    ];
    assert!(rt; uncut == [None; 2]);
    let refused = refusal(
        rt.alloc(),
        b"BRC2IMG1\x01\0\0\0\0\x80\0\0\x01\0\0\0\x03\0\xA0\xE3",
    );
    assert!(rt; refused == Some(ReadFault::BadMagic));
}

fn words(machine: &Machine, addresses: [u32; 2]) -> [Option<u32>; 2] {
    let memc = machine.memc();
    let [first, second] = addresses;
    [word(memc, first), word(memc, second)]
}

// 8000 and 2008000 are one place: the later word of the list stays.
#[test]
fn words_in_the_order_of_the_list(rt: HostRuntime) -> Result<(), Fail> {
    let mut machine = Machine::new(rt.alloc(), PageSize::K4, Profile::one())?;
    let put = put_words(
        rt.alloc(),
        &mut machine,
        &[(0x200_8000, 1), (0x8000, 2), (0x380_0000, 3)],
    );
    assert!(rt; (put, words(&machine, [0x200_8000, 0x380_0000])) == (Ok(()), [Some(2), Some(3)]));
    drop(machine);
    Ok(())
}

fn put_three(alloc: Global, image: &mut Image) -> Result<(), ImageFault> {
    image.put(alloc, 0x8000, 1)?;
    image.put(alloc, 0x8_0000, 2)?;
    image.put(alloc, 0x380_0000, 3)
}

// How an image of three words is loaded.
fn loaded(alloc: Global, machine: &mut Machine) -> Result<Result<(), LoadFault>, ImageFault> {
    let mut image = Image::new(alloc);
    let loaded = match put_three(alloc, &mut image) {
        Ok(()) => Ok(load(alloc, machine, &image)),
        Err(fault) => Err(fault),
    };
    drop(image);
    loaded
}

// By default the logical pages from 80000 on lie nowhere: then no word is loaded.
#[test]
fn word_without_a_page(rt: HostRuntime) -> Result<(), Fail> {
    let mut machine = Machine::new(rt.alloc(), PageSize::K4, Profile::one())?;
    let loaded = loaded(rt.alloc(), &mut machine);
    assert!(rt; loaded == Ok(Err(LoadFault::NoPage)));
    assert!(rt; words(&machine, [0x8000, 0x380_0000]) == [Some(0), Some(0)]);
    drop(machine);
    Ok(())
}
