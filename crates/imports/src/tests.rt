use crate::elf::import_elf;
use crate::fault::ImportFault;
use std::alloc::{AllocError, Global};

// A file that was written by hand from the ELF specification: its header, its program headers, and the bytes
// of its segments.
const HEADER: [u8; 52] = [
    0x7F, b'E', b'L', b'F', 1, 1, 1, 0, 0, 0, 0, 0, 0, 0, 0, 0, // e_ident
    2, 0, 40, 0, 1, 0, 0, 0, // e_type, e_machine, e_version
    0x00, 0x80, 0, 0, 52, 0, 0, 0, 0, 0, 0, 0, // e_entry, e_phoff, e_shoff
    0, 0, 0, 0, 52, 0, // e_flags, e_ehsize
    32, 0, 3, 0, 40, 0, 0, 0, 0, 0, // e_phentsize, e_phnum, e_shentsize, e_shnum, e_shstrndx
];

const PROGRAM_HEADERS: [u8; 96] = [
    // The code: p_type, p_offset, p_vaddr, p_paddr, p_filesz, p_memsz, p_flags, p_align.
    1, 0, 0, 0, 148, 0, 0, 0, 0x00, 0x80, 0, 0, 0x00, 0x90, 0, 0, //
    8, 0, 0, 0, 8, 0, 0, 0, 5, 0, 0, 0, 4, 0, 0, 0, //
    // A note, which is not loaded.
    4, 0, 0, 0, 148, 0, 0, 0, 0x00, 0x80, 0, 0, 0x00, 0x80, 0, 0, //
    8, 0, 0, 0, 8, 0, 0, 0, 4, 0, 0, 0, 4, 0, 0, 0, //
    // Three bytes in the file, and sixteen in memory.
    1, 0, 0, 0, 156, 0, 0, 0, 0x1C, 0, 0, 0, 0x1C, 0, 0, 0, //
    3, 0, 0, 0, 16, 0, 0, 0, 6, 0, 0, 0, 4, 0, 0, 0, //
];

// MOV R0,#3 and SUBS PC,LR,#4; and 1, 2 and 3.
const SEGMENTS: [u8; 11] = [0x03, 0x00, 0xA0, 0xE3, 0x04, 0xF0, 0x5E, 0xE2, 1, 2, 3];

// A byte of that file that is another, and why it is refused.
const REFUSED: [(usize, u8, ImportFault); 15] = [
    (0, 0x7E, ImportFault::NotElf),
    (4, 2, ImportFault::Not32Bit),
    (5, 2, ImportFault::NotLittleEndian),
    (6, 0, ImportFault::NotVersion1),
    (20, 2, ImportFault::NotVersion1),
    (18, 3, ImportFault::NotArm),
    (16, 1, ImportFault::NotExecutable),
    (16, 3, ImportFault::NotExecutable),
    (42, 40, ImportFault::BadEntrySize),
    (44, 4, ImportFault::TableOutside),
    (31, 1, ImportFault::TableOutside),
    (44, 0, ImportFault::NoSegment),
    (120, 157, ImportFault::SegmentOutside(0x1C)),
    (60, 2, ImportFault::Misaligned(0x8002)),
    (63, 3, ImportFault::OutOfRange(0x0300_8000)),
];

// Files that end early, or begin as others.
const CUT: [(&[u8], ImportFault); 4] = [
    (b"", ImportFault::NotElf),
    (b"\x7FEL", ImportFault::NotElf),
    (b"\x7FELF\x01\x01\x01", ImportFault::HeaderCut),
    (b"\xC5\xC6\xCB\xC3", ImportFault::AcornObject),
];

fn file(alloc: Global) -> Result<Vec<u8>, AllocError> {
    let mut file = Vec::new(alloc);
    file.extend_from_slice(&HEADER)?;
    file.extend_from_slice(&PROGRAM_HEADERS)?;
    file.extend_from_slice(&SEGMENTS)?;
    Ok(file)
}

#[test]
fn a_file_is_imported(rt: HostRuntime) -> Result<(), AllocError> {
    let file = file(rt.alloc())?;
    match import_elf(rt.alloc(), &file) {
        Ok(image) => {
            let words = [0x1C, 0x20, 0x8000, 0x8004, 0x9000].map(|address| image.word_at(address));
            assert!(rt;
                words
                    == [
                        Some(0x0003_0201),
                        None,
                        Some(0xE3A0_0003),
                        Some(0xE25E_F004),
                        None
                    ]
            );
            assert!(rt; image.words() == 3);
        }
        Err(_) => {
            assert!(rt; false);
        }
    }
    Ok(())
}

// Why a file is refused in which a byte is another.
fn fault_with(alloc: Global, place: usize, byte: u8) -> Result<Option<ImportFault>, AllocError> {
    let mut file = file(alloc)?;
    if let Some(at) = file.get_mut(place) {
        *at = byte;
    }
    Ok(import_elf(alloc, &file).err())
}

#[test]
fn changed_files_are_refused(rt: HostRuntime) -> Result<(), AllocError> {
    for (place, byte, wanted) in REFUSED {
        let fault = fault_with(rt.alloc(), place, byte)?;
        assert!(rt; fault == Some(wanted));
    }
    Ok(())
}

#[test]
fn other_files_are_refused(rt: HostRuntime) {
    for (bytes, wanted) in CUT {
        assert!(rt; import_elf(rt.alloc(), bytes).err() == Some(wanted));
    }
}
