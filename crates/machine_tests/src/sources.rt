//! Lines of source and their words, worked out by the formats of the ARM data sheet, and words that are
//! shown and assembled back.

use assembler::{AsmFault, LineFault, assemble, disassemble};
use std::alloc::{AllocError, Global};
use std::test::Fail;

// Lines at 8000.
static WORDS: [(&str, u32); 162] = [
    (" ANDEQ R0,R1,#1", 0x0201_0001),
    (" ANDS R2,R0,R3", 0xE010_2003),
    (" ANDNVS R0,R1,R2", 0xF011_0002),
    (" EORNE R1,R2,#2", 0x1222_1002),
    (" EORS R3,R1,R4", 0xE031_3004),
    (" EORS R1,R2,R3,LSL #3", 0xE032_1183),
    (" SUBCS R2,R3,#3", 0x2243_2003),
    (" SUBS R4,R2,R5", 0xE052_4005),
    (" SUBLES R2,R3,R4,LSL #6", 0xD053_2304),
    (" RSBCC R3,R4,#4", 0x3264_3004),
    (" RSBS R5,R3,R6", 0xE073_5006),
    (" RSBGTS R3,R4,R5,LSL #9", 0xC074_3485),
    (" ADDMI R4,R5,#5", 0x4285_4005),
    (" ADDS R6,R4,R7", 0xE094_6007),
    (" ADDLTS R4,R5,R6,LSL #12", 0xB095_4606),
    (" ADCPL R5,R6,#6", 0x52A6_5006),
    (" ADCS R7,R5,R8", 0xE0B5_7008),
    (" ADCGES R5,R6,R7,LSL #15", 0xA0B6_5787),
    (" SBCVS R6,R7,#7", 0x62C7_6007),
    (" SBCS R8,R6,R9", 0xE0D6_8009),
    (" SBCLSS R6,R7,R8,LSL #18", 0x90D7_6908),
    (" RSCVC R7,R8,#8", 0x72E8_7008),
    (" RSCS R9,R7,R10", 0xE0F7_900A),
    (" RSCHIS R7,R8,R9,LSL #21", 0x80F8_7A89),
    (" ORRHI R8,R9,#9", 0x8389_8009),
    (" ORRS R10,R8,R11", 0xE198_A00B),
    (" ORRVCS R8,R9,R10,LSL #24", 0x7199_8C0A),
    (" BICLS R9,R10,#10", 0x93CA_900A),
    (" BICS R11,R9,R12", 0xE1D9_B00C),
    (" BICVSS R9,R10,R11,LSL #27", 0x61DA_9D8B),
    (" TSTEQ R0,#&F", 0x0310_000F),
    (" TST R0,R4,ASR #8", 0xE110_0444),
    (" TSTP R0,#0", 0xE310_F000),
    (" TSTMIP R0,R1,ROR R2", 0x4110_F271),
    (" TEQCC R1,#&F0", 0x3331_00F0),
    (" TEQ R1,R5,ASR #16", 0xE131_0845),
    (" TEQP R1,#1", 0xE331_F001),
    (" TEQPLP R1,R2,ROR R3", 0x5131_F372),
    (" CMPVS R2,#&F00", 0x6352_0C0F),
    (" CMP R2,R6,ASR #24", 0xE152_0C46),
    (" CMPP R2,#2", 0xE352_F002),
    (" CMPVSP R2,R3,ROR R4", 0x6152_F473),
    (" CMNLS R3,#&F000", 0x9373_0A0F),
    (" CMN R3,R7,ASR #32", 0xE173_0047),
    (" CMNP R3,#3", 0xE373_F003),
    (" CMNVCP R3,R4,ROR R5", 0x7173_F574),
    (" MOV R0,R1,LSR #1", 0xE1A0_00A1),
    (" MOVS PC,R14", 0xE1B0_F00E),
    (" MOVVS R9,R8,RRX", 0x61A0_9068),
    (" MOV R3,#&3FC00", 0xE3A0_3BFF),
    (" MOV R3,#0xF000000F", 0xE3A0_32FF),
    (" MOV R3,#255", 0xE3A0_30FF),
    (" MOV R3,#256", 0xE3A0_3C01),
    (" MOV R3,#&40000000", 0xE3A0_3101),
    (" MVN R1,R2,LSR #1", 0xE1E0_10A2),
    (" MVNS PC,R14", 0xE1F0_F00E),
    (" MVNVS R9,R8,RRX", 0x61E0_9068),
    (" MVN R3,#&3FC00", 0xE3E0_3BFF),
    (" MVN R3,#0xF000000F", 0xE3E0_32FF),
    (" MVN R3,#255", 0xE3E0_30FF),
    (" MVN R3,#256", 0xE3E0_3C01),
    (" MVN R3,#&40000000", 0xE3E0_3101),
    (" ADD R1,R2,R3,LSL #0", 0xE082_1003),
    (" ADD R1,R2,R3,LSL #1", 0xE082_1083),
    (" ADD R1,R2,R3,LSL #31", 0xE082_1F83),
    (" SUB R4,R5,R6,LSL R7", 0xE045_4716),
    (" ADD R1,R2,R3,LSR #1", 0xE082_10A3),
    (" ADD R1,R2,R3,LSR #31", 0xE082_1FA3),
    (" ADD R1,R2,R3,LSR #32", 0xE082_1023),
    (" SUB R4,R5,R6,LSR R7", 0xE045_4736),
    (" ADD R1,R2,R3,ASR #1", 0xE082_10C3),
    (" ADD R1,R2,R3,ASR #31", 0xE082_1FC3),
    (" ADD R1,R2,R3,ASR #32", 0xE082_1043),
    (" SUB R4,R5,R6,ASR R7", 0xE045_4756),
    (" ADD R1,R2,R3,ROR #1", 0xE082_10E3),
    (" ADD R1,R2,R3,ROR #30", 0xE082_1F63),
    (" ADD R1,R2,R3,ROR #31", 0xE082_1FE3),
    (" SUB R4,R5,R6,ROR R7", 0xE045_4776),
    (" MUL R0,R1,R2", 0xE000_0291),
    (" MULS R9,R8,R7", 0xE019_0798),
    (" MULGES R5,R6,R5", 0xA015_0596),
    (" MLA R0,R1,R2,R3", 0xE020_3291),
    (" MLALT R10,R11,R12,R13", 0xB02A_DC9B),
    (" MULNE R1,R2,R1", 0x1001_0192),
    (" LDR R1,[R2,#4095]", 0xE592_1FFF),
    (" LDR R1,[R2,#-4095]!", 0xE532_1FFF),
    (" LDRB R1,[R2],#-1", 0xE452_1001),
    (" LDREQB R7,[R8,#&FF]", 0x05D8_70FF),
    (" LDR R3,[R4,R5]", 0xE794_3005),
    (" LDR R3,[R4,-R5]!", 0xE734_3005),
    (" LDR R3,[R4,R5,LSR #32]", 0xE794_3025),
    (" LDR R3,[R4],R5,ASR #7", 0xE694_33C5),
    (" LDRB R3,[R4],-R5,ROR #9", 0xE654_34E5),
    (" LDR R3,[R4,R5,RRX]!", 0xE7B4_3065),
    (" LDRT R3,[R4],#8", 0xE4B4_3008),
    (" LDRMIBT R3,[R4],-R6,LSL #2", 0x4674_3106),
    (" LDR R6,[SP,#-4]!", 0xE53D_6004),
    (" LDR R6,[PC,#16]", 0xE59F_6010),
    (" LDR R6,[R7,#-0]!", 0xE537_6000),
    (" LDR R6,&8100", 0xE59F_60F8),
    (" LDR R6,&7F00", 0xE51F_6108),
    (" STR R1,[R2,#4095]", 0xE582_1FFF),
    (" STR R1,[R2,#-4095]!", 0xE522_1FFF),
    (" STRB R1,[R2],#-1", 0xE442_1001),
    (" STREQB R7,[R8,#&FF]", 0x05C8_70FF),
    (" STR R3,[R4,R5]", 0xE784_3005),
    (" STR R3,[R4,-R5]!", 0xE724_3005),
    (" STR R3,[R4,R5,LSR #32]", 0xE784_3025),
    (" STR R3,[R4],R5,ASR #7", 0xE684_33C5),
    (" STRB R3,[R4],-R5,ROR #9", 0xE644_34E5),
    (" STR R3,[R4,R5,RRX]!", 0xE7A4_3065),
    (" STRT R3,[R4],#8", 0xE4A4_3008),
    (" STRMIBT R3,[R4],-R6,LSL #2", 0x4664_3106),
    (" STR R6,[SP,#-4]!", 0xE52D_6004),
    (" STR R6,[PC,#16]", 0xE58F_6010),
    (" STR R6,[R7,#-0]!", 0xE527_6000),
    (" STR R6,&8100", 0xE58F_60F8),
    (" STR R6,&7F00", 0xE50F_6108),
    (" LDMIA R0,{R1-R4}", 0xE890_001E),
    (" STMIA R0!,{R5,R7-R8}", 0xE8A0_01A0),
    (" LDMIB R1,{R2-R5}", 0xE991_003C),
    (" STMIB R1!,{R6,R8-R9}", 0xE9A1_0340),
    (" LDMDA R2,{R3-R6}", 0xE812_0078),
    (" STMDA R2!,{R7,R9-R10}", 0xE822_0680),
    (" LDMDB R3,{R4-R7}", 0xE913_00F0),
    (" STMDB R3!,{R8,R10-R11}", 0xE923_0D00),
    (" LDMFD SP!,{R0-R12,PC}^", 0xE8FD_9FFF),
    (" STMFD SP!,{R0-R12,LR}", 0xE92D_5FFF),
    (" STMNEFD R10,{R0}^", 0x194A_0001),
    (" LDMED SP!,{R0-R12,PC}^", 0xE9FD_9FFF),
    (" STMED SP!,{R0-R12,LR}", 0xE82D_5FFF),
    (" STMNEED R10,{R0}^", 0x184A_0001),
    (" LDMFA SP!,{R0-R12,PC}^", 0xE87D_9FFF),
    (" STMFA SP!,{R0-R12,LR}", 0xE9AD_5FFF),
    (" STMNEFA R10,{R0}^", 0x19CA_0001),
    (" LDMEA SP!,{R0-R12,PC}^", 0xE97D_9FFF),
    (" STMEA SP!,{R0-R12,LR}", 0xE8AD_5FFF),
    (" STMNEEA R10,{R0}^", 0x18CA_0001),
    (" LDMIA R1,{R0-R15}", 0xE891_FFFF),
    (" LDMIA R1,{R3,R1,R2}", 0xE891_000E),
    (" B &8008", 0xEA00_0000),
    (" BL &8000", 0xEBFF_FFFE),
    (" BEQ &7FFC", 0x0AFF_FFFD),
    (" BLNE &10000", 0x1B00_1FFE),
    (" BCS &0", 0x2AFF_DFFE),
    (" BCC &800C", 0x3A00_0001),
    (" BLHI &4000", 0x8BFF_EFFE),
    (" BLE &1C", 0xDAFF_E005),
    (" BNV &8008", 0xFA00_0000),
    (" SWI 0", 0xEF00_0000),
    (" SWI 16777215", 0xEFFF_FFFF),
    (" SWIVS 65", 0x6F00_0041),
    (" SWICS 17", 0x2F00_0011),
    (" ADR R0,&8008", 0xE28F_0000),
    (" ADR R1,&8004", 0xE24F_1004),
    (" ADREQ R2,&8108", 0x028F_2C01),
    (" ADR R3,&7C08", 0xE24F_3B01),
    (" ADRNE R4,&9008", 0x128F_4A01),
    (" DCD 0", 0x0000_0000),
    (" DCD &E25EF004", 0xE25E_F004),
    (" DCD 0xffffffff", 0xFFFF_FFFF),
    (" DCD 12345678", 0x00BC_614E),
];

// The word that a source has at an address, or none where it is refused.
fn word_of(alloc: Global, source: &[u8], at: u32) -> Option<u32> {
    match assemble(alloc, source) {
        Ok(said) => {
            let word = said.image.word_at(at);
            drop(said);
            word
        }
        Err(_) => None,
    }
}

// A line at an address, that which is shown for a word there.
fn line_of(alloc: Global, word: u32, at: u32) -> Result<Vec<u8>, AllocError> {
    let mut source = Vec::from_slice(alloc, format!(in alloc; " ORG {at}\n ")?.as_bytes())?;
    source.extend_from_slice(disassemble(word, at).items())?;
    Ok(source)
}

// Whether the word is assembled back from what is shown for it.
fn comes_back(alloc: Global, word: u32, at: u32) -> Result<bool, AllocError> {
    let source = line_of(alloc, word, at)?;
    Ok(word_of(alloc, &source, at) == Some(word))
}

// Whether the word comes back at some addresses, and so do words of which one bit is another, which are
// other instructions or none.
fn all_come_back(alloc: Global, word: u32) -> Result<bool, AllocError> {
    for at in [0u32, 0x1C, 0x8000, 0x2FF_FFFC, 0x3FF_FFFC] {
        for changed in [
            0u32, 1, 0x10, 0x800, 0x1000, 0x20_0000, 0x100_0000, 0x400_0000,
        ] {
            if !comes_back(alloc, word ^ changed, at)? {
                return Ok(false);
            }
        }
    }
    Ok(true)
}

// Whether the line has that word at 8000, which is not lost.
fn is_right(alloc: Global, line: &str, word: u32) -> Result<bool, AllocError> {
    let has_word = word_of(alloc, line.as_bytes(), 0x8000) == Some(word);
    Ok(has_word && all_come_back(alloc, word)?)
}

// The number of the first line that has another word at 8000, or whose word is lost.
fn first_wrong(alloc: Global, lines: &[(&str, u32)]) -> Result<Option<usize>, AllocError> {
    for (number, (line, word)) in lines.iter().enumerate() {
        if !is_right(alloc, line, *word)? {
            return Ok(Some(number));
        }
    }
    Ok(None)
}

#[test]
fn lines_and_their_words(rt: HostRuntime) -> Result<(), Fail> {
    let wrong = first_wrong(rt.alloc(), &WORDS)?;
    assert!(rt; wrong.is_none(), "line {wrong:?}");
    Ok(())
}

// A word that looks random and does not come back at the address, if there is one among a hundred.
fn first_lost(alloc: Global, at: u32) -> Result<Option<u32>, AllocError> {
    let mut word = 0x1234_5678u32;
    for _ in 0..100 {
        word = word.wrapping_mul(1_664_525).wrapping_add(1_013_904_223);
        if !comes_back(alloc, word, at)? {
            return Ok(Some(word));
        }
    }
    Ok(None)
}

#[test]
fn lines_are_assembled_back(rt: HostRuntime) -> Result<(), Fail> {
    for at in [0u32, 0x8000, 0x3FF_FFFC] {
        assert!(rt; first_lost(rt.alloc(), at)?.is_none(), "{at}");
    }
    Ok(())
}

// How many words a source has, or why it is refused.
fn words_of(alloc: Global, source: &[u8]) -> Result<u32, AsmFault> {
    let said = assemble(alloc, source)?;
    let words = said.image.words();
    drop(said);
    Ok(words)
}

// The same of so many lines that are a word each.
fn words_of_lines(alloc: Global, lines: usize) -> Result<Result<u32, AsmFault>, AllocError> {
    let source = b" DCD 0\n".repeat(alloc, lines)?;
    Ok(words_of(alloc, &source))
}

#[test]
fn too_many_words(rt: HostRuntime) -> Result<(), Fail> {
    let words = [
        words_of_lines(rt.alloc(), 65_536)?,
        words_of_lines(rt.alloc(), 65_537)?,
    ];
    let refused = AsmFault::Line(LineFault::TooLong, 65_537);
    assert!(rt; words == [Ok(65_536), Err(refused)]);
    Ok(())
}

#[test]
fn name_of_no_memory(rt: HostRuntime) -> Result<(), Fail> {
    let text = format!(in rt.alloc(); "{}", AsmFault::Memory)?;
    assert!(rt; text.as_str() == "Memory");
    Ok(())
}
