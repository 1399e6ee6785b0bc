//! Counts down from 3, and returns from the interrupt.

/// The source: its loop counts R0 down from 3 to 0, and then it returns.
pub const SOURCE: &[u8] =
    b"start MOV R0,#3\nagain SUBS R0,R0,#1\nturn BNE again\n SUBS PC,R14,#4\n";

/// The source as an image.
pub const IMAGE: [u8; 36] = [
    0x41, 0x52, 0x43, 0x32, 0x49, 0x4D, 0x47, 0x31, 1, 0, 0, 0, 0, 0x80, 0, 0, 4, 0, 0, 0, 0x03, 0,
    0xA0, 0xE3, 0x01, 0, 0x50, 0xE2, 0xFD, 0xFF, 0xFF, 0x1A, 0x04, 0xF0, 0x5E, 0xE2,
];

/// Its statement, by addresses, so that it is one of the image too: the loop turns back twice at most.
pub const STATEMENT: &[u8] =
    b"entry = 0x8000\n[[loop]]\nheader = 0x8004\nfirst = 0x8004\nlast = 0x8008\nbound = 2\n";

/// A machine file: a run from the handler's entry to its return, in IRQ mode.
pub const MACHINE: &[u8] =
    b"steps = 8\npc = 0x8000\nmode = \"irq\"\n[registers]\nr14_irq = 0x1010\n";

/// What a run by the machine file prints.
pub const RAN: &[u8] = b"R0=00000000 R1=00000000 R2=00000000 R3=00000000
R4=00000000 R5=00000000 R6=00000000 R7=00000000
R8=00000000 R9=00000000 R10=00000000 R11=00000000
R12=00000000 R13=00000000 R14=00000000 R15=0000100C
ticks 21 elapsed 21
";

/// Its certificate: the loop turns back twice, 25 ticks.
pub const CERTIFICATE: &[u8] = b"arcwcet certificate 1
bound 25
step 8000 do 8004 1
repeat 2
step 8004 do 8008 1
step 8008 do 8004 5
end
step 8004 do 8008 1
step 8008 skip 800C 2
step 800C do exit 9
close
place - 8000 0
place - 8004 0
place - 8008 1
place - 800C 16
instance - 8004 1 6
stop
";
