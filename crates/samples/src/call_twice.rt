//! Two calls of one routine, which is two places, each with its own return.

/// The source: it keeps R14 in R4, calls `routine` twice, and returns by R4; it has no loop.
pub const SOURCE: &[u8] = b"start MOV R4,R14\n BL routine\n BL routine\n SUBS PC,R4,#4\n DCD 0\n\
    routine MOV PC,R14\n";

/// Its statement: the entry, by its label.
pub const STATEMENT: &[u8] = b"entry = \"start\"\n";

/// Its certificate: through both calls to the return, 28 ticks.
pub const CERTIFICATE: &[u8] = b"arcwcet certificate 1
bound 28
step 8000 do 8004 1
step 8004 do 8014 4
step 8014 do 8008 4
step 8008 do 8014 5
step 8014 do 800C 5
step 800C do exit 9
close
place - 8000 0
place - 8004 1
place - 8008 9
place - 800C 19
place 8004 8014 5
place 8008 8014 14
stop
";
