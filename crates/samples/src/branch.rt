//! A branch forward, of which the way with the branch is the dearer one.

/// The source: it takes 1 from R0, branches past a word where that leaves 0, and returns; it has no loop.
pub const SOURCE: &[u8] = b"start SUBS R0,R0,#1\n BEQ out\n MOV R0,#3\nout SUBS PC,R14,#4\n";

/// Its statement: the entry, by its label.
pub const STATEMENT: &[u8] = b"entry = \"start\"\n";

/// Its certificate: the way with the branch, of 15 ticks.
pub const CERTIFICATE: &[u8] = b"arcwcet certificate 1
bound 15
step 8000 do 8004 1
step 8004 do 800C 5
step 800C do exit 9
close
place - 8000 0
place - 8004 1
place - 8008 2
place - 800C 6
stop
";
