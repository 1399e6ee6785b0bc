//! Two passes, in each of which it counts down from 3.

/// The source: its outer loop makes two passes, and in each its inner loop counts R0 down from 3 to 0.
pub const SOURCE: &[u8] =
    b"start MOV R1,#2\nouter MOV R0,#3\ninner SUBS R0,R0,#1\nturn BNE inner\n \
    SUBS R1,R1,#1\nback BNE outer\n SUBS PC,R14,#4\n";

/// Its statement, by labels: the outer loop turns back once, the inner one twice in each pass.
pub const STATEMENT: &[u8] = b"entry = \"start\"\n\
    [[loop]]\nheader = \"outer\"\nfirst = \"outer\"\nlast = \"back\"\nbound = 1\n\
    [[loop]]\nheader = \"inner\"\nfirst = \"inner\"\nlast = \"turn\"\nbound = 2\n";

/// Its certificate: both passes with all their turns, 50 ticks.
pub const CERTIFICATE: &[u8] = b"arcwcet certificate 1
bound 50
step 8000 do 8004 1
repeat 1
step 8004 do 8008 1
repeat 2
step 8008 do 800C 2
step 800C do 8008 4
end
step 8008 do 800C 2
step 800C skip 8010 1
step 8010 do 8014 1
step 8014 do 8004 4
end
step 8004 do 8008 1
repeat 2
step 8008 do 800C 2
step 800C do 8008 4
end
step 8008 do 800C 2
step 800C skip 8010 1
step 8010 do 8014 1
step 8014 skip 8018 1
step 8018 do exit 10
close
place - 8000 0
place - 8004 0
place - 8008 0
place - 800C 2
place - 8010 16
place - 8014 17
place - 8018 40
instance - 8004 1 21
instance - 8008 1 6
stop
";
