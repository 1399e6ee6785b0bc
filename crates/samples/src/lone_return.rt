//! A return at FIQ's vector, and nothing else.

/// The source: one word, the return, at FIQ's vector; it has no loop.
pub const SOURCE: &[u8] = b" ORG &1C\n SUBS PC,R14,#4\n";

/// Its statement: the entry, by its address.
pub const STATEMENT: &[u8] = b"entry = 0x1C\n";

/// Its certificate: the one step, of 9 ticks.
pub const CERTIFICATE: &[u8] = b"arcwcet certificate 1
bound 9
step 1C do exit 9
close
place - 1C 0
stop
";
