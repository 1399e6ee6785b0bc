use crate::trial::Answer;
use arcwcet::ReportFault;
use sources::{Source, SourceFile};
use std::alloc::{AllocError, Global};
use text_draft::{Claims, draft, find_parts};

/// A byte of a device, a loop that is counted, and a jump through a table that is none.
pub(crate) const SOURCE: &[u8] = b"start MOV R1,#&3200000\nread LDRB R0,[R1]\n MOV R2,#3\n\
    again SUBS R2,R2,#1\nturn BNE again\njump ADD PC,PC,R0,LSL #2\n DCD 0\n MUL R2,R3,R4\n";

const DRAFT: &[u8] = b"\
# A draft, of what the words show. Write something for each \"?\". A bound counts
# turns back: of a loop that runs eight times seven.
entry = \"start\"  # line 1: start MOV R1,#&3200000
# leave = \"ram\"  # where it returns to, if always to one: \"ram\", \"rom\" or \"io\"
returns = \"stated\"

# What loads and stores reach: \"any\", \"ram\", \"rom\" or \"io\"; for devices of one speed
# \"slow\", \"medium\", \"fast\" or \"synchronous\".
access = [
  {at = \"read\", class = \"any\"},  # line 2: read LDRB R0,[R1]
]

[[loop]]
header = \"again\"  # line 4: again SUBS R2,R2,#1
first = \"again\"  # line 4: again SUBS R2,R2,#1
last = \"turn\"  # line 5: turn BNE again
bound = \"?\"  # looks like 2

[[target]]
at = \"jump\"  # line 6: jump ADD PC,PC,R0,LSL #2
kind = \"jump\"  # or \"call\", \"return\", \"leave\"
to = \"?\"  # a list, or nothing for a return or a leave; then draft from this statement
";

/// A begun statement, with a list for rows, and a destination behind whose word there is none.
pub(crate) const BEGUN: &[u8] = b"entry = \"start\"\naccess = [\n]\n\
    [[target]]\nat = \"jump\"\nkind = \"jump\"\nto = [0x801C, \"?\"]\n";

/// What a draft makes of it. The open destination may lead into the loop.
pub(crate) const DRAFT_ON: &[u8] = b"\
entry = \"start\"
access = [
  {at = \"read\", class = \"any\"},  # line 2: read LDRB R0,[R1]
]
[[target]]
at = \"jump\"
kind = \"jump\"
to = [0x801C, \"?\"]

# Added by draft, beside rows in apart, base and access:
# 00008020: reached, and no word is there.

[[loop]]
header = \"again\"  # line 4: again SUBS R2,R2,#1
first = \"again\"  # line 4: again SUBS R2,R2,#1
last = \"turn\"  # line 5: turn BNE again
bound = \"?\"  # looks like 2
";

fn draft_at_8000(alloc: Global, source: &Source<'_>) -> Result<Vec<u8>, AllocError> {
    let mut found = find_parts(alloc, &source.image, 0x8000)?;
    found.claim(alloc, &source.image, &Claims::none(alloc))?;
    draft(alloc, source, 0x8000, &found)
}

/// The draft of a handler that claims nothing to be proved. It changes no value.
#[derive(Clone, Copy)]
pub(crate) struct Drafted;

impl Drafted {
    /// Makes the call, and answers what it did.
    pub(crate) fn made(self, alloc: Global) -> Result<Answer, ReportFault> {
        let source = Source::read(alloc, SourceFile::plain(SOURCE))?;
        Ok(Answer::of_text(draft_at_8000(alloc, &source), DRAFT))
    }
}
