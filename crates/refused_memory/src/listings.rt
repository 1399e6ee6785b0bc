use crate::analysis::image_of;
use crate::trial::Answer;
use arcwcet::ReportFault;
use assembler::{AsmFault, PlacedLine, placed_lines};
use sources::{Source, SourceFile};
use std::alloc::Global;
use text_listing::list_rows;

// A line of three words, lines without a word, and one in a second segment.
const LINES: &[u8] = b" DCD 1,&FFFFFFFF,end\n; nothing\nend\n ORG &9000\nhere B here\n";

// The address of each line, and how many words it has.
const PLACES: [(u32, usize); 5] = [
    (0x8000, 3),
    (0x800C, 0),
    (0x800C, 0),
    (0x800C, 0),
    (0x9000, 1),
];

const SOURCE_ROWS: &[u8] = b"00008000  00000001       1   DCD 1,&FFFFFFFF,end
00008004  FFFFFFFF
00008008  0000800C
                         2  ; nothing
                         3  end
                         4   ORG &9000
00009000  EAFFFFFE       5  here B here
";

// The word FFFFFFFF is an SWI that is passed over.
const IMAGE_ROWS: &[u8] = b"00008000  00000001  ANDEQ R0,R0,R1
00008004  FFFFFFFF  SWINV 16777215
00008008  0000800C  ANDEQ R8,R0,R12
00009000  EAFFFFFE  B &9000
";

/// A call that lists a source or an image, or finds the places of lines. None changes a value.
#[derive(Clone, Copy)]
pub(crate) enum ListingCall {
    Places,
    Source,
    Image,
}

fn are_placed(found: &[PlacedLine]) -> bool {
    found.len() == PLACES.len()
        && found
            .iter()
            .zip(PLACES.iter())
            .all(|(line, place)| (line.at, line.words) == *place)
}

fn placed(alloc: Global) -> Answer {
    match placed_lines(alloc, LINES) {
        Ok(found) => Answer::of(are_placed(&found)),
        Err(AsmFault::Memory) => Answer::Refused,
        Err(_) => Answer::Wrong,
    }
}

fn source_rows(alloc: Global) -> Result<Answer, ReportFault> {
    let source = Source::read(alloc, SourceFile::plain(LINES))?;
    Ok(Answer::of_text(list_rows(alloc, &source), SOURCE_ROWS))
}

// The rows of the same words, as of an image.
fn image_rows(alloc: Global) -> Result<Answer, ReportFault> {
    let source = Source::read(alloc, SourceFile::plain(LINES))?;
    let image = image_of(source);
    Ok(Answer::of_text(list_rows(alloc, &image), IMAGE_ROWS))
}

impl ListingCall {
    /// Makes the call, and answers what it did.
    pub(crate) fn made(self, alloc: Global) -> Result<Answer, ReportFault> {
        match self {
            ListingCall::Places => Ok(placed(alloc)),
            ListingCall::Source => source_rows(alloc),
            ListingCall::Image => image_rows(alloc),
        }
    }
}
