ghost use Rattle.std.specs.Prelude.{◌≡◌};

use crate::analysis::{accepted_on, image_of};
use crate::trial::Answer;
use arcwcet::ReportFault;
use bus_ticks::Profile;
use loop_bounds::Handler;
use sources::{Source, SourceFile};
use std::alloc::{AllocError, Global};
use std::collections::BTreeSet;
use text_explained::{assumed_text, done_text};

// Transfers for which no class is stated. Two may write R15, and no target is stated for them; the first is
// done.
const SOURCE: &[u8] =
    b"start LDR R0,[R1]\n LDREQ PC,[R2]\n LDRNE PC,[R3]\n STR R0,[R3]\n MOV PC,R14\n";

const STATEMENT: &[u8] = b"entry = \"start\"\n";

const DONE: u32 = 0x8004;

const SOURCE_ASSUMPTIONS: &[u8] = b"
WARNING: these count as returns but do not look like returns (see [[target]]):
  00008004     2   LDREQ PC,[R2]
  00008008     3   LDRNE PC,[R3]

Loads and stores that may be anywhere (see [[access]]):
  00008000     1  start LDR R0,[R1]
  00008004     2   LDREQ PC,[R2]
  00008008     3   LDRNE PC,[R3]
  0000800C     4   STR R0,[R3]
";

// The same by its words.
const IMAGE_ASSUMPTIONS: &[u8] = b"
WARNING: these count as returns but do not look like returns (see [[target]]):
  00008004  0592F000  LDREQ R15,[R2]
  00008008  1593F000  LDRNE R15,[R3]

Loads and stores that may be anywhere (see [[access]]):
  00008000  E5910000  LDR R0,[R1]
  00008004  0592F000  LDREQ R15,[R2]
  00008008  1593F000  LDRNE R15,[R3]
  0000800C  E5830000  STR R0,[R3]
";

const SOURCE_DONE: &[u8] = b"
WARNING: these count as returns but do not look like returns (see [[target]]):
  00008004     2   LDREQ PC,[R2]
";

const IMAGE_DONE: &[u8] = b"
WARNING: these count as returns but do not look like returns (see [[target]]):
  00008004  0592F000  LDREQ R15,[R2]
";

/// A call that reports what a bound takes for granted of its handler, of all its words or of those that are
/// done. None changes a value.
#[derive(Clone, Copy)]
pub(crate) enum AssumedCall {
    Source,
    Image,
    SourceDone,
    ImageDone,
}

fn done_words(alloc: Global) -> Result<BTreeSet<u32>, AllocError> {
    let mut done = BTreeSet::new(alloc);
    done.insert(DONE)?;
    Ok(done)
}

fn assumed(
    alloc: Global,
    source: &Source<'_>,
    handler: &Handler<'_>,
    expected: &'static [u8],
) -> Result<Answer, ReportFault>
    requires { handler.now.image.now ≡ source.now.image }
{
    Ok(Answer::of_text(assumed_text(alloc, source, handler), expected))
}

fn done(
    alloc: Global,
    source: &Source<'_>,
    handler: &Handler<'_>,
    expected: &'static [u8],
) -> Result<Answer, ReportFault>
    requires { handler.now.image.now ≡ source.now.image }
{
    let words = done_words(alloc)?;
    Ok(Answer::of_text(done_text(alloc, source, handler, &words), expected))
}

impl AssumedCall {
    fn on(self, alloc: Global, source: &Source<'_>) -> Result<Answer, ReportFault> {
        let handler = accepted_on(alloc, source, STATEMENT, &Profile::one())?;
        match self {
            AssumedCall::Source => assumed(alloc, source, &handler, SOURCE_ASSUMPTIONS),
            AssumedCall::Image => assumed(alloc, source, &handler, IMAGE_ASSUMPTIONS),
            AssumedCall::SourceDone => done(alloc, source, &handler, SOURCE_DONE),
            AssumedCall::ImageDone => done(alloc, source, &handler, IMAGE_DONE),
        }
    }

    // The source that the call reports by.
    fn source(self, alloc: Global) -> Result<Source<'static>, ReportFault> {
        let source = Source::read(alloc, SourceFile::plain(SOURCE))?;
        match self {
            AssumedCall::Source | AssumedCall::SourceDone => Ok(source),
            AssumedCall::Image | AssumedCall::ImageDone => Ok(image_of(source)),
        }
    }

    /// Makes the call, and answers what it did.
    pub(crate) fn made(self, alloc: Global) -> Result<Answer, ReportFault> {
        let source = self.source(alloc)?;
        let answer = self.on(alloc, &source);
        drop(source);
        answer
    }
}
