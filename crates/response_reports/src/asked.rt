use sources::SourceFile;
use text_explained::Bursts;

/// FIQ's handler, which visits the response of IRQ's, and how often.
#[derive(Clone, Copy)]
pub struct AskedFiq<'a> {
    /// The bytes of its source, where it is another one. Both are loaded at the same time.
    pub source: Option<SourceFile<'a>>,
    /// The text of the statement on it.
    pub statement: &'a [u8],
    /// FIQ is asked for at most once in so many ticks of the processor, from 1 on. For 0 no number of visits
    /// is enough.
    pub every: u32,
    /// For how many ticks FIQ may have waited as the step in progress begins; for `None` as long as IRQ is
    /// held back and the step in progress takes, or none where IRQ is not held back.
    pub waited: Option<u64>,
}

/// What is asked of a handler's response.
#[derive(Clone, Copy)]
pub struct AskedResponse<'a> {
    /// The bytes of its source, a text or an image.
    pub source: SourceFile<'a>,
    /// The text of the statement on it.
    pub statement: &'a [u8],
    /// Where its response ends: at a label or an address of the source, as `draft_report` takes it.
    pub label: &'a [u8],
    /// The most ticks of the step that is in progress as the line rises; for `None` those of the longest step
    /// of any program.
    pub longest: Option<u64>,
    /// So many ticks for which the processor holds the interrupt back, beside the stretches; none for `None`.
    pub masked: Option<u64>,
    /// The texts of the statements on stretches of code of the same source that hold it back, one after the
    /// other: each counts from its entry until it leaves.
    pub masked_by: &'a [Vec<u8>],
    /// The DMA bursts with which the response is printed too.
    pub bursts: Bursts,
    /// FIQ's handler with whose visits the response of IRQ's is printed too.
    pub fiq: Option<AskedFiq<'a>>,
    /// The most ticks that are wanted of the times that are printed; for `None` any are.
    pub within: Option<u64>,
}
