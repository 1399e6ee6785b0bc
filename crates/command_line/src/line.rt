use clap::Error;

/// What is asked for. Most commands read an assembly source or an image, their first file.
#[derive(Clone, Copy, Debug, PartialEq, Eq)]
pub enum Command {
    /// The program's version.
    Version,
    /// The image of a source, to be written to a file of the name [`Request::word`].
    Asm,
    /// The image of files of code, each at its address of [`Request::places`], or of one ELF file, which has
    /// none there, to be written to a file of the name [`Request::word`].
    Import,
    /// The addresses, words and lines of a source, or the words of an image.
    List,
    /// A source in ObjAsm's dialect as one in our grammar.
    Plain,
    /// What has to be stated of the handler that begins where [`Request::word`] says: at a label or an
    /// address.
    Draft,
    /// What is left to be stated of the handler whose statement, the second file, is begun.
    DraftOn,
    /// The registers and the ticks of a run of a source's image, by a machine file.
    Run,
    /// The same of the run that ends before the instruction at [`Request::word`], a label or an address.
    RunTo,
    /// The lines of the steps of a run by a machine file.
    Trace,
    /// The same of the run that ends before the instruction at [`Request::word`], a label or an address.
    TraceTo,
    /// So many test vectors as [`CommandNumbers::vectors`] says, by the seed [`CommandNumbers::seed`]. It
    /// reads no file.
    Vectors,
    /// A session of the debugger on that machine, by the commands on standard input.
    Debug,
    /// The greatest run time of the handler in a source, under a statement.
    Bound,
    /// A machine that takes the edge [`CommandNumbers::edge`] of that handler's flow graph at its price.
    Tight,
    /// The verdict on a certificate, the third file.
    Check,
    /// The greatest run time of that handler with [`CommandNumbers::visits`] visits of FIQ's handler at most,
    /// or with one in [`CommandNumbers::every`] ticks. On FIQ's handler the third file is the statement; its
    /// source is the fourth, if there is one.
    Visits,
    /// How long after an interrupt its handler's step at the label or address [`Request::word`] ends. Behind
    /// the second file come those of FIQ's handler, as [`Request::fiq_statement`] and [`Request::fiq_source`]
    /// say, and then the statements on the stretches of code that hold the interrupt back.
    Respond,
    /// Where the ticks of the handler's run time go.
    Explain,
    /// The verdict on a certificate, the third file, and what fails in it.
    Verdict,
    /// Which entries of the statement follow from the handler's code; all are to where [`Request::all`] says
    /// so. The third file, if there is one, gives facts on registers at the handler's entry.
    Justify,
    /// Whether a machine's run through the handler, by the machine file, the third one, keeps the statement.
    Follow,
    /// The same of a run that FIQ interrupts: the third file is the statement on its handler, and the fourth
    /// the machine file.
    FollowVisits,
    /// The handler's flow graph, with what its longest run takes of it.
    Graph,
}

/// The numbers that a command is given.
#[derive(Clone, Copy)]
pub struct CommandNumbers {
    /// The number of an edge of the flow graph, from 0; 0 where none is given.
    pub edge: u32,
    /// How often FIQ interrupts the handler, at most.
    pub visits: Option<u32>,
    /// FIQ is asked for at most once in so many ticks.
    pub every: Option<u32>,
    /// For how many ticks FIQ may have waited at the beginning, to 2^63 - 1.
    pub waited: Option<u64>,
    /// The most ticks that are wanted of the bound, to 2^63 - 1.
    pub at_most: Option<u64>,
    /// So many DMA bursts.
    pub bursts: Option<u32>,
    /// A DMA burst every so many ticks.
    pub burst_every: Option<u32>,
    /// The most ticks of the step that is in progress at an interrupt, to 2^63 - 1.
    pub longest: Option<u64>,
    /// So many ticks for which an interrupt is held back, to 2^63 - 1.
    pub masked: Option<u64>,
    /// The most ticks that are wanted of a response, to 2^63 - 1.
    pub within: Option<u64>,
    /// How many rows of a table are wanted alone, the dearest.
    pub top: Option<u32>,
    /// The last column of its rows, from 80 to 250.
    pub width: Option<u32>,
    /// How many test vectors are printed, from 1 to 1,000,000.
    pub vectors: Option<u32>,
    /// What they are drawn from.
    pub seed: Option<u32>,
}

/// What a line of words asks for.
#[derive(Drop)]
pub struct Request<'a> {
    pub command: Command,
    /// Whether what shows the reason of a refusal is to be printed too.
    pub why: bool,
    /// Whether lines on what is being done are to be printed.
    pub progress: bool,
    /// Whether the bound for each destination of each target alone is to be printed too.
    pub each: bool,
    /// Whether the table of an explanation has the ticks by which words begin for the first time too.
    pub first: bool,
    /// Whether each of its rows is to be printed; or, of `justify`, whether all entries are to follow.
    pub all: bool,
    /// Whether the third file of `respond` is the statement on FIQ's handler.
    pub fiq_statement: bool,
    /// Whether the file behind that is its source.
    pub fiq_source: bool,
    /// Whether of a drawing what the longest run takes is to be printed alone.
    pub path: bool,
    /// Whether in place of a drawing a page of HTML is to be printed.
    pub html: bool,
    /// Whether of a trace lines of JSON are to be printed.
    pub json: bool,
    /// What the texts of its sources are written in, where that is named: `objasm`.
    pub dialect: Option<&'a str>,
    /// The name of a cycle profile's file.
    pub profile: Option<&'a str>,
    /// The names of the other files to be read, in their order.
    pub files: Vec<&'a str>,
    /// Of `import`, the address of each of these files, if it has one.
    pub places: Vec<Option<u32>>,
    /// What `--at` of `import` says.
    pub at: Option<&'a str>,
    /// A word that names no file to be read; empty where the command has none.
    pub word: &'a str,
    pub numbers: CommandNumbers,
}

/// Why a line of words asks for nothing.
#[derive(Drop)]
pub enum CommandLineFault {
    /// An allocation failed.
    Memory,
    /// The command-line crate's own refusal, or its help.
    Usage(Error),
    /// A dialect is named that is not `objasm`.
    UnknownDialect,
    /// `asm` would write the image over its source.
    SourceReplaced,
    /// `import` is given several files and one without an address, or one without whose name has an `@`, or
    /// `--at` with several files or no number, or would write the image over a file that it reads.
    ImportParts,
    /// `visits` is given neither a number of visits nor a period, or both, or a number and FIQ's wait.
    VisitsOrPeriod,
    /// `respond` is given FIQ's statement without a period or beside bursts, or another option of FIQ's
    /// without the statement.
    FiqOptions,
    /// `explain` is given a certificate, and an option that has no effect beside it.
    OptionBesideCertificate,
}
