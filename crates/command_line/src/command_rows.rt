//! The program's commands and their arguments, a row for each.

use crate::line::Command;

/// The program's version, which `--version` prints.
pub const VERSION: &str = "1.0.0";

/// How an argument is given, and what it is.
pub(crate) enum Form {
    /// The name of a file to be read, in its place.
    File,
    /// A word that names no file to be read, in its place.
    Word,
    /// In its place, the name of a file to be read, where it has a `.` or a `/`, else a word that names none.
    FileOrWord,
    /// A whole number of 32 bits, in its place, if it is given.
    OptionalNumber,
    /// The name of the cycle profile's file, by an option.
    ProfileOption,
    /// The name of a file to be read, by an option.
    FileOption,
    /// The name of the file of FIQ's statement, by an option.
    FiqStatementOption,
    /// The name of the file of FIQ's source, by an option.
    FiqSourceOption,
    /// The names of files to be read, by an option that may be given again.
    FilesOption,
    /// A word that names no file to be read, by an option.
    WordOption,
    /// In their places, files of code with their addresses, and last a word that names no file to be read.
    Parts,
    /// The address of one such file, by an option.
    AddressOption,
    /// How many vectors are printed, from 1 to 1,000,000, in its place.
    VectorCount,
    /// A whole number of 32 bits, by an option.
    NumberOption,
    /// A whole number of 32 bits, by an option that has to be given.
    SeedOption,
    /// A number of ticks, to 2^63 - 1, by an option.
    TicksOption,
    /// The last column of a row, from 80 to 250, by an option.
    WidthOption,
    /// The name of what sources are written in, by an option.
    DialectOption,
    /// The option that asks for what shows the reason of a refusal.
    Why,
    /// The option that asks for lines on what is being done.
    Progress,
    /// The option that asks for the bound of each destination alone.
    Each,
    /// The option that asks for first starts.
    First,
    /// The option that asks for all: each row of a table, or that each entry follows.
    All,
    /// The option that asks for the longest run's path alone.
    Path,
    /// The option that asks for a page of HTML.
    Html,
    /// The option that asks for lines of JSON.
    Json,
}

/// An argument, what the help says of it, and what is asked for instead where it is given, if that is another
/// command than its row's; of a [`Form::FileOrWord`] where it names a file.
pub(crate) struct ArgumentRow {
    pub id: &'static str,
    pub form: Form,
    pub help: &'static str,
    pub instead: Option<Command>,
}

/// A command: its name, what it asks for, what the help says of it, and its arguments, with the files in the
/// order in which they are read: an option's too, so that `--fiq` stands before the machine file. Each
/// command has [`DIALECT`], [`WHY`] and [`PROGRESS`] too.
pub(crate) struct CommandRow {
    pub name: &'static str,
    pub command: Command,
    pub summary: &'static str,
    pub arguments: &'static [ArgumentRow],
}

/// An option that each command has.
pub(crate) const WHY: ArgumentRow = ArgumentRow {
    id: "why",
    form: Form::Why,
    help: "Print after a refusal what shows its reason",
    instead: None,
};

/// The second.
pub(crate) const PROGRESS: ArgumentRow = ArgumentRow {
    id: "progress",
    form: Form::Progress,
    help: "Print on standard error what is being done",
    instead: None,
};

/// The third.
pub(crate) const DIALECT: ArgumentRow = ArgumentRow {
    id: "dialect",
    form: Form::DialectOption,
    help: "What sources are written in: objasm [default: what their first lines say]",
    instead: None,
};

const PROFILE: ArgumentRow = ArgumentRow {
    id: "profile",
    form: Form::ProfileOption,
    help: "Cycle profile file [default: the first profile]",
    instead: None,
};

const SOURCE: ArgumentRow = ArgumentRow {
    id: "source",
    form: Form::File,
    help: "Assembly source, or an image",
    instead: None,
};

const MACHINE: ArgumentRow = ArgumentRow {
    id: "machine",
    form: Form::File,
    help: "Machine file",
    instead: None,
};

const RUN_TO: ArgumentRow = ArgumentRow {
    id: "to",
    form: Form::WordOption,
    help: "End before the instruction at LABEL, a label or an address, if the run comes there",
    instead: Some(Command::RunTo),
};

const TRACE_TO: ArgumentRow = ArgumentRow {
    id: "to",
    form: Form::WordOption,
    help: "End before the instruction at LABEL, a label or an address, if the run comes there",
    instead: Some(Command::TraceTo),
};

const JSON: ArgumentRow = ArgumentRow {
    id: "json",
    form: Form::Json,
    help: "Print each step, and the end, as a line of JSON",
    instead: None,
};

const STATEMENT: ArgumentRow = ArgumentRow {
    id: "statement",
    form: Form::File,
    help: "Statement on the handler",
    instead: None,
};

const AT: ArgumentRow = ArgumentRow {
    id: "at",
    form: Form::AddressOption,
    help: "The address of the first word of CODE: decimal, or hexadecimal after 0x",
    instead: None,
};

const PARTS: ArgumentRow = ArgumentRow {
    id: "parts",
    form: Form::Parts,
    help: "Files of code, each with its address, or one ELF file; and last the image, to be written",
    instead: None,
};

const IMAGE: ArgumentRow = ArgumentRow {
    id: "image",
    form: Form::Word,
    help: "File of the image, to be written",
    instead: None,
};

const ENTRY: ArgumentRow = ArgumentRow {
    id: "entry",
    form: Form::FileOrWord,
    help: "Where the handler begins: a label or an address; or the file of its statement, if it is begun",
    instead: Some(Command::DraftOn),
};

const LABEL: ArgumentRow = ArgumentRow {
    id: "label",
    form: Form::Word,
    help: "Where it responds: a label or an address",
    instead: None,
};

const LONGEST: ArgumentRow = ArgumentRow {
    id: "longest",
    form: Form::TicksOption,
    help: "The most ticks of the step in progress [default: those of any program's longest step]",
    instead: None,
};

const MASKED: ArgumentRow = ArgumentRow {
    id: "masked",
    form: Form::TicksOption,
    help: "For how many ticks the interrupt is held back [default: 0]",
    instead: None,
};

const MASKED_BY: ArgumentRow = ArgumentRow {
    id: "masked-by",
    form: Form::FilesOption,
    help: "Statement on a stretch of code that holds the interrupt back too; may be given again",
    instead: None,
};

const RESPONSE_BURSTS: ArgumentRow = ArgumentRow {
    id: "bursts",
    form: Form::NumberOption,
    help: "Print the response with N DMA bursts too",
    instead: None,
};

const RESPONSE_BURST_EVERY: ArgumentRow = ArgumentRow {
    id: "burst-every",
    form: Form::NumberOption,
    help: "Print the response with a DMA burst every N ticks too",
    instead: None,
};

const WITHIN: ArgumentRow = ArgumentRow {
    id: "within",
    form: Form::TicksOption,
    help: "Status 1 where the greatest time that is printed is more than N ticks",
    instead: None,
};

const TIGHT: ArgumentRow = ArgumentRow {
    id: "tight",
    form: Form::NumberOption,
    help: "Print a machine file that takes the graph's edge N at its price",
    instead: Some(Command::Tight),
};

const AT_MOST: ArgumentRow = ArgumentRow {
    id: "at-most",
    form: Form::TicksOption,
    help: "Status 1 where the bound, without bursts, is more than N ticks",
    instead: None,
};

const BURSTS: ArgumentRow = ArgumentRow {
    id: "bursts",
    form: Form::NumberOption,
    help: "Print the bound with N DMA bursts too",
    instead: None,
};

const BURST_EVERY: ArgumentRow = ArgumentRow {
    id: "burst-every",
    form: Form::NumberOption,
    help: "Print the bound with a DMA burst every N ticks too",
    instead: None,
};

const EACH: ArgumentRow = ArgumentRow {
    id: "each",
    form: Form::Each,
    help: "Print the bound for each destination of each target alone too",
    instead: None,
};

const FIRST: ArgumentRow = ArgumentRow {
    id: "first",
    form: Form::First,
    help: "Print by which tick each word begins for the first time too, which takes longer",
    instead: None,
};

const ALL: ArgumentRow = ArgumentRow {
    id: "all",
    form: Form::All,
    help: "Print each row, also of lines off the path and never reached",
    instead: None,
};

const TOP: ArgumentRow = ArgumentRow {
    id: "top",
    form: Form::NumberOption,
    help: "Print the N rows with the most ticks alone, the dearest first",
    instead: None,
};

const WIDTH: ArgumentRow = ArgumentRow {
    id: "width",
    form: Form::WidthOption,
    help: "Cut rows past column N, from 80 to 250 [default: 80]",
    instead: None,
};

const GIVEN: ArgumentRow = ArgumentRow {
    id: "given",
    form: Form::FileOption,
    help: "Facts on registers at the handler's entry, which are taken for granted",
    instead: None,
};

const ALL_FOLLOW: ArgumentRow = ArgumentRow {
    id: "all",
    form: Form::All,
    help: "Status 1 where a class or a loop's bound is on trust",
    instead: None,
};

const PATH: ArgumentRow = ArgumentRow {
    id: "path",
    form: Form::Path,
    help: "Draw what the longest run takes alone",
    instead: None,
};

const HTML: ArgumentRow = ArgumentRow {
    id: "html",
    form: Form::Html,
    help: "Print instead a page of HTML: the listing with ticks and bars",
    instead: None,
};

const CERTIFICATE: ArgumentRow = ArgumentRow {
    id: "certificate",
    form: Form::FileOption,
    help: "Print instead the verdict on this certificate, and what fails in it",
    instead: Some(Command::Verdict),
};

const CERT: ArgumentRow = ArgumentRow {
    id: "cert",
    form: Form::File,
    help: "Certificate",
    instead: None,
};

const FIQ_STATEMENT: ArgumentRow = ArgumentRow {
    id: "fiq_statement",
    form: Form::File,
    help: "Statement on FIQ's handler",
    instead: None,
};

const FIQ: ArgumentRow = ArgumentRow {
    id: "fiq",
    form: Form::FileOption,
    help: "Statement on FIQ's handler, whose visits of the handler are judged too",
    instead: Some(Command::FollowVisits),
};

const VISITS: ArgumentRow = ArgumentRow {
    id: "visits",
    form: Form::OptionalNumber,
    help: "How often FIQ interrupts it, at most; or give --every",
    instead: None,
};

const EVERY: ArgumentRow = ArgumentRow {
    id: "every",
    form: Form::NumberOption,
    help: "FIQ is asked for once in N ticks, at most",
    instead: None,
};

const FIQ_SOURCE: ArgumentRow = ArgumentRow {
    id: "fiq-source",
    form: Form::FileOption,
    help: "Source of FIQ's handler, where it is another one",
    instead: None,
};

const WAITED: ArgumentRow = ArgumentRow {
    id: "waited",
    form: Form::TicksOption,
    help: "For how many ticks FIQ may have waited, with --every [default: as IRQ's taking lasts]",
    instead: None,
};

const RESPONSE_FIQ_STATEMENT: ArgumentRow = ArgumentRow {
    id: "fiq-statement",
    form: Form::FiqStatementOption,
    help: "Statement on FIQ's handler: print the response of IRQ's with its visits too; give --every",
    instead: None,
};

const RESPONSE_FIQ_SOURCE: ArgumentRow = ArgumentRow {
    id: "fiq-source",
    form: Form::FiqSourceOption,
    help: "Source of FIQ's handler, where it is another one",
    instead: None,
};

const RESPONSE_EVERY: ArgumentRow = ArgumentRow {
    id: "every",
    form: Form::NumberOption,
    help: "FIQ is asked for once in N ticks, at most",
    instead: None,
};

const RESPONSE_WAITED: ArgumentRow = ArgumentRow {
    id: "waited",
    form: Form::TicksOption,
    help: "For how many ticks FIQ may have waited [default: 0, or all while IRQ is held back]",
    instead: None,
};

const VECTOR_COUNT: ArgumentRow = ArgumentRow {
    id: "vectors",
    form: Form::VectorCount,
    help: "How many vectors, from 1 to 1000000",
    instead: None,
};

const SEED: ArgumentRow = ArgumentRow {
    id: "seed",
    form: Form::SeedOption,
    help: "What they are drawn from: the same seed gives the same vectors",
    instead: None,
};

/// The commands, in the order of the help.
pub(crate) const COMMANDS: [CommandRow; 17] = [
    CommandRow {
        name: "asm",
        command: Command::Asm,
        summary: "Write a source's image, and print its size",
        arguments: &[SOURCE, IMAGE],
    },
    CommandRow {
        name: "import",
        command: Command::Import,
        summary: "Write the image of code that another tool has made, and print its size",
        arguments: &[AT, PARTS],
    },
    CommandRow {
        name: "list",
        command: Command::List,
        summary: "Print addresses, words and lines of a source, or an image's words",
        arguments: &[SOURCE],
    },
    CommandRow {
        name: "plain",
        command: Command::Plain,
        summary: "Print a source in ObjAsm's dialect as one in arcwcet's grammar",
        arguments: &[SOURCE],
    },
    CommandRow {
        name: "draft",
        command: Command::Draft,
        summary: "Print a statement on a handler, to be filled in",
        arguments: &[SOURCE, ENTRY],
    },
    CommandRow {
        name: "run",
        command: Command::Run,
        summary: "Run a machine, and print its registers and ticks",
        arguments: &[PROFILE, SOURCE, MACHINE, RUN_TO],
    },
    CommandRow {
        name: "trace",
        command: Command::Trace,
        summary: "Run a machine, and print a line for each step",
        arguments: &[PROFILE, SOURCE, MACHINE, TRACE_TO, JSON],
    },
    CommandRow {
        name: "debug",
        command: Command::Debug,
        summary: "Obey the debugger's commands on standard input",
        arguments: &[PROFILE, SOURCE, MACHINE],
    },
    CommandRow {
        name: "vectors",
        command: Command::Vectors,
        summary: "Print tests of single instructions for emulators, as JSON",
        arguments: &[VECTOR_COUNT, SEED],
    },
    CommandRow {
        name: "bound",
        command: Command::Bound,
        summary: "Print the greatest run time of a handler, as a certificate",
        arguments: &[PROFILE, SOURCE, STATEMENT, TIGHT],
    },
    CommandRow {
        name: "check",
        command: Command::Check,
        summary: "Judge a certificate of a handler's run time",
        arguments: &[PROFILE, SOURCE, STATEMENT, CERT],
    },
    CommandRow {
        name: "visits",
        command: Command::Visits,
        summary: "Print the greatest run time of a handler that FIQ interrupts",
        arguments: &[
            PROFILE,
            SOURCE,
            STATEMENT,
            FIQ_STATEMENT,
            VISITS,
            EVERY,
            FIQ_SOURCE,
            WAITED,
        ],
    },
    CommandRow {
        name: "respond",
        command: Command::Respond,
        summary: "Print how long after an interrupt its handler's step at a label ends",
        arguments: &[
            PROFILE,
            SOURCE,
            STATEMENT,
            LABEL,
            LONGEST,
            MASKED,
            RESPONSE_FIQ_STATEMENT,
            RESPONSE_FIQ_SOURCE,
            MASKED_BY,
            RESPONSE_BURSTS,
            RESPONSE_BURST_EVERY,
            RESPONSE_EVERY,
            RESPONSE_WAITED,
            WITHIN,
        ],
    },
    CommandRow {
        name: "explain",
        command: Command::Explain,
        summary: "Print where the ticks of a handler's greatest run time go",
        arguments: &[
            PROFILE,
            SOURCE,
            STATEMENT,
            AT_MOST,
            BURSTS,
            BURST_EVERY,
            EACH,
            FIRST,
            ALL,
            TOP,
            WIDTH,
            CERTIFICATE,
        ],
    },
    CommandRow {
        name: "justify",
        command: Command::Justify,
        summary: "Print which entries of a statement follow from the handler's code",
        arguments: &[PROFILE, SOURCE, STATEMENT, GIVEN, ALL_FOLLOW],
    },
    CommandRow {
        name: "follow",
        command: Command::Follow,
        summary: "Judge a machine's run through a handler by its statement",
        arguments: &[PROFILE, SOURCE, STATEMENT, FIQ, MACHINE],
    },
    CommandRow {
        name: "graph",
        command: Command::Graph,
        summary: "Print a handler's flow graph in DOT, the language of Graphviz",
        arguments: &[PROFILE, SOURCE, STATEMENT, PATH, HTML],
    },
];
