ghost use Rattle.std.specs.Prelude.{◌≡◌, ◌≢◌, IfErr, IfOk, OnOk, Some, None, map, option_map};
ghost use Rattle.std.specs.Prelude.{find, is_some, option_and_then, string_bytes};
ghost use Rattle.std.specs.List.{list_all, list_any};
ghost use Rattle.std.specs.Str.{bytes_eq};
ghost use Rattle.clap.specs.Matches.{found_of};
ghost use Rattle.clap.specs.Walk.{rows_of};
ghost use Rattle.clap.specs.Words.{kind_of, subcommand_rows_of};
ghost use Rattle.command_line.specs.Line.{are_fiq_options, asked_as, asked_by, asked_in, asks_version};
ghost use Rattle.command_line.specs.Line.{command_by, is_allowed, is_allowed_of, is_known};
ghost use Rattle.command_line.specs.Line.{are_parts, are_placed, has_at_sign, is_import, is_one, is_rate};
ghost use Rattle.command_line.specs.Line.{is_unplaced};
ghost use Rattle.command_line.specs.Line.{name_at, name_in, place_at, place_in};
ghost use Rattle.command_line.specs.Line.{names_file, no_numbers, number_at, numbers_in, plainly};
ghost use Rattle.command_line.specs.Line.{ticks_at, with_argument, with_value, with_value_by};
ghost use Rattle.command_line.specs.Rows.{argument_of, asked_of, usage_of};

use crate::command_rows::{ArgumentRow, COMMANDS, CommandRow, DIALECT, Form, PROGRESS, WHY};
use crate::commands::arcwcet;
use crate::line::{Command, CommandLineFault, CommandNumbers, Request};
use asm_text::read_number;
use clap::error::ErrorKind;
use clap::{ArgMatches, Error};
use std::alloc::{AllocError, Global};

// The number of an option or of an argument.
fn number_at(values: &ArgMatches<'_>, id: &str) -> Option<u32>
    ensures { result ≡ number_at id.now (rows_of (found_of values.now)) }
{
    values.get_one(id)
}

// The number of ticks of an option.
fn ticks_at(values: &ArgMatches<'_>, id: &str) -> Option<u64>
    ensures { result ≡ ticks_at id.now (rows_of (found_of values.now)) }
{
    values.get_one(id)
}

fn numbers_in(values: &ArgMatches<'_>) -> CommandNumbers
    ensures { result ≡ numbers_in (rows_of (found_of values.now)) }
{
    CommandNumbers {
        edge: number_at(values, "tight").unwrap_or(0),
        visits: number_at(values, "visits"),
        every: number_at(values, "every"),
        waited: ticks_at(values, "waited"),
        at_most: ticks_at(values, "at-most"),
        bursts: number_at(values, "bursts"),
        burst_every: number_at(values, "burst-every"),
        longest: ticks_at(values, "longest"),
        masked: ticks_at(values, "masked"),
        within: ticks_at(values, "within"),
        top: number_at(values, "top"),
        width: number_at(values, "width"),
        vectors: number_at(values, "vectors"),
        seed: number_at(values, "seed"),
    }
}

// Whether a word names a file, where it may be a label or an address too: these have neither sign.
fn names_file(word: &str) -> bool
    ensures { result ≡ names_file word.now }
{
    let bytes = word.as_bytes();
    bytes.iter().any(|byte| *byte == b'.' || *byte == b'/')
}

// The command that is asked for where an argument has a value.
fn command_by(row: &ArgumentRow, value: &str, command: Command) -> Command
    ensures { result ≡ command_by (argument_of row.now) value.now command }
{
    match row.form {
        Form::FileOrWord => {
            if names_file(value) {
                row.instead.unwrap_or(command)
            } else {
                command
            }
        }
        _ => row.instead.unwrap_or(command),
    }
}

// Adds a value that is a file's name or a word.
fn add_file_or_word<'a>(request: &mut Request<'a>, value: &'a str) -> Result<(), AllocError>
    ensures { OnOk result (asked_of request.new
        ≡ with_value_by Form.FileOrWord value.now (asked_of request.old)) }
{
    if names_file(value) {
        request.files.push(value)?;
    } else {
        request.word = value;
    }
    Ok(())
}

// Adds the file of FIQ's statement.
fn add_fiq_statement<'a>(request: &mut Request<'a>, name: &'a str) -> Result<(), AllocError>
    ensures { OnOk result (asked_of request.new
        ≡ with_value_by Form.FiqStatementOption name.now (asked_of request.old)) }
{
    request.fiq_statement = true;
    request.files.push(name)?;
    Ok(())
}

// Adds that of FIQ's source.
fn add_fiq_source<'a>(request: &mut Request<'a>, name: &'a str) -> Result<(), AllocError>
    ensures { OnOk result (asked_of request.new
        ≡ with_value_by Form.FiqSourceOption name.now (asked_of request.old)) }
{
    request.fiq_source = true;
    request.files.push(name)?;
    Ok(())
}

// The name of the file in a word and its address: in front of the first `@` and behind it; or all of it.
fn name_and_place(word: &str) -> (&str, Option<u32>)
    ensures name { result.0.now ≡ name_in word.now }
    ensures place { result.1 ≡ place_in word.now }
{
    match word.split_once('@') {
        Some((name, behind)) => match read_number(behind.as_bytes()) {
            Some(place) => (name, Some(place)),
            None => (word, None),
        },
        None => (word, None),
    }
}

// The same, where an option may say the address.
fn part_at<'a>(at: Option<&str>, word: &'a str) -> (&'a str, Option<u32>)
    ensures name { result.0.now ≡ name_at (option_map (λ s. s.now) at.entry) word.now }
    ensures place { result.1 ≡ place_at (option_map (λ s. s.now) at.entry) word.now }
{
    match at {
        Some(number) => (word, read_number(number.as_bytes())),
        None => name_and_place(word),
    }
}

// Adds a word that may be the last one; the one before it names a file, as it was not.
fn add_part<'a>(request: &mut Request<'a>, value: &'a str) -> Result<(), AllocError>
    ensures { OnOk result (asked_of request.new
        ≡ with_value_by Form.Parts value.now (asked_of request.old)) }
{
    let before = request.word;
    request.word = value;
    if before.is_empty() {
        return Ok(());
    }
    let (name, place) = part_at(request.at, before);
    request.files.push(name)?;
    request.places.push(place)?;
    Ok(())
}

// Adds to what is asked the value of an argument.
fn add_value<'a>(
    request: &mut Request<'a>,
    row: &ArgumentRow,
    value: &'a str,
) -> Result<(), AllocError>
    ensures { OnOk result (asked_of request.new
        ≡ with_value (argument_of row.now) value.now (asked_of request.old)) }
{
    request.command = command_by(row, value, request.command);
    match row.form {
        Form::File | Form::FileOption | Form::FilesOption => request.files.push(value)?,
        Form::FiqStatementOption => add_fiq_statement(request, value)?,
        Form::FiqSourceOption => add_fiq_source(request, value)?,
        Form::FileOrWord => add_file_or_word(request, value)?,
        Form::Word | Form::WordOption => request.word = value,
        Form::Parts => add_part(request, value)?,
        Form::AddressOption => request.at = Some(value),
        Form::ProfileOption => request.profile = Some(value),
        Form::DialectOption => request.dialect = Some(value),
        Form::Why => request.why = value == "true",
        Form::Progress => request.progress = value == "true",
        Form::Each => request.each = value == "true",
        Form::First => request.first = value == "true",
        Form::All => request.all = value == "true",
        Form::Path => request.path = value == "true",
        Form::Html => request.html = value == "true",
        Form::Json => request.json = value == "true",
        Form::OptionalNumber
        | Form::VectorCount
        | Form::NumberOption
        | Form::SeedOption
        | Form::TicksOption
        | Form::WidthOption => {}
    }
    Ok(())
}

// The same of each value of an argument, which may have none.
fn add_argument<'a>(
    request: &mut Request<'a>,
    row: &ArgumentRow,
    values: &ArgMatches<'a>,
) -> Result<(), AllocError>
    ensures { OnOk result (asked_of request.new
        ≡ with_argument (rows_of (found_of values.now)) (asked_of request.old) (argument_of row.now)) }
{
    let Some(given) = values.get_strs(row.id) else {
        return Ok(());
    };
    for value in given {
        add_value(request, row, value)?;
    }
    Ok(())
}

// What the command of a row is asked with.
fn asked<'a>(
    alloc: Global,
    row: &CommandRow,
    values: &ArgMatches<'a>,
) -> Result<Request<'a>, AllocError>
    ensures { IfOk result
        (λ q. asked_of q ≡ asked_as (usage_of row.now) (rows_of (found_of values.now))) }
{
    let mut request = Request {
        command: row.command,
        why: false,
        progress: false,
        each: false,
        first: false,
        all: false,
        fiq_statement: false,
        fiq_source: false,
        path: false,
        html: false,
        json: false,
        dialect: None,
        profile: None,
        files: Vec::new(alloc),
        places: Vec::new(alloc),
        at: None,
        word: "",
        numbers: numbers_in(values),
    };
    for argument in row.arguments {
        add_argument(&mut request, argument, values)?;
    }
    add_argument(&mut request, &WHY, values)?;
    add_argument(&mut request, &PROGRESS, values)?;
    add_argument(&mut request, &DIALECT, values)?;
    Ok(request)
}

// Whether a name is among others.
fn is_among(names: &[&str], word: &str) -> bool
    ensures { result ≡ list_any (λ name. bytes_eq name.now word.now) names.now }
{
    names.iter().any(|name| *name == word)
}

// Whether one of two numbers is given, and the other not.
fn is_one(first: Option<u32>, second: Option<u32>) -> bool
    ensures { result ≡ is_one first second }
{
    if first.is_none() {
        second.is_some()
    } else {
        second.is_none()
    }
}

// Whether how often FIQ comes is given once, and for how long it may have waited beside a period alone.
fn is_rate(numbers: CommandNumbers) -> bool
    ensures { result ≡ is_rate numbers }
{
    if !is_one(numbers.visits, numbers.every) {
        return false;
    }
    numbers.visits.is_none() || numbers.waited.is_none()
}

// Whether FIQ's statement has a period, and no bursts beside it; and without it there is nothing of FIQ.
fn are_fiq_options(request: &Request<'_>) -> bool
    ensures { result ≡ are_fiq_options (asked_of request.now) }
{
    let numbers = request.numbers;
    if request.fiq_statement {
        return numbers.every.is_some() && numbers.bursts.is_none() && numbers.burst_every.is_none();
    }
    !request.fiq_source && numbers.every.is_none() && numbers.waited.is_none()
}

// Whether each file has an address.
fn all_placed(places: &[Option<u32>]) -> bool
    ensures { result ≡ list_all (λ place. is_some place) places.now }
{
    places.iter().all(|place| place.is_some())
}

// The same, and where an option says it there is but one file.
fn are_placed(at: Option<&str>, places: &[Option<u32>]) -> bool
    ensures { result ≡ are_placed (option_map (λ s. s.now) at.entry) places.now }
{
    match places {
        [] => false,
        [place] => place.is_some(),
        _ => at.is_none() & all_placed(places),
    }
}

// Whether there is one file, and nothing says its address.
fn is_unplaced(at: Option<&str>, places: &[Option<u32>]) -> bool
    ensures { result ≡ is_unplaced (option_map (λ s. s.now) at.entry) places.now }
{
    match places {
        [place] => place.is_none() & at.is_none(),
        _ => false,
    }
}

fn has_at_sign(word: &str) -> bool
    ensures { result ≡ has_at_sign word.now }
{
    word.as_bytes().iter().any(|byte| *byte == b'@')
}

fn have_at_sign(names: &[&str]) -> bool
    ensures { result ≡ list_any (λ name. has_at_sign name.now) names.now }
{
    names.iter().any(|name| has_at_sign(name))
}

// Whether the files have addresses, or the one file is to say them; its name has no `@`.
fn are_parts(request: &Request<'_>) -> bool
    ensures { result ≡ are_parts (asked_of request.now) }
{
    let alone = is_unplaced(request.at, &request.places) & !have_at_sign(&request.files);
    are_placed(request.at, &request.places) | alone
}

// Whether an image is no file that is read, and its parts have addresses.
fn is_import(request: &Request<'_>) -> bool
    ensures { result ≡ is_import (asked_of request.now) }
{
    let over = is_among(&request.files, request.word);
    !over & are_parts(request)
}

// Whether a dialect is known, if one is named.
fn is_known(dialect: Option<&str>) -> bool
    ensures { result ≡ is_known (option_map (λ s. s.now) dialect.entry) }
{
    match dialect {
        Some(name) => name == "objasm",
        None => true,
    }
}

// Whether what is asked may be: a dialect that is named is known, the image of `asm` or `import` is no file
// that it reads, and the latter have addresses, `visits` has a number or a period, `respond` has all or
// nothing of FIQ, and no option that has no effect stands beside the certificate of a verdict.
fn is_allowed(request: &Request<'_>) -> bool
    ensures { result ≡ is_allowed (asked_of request.now) }
{
    is_known(request.dialect) && is_allowed_of(request)
}

fn is_allowed_of(request: &Request<'_>) -> bool
    ensures { result ≡ is_allowed_of request.now.command (asked_of request.now) }
{
    match request.command {
        Command::Asm => !is_among(&request.files, request.word),
        Command::Import => is_import(request),
        Command::Visits => is_rate(request.numbers),
        Command::Respond => are_fiq_options(request),
        Command::Verdict => {
            let numbers = request.numbers;
            !request.each
                && !request.first
                && !request.all
                && numbers.top.is_none()
                && numbers.width.is_none()
                && numbers.at_most.is_none()
                && numbers.bursts.is_none()
                && numbers.burst_every.is_none()
        }
        _ => true,
    }
}

fn first_row<'a>(rows: &'a [CommandRow], name: &str) -> Option<&'a CommandRow>
    ensures { option_map (λ row. row.now) result
        ≡ find (λ row. bytes_eq name.now row.name.now) rows.now }
{
    rows.iter().find(|row| name == row.name)
}

// The row of a command's name.
fn row_named<'a>(rows: &'a [CommandRow], name: &str) -> Option<&'a CommandRow>
    ensures { option_map (λ row. usage_of row.now) result
        ≡ find (λ usage. bytes_eq name.now usage.name) (map usage_of rows.now) }
{
    first_row(rows, name)
}

// What a command's name and its values ask for, if they may.
fn asked_by<'a>(
    alloc: Global,
    name: &str,
    values: &ArgMatches<'a>,
) -> Result<Option<Request<'a>>, AllocError>
    ensures { IfOk result
        (λ q. option_map asked_of q ≡ asked_by (name.now, rows_of (found_of values.now))) }
{
    let rows = &COMMANDS;
    let Some(row) = row_named(rows, name) else {
        return Ok(None);
    };
    let request = asked(alloc, row, values)?;
    if is_allowed(&request) {
        Ok(Some(request))
    } else {
        Ok(None)
    }
}

// What the matches ask for.
fn request_in<'a>(
    alloc: Global,
    matches: &ArgMatches<'a>,
) -> Result<Option<Request<'a>>, AllocError>
    ensures { IfOk result
        (λ q. option_map asked_of q ≡ option_and_then asked_by (subcommand_rows_of matches.now)) }
{
    match matches.subcommand() {
        Some((name, values)) => asked_by(alloc, name, values),
        None => Ok(None),
    }
}

fn line_fault(error: Error) -> CommandLineFault
    ensures { result ≢ CommandLineFault.Memory → kind_of error ≢ ErrorKind.OutOfMemory }
{
    if error.kind() == ErrorKind::OutOfMemory {
        CommandLineFault::Memory
    } else {
        CommandLineFault::Usage(error)
    }
}

// Whether a dialect is named that is not known.
fn names_another(values: &ArgMatches<'_>) -> bool {
    match values.get_strs("dialect") {
        Some(names) => names.iter().any(|name| *name != "objasm"),
        None => false,
    }
}

// Why words that the command-line crate takes ask for nothing.
fn unasked(matches: &ArgMatches<'_>) -> CommandLineFault {
    match matches.subcommand() {
        Some((_, values)) if names_another(values) => CommandLineFault::UnknownDialect,
        Some(("explain", _)) => CommandLineFault::OptionBesideCertificate,
        Some(("import", _)) => CommandLineFault::ImportParts,
        Some(("visits", _)) => CommandLineFault::VisitsOrPeriod,
        Some(("respond", _)) => CommandLineFault::FiqOptions,
        _ => CommandLineFault::SourceReplaced,
    }
}

// Whether the words ask for the program's version.
fn asks_version(words: &[String]) -> bool
    ensures { result ≡ asks_version (map (λ s. string_bytes s) words.now) }
{
    match words {
        [_, word] => {
            let word = word.as_str();
            word == "--version" || word == "-V"
        }
        _ => false,
    }
}

fn version<'a>(alloc: Global) -> Request<'a>
    ensures { asked_of result ≡ plainly Command.Version no_numbers }
{
    Request {
        command: Command::Version,
        why: false,
        progress: false,
        each: false,
        first: false,
        all: false,
        fiq_statement: false,
        fiq_source: false,
        path: false,
        html: false,
        json: false,
        dialect: None,
        profile: None,
        files: Vec::new(alloc),
        places: Vec::new(alloc),
        at: None,
        word: "",
        numbers: CommandNumbers {
            edge: 0,
            visits: None,
            every: None,
            waited: None,
            at_most: None,
            bursts: None,
            burst_every: None,
            longest: None,
            masked: None,
            within: None,
            top: None,
            width: None,
            vectors: None,
            seed: None,
        },
    }
}

/// What the words ask for, the program's name first.
///
/// # Errors
///
/// Where the words ask for nothing: `Usage` with the command-line crate's own refusal, or its help;
/// `SourceReplaced` where `asm` would write the image over its source; `ImportParts` where one of several
/// files of `import` has no address, or one file none and its name an `@`, or `--at` has several or is no
/// number, or it would write over one; `VisitsOrPeriod` where `visits` has neither a number of visits nor a
/// period, or both, or FIQ's wait beside a number; `FiqOptions` where `respond` has FIQ's statement without a
/// period or beside bursts, or else an option of FIQ's; `OptionBesideCertificate` where `explain` has a
/// certificate and an option for explanations. `Memory`: an allocation failed.
pub fn request<'a>(alloc: Global, words: &'a [String]) -> Result<Request<'a>, CommandLineFault>
    ensures read { IfOk result (λ q. asked_in words.entry.now ≡ Some (asked_of q)) }
    ensures refused { IfErr result
        (λ e. e ≢ CommandLineFault.Memory → asked_in words.entry.now ≡ None) }
{
    if asks_version(words) {
        return Ok(version(alloc));
    }
    let command = match arcwcet(alloc) {
        Ok(command) => command,
        Err(_) => return Err(CommandLineFault::Memory),
    };
    match command.try_get_matches_from(words) {
        Ok(matches) => match request_in(alloc, &matches) {
            Ok(Some(asked)) => Ok(asked),
            Ok(None) => Err(unasked(&matches)),
            Err(_) => Err(CommandLineFault::Memory),
        },
        Err(error) => Err(line_fault(error)),
    }
}
