ghost use Rattle.std.specs.Prelude.{◌≡◌, ◌≤◌, ◌⊎◌, [], drop, is_some, length, map, option_map};
ghost use Rattle.std.specs.Prelude.{slice_index_or, vec_capacity, vec_len};
ghost use Rattle.std.specs.Prelude.{Result, IfErr, IfOk, IfSome, OnOk};
ghost use Rattle.std.specs.Io.KnownBytes.{Consumes, IsAtEnd};
ghost use Rattle.std.specs.IoError.{error_kind};
ghost use Rattle.std.specs.List.{cons_option};
ghost use Rattle.command_line.specs.Rows.{asked_of};
ghost use Rattle.arcwcet.specs.Files.{FailsToRead, Reading, ReadsAll, StopsReading, Writing};
ghost use Rattle.arcwcet.specs.Files.{dialect_of, names_of, source_at};
ghost use Rattle.sources.specs.File.{file_of};
ghost use Rattle.arcwcet.specs.Kept.{inputs_kept, inputs_lent, kept_of};
ghost use Rattle.arcwcet.specs.FileFaults.{file_fault_of};
ghost use Rattle.arcwcet.specs.Store.{bytes_read};
ghost use Rattle.arcwcet.specs.declared.fault.StoreFault.{StoreFault};

use crate::fault::{FileFault, StoreFault};
use crate::input::{Input, StreamInput};
use command_line::Request;
use sources::{Dialect, SourceFile};
use std::alloc::Global;
use std::io::{ErrorKind, Read, Write};
use std::rt::Files;
use std::{fs, io};

/// Where the program's files lie.
pub trait Store {
    /// What a read of a name may return, and the store after it; the default says nothing.
    ghost read_gives: { Reading Self } = { λ _ _ _ _. Unit {0} };

    /// The file's bytes, of which there are at most [`MOST_INPUT_BYTES`].
    ///
    /// # Errors
    ///
    /// `InputTooLong`: the file has more than that. `Device`: it could not be opened or read. `Memory`: an
    /// allocation failed.
    fn read(&mut self, alloc: Global, name: &str) -> Result<Vec<u8>, StoreFault>
        ensures gives { read_gives self.old name.now (bytes_read result) self.new }
        ensures limit { IfOk result (λ v. vec_len v ≤ MOST_INPUT_BYTES) };

    /// What a write of bytes to a name may return, and the store after it; the default says nothing.
    ghost write_gives: { Writing Self } = { λ _ _ _ _ _. Unit {0} };

    /// Makes the bytes the file's.
    ///
    /// # Errors
    ///
    /// The only refusal is `Device`: the file could not be opened or written.
    fn write(&mut self, name: &str, bytes: &[u8]) -> Result<(), StoreFault>
        ensures gives { write_gives self.old name.now bytes.now result self.new }
        ensures device { IfErr result (λ e. e ≡ StoreFault.Device) };

    /// Why the file cannot be read, as far as the store can tell: for a message, after a read that was
    /// refused with `Device`. No contract says what it answers, since files may change meanwhile.
    fn file_fault(&self, _name: &str) -> FileFault {
        FileFault::Other
    }
}

/// The files of the system.
#[derive(Drop)]
pub struct HostStore<'a, R: Files> {
    rt: &'a R,
}

impl<'a, R: Files> HostStore<'a, R> {
    /// The files that a runtime reaches.
    pub fn new(rt: &'a R) -> Self {
        HostStore { rt }
    }
}

impl<R: Files> Store for HostStore<'_, R> {
    fn read(&mut self, alloc: Global, name: &str) -> Result<Vec<u8>, StoreFault> {
        match fs::open(self.rt, name) {
            Ok(file) => read_limited(alloc, &mut StreamInput::new(file)),
            Err(_) => Err(StoreFault::Device),
        }
    }

    fn write(&mut self, name: &str, bytes: &[u8]) -> Result<(), StoreFault> {
        let Ok(mut file) = fs::create(self.rt, name) else {
            return Err(StoreFault::Device);
        };
        match file.write_all(bytes) {
            Ok(()) => Ok(()),
            Err(_) => {
                remove_part(self.rt, name);
                Err(StoreFault::Device)
            }
        }
    }

    fn file_fault(&self, name: &str) -> FileFault {
        match read_byte(self.rt, name) {
            Ok(()) => FileFault::Other,
            Err(error) => file_fault_of(error),
        }
    }
}

// Reads the first byte of a file. A directory can be opened, and not read.
fn read_byte<R: Files>(rt: &R, name: &str) -> io::Result<()> {
    let mut file = fs::open(rt, name)?;
    let mut byte = [0u8; 1];
    file.read(&mut byte)?;
    Ok(())
}

fn file_fault_of(error: io::Error) -> FileFault
    ensures { result ≡ file_fault_of (error_kind error) }
{
    match error.kind() {
        ErrorKind::NotFound => FileFault::NotFound,
        ErrorKind::PermissionDenied => FileFault::PermissionDenied,
        ErrorKind::IsADirectory => FileFault::IsADirectory,
        _ => FileFault::Other,
    }
}

// Removes a file of which only a part was written, but nothing that is no file, as a device. If it cannot be
// removed, the part stays: the failure to write is what is answered.
fn remove_part<R: Files>(rt: &R, name: &str) {
    if let Ok(metadata) = fs::symlink_metadata(rt, name) {
        if metadata.is_file() {
            let _ = fs::remove_file(rt, name);
        }
    }
}

/// How many bytes an input has at most, a file or what standard input has left.
pub const MOST_INPUT_BYTES: usize = 16_777_216;

// How many bytes are asked for at once.
const CHUNK: usize = 4096;

/// What an input has left, to its end.
///
/// # Errors
///
/// `InputTooLong`: more than 16,777,216 bytes are left, of which 16,777,217 were then read. `Device`: a read
/// failed, after at most 16,777,216 bytes. `Memory`: an allocation failed, after at most 16,777,217.
pub fn read_limited<I: Input>(alloc: Global, input: &mut I) -> Result<Vec<u8>, StoreFault>
    ensures limit { IfOk result (λ v. vec_len v ≤ MOST_INPUT_BYTES) }
    ensures consumed { IfOk result (λ v. Consumes (I.remaining input.old) (I.remaining input.new) v.items) }
    ensures at_end { OnOk result (IsAtEnd (I.remaining input.new)) }
    ensures whole { IfOk result (λ v. IfSome (I.remaining input.old) (λ xs. v.items ≡ xs)) }
    ensures quiet { OnOk result (I.failures input.new ≡ I.failures input.old) }
    ensures stops { IfErr result (λ e. StopsReading e (I.remaining input.old) (I.remaining input.new)
        (I.failures input.old) (I.failures input.new)) }
{
    let mut bytes = Vec::new(alloc);
    let mut chunk = [0u8; CHUNK];
    while bytes.len() <= MOST_INPUT_BYTES {
        let want = (MOST_INPUT_BYTES + 1 - bytes.len()).min(CHUNK);
        let part = &mut chunk[..want];
        let n = match input.read(part) {
            Ok(n) => n,
            Err(_) => return Err(StoreFault::Device),
        };
        if n == 0 {
            return Ok(bytes);
        }
        if bytes.extend_from_slice(&part[..n]).is_err() {
            return Err(StoreFault::Memory);
        }
    }
    Err(StoreFault::InputTooLong)
}

/// The bytes of the files that a command read.
#[derive(Drop)]
pub(crate) struct ReadFiles {
    profile: Option<Vec<u8>>,
    others: Vec<Vec<u8>>,
}

/// The same, lent: those of a cycle profile's file, where one is named, and of the others in their order, of
/// which those that the command does not have are empty.
#[derive(Clone, Copy)]
pub(crate) struct Inputs<'a> {
    pub(crate) profile: Option<&'a [u8]>,
    /// The first.
    pub(crate) source: SourceFile<'a>,
    pub(crate) second: &'a [u8],
    pub(crate) third: &'a [u8],
    pub(crate) fourth: &'a [u8],
    /// The fourth as a source, FIQ's own.
    pub(crate) fiq_source: SourceFile<'a>,
    /// All behind the first two.
    pub(crate) rest: &'a [Vec<u8>],
}

/// What sources are written in, where the words name it.
pub(crate) fn dialect_of(name: Option<&str>) -> Dialect
    ensures { result ≡ dialect_of (option_map (λ n. n.now) name.entry) }
{
    match name {
        Some(_) => Dialect::Objasm,
        None => Dialect::Plain,
    }
}

// The bytes of the file in a place, from 0.
fn bytes_at(files: &[Vec<u8>], place: usize) -> &[u8]
    ensures { result.now ≡ slice_index_or (map (λ v. v.items) files.now) place [] }
{
    match files.get(place) {
        Some(bytes) => bytes,
        None => &[],
    }
}

// The file in a place, from 0, as a source.
fn source_at(files: &[Vec<u8>], dialect: Dialect, place: usize) -> SourceFile<'_>
    ensures { file_of result ≡ source_at dialect (map (λ v. v.items) files.now) place }
{
    SourceFile {
        dialect,
        bytes: bytes_at(files, place),
    }
}

/// The files behind the first one.
pub(crate) fn behind_one(files: &[Vec<u8>]) -> &[Vec<u8>]
    ensures { map (λ v. v.items) result.now ≡ drop 1 (map (λ v. v.items) files.now) }
{
    match files {
        [_, rest @ ..] => rest,
        _ => &[],
    }
}

/// Those behind the first two.
pub(crate) fn behind_two(files: &[Vec<u8>]) -> &[Vec<u8>]
    ensures { map (λ v. v.items) result.now ≡ drop 2 (map (λ v. v.items) files.now) }
{
    match files {
        [_, _, rest @ ..] => rest,
        _ => &[],
    }
}

impl ReadFiles {
    fn profile(&self) -> Option<&[u8]>
        ensures { option_map (λ f. f.now) result ≡ option_map (λ v. v.items) self.now.profile }
    {
        match &self.profile {
            Some(bytes) => Some(bytes),
            None => None,
        }
    }

    /// The bytes of the files but for a cycle profile's, in their order.
    pub(crate) fn others(&self) -> &[Vec<u8>]
        ensures { map (λ v. v.items) result.now ≡ map (λ v. v.items) self.now.others.items }
    {
        &self.others
    }

    /// The bytes of the files, of which the sources are written in the dialect.
    pub(crate) fn inputs(&self, dialect: Dialect) -> Inputs<'_>
        ensures { inputs_lent result ≡ inputs_kept dialect self.now }
    {
        let others = self.others.as_slice();
        Inputs {
            profile: self.profile(),
            source: source_at(others, dialect, 0),
            second: bytes_at(others, 1),
            third: bytes_at(others, 2),
            fourth: bytes_at(others, 3),
            fiq_source: source_at(others, dialect, 3),
            rest: behind_two(others),
        }
    }
}

/// A file that was not read.
#[derive(Clone, Copy)]
pub(crate) struct Unread<'a> {
    pub(crate) name: &'a str,
    pub(crate) fault: StoreFault,
}

fn read_named<'a, S: Store>(
    alloc: Global,
    name: &'a str,
    store: &mut S,
) -> Result<Vec<u8>, Unread<'a>>
    ensures read { IfOk result (λ v. S.read_gives store.old name.now (Ok v.items) store.new) }
    ensures fault { IfErr result (λ u. S.read_gives store.old name.now (Err u.fault) store.new) }
    ensures name { IfErr result (λ u. u.name.now ≡ name.now) }
{
    match store.read(alloc, name) {
        Ok(bytes) => Ok(bytes),
        Err(fault) => Err(Unread { name, fault }),
    }
}

fn read_if_named<'a, S: Store>(
    alloc: Global,
    name: Option<&'a str>,
    store: &mut S,
) -> Result<Option<Vec<u8>>, Unread<'a>>
    ensures named { IfOk result (λ f. is_some f ≡ is_some name.entry) }
    ensures read { IfOk result
        (λ f. ReadsAll S.read_gives store.old (cons_option (option_map (λ n. n.now) name.entry) [])
        (cons_option (option_map (λ v. v.items) f) []) store.new) }
    ensures fault { IfErr result
        (λ u. FailsToRead S.read_gives store.old
        (cons_option (option_map (λ n. n.now) name.entry) []) u.fault store.new) }
{
    match name {
        Some(name) => Ok(Some(read_named(alloc, name, store)?)),
        None => Ok(None),
    }
}

// Reads files one after another into an empty list with room for as many.
fn read_each<'a, S: Store>(
    alloc: Global,
    names: &[&'a str],
    empty: Vec<Vec<u8>>,
    store: &mut S,
) -> Result<Vec<Vec<u8>>, Unread<'a>>
    requires empty { empty.items ≡ [] }
    requires room { length names.now ≤ vec_capacity empty }
    ensures read { IfOk result (λ files. ReadsAll S.read_gives store.old (map (λ n. n.now) names.now)
        (map (λ v. v.items) files.items) store.new) }
    ensures fault { IfErr result
        (λ u. FailsToRead S.read_gives store.old (map (λ n. n.now) names.now) u.fault store.new) }
{
    let mut files = empty;
    for name in names {
        let bytes = read_named(alloc, name, store)?;
        let _ = files.push(bytes);
    }
    Ok(files)
}

/// Reads the profile's file first, and then the others, and says which was not read. Where there is no memory
/// for a list of them it reads none.
pub(crate) fn read_files<'a, S: Store>(
    alloc: Global,
    request: &Request<'a>,
    store: &mut S,
) -> Result<ReadFiles, Unread<'a>>
    ensures named { IfOk result (λ f. is_some f.profile ≡ is_some request.now.profile) }
    ensures read { IfOk result
        (λ f. ReadsAll S.read_gives store.old (names_of (asked_of request.now)) (kept_of f) store.new) }
    ensures fault { IfErr result
        (λ u. FailsToRead S.read_gives store.old (names_of (asked_of request.now)) u.fault store.new
        ⊎ ((u.fault ≡ StoreFault.Memory) × (store.new ≡ store.old))) }
{
    let Ok(empty) = Vec::with_capacity(alloc, request.files.len()) else {
        return Err(Unread {
            name: "",
            fault: StoreFault::Memory,
        });
    };
    let profile = read_if_named(alloc, request.profile, store)?;
    let others = read_each(alloc, &request.files, empty, store)?;
    Ok(ReadFiles { profile, others })
}
