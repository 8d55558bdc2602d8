//! Where a text comes from.

ghost use Rattle.std.specs.Prelude.{◌≡◌, ◌↔◌, take, IfOk, IfSome, List, Option, Result, ℕ};
ghost use Rattle.std.specs.IoError.{error_kind};
ghost use Rattle.id_sink.specs.Reading.{IsFrontOf, IsRead, IsReadOf, IsTextOf, fault_for, told_text};

use id_text::MAX_BYTES;
use std::alloc::Global;
use std::fs::File;
use std::io;
use std::io::{ErrorKind, Read};
use std::rt::Files;

/// Why a source has no text of a name.
#[derive(Clone, Copy)]
pub enum SourceFault {
    /// There are more than 1,048,576 bytes.
    TooLong,
    /// It can't be read, or isn't UTF-8.
    File,
    /// A growth was refused.
    Memory,
}

/// Something that has texts under names.
pub trait Source {
    ghost use Rattle.id_sink.specs.declared.source.SourceFault.{SourceFault};

    /// The text that a read of this name would give, or why there is none, where it tells that.
    ghost told: { Self → List ℕ → Option (Result (List ℕ) SourceFault) };

    /// The text of this name. Want of memory can stand in the place of any answer.
    fn read(&mut self, alloc: Global, name: &str) -> Result<String, SourceFault>
        ensures text { IsRead (told self.old name.now) result };
}

/// Why the bytes of a name weren't read.
#[derive(Clone, Copy)]
pub enum ReadFault {
    /// They can't be read.
    File,
    /// A growth was refused.
    Memory,
}

/// Something that has bytes under names.
pub trait Folder {
    ghost use Rattle.std.specs.Prelude.{None};
    ghost use Rattle.id_sink.specs.declared.source.ReadFault.{ReadFault};

    /// The bytes of this name, or why they can't be read, where it tells that.
    ghost told: { Self → List ℕ → Option (Result (List ℕ) ReadFault) };

    /// The bytes of this name, where they are known, though a read of them may fail.
    ghost known: { Self → List ℕ → Option (List ℕ) } = { λ _ _. None };

    /// At most so many bytes of this name, from the front. Want of memory can stand in the place of any answer.
    fn front(&mut self, alloc: Global, name: &str, most: usize) -> Result<Vec<u8>, ReadFault>
        ensures told { IsFrontOf (told self.old name.now) most result }
        ensures kept { (n : List ℕ) → told self.new n ≡ told self.old n }
        ensures known { IfOk result (λ v. IfSome (known self.old name.now) (λ bytes. v.items ≡ take most bytes)) };
}

/// The files of the system, which tell nothing beforehand.
#[derive(Drop)]
pub struct SystemFolder<'a, R: Files> {
    pub rt: &'a R,
}

impl<R: Files> Folder for SystemFolder<'_, R> {
    ghost use Rattle.std.specs.Prelude.{None};

    ghost told = { λ _ _. None };

    fn front(&mut self, alloc: Global, name: &str, most: usize) -> Result<Vec<u8>, ReadFault> {
        match File::open(self.rt, name) {
            Ok(file) => Opened { reader: file }.front(alloc, name, most),
            Err(error) => Err(fault_of(&error)),
        }
    }
}

/// A reader as a folder, which has the reader's bytes under each name.
#[derive(Drop)]
pub struct Opened<R: Read + Drop> {
    pub reader: R,
}

impl<R: Read + Drop> Folder for Opened<R> {
    ghost use Rattle.std.specs.Prelude.{None};

    ghost told = { λ _ _. None };

    ghost known = { λ opened _. R.remaining opened.reader };

    fn front(&mut self, alloc: Global, _: &str, most: usize) -> Result<Vec<u8>, ReadFault> {
        first_bytes(alloc, &mut self.reader, most)
    }
}

/// A folder's bytes as texts.
#[derive(Drop)]
pub struct Disk<F: Folder + Drop> {
    pub folder: F,
}

impl<F: Folder + Drop> Source for Disk<F> {
    ghost told = { λ disk name. told_text (F.told disk.folder name) };

    fn read(&mut self, alloc: Global, name: &str) -> Result<String, SourceFault> {
        read_text(alloc, &mut self.folder, name)
    }
}

/// The bytes of this name as a text: `TooLong` above 1,048,576 bytes, whatever they are, and `File` for bytes that are
/// no UTF-8 or can't be read. It reads at most one byte more than a text may have.
pub fn read_text<F: Folder>(
    alloc: Global,
    folder: &mut F,
    name: &str,
) -> Result<String, SourceFault>
    ensures told { IsRead (told_text (F.told folder.old name.now)) result }
    ensures known { IfSome (F.known folder.old name.now) (λ bytes. IsReadOf bytes result) }
    ensures kept { (n : List ℕ) → F.told folder.new n ≡ F.told folder.old n }
{
    match folder.front(alloc, name, MAX_BYTES + 1) {
        Ok(bytes) => text_of(bytes),
        Err(fault) => Err(source_fault(fault)),
    }
}

/// The bytes as a text.
fn text_of(bytes: Vec<u8>) -> Result<String, SourceFault>
    ensures { IsTextOf bytes.items result }
{
    if bytes.len() > MAX_BYTES {
        return Err(SourceFault::TooLong);
    }
    match String::from_utf8(bytes) {
        Ok(text) => Ok(text),
        Err(_) => Err(SourceFault::File),
    }
}

/// Why there is no text where bytes can't be read.
pub fn source_fault(fault: ReadFault) -> SourceFault
    ensures { result ≡ fault_for fault }
{
    match fault {
        ReadFault::File => SourceFault::File,
        ReadFault::Memory => SourceFault::Memory,
    }
}

/// At most so many bytes of the reader's, from the front.
fn first_bytes<R: Read + Drop>(alloc: Global, reader: R, most: usize) -> Result<Vec<u8>, ReadFault>
    ensures { IfOk result (λ v. IfSome (R.remaining reader) (λ bytes. v.items ≡ take most bytes)) }
{
    let mut bytes = Vec::new(alloc);
    match reader.take(most as u64).read_to_end(&mut bytes) {
        Ok(_) => Ok(bytes),
        Err(error) => Err(fault_of(&error)),
    }
}

/// Why a read that failed so gave no bytes.
fn fault_of(error: &io::Error) -> ReadFault
    ensures { result ≡ ReadFault.Memory ↔ error_kind error.now ≡ ErrorKind.OutOfMemory }
{
    match error.kind() {
        ErrorKind::OutOfMemory => ReadFault::Memory,
        _ => ReadFault::File,
    }
}
