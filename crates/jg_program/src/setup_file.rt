//! The setup file of `--setup`, and the setup where none is given.

ghost use Rattle.std.specs.Prelude.{◌≡◌, ◌≢◌, ◌⊎◌, ◌<◌, ◌≤◌, codes, length, true, IfOk, IfErr, IfSome, OnErr, OnOk, string_bytes};
ghost use Rattle.std.specs.IoError.{error_kind};
ghost use Rattle.std.specs.declared.io.ErrorKind.TheVariants.{OutOfMemory};
ghost use Rattle.jg_fault_text.specs.Setups.{TellsSetup};
ghost use Rattle.jg_policy.specs.declared.fault.SetupFault.TheVariants.{NoMemory, TooMany};
ghost use Rattle.jg_program.specs.declared.stop.ProgramStop.TheVariants.{Setup as Faulty, SetupRead};
ghost use Rattle.jg_program.specs.Ended.{EndsRefused};
ghost use Rattle.jg_program.specs.Reported.{EndsQuietly, EndsTelling, IsToldIf};
ghost use Rattle.jg_program.specs.StatedBy.{base_setup, Gives, IsFront, IsStated};

use crate::stop::{ProgramEnd, ProgramStop, quietly, saying};
use jg_fault_text::push_setup_fault;
use jg_policy::{Setup, SetupFault};
use std::alloc::{AllocError, Global};
use std::io;
use std::io::{ErrorKind, Read};

/// The setup text where no `--setup` is given: no class beside the base classes, and native access for no module
/// beside `java.base`.
const CLOSED_SETUP: &str = "version = 1\nillegal_native_access = \"deny\"\n";

/// The most bytes that a setup file may have.
const MAX_BYTES: u64 = 16_777_216;

/// The setup where no `--setup` is given, read from its text. Fails only for want of memory.
fn closed_setup(alloc: Global) -> Result<Setup, SetupFault>
    ensures stated { IfOk result (λ setup. setup ≡ base_setup) }
    ensures memory { IfErr result (λ fault. fault ≡ NoMemory) }
{
    Setup::read(alloc, CLOSED_SETUP)
}

/// What ends the program where a setup file can't be opened or read.
pub fn stop_of(error: &io::Error) -> ProgramStop
    ensures either { (result ≡ SetupRead) ⊎ (result ≡ Faulty NoMemory) }
    ensures memory { error_kind error.now ≡ OutOfMemory → result ≡ Faulty NoMemory }
    ensures unread { error_kind error.now ≢ OutOfMemory → result ≡ SetupRead }
{
    match error.kind() {
        ErrorKind::OutOfMemory => ProgramStop::Setup(SetupFault::NoMemory),
        _ => ProgramStop::SetupRead,
    }
}

/// Where in its bytes a setup has this fault; nothing without explanations.
fn fault_text(
    alloc: Global,
    explained: bool,
    bytes: &[u8],
    fault: SetupFault,
) -> Result<String, AllocError>
    ensures told { IfOk result (λ text. IsToldIf explained (TellsSetup fault bytes.now) (string_bytes text)) }
    ensures refused { OnErr result (explained ≡ true) }
{
    let mut text = String::new(alloc);
    if explained {
        push_setup_fault(&mut text, alloc, bytes, fault)?;
    }
    Ok(text)
}

/// How the program ends where the bytes of a setup have this fault.
fn end_faulty(alloc: Global, explained: bool, bytes: &[u8], fault: SetupFault) -> ProgramEnd
    ensures { EndsTelling explained (TellsSetup fault bytes.now) (Faulty fault) result }
{
    saying(
        ProgramStop::Setup(fault),
        fault_text(alloc, explained, bytes, fault),
    )
}

/// What is told of a setup file that is too long; nothing without explanations.
fn length_text(alloc: Global, explained: bool) -> Result<String, AllocError>
    ensures told { IfOk result (λ text. IsToldIf explained (λ it. it ≡ codes "more than 16777216 bytes\n")
        (string_bytes text)) }
    ensures refused { OnErr result (explained ≡ true) }
{
    let mut text = String::new(alloc);
    if explained {
        text.push_str("more than 16777216 bytes\n")?;
    }
    Ok(text)
}

/// How the program ends where a setup file is too long.
fn end_too_long(alloc: Global, explained: bool) -> ProgramEnd
    ensures { EndsTelling explained (λ it. it ≡ codes "more than 16777216 bytes\n") (Faulty TooMany) result }
{
    saying(
        ProgramStop::Setup(SetupFault::TooMany),
        length_text(alloc, explained),
    )
}

/// Reads the setup of a file that was said to be so long, or says how the program ends without it. A file that was said
/// to be too long isn't read, and of any other one no more than one byte past the longest that it may be.
pub fn read_setup<F: Read>(
    alloc: Global,
    explained: bool,
    file: &mut F,
    told: u64,
) -> Result<Setup, ProgramEnd>
    ensures stated { IfOk result (IsStated (F.remaining file.old)) }
    ensures refused { IfErr result (EndsRefused explained (F.remaining file.old) told) }
    ensures unread { 16777216 < told → file.new ≡ file.old }
{
    let text = match read_text(alloc, explained, file, told) {
        Ok(text) => text,
        Err(ending) => return Err(ending),
    };
    match Setup::read(alloc, text.as_str()) {
        Ok(setup) => Ok(setup),
        Err(fault) => Err(end_faulty(alloc, explained, text.as_bytes(), fault)),
    }
}

/// The setup of the given file, of which the system told the length, or the closed one where none is given; or how the
/// program ends without it. The file is closed then.
pub fn setup_of<F: Read + Drop>(
    alloc: Global,
    explained: bool,
    given: Option<(F, u64)>,
) -> Result<Setup, ProgramEnd>
    ensures closed { given ≡ None → IfOk result (λ setup. setup ≡ base_setup) }
    ensures memory { given ≡ None → IfErr result (EndsQuietly (Faulty NoMemory)) }
    ensures stated { IfSome given (λ file. IfOk result (IsStated (F.remaining file.0))) }
    ensures refused { IfSome given (λ file. IfErr result (EndsRefused explained (F.remaining file.0) file.1)) }
{
    match given {
        None => match closed_setup(alloc) {
            Ok(setup) => Ok(setup),
            Err(fault) => Err(quietly(alloc, Err(ProgramStop::Setup(fault)))),
        },
        Some((mut file, told)) => {
            let read = read_setup(alloc, explained, &mut file, told);
            // Else its number could be that of a standard input that was closed.
            drop(file);
            read
        }
    }
}

// The text of a setup file that was said to be so long.
fn read_text<F: Read>(
    alloc: Global,
    explained: bool,
    file: &mut F,
    told: u64,
) -> Result<String, ProgramEnd>
    ensures bytes { IfOk result (λ text. Gives (F.remaining file.old) (string_bytes text)) }
    ensures told { OnOk result (told ≤ 16777216) }
    ensures short { IfOk result (λ text. length (string_bytes text) ≤ 16777216) }
    ensures refused { IfErr result (EndsRefused explained (F.remaining file.old) told) }
    ensures unread { 16777216 < told → file.new ≡ file.old }
{
    if told > MAX_BYTES {
        return Err(end_too_long(alloc, explained));
    }
    let bytes = match read_bytes(alloc, file) {
        Ok(bytes) => bytes,
        Err(error) => return Err(quietly(alloc, Err(stop_of(&error)))),
    };
    if bytes.len() as u64 > MAX_BYTES {
        return Err(end_too_long(alloc, explained));
    }
    match String::from_utf8(bytes) {
        Ok(text) => Ok(text),
        Err(error) => Err(end_faulty(alloc, explained, error.as_bytes(), SetupFault::NotToml)),
    }
}

// The bytes of a file. One more than it may have is read, which shows that it is too long.
fn read_bytes<F: Read>(alloc: Global, file: &mut F) -> io::Result<Vec<u8>>
    ensures { IfOk result (λ bytes. IsFront (F.remaining file.old) bytes.items) }
{
    let mut bytes = Vec::new(alloc);
    file.take(MAX_BYTES + 1).read_to_end(&mut bytes)?;
    Ok(bytes)
}
