//! The setup of a file is written as a text of version 2.

ghost use Rattle.std.specs.Prelude.{◌≡◌, true, IfOk, IfErr, string_bytes};
ghost use Rattle.std.specs.Io.KnownBytes.{Appends};
ghost use Rattle.jg_policy.specs.declared.fault.SetupFault.TheVariants.{NoMemory};
ghost use Rattle.jg_policy.specs.Findings.{States};
ghost use Rattle.jg_script.specs.declared.run_fault.RunFault.TheVariants.{Write};
ghost use Rattle.jg_program.specs.declared.stop.Status.TheVariants.{Done};
ghost use Rattle.jg_program.specs.declared.stop.ProgramStop.TheVariants.{Run, Setup as Faulty};
ghost use Rattle.jg_program.specs.Ended.{IsHandedOn};
ghost use Rattle.jg_program.specs.Migrated.{Migrates};

use crate::setup_file::read_setup;
use crate::stop::{ProgramStop, Status};
use jg_policy::Setup;
use jg_script::{HandsOn, RunFault, Watched, write_text};
use std::alloc::Global;
use std::io;
use std::io::Read;

/// The text of version 2 of a setup.
fn text_of(alloc: Global, setup: &Setup) -> Result<String, ProgramStop>
    ensures stated { IfOk result (λ text. States (string_bytes text) setup.now) }
    ensures refused { IfErr result (λ stop. stop ≡ Faulty NoMemory) }
{
    match setup.to_version_2(alloc) {
        Ok(text) => Ok(text),
        Err(fault) => Err(ProgramStop::Setup(fault)),
    }
}

/// Writes the text. A failure counts as a failed write of line 1.
fn say<W: io::Write>(out: &mut Watched<W>, text: &str) -> Result<Status, ProgramStop>
    ensures said { IfOk result (λ status. (status ≡ Done)
        × Appends (W.contents out.old.device) (W.contents out.new.device) text.now) }
    ensures failed { IfErr result (λ stop. (stop ≡ Run (Write 1)) × (out.new.failed ≡ true)) }
{
    match write_text(out, text.as_bytes()) {
        Ok(()) => Ok(Status::Done),
        Err(_) => Err(ProgramStop::Run(RunFault::Write { line: 1 })),
    }
}

/// Writes the setup of the file, of which the system told the length, as a text of version 2. What
/// is still buffered is handed on before it ends; a failure of that counts as a failed write of
/// line 1.
pub fn migrate<F: Read, W: HandsOn>(
    alloc: Global,
    file: &mut F,
    told: u64,
    out: &mut Watched<W>,
) -> Result<Status, ProgramStop>
    ensures ends { Migrates (F.remaining file.old) told (W.contents out.old.device) (W.contents out.new.device) result }
    ensures handed_on { IsHandedOn (W.holds_nothing out.new.device) out.new.failed result }
{
    let setup = match read_setup(alloc, false, file, told) {
        Ok(setup) => setup,
        Err(ending) => return ending.ended,
    };
    let text = match text_of(alloc, &setup) {
        Ok(text) => text,
        Err(stop) => return Err(stop),
    };
    let said = say(out, text.as_str());
    match out.flush() {
        Ok(()) => said,
        Err(_) => Err(ProgramStop::Run(RunFault::Write { line: 1 })),
    }
}
