// The lines that the program prints of refusals.
ghost use Rattle.std.specs.Prelude.{◌≡◌, IfOk, string_bytes};
ghost use Rattle.walumiren.specs.Messages.{refusal_line};

use credential::Refusal;
use std::alloc::{AllocError, Global};
use std::process::ExitCode;

// A refusal as one line that an editor can jump from.
pub fn refusal_line(heap: Global, file: &str, refusal: Refusal) -> Result<String, AllocError>
    ensures { IfOk result (λ s. string_bytes s ≡ refusal_line file.now refusal) }
{
    let (line, column) = refusal.position().unwrap_or((0, 0));
    format!(in heap; "{file}:{line}:{column}: {refusal}")
}

// Prints the line of a refusal on standard error, and answers failure.
pub(crate) fn refuse(rt: &HostRuntime, file: &str, refusal: Refusal) -> anyhow::Result<ExitCode> {
    rt.eprintln(refusal_line(rt.alloc(), file, refusal)?)?;
    Ok(ExitCode::FAILURE)
}
