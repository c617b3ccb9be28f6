ghost use Rattle.std.specs.Prelude.{◌≡◌, IfOk};
ghost use Rattle.workload.specs.Script.{made_script};
ghost use Rattle.workload.specs.File.{made_file};

use ovl_io::{OneFileShelf, SureSource};
use std::alloc::{AllocError, Global};
use workload::make;

/// What is made of a seed, as a source and a shelf in memory.
pub(crate) fn made_outside(
    alloc: Global,
    seed: u64,
) -> Result<(SureSource, OneFileShelf), AllocError>
    ensures script { IfOk result (λ made. made.0.left ≡ made_script seed) }
    ensures file { IfOk result (λ made. made.1 ≡ made_file) }
{
    let made = make(alloc, seed)?;
    let script = Vec::from_slice(alloc, made.script.as_slice())?;
    let file = Vec::from_slice(alloc, made.file.as_slice())?;
    Ok((SureSource::new(script, usize::MAX), OneFileShelf::new(file)))
}
