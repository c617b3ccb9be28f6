//! A workload out of a seed: a script, and the file that it loads.
//!
//! The model is the two texts, each as a definition of its own: `specs/Draws.antt` says what is drawn,
//! `specs/Script.antt` which lines the draws make, and `specs/File.antt` what the file is, field by field.
//! No machine is asked for: the same seed gives the same bytes.
//!
//! - `draws`: the draws of a seed, one after the other
//! - `script`: the lines
//! - `file`: the fields of the file
#![tactic(auto)]

ghost use Rattle.std.specs.Prelude.{◌≡◌, IfOk};
ghost use Rattle.workload.specs.Script.{made_script};
ghost use Rattle.workload.specs.File.{made_file};

mod draws;
mod file;
mod script;

use ovl_io::Bytes;
use std::alloc::{AllocError, Global};

/// A script and the file that it loads, under the name `gen.elf`.
#[derive(Debug, Drop)]
pub struct Made {
    /// 86 lines, each with its end.
    pub script: Bytes,
    /// 228 bytes.
    pub file: Bytes,
}

/// The workload of a seed. The file is the same for all seeds.
pub fn make(alloc: Global, seed: u64) -> Result<Made, AllocError>
    ensures script { IfOk result (λ made. made.script ≡ made_script seed) }
    ensures file { IfOk result (λ made. made.file ≡ made_file) }
{
    let script = script::made_script(alloc, seed)?;
    let file = file::made_file(alloc)?;
    Ok(Made {
        script: Bytes::new(script),
        file: Bytes::new(file),
    })
}
