ghost use Rattle.std.specs.Prelude.{◌≡◌, ◌^◌, ◌<◌, ◌++◌, IfOk, OnOk, codes, string_bytes};
ghost use Rattle.workload.specs.Script.{command_text, first_text, made_script};

use crate::draws::Draws;
use std::alloc::{AllocError, Global};

/// How many rounds a script has.
const ROUNDS: u32 = 40;

/// The lines in front of the rounds.
fn write_first(script: &mut String, drawn: u64) -> Result<(), AllocError>
    requires { drawn < 2 ^ 31 }
    ensures { OnOk result (string_bytes script.new ≡ string_bytes script.old ++ first_text drawn) }
{
    write!(script, "load gen.elf\nset 1 x5 {}\nrun 100000\n", drawn + 1)
}

/// The command of a round, by its three draws.
fn write_command(script: &mut String, a: u64, b: u64, c: u64) -> Result<(), AllocError>
    requires { c < 2 ^ 31 }
    ensures { OnOk result (string_bytes script.new ≡ string_bytes script.old ++ command_text a b c) }
{
    let (process, name, number) = (1 + b % 6, c % 4, c + 1);
    match a % 8 {
        0 => writeln!(script, "fork {process}"),
        1 => writeln!(script, "speculate {process}"),
        2 => writeln!(script, "commit {process}"),
        3 => writeln!(script, "discard {process}"),
        4 => writeln!(script, "promote {process} all"),
        5 => writeln!(script, "checkpoint {process} c{name}"),
        6 => writeln!(script, "restore {process} c{name}"),
        _ => writeln!(script, "set {process} x5 {number}"),
    }
}

/// The script of a seed.
pub(crate) fn made_script(alloc: Global, seed: u64) -> Result<Vec<u8>, AllocError>
    ensures { IfOk result (λ script. script.items ≡ made_script seed) }
{
    let mut script = String::new(alloc);
    let mut draws = Draws::new(seed);
    write_first(&mut script, draws.draw())?;
    'rounds: for _round in 0..ROUNDS {
        let (a, b, c) = (draws.draw(), draws.draw(), draws.draw());
        write_command(&mut script, a, b, c)?;
        script.push_str("run 20000\n")?;
    }
    script.push_str("compact\nlist\nstats\n")?;
    Ok(script.into_bytes())
}
