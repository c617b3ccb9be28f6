ghost use Rattle.std.specs.Prelude.{◌≤◌, IfOk, length};
ghost use Rattle.std.specs.List.{All};
ghost use Rattle.sizes.specs.declared.TheConstants.{MOST_SCRIPT_BYTES};
ghost use Rattle.script_text.specs.Script.{Parses, TellsCommands, meanings};
ghost use Rattle.script_text.specs.Given.{IsGiven};

use crate::command::{Command, Meaning, ScriptError};
use crate::forms::meaning_of;
use crate::lines::first_line;
use std::alloc::Global;

/// The commands of a script in order, line by line.
fn parse_lines(alloc: Global, bytes: &[u8]) -> Result<Vec<Command>, ScriptError>
    requires { length bytes.now ≤ MOST_SCRIPT_BYTES }
    ensures parses { Parses (λ commands. commands.items) bytes.now result }
    ensures given { IfOk result (λ commands. All IsGiven commands.items) }
{
    let mut commands = Vec::new(alloc);
    let mut rest = bytes;
    let mut k: u32 = 1;
    'lines: while !rest.is_empty() {
        let (line, behind) = first_line(rest);
        match meaning_of(alloc, line)? {
            Meaning::Does(command) => commands.push(command)?,
            Meaning::Nothing => {}
            Meaning::Outside => return Err(ScriptError::Line(k)),
        }
        rest = behind;
        k += 1;
    }
    Ok(commands)
}

/// The commands of a script in order; or, where a line is outside the grammar, the number of the first such
/// line. A script has at most `MOST_SCRIPT_BYTES` bytes.
pub fn parse(alloc: Global, bytes: &[u8]) -> Result<Vec<Command>, ScriptError>
    requires { length bytes.now ≤ MOST_SCRIPT_BYTES }
    ensures parses { Parses (λ commands. commands.items) bytes.now result }
    ensures lines { TellsCommands (λ commands. commands.items) (meanings bytes.now) result }
    ensures given { IfOk result (λ commands. All IsGiven commands.items) }
{
    parse_lines(alloc, bytes)
}
