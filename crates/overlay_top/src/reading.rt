ghost use Rattle.std.specs.Prelude.{◌≡◌, ◌≢◌, ◌+◌, ◌<◌, ◌≤◌, ◌++◌, [], length, vec_len, drop, IfOk};
ghost use Rattle.ovl_io.specs.Outside.{Rose};
ghost use Rattle.sizes.specs.declared.TheConstants.{MOST_SCRIPT_BYTES};
ghost use Rattle.overlay_top.specs.Reading.{IsRead, IsUnread};

use ovl_io::Source;
use sizes::MOST_SCRIPT_BYTES;
use std::alloc::{AllocError, Global};

/// How many bytes one read asks for at most.
const CHUNK: usize = 1 << 12;

/// Why there is no script.
#[derive(Clone, Copy, Debug, PartialEq, Eq)]
pub enum ReadError {
    /// The source failed.
    Failed,
    /// It has more bytes than a script may have.
    TooLong,
    /// There is no memory for it.
    Memory,
}

/// Reads a script to its end, or to one byte more than a script may have.
pub(crate) fn read_script<S: Source>(alloc: Global, source: &mut S) -> Result<Vec<u8>, ReadError>
    ensures small { IfOk result (λ script. vec_len script ≤ MOST_SCRIPT_BYTES) }
    ensures read { S.tells →
        IfOk result (λ script. IsRead (S.left source.old) script.items (S.left source.new)) }
    ensures unread { S.tells → IsUnread (S.left source.old) (S.left source.new) result }
    ensures cause { result ≡ Err ReadError.Failed → Rose (S.faults source.old) (S.faults source.new) }
    ensures no_fault { result ≢ Err ReadError.Failed → S.faults source.new ≡ S.faults source.old }
{
    let mut script: Vec<u8> = Vec::new(alloc);
    'reading: while script.len() <= MOST_SCRIPT_BYTES {
        let mut chunk = [0u8; CHUNK];
        let room = CHUNK.min(MOST_SCRIPT_BYTES + 1 - script.len());
        let n = match source.read(&mut chunk[..room]) {
            Ok(n) => n,
            Err(_) => return Err(ReadError::Failed),
        };
        if n == 0 {
            return Ok(script);
        }
        script.extend_from_slice(&chunk[..n])?;
    }
    Err(ReadError::TooLong)
}

impl From<AllocError> for ReadError {
    ghost use Rattle.overlay_top.specs.declared.reading.ReadError.TheVariants.{Memory};

    ghost from_gives = { λ _ e. e ≡ Memory };

    fn from(_: AllocError) -> ReadError {
        ReadError::Memory
    }
}
