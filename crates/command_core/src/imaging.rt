//! Checkpoints as images: what one is over another one, and one that is made of that.

ghost use Rattle.std.specs.Prelude.{◌≡◌, ◌<◌, ◌≤◌, None, length, false, true};
ghost use Rattle.std.specs.FinMap.{empty, get};
ghost use Rattle.sizes.specs.declared.TheConstants.{LAST_SPACE, MOST_FILE_BYTES, MOST_SPACE_PAGES};
ghost use Rattle.std.specs.List.{AllByRecursion};
ghost use Rattle.image_lines.specs.Lines.{IsByte};
ghost use Rattle.delta_image.specs.Fine.{Ascend, IsPlain};
ghost use Rattle.delta_spaces.specs.Gathered.{HasFitPages};
ghost use Rattle.overlay_pages.specs.State.{memory_of};
ghost use Rattle.space_maps.specs.Spaces.{space_in};
ghost use Rattle.machine_core.specs.Machine.{has_space, spaces_of};
ghost use Rattle.report_text.specs.Answers.{IsCheckpointName};
ghost use Rattle.command_core.specs.Images.{AreExported, Exports, ImportsSpace, ReadsDelta, image_between, process_said, short_enough};
ghost use Rattle.command_core.specs.Kept.{EntersName, checkpoint_in, kept_named};

use crate::checkpoints::{Checkpoints, Kept};
use crate::saving::enter_or_drop;
use delta_image::{Delta, ImageError, decode, encode};
use delta_spaces::{build, gather, image_length};
use image_lines::{LinesError, read_lines};
use machine_core::{Machine, Process, SpaceError};
use ovl_io::Bytes;
use report_text::{Answer, Code};
use std::alloc::Global;

/// Bytes of an image that is exported, at most: 4 MiB.
pub const MOST_EXPORTED: u32 = 1 << 22;

/// Why a checkpoint isn't exported.
#[derive(Clone, Copy, Debug, PartialEq, Eq)]
pub enum ExportError {
    /// It is refused.
    Refused(Code),
    /// There is no memory for its image.
    Memory,
}

/// How many bytes there are; each of them fits, which their type says.
fn byte_count(bytes: &[u8]) -> usize
    ensures count { result ≡ length bytes.now }
    ensures fit { AllByRecursion IsByte bytes.now }
{
    bytes.len()
}

/// The image of a checkpoint over the space of another one, where it isn't too large. How long it is, is known before any memory is taken.
pub(crate) fn export_space(
    alloc: Global,
    machine: &Machine,
    saved: &Kept,
    base: &Kept,
) -> Result<Vec<u8>, ExportError>
    requires there { has_space machine.now saved.now.space ≡ true }
    requires base_there { has_space machine.now base.now.space ≡ true }
    requires none_awaits { (space_in (spaces_of machine.now) saved.now.space).awaiting ≡ empty }
    requires base_none_awaits { (space_in (spaces_of machine.now) base.now.space).awaiting ≡ empty }
    requires fit { HasFitPages (memory_of (spaces_of machine.now) saved.now.space) }
    ensures exports { Exports (λ image. image.items) (short_enough (image_between
        (checkpoint_in (spaces_of machine.now) saved.now).whole
        (checkpoint_in (spaces_of machine.now) base.now).whole)) result }
    ensures back { AreExported (checkpoint_in (spaces_of machine.now) saved.now).whole
        (checkpoint_in (spaces_of machine.now) base.now).whole (λ image. image.items) result }
{
    let memory = machine.memory();
    let length = image_length(memory, saved.space, base.space, saved.state, &saved.regs);
    if MOST_EXPORTED < length {
        return Err(ExportError::Refused(Code::TooLarge(length)));
    }
    let delta = match gather(
        alloc,
        memory,
        saved.space,
        base.space,
        saved.state,
        &saved.regs,
    ) {
        Ok(delta) => delta,
        Err(_) => return Err(ExportError::Memory),
    };
    match encode(alloc, &delta) {
        Ok(image) => {
            let _fits = byte_count(image.as_slice());
            Ok(image)
        }
        Err(_) => Err(ExportError::Memory),
    }
}

/// What a file of at most 16 MiB says: a delta; or the answer for one that isn't taken.
pub(crate) fn read_delta(alloc: Global, file: &[u8]) -> Result<Delta, Answer>
    requires { length file.now ≤ MOST_FILE_BYTES }
    ensures { ReadsDelta file.now result }
{
    let bytes = match read_lines(alloc, file) {
        Ok(bytes) => bytes,
        Err(LinesError::BadLine(k)) => return Err(Answer::Refused(Code::ImageLine(k))),
        Err(LinesError::Memory) => return Err(Answer::Memory),
    };
    match decode(alloc, bytes.as_slice()) {
        Ok(delta) => Ok(delta),
        Err(ImageError::BadImage) => Err(Answer::Refused(Code::BadImage)),
        Err(ImageError::Memory) => Err(Answer::Memory),
    }
}

/// Makes space `q`, from 1 to 32767, of the pages of a delta over space `base`, which is there, isn't speculating, and of which no page
/// awaits, and enters it under a name that no checkpoint has, with the delta's registers and state; answers a copy of the name. Full
/// exactly where the units after it would exceed the limit; then nothing changes. After want of memory there are the spaces,
/// processes and checkpoints that there were.
pub(crate) fn import_space(
    alloc: Global,
    machine: &mut Machine,
    checkpoints: &mut Checkpoints,
    base: u16,
    q: u16,
    delta: &Delta,
    name: &Bytes,
) -> Result<Bytes, SpaceError>
    requires there { has_space machine.old base ≡ true }
    requires none_awaits { (space_in (spaces_of machine.old) base).awaiting ≡ empty }
    requires unmarked { (space_in (spaces_of machine.old) base).speculating ≡ false }
    requires number { (0 < q) × (q ≤ LAST_SPACE) }
    requires no_space { has_space machine.old q ≡ false }
    requires no_process { get machine.old.processes q ≡ None }
    requires few { length delta.now.pages ≤ MOST_SPACE_PAGES }
    requires pages { Ascend IsPlain 0 delta.now.pages }
    requires named { IsCheckpointName name.now }
    requires absent { kept_named name.now checkpoints.old ≡ None }
    ensures imports { ImportsSpace base q delta.now machine.old machine.new result }
    ensures kept { EntersName name.now q (process_said delta.now) checkpoints.old checkpoints.new result }
{
    match build(machine.memory_mut(), base, q, delta) {
        Ok(()) => {
            let process = Process {
                regs: delta.regs,
                state: delta.state,
                saved: None,
            };
            enter_or_drop(alloc, machine, checkpoints, q, process, name)
        }
        Err(error) => Err(error),
    }
}
