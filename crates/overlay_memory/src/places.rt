//! Where lines of pages at the front of their lists are read and written.

ghost use Rattle.std.specs.Prelude.{◌<◌};
ghost use Rattle.ovl_io.specs.Permissions.{readable};
ghost use Rattle.overlay_memory.specs.Fronts.{AreFronts, AreSomeFronts, IsFrontPlace, IsFrontWritePlace};
ghost use Rattle.overlay_memory.specs.declared.epochs.TheConstants.{NO_PLACE};
ghost use Rattle.translation_cache.specs.Bare.{BareTranslations};

use crate::epochs::NO_PLACE;
use crate::fronts::Fronts;
use crate::reading::line_of;
use bitflags::Flags;
use overlay_pages::OverlayPages;
use ovl_io::Perms;
use sizes::PAGE_BYTES;

/// The place at which the line of an address is read: that of no line where its page isn't known to be at the front of its list, or may not be
/// read.
#[inline(always)]
pub(crate) fn read_place(pages: &OverlayPages, fronts: &mut Fronts, space: u16, address: u64) -> u32
    requires fronts { AreSomeFronts pages.now fronts.old }
    ensures place { result < NO_PLACE → IsFrontPlace pages.now fronts.old space readable address result }
    ensures fronts { (t : BareTranslations) → AreFronts pages.now t fronts.old → AreFronts pages.now t fronts.new }
{
    match fronts.page(space, address / PAGE_BYTES as u64) {
        Some(known) => {
            let at = known.reads[usize::from(line_of(address))];
            if at != NO_PLACE {
                return at;
            }
        }
        None => return NO_PLACE,
    }
    learn_read(pages, fronts, space, address)
}

/// As `read_place`, of a line whose place isn't known: it is known then.
#[cold]
#[inline(never)]
fn learn_read(pages: &OverlayPages, fronts: &mut Fronts, space: u16, address: u64) -> u32
    requires fronts { AreSomeFronts pages.now fronts.old }
    ensures place { result < NO_PLACE → IsFrontPlace pages.now fronts.old space readable address result }
    ensures fronts { (t : BareTranslations) → AreFronts pages.now t fronts.old → AreFronts pages.now t fronts.new }
{
    let number = address / PAGE_BYTES as u64;
    match fronts.page(space, number) {
        Some(known) => {
            let page = known.found;
            if !page.perms.contains(Perms::R) {
                return NO_PLACE;
            }
            let line = line_of(address);
            let at = pages.place_of(page.line(line));
            fronts.put_read(space, number, line, at);
            at
        }
        None => NO_PLACE,
    }
}

/// The place at which the line of an address is written: that of no line where its page isn't known to be at the front of its list, or may not be
/// written, or the line can't be written where it stands.
#[inline(always)]
pub(crate) fn write_place(
    pages: &OverlayPages,
    fronts: &mut Fronts,
    space: u16,
    address: u64,
) -> u32
    requires fronts { AreSomeFronts pages.now fronts.old }
    ensures place { result < NO_PLACE → IsFrontWritePlace pages.now fronts.old space address result }
    ensures fronts { (t : BareTranslations) → AreFronts pages.now t fronts.old → AreFronts pages.now t fronts.new }
{
    match fronts.page(space, address / PAGE_BYTES as u64) {
        Some(known) => {
            let at = known.writes[usize::from(line_of(address))];
            if at != NO_PLACE {
                return at;
            }
        }
        None => return NO_PLACE,
    }
    learn_write(pages, fronts, space, address)
}

/// As `write_place`, of a line whose place isn't known: it is known then, where it can be written where it stands.
#[cold]
#[inline(never)]
fn learn_write(pages: &OverlayPages, fronts: &mut Fronts, space: u16, address: u64) -> u32
    requires fronts { AreSomeFronts pages.now fronts.old }
    ensures place { result < NO_PLACE → IsFrontWritePlace pages.now fronts.old space address result }
    ensures fronts { (t : BareTranslations) → AreFronts pages.now t fronts.old → AreFronts pages.now t fronts.new }
{
    let number = address / PAGE_BYTES as u64;
    match fronts.page(space, number) {
        Some(known) => {
            let page = known.found;
            let line = line_of(address);
            if !page.perms.contains(Perms::W) || !page.is_writable(line) {
                return NO_PLACE;
            }
            let at = pages.place_of(page.line(line));
            fronts.put_write(space, number, line, at);
            at
        }
        None => NO_PLACE,
    }
}
