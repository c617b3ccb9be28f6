ghost use Rattle.std.specs.Prelude.{◌≡◌, ℕ, ◌+◌, ◌<◌, ◌≤◌, true, false, length, get_or, slice_set, IfOk, OnOk, All};
ghost use Rattle.elf_loader.specs.Touched.{page_numbers};
ghost use Rattle.elf_loader.specs.Reach.{IsBelowStack, Lies};
ghost use Rattle.elf_loader.specs.Layers.{AreAscending, AreBytesOf, HasLayers, IsUnfilled, IsLayeredAt, IsStack, LiesWithin, Layered, LeavesOthers, Skips, StaysFull, items_of, no_header, number_of, one_layer_more};

use crate::header::ProgramHeader;
use crate::image::ImagePage;
use crate::sweep::pages_end;
use sizes::PAGE_BYTES;
use std::alloc::{AllocError, Global};

/// The place of the first page that isn't below a number.
pub(crate) fn place_of(pages: &[ImagePage], page: u64) -> usize
    requires { AreAscending pages.now }
    ensures within { result ≤ length pages.now }
    ensures below { (p : ℕ) → p < result → number_of pages.now p < page }
    ensures others { (p : ℕ) → result ≤ p → p < length pages.now → page ≤ number_of pages.now p }
{
    pages.partition_point(|image_page| image_page.page < page)
}

/// Adds the place of a segment to those of a page, and says whether the page is full with it.
fn add_layer(
    layers: &mut Vec<Vec<usize>>,
    full: &mut Vec<bool>,
    at: usize,
    load: usize,
    fills: bool,
) -> Result<(), AllocError>
    requires at { at < length (items_of layers.old.items) }
    requires marked { at < length full.old.items }
    ensures layers { OnOk result (items_of layers.new.items
        ≡ one_layer_more (items_of layers.old.items) at load) }
    ensures full { OnOk result (full.new.items ≡ slice_set full.old.items at fills) }
{
    layers[at].push(load)?;
    full[at] = fills;
    Ok(())
}

/// The place to look at after another: all between them are full. Where the page there is full too, the ways from the
/// first on become shorter.
fn advance(next: &mut Vec<usize>, full: &[bool], at: usize) -> usize
    requires skips { Skips full.now next.old.items }
    requires at { at < length full.now }
    ensures skips { Skips full.now next.new.items }
    ensures rises { at < result }
    ensures full { (q : ℕ) → at < q → q < result → get_or full.now q false ≡ true }
{
    let on = next[at];
    if on < full.len() && full[on] {
        next[at] = next[on];
    }
    on
}

/// The pages while their layers are made.
#[derive(Drop)]
struct Stack {
    /// For each page the places of the segments that it takes bytes from, the last one first.
    layers: Vec<Vec<usize>>,
    /// Whether one of them fills the page.
    full: Vec<bool>,
    /// For each page a place behind it, so that the pages between the two are full.
    next: Vec<usize>,
}

impl Stack {
    /// So many pages without a segment.
    fn of_none(alloc: Global, count: usize) -> Result<Stack, AllocError>
        ensures { IfOk result (IsUnfilled count) }
    {
        let mut layers = Vec::new(alloc);
        let mut full = Vec::new(alloc);
        let mut next = Vec::new(alloc);
        for at in 0..count {
            layers.push(Vec::new(alloc))?;
            full.push(false)?;
            next.push(at + 1)?;
        }
        Ok(Stack { layers, full, next })
    }

    /// Adds a segment to a page that isn't full.
    fn lay_at(
        &mut self,
        loads: &[ProgramHeader],
        pages: &[ImagePage],
        load: usize,
        at: usize,
    ) -> Result<(), AllocError>
        requires load { load < length loads.now }
        requires at { at < length pages.now }
        requires is_page { number_of pages.now at < page_numbers }
        requires as_many { length (items_of self.old.layers.items) ≡ length pages.now }
        requires marked { length self.old.full.items ≡ length pages.now }
        requires layered { IsLayeredAt loads.now pages.now (load + 1) at self.old }
        ensures next { OnOk result (self.new.next ≡ self.old.next) }
        ensures as_many { OnOk result (length (items_of self.new.layers.items) ≡ length pages.now) }
        ensures marked { OnOk result (length self.new.full.items ≡ length pages.now) }
        ensures layered { OnOk result (IsLayeredAt loads.now pages.now load at self.new) }
        ensures others { OnOk result (LeavesOthers at self.old self.new) }
        ensures stays { OnOk result (StaysFull self.old self.new) }
    {
        if self.full[at] {
            return Ok(());
        }
        let fills = loads[load].fills(pages[at].page);
        add_layer(&mut self.layers, &mut self.full, at, load, fills)
    }

    /// Lays a segment below those behind it, at the pages of these places.
    fn lay_between(
        &mut self,
        loads: &[ProgramHeader],
        pages: &[ImagePage],
        load: usize,
        from: usize,
        to: usize,
    ) -> Result<(), AllocError>
        requires load { load < length loads.now }
        requires to { to ≤ length pages.now }
        requires sorted { AreAscending pages.now }
        requires stands { IsStack loads.now pages.now (load + 1) self.old }
        requires apart { LiesWithin (get_or loads.now load no_header) pages.now from to }
        ensures { OnOk result (IsStack loads.now pages.now load self.new) }
    {
        let mut at = from;
        'laying: while at < to {
            self.lay_at(loads, pages, load, at)?;
            at = advance(&mut self.next, self.full.as_slice(), at);
        }
        Ok(())
    }

    /// Lays a segment below those behind it.
    fn lay(
        &mut self,
        loads: &[ProgramHeader],
        pages: &[ImagePage],
        load: usize,
    ) -> Result<(), AllocError>
        requires load { load < length loads.now }
        requires sorted { AreAscending pages.now }
        requires below { All IsBelowStack loads.now }
        requires stands { IsStack loads.now pages.now (load + 1) self.old }
        ensures { OnOk result (IsStack loads.now pages.now load self.new) }
    {
        let header = loads[load];
        let from = place_of(pages, header.address / PAGE_BYTES as u64);
        let to = place_of(pages, pages_end(header.address, header.file_size));
        self.lay_between(loads, pages, load, from, to)
    }
}

/// For each page the places of the segments that it takes its bytes from, the last one first.
pub(crate) fn layers_of(
    alloc: Global,
    loads: &[ProgramHeader],
    pages: &[ImagePage],
) -> Result<Vec<Vec<usize>>, AllocError>
    requires sorted { AreAscending pages.now }
    requires below { All IsBelowStack loads.now }
    ensures { IfOk result (λ layers. HasLayers loads.now pages.now layers.items) }
{
    let mut stack = Stack::of_none(alloc, pages.len())?;
    let mut load = loads.len();
    'laying: while load > 0 {
        load -= 1;
        stack.lay(loads, pages, load)?;
    }
    Ok(stack.layers)
}

/// Makes a page of the bytes that its segments give it; the others are zero.
pub(crate) fn lay_all(
    loads: &[ProgramHeader],
    layers: &[usize],
    file: &[u8],
    page: u64,
    out: &mut [u8; PAGE_BYTES],
)
    requires layered { Layered loads.now 0 page layers.now false }
    requires lie { All (Lies file.now) loads.now }
    requires is_page { page < page_numbers }
    ensures { AreBytesOf loads.now file.now page out.new }
{
    out.fill(0);
    let mut left = layers.len();
    'laying: while left > 0 {
        left -= 1;
        loads[layers[left]].lay(file, page, out);
    }
}
