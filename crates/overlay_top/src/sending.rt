ghost use Rattle.std.specs.Prelude.{◌≡◌};
ghost use Rattle.overlay_top.specs.Sending.{SendsText};

use ovl_io::{Failed, Sink};
use report_text::Line;

/// Sends a text to a sink, in as many writes as it takes.
pub(crate) fn send<K: Sink>(sink: &mut K, text: &[u8]) -> Result<(), Failed>
    ensures { SendsText K.Sink sink.old text.now sink.new result }
{
    let mut at: usize = 0;
    while at < text.len() {
        match sink.write(&text[at..]) {
            Ok(n) => at += n,
            Err(failed) => return Err(failed),
        }
    }
    Ok(())
}

/// Where the report goes: a sink, and the line that is being made.
#[derive(Drop)]
pub(crate) struct Report<'a, K: Sink> {
    pub(crate) sink: &'a mut K,
    pub(crate) line: Line,
}

impl<'a, K: Sink> Report<'a, K> {
    /// Sends the line.
    pub(crate) fn send(&mut self) -> Result<(), Failed>
        ensures sends { SendsText K.Sink self.old.sink.now self.old.line.items self.new.sink.now result }
        ensures same { self.new.sink.ghost_name ≡ self.old.sink.ghost_name }
    {
        send(&mut *self.sink, self.line.as_slice())
    }
}
