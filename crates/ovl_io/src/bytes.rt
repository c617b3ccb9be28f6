ghost use Rattle.std.specs.Prelude.{◌≡◌, List, ℕ, IfOk};

use std::alloc::AllocError;
use std::marker::Model;

/// A list of bytes, as a file's name or what it holds.
#[derive(Debug, Drop)]
pub struct Bytes(Vec<u8>);

impl Model for Bytes {
    ghost Value = { List ℕ };

    ghost view = { λ b. b.0.items };
}

impl Bytes {
    /// These bytes; takes no memory.
    pub fn new(bytes: Vec<u8>) -> Bytes
        ensures { result ≡ bytes.items }
    {
        Bytes(bytes)
    }

    pub fn as_slice(&self) -> &[u8]
        ensures { result.now ≡ self.now }
    {
        self.0.as_slice()
    }

    pub fn copy(&self) -> Result<Bytes, AllocError>
        ensures { IfOk result (λ copy. copy ≡ self.now) }
    {
        Ok(Bytes(self.0.clone()?))
    }
}
