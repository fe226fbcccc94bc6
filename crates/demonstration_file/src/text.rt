//! A text that grows at its end.

ghost use Rattle.std.specs.Prelude.{◌≡◌, [], ◌++◌, OnOk, decimal};

use erc_vectors::NoMemory;
use itoa::Buffer;
use ot_base::Label;
use std::alloc::Global;
use std::marker::Model;

/// A text of bytes that grows at its end. After a call that finds no memory it may hold a part of what was to be written.
#[derive(Debug, Drop)]
pub(crate) struct Text {
    bytes: Vec<u8>,
}

impl Model for Text {
    ghost use Rattle.std.specs.Prelude.{List, ℕ};

    ghost Value = { List ℕ };

    ghost view = { λ text. text.bytes.items };
}

impl Text {
    /// The empty text.
    pub(crate) fn new(alloc: Global) -> Text
        ensures { result ≡ [] }
    {
        Text {
            bytes: Vec::new(alloc),
        }
    }

    /// The text itself as a label, without a copy.
    pub(crate) fn into_label(self) -> Label
        ensures { result ≡ self }
    {
        Label::from_vec(self.bytes)
    }

    /// The bytes behind the others.
    pub(crate) fn put(&mut self, bytes: &[u8]) -> Result<(), NoMemory>
        ensures { OnOk result (self.new ≡ self.old ++ bytes.now) }
    {
        self.bytes.extend_from_slice(bytes)?;
        Ok(())
    }

    /// A number in decimal.
    pub(crate) fn number(&mut self, n: usize) -> Result<(), NoMemory>
        ensures { OnOk result (self.new ≡ self.old ++ decimal n) }
    {
        let mut buffer = Buffer::new();
        self.put(buffer.format(n).as_bytes())
    }
}
