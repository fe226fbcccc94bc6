//! A text that grows at its end, by bytes, numbers and fields.

ghost use Rattle.std.specs.Prelude.{◌≡◌, [], ◌∷◌, ◌++◌, ◌+◌, ◌≤◌, OnOk, decimal, length, take, drop, if◌then◌else◌};
ghost use Rattle.report_text.specs.Spelling.{line, output};

use erc_vectors::NoMemory;
use itoa::{Buffer, write_digits};
use ot_base::Label;
use std::alloc::Global;
use std::marker::Model;

/// How many bytes a short word has at most.
const SHORT: usize = 8;

/// A text of bytes that grows at its end. It keeps the allocator that it was made with. After a call that finds no memory it
/// may hold a part of what was to be written.
#[derive(Debug, Drop)]
pub(crate) struct Text {
    bytes: Vec<u8>,
}

impl Model for Text {
    ghost use Rattle.std.specs.Prelude.{List, ℕ};

    ghost Value = { List ℕ };

    ghost view = { λ text. text.bytes.items };
}

impl Text {
    /// The empty text, which takes no memory yet.
    pub(crate) fn new(alloc: Global) -> Text
        ensures { result ≡ [] }
    {
        Text {
            bytes: Vec::new(alloc),
        }
    }

    /// The text itself as a label, without a copy.
    pub(crate) fn into_label(self) -> Label
        ensures { result ≡ self }
    {
        Label::from_vec(self.bytes)
    }

    /// The bytes behind the others.
    #[inline(always)]
    pub(crate) fn put(&mut self, bytes: &[u8]) -> Result<(), NoMemory>
        ensures { OnOk result (self.new ≡ self.old ++ bytes.now) }
    {
        self.bytes.extend_from_slice(bytes)?;
        Ok(())
    }

    /// The bytes of the text.
    pub(crate) fn bytes(&self) -> &[u8]
        ensures { result.now ≡ self.now }
    {
        self.bytes.as_slice()
    }

    /// Without the bytes behind the first ones, which are so many.
    pub(crate) fn cut_back(&mut self, count: usize)
        ensures { self.new ≡ take count self.old }
    {
        self.bytes.truncate(count);
    }

    /// One byte.
    pub(crate) fn byte(&mut self, byte: u8) -> Result<(), NoMemory>
        ensures { OnOk result (self.new ≡ self.old ++ byte ∷ []) }
    {
        self.bytes.push(byte)?;
        Ok(())
    }

    /// A number in decimal.
    pub(crate) fn number(&mut self, n: usize) -> Result<(), NoMemory>
        ensures { OnOk result (self.new ≡ self.old ++ decimal n) }
    {
        if n < 10 {
            return self.byte(b'0' + n as u8);
        }
        self.long_number(n)
    }

    /// A number behind a byte, and before another.
    pub(crate) fn number_between(&mut self, before: u8, n: usize, after: u8) -> Result<(), NoMemory>
        ensures { OnOk result (self.new ≡ self.old ++ before ∷ decimal n ++ after ∷ []) }
    {
        let mut bytes = [after; 48];
        let start = write_digits(n as u64, &mut bytes, 23);
        bytes[start - 1] = before;
        self.put_front(&bytes[start - 1..start + 23], 25 - start)
    }

    /// The first of some bytes. All are written, since a number of bytes that is fixed is written without a call, and those
    /// behind them are cut off again.
    #[inline(always)]
    pub(crate) fn put_front(&mut self, bytes: &[u8], count: usize) -> Result<(), NoMemory>
        requires { count ≤ length bytes.now }
        ensures { OnOk result (self.new ≡ self.old ++ take count bytes.now) }
    {
        self.bytes.extend_from_slice(bytes)?;
        self.bytes
            .truncate(self.bytes.len() - (bytes.len() - count));
        Ok(())
    }

    /// The beginning of a line: a word, its number, and a tab behind each.
    #[inline(always)]
    pub(crate) fn line_number(&mut self, word: &[u8], n: usize) -> Result<(), NoMemory>
        ensures { OnOk result (self.new ≡ self.old ++ word.now ++ 9 ∷ decimal n ++ 9 ∷ []) }
    {
        if word.len() <= SHORT {
            return self.short_line_number(word, n);
        }
        self.put(word)?;
        self.number_between(b'\t', n, b'\t')
    }

    /// The same where the word is short: all is put together and written at once. Inlined, it copies a word of known length
    /// without a call.
    #[inline(always)]
    fn short_line_number(&mut self, word: &[u8], n: usize) -> Result<(), NoMemory>
        requires { length word.now ≤ SHORT }
        ensures { OnOk result (self.new ≡ self.old ++ word.now ++ 9 ∷ decimal n ++ 9 ∷ []) }
    {
        let mut bytes = [b'\t'; 64];
        let start = write_digits(n as u64, &mut bytes, 31);
        let first = start - 1 - word.len();
        bytes[start - 1] = b'\t';
        bytes[first..start - 1].copy_from_slice(word);
        self.put_front(&bytes[first..first + 32], 32 - first)
    }

    /// A number in decimal that mostly has more than one digit.
    #[inline(never)]
    fn long_number(&mut self, n: usize) -> Result<(), NoMemory>
        ensures { OnOk result (self.new ≡ self.old ++ decimal n) }
    {
        let mut buffer = Buffer::new();
        let digits = buffer.format(n);
        self.put(digits.as_bytes())
    }

    /// A byte and a number in decimal, which mostly has one digit.
    #[inline(always)]
    pub(crate) fn byte_and_number(&mut self, byte: u8, n: usize) -> Result<(), NoMemory>
        ensures { OnOk result (self.new ≡ self.old ++ byte ∷ decimal n) }
    {
        if n < 10 {
            return self.two_bytes(byte, b'0' + n as u8);
        }
        self.byte_and_long_number(byte, n)
    }

    /// Two bytes, for which room is made at once.
    fn two_bytes(&mut self, first: u8, second: u8) -> Result<(), NoMemory>
        ensures { OnOk result (self.new ≡ self.old ++ first ∷ second ∷ []) }
    {
        self.bytes.reserve(2)?;
        self.bytes.push_reserved(first);
        self.bytes.push_reserved(second);
        Ok(())
    }

    /// A byte and a number in decimal that mostly has more than one digit.
    #[inline(never)]
    fn byte_and_long_number(&mut self, byte: u8, n: usize) -> Result<(), NoMemory>
        ensures { OnOk result (self.new ≡ self.old ++ byte ∷ decimal n) }
    {
        self.byte(byte)?;
        self.long_number(n)
    }

    /// What stands before an item of a list, unless it is the first.
    pub(crate) fn separator(&mut self, first: bool, bytes: &[u8]) -> Result<(), NoMemory>
        ensures { OnOk result (self.new ≡ self.old ++ (if first then [] else bytes.now)) }
    {
        if first { Ok(()) } else { self.put(bytes) }
    }

    /// A number of a list with a space between each two.
    pub(crate) fn spaced_number(&mut self, first: bool, n: usize) -> Result<(), NoMemory>
        ensures { OnOk result (self.new ≡ self.old ++ ((if first then [] else 32 ∷ []) ++ decimal n)) }
    {
        if first {
            self.number(n)
        } else {
            self.byte_and_number(b' ', n)
        }
    }

    /// A tab and a text.
    pub(crate) fn field(&mut self, bytes: &[u8]) -> Result<(), NoMemory>
        ensures { OnOk result (self.new ≡ self.old ++ 9 ∷ bytes.now) }
    {
        self.byte(b'\t')?;
        self.put(bytes)
    }

    /// A tab and a number in decimal.
    pub(crate) fn number_field(&mut self, n: usize) -> Result<(), NoMemory>
        ensures { OnOk result (self.new ≡ self.old ++ 9 ∷ decimal n) }
    {
        self.byte_and_number(b'\t', n)
    }

    /// A tab, and an input and a class of it by their numbers.
    pub(crate) fn output_field(&mut self, i: usize, a: usize) -> Result<(), NoMemory>
        ensures { OnOk result (self.new ≡ self.old ++ 9 ∷ output i a) }
    {
        self.number_field(i)?;
        self.byte_and_number(b'.', a)
    }

    /// A line with a word and a number.
    pub(crate) fn count_line(&mut self, word: &[u8], n: usize) -> Result<(), NoMemory>
        ensures { OnOk result (self.new ≡ self.old ++ line (word.now ∷ decimal n ∷ [])) }
    {
        self.put(word)?;
        self.number_field(n)?;
        self.end_line()
    }

    /// The end of a line, one byte.
    pub(crate) fn end_line(&mut self) -> Result<(), NoMemory>
        ensures { OnOk result (self.new ≡ self.old ++ 10 ∷ []) }
    {
        self.byte(b'\n')
    }
}

/// Writes a number behind a byte, so that they end at a place. The answer is where they start.
pub(crate) fn write_behind(byte: u8, n: u64, bytes: &mut [u8], end: usize) -> usize
    requires room { 1 + length (decimal n) ≤ end }
    requires within { end ≤ length bytes.old }
    ensures start { result + (1 + length (decimal n)) ≡ end }
    ensures written { drop result bytes.new ≡ byte ∷ decimal n ++ drop end bytes.old }
{
    let start = write_digits(n, bytes, end);
    bytes[start - 1] = byte;
    start - 1
}
