//! Strings and lists as an object has them.

ghost use Rattle.std.specs.Prelude.{◌≡◌, ◌<◌, ◌++◌, ◌∷◌, [], Some, codes, decimal};
ghost use Rattle.std.specs.List.{flat_map};
ghost use Rattle.std.specs.Fmt.{WritesOnOk};
ghost use Rattle.named_fields.specs.Formats.{joined, quoted_byte};
ghost use Rattle.named_fields.specs.Texts.{numbered, is_printable, escaped, escaped_byte};

use flat_model::TwoDigits;
use std::fmt;

// ---- strings

// Whether a byte may stand for itself.
fn is_printable(byte: u8) -> bool
    ensures { result ≡ is_printable byte }
{
    32 <= byte && byte <= 126
}

// A byte that stands for itself.
fn write_printable<W: fmt::Write>(f: &mut fmt::Formatter<W>, byte: u8) -> fmt::Result
    requires { byte < 128 }
    ensures { WritesOnOk W.write_str_gives f.old result (byte ∷ []) f.new }
{
    f.write_char(char::from(byte))
}

// A byte by its number.
fn write_numbered<W: fmt::Write>(f: &mut fmt::Formatter<W>, byte: u8) -> fmt::Result
    ensures { WritesOnOk W.write_str_gives f.old result (numbered byte) f.new }
{
    let digits = TwoDigits(byte);
    write!(f, "\\u00{digits}")
}

// A byte within a string of an object.
#[derive(Clone, Copy)]
struct EscapedByte(u8);

impl fmt::Display for EscapedByte {
    ghost output = { λ byte. Some (escaped_byte byte.0) };

    #[tactic(auto, unfolding(crate::specs::Texts::escaped_byte))]
    fn fmt<W: fmt::Write>(&self, f: &mut fmt::Formatter<W>) -> fmt::Result {
        let byte = self.0;
        if byte == b'"' {
            f.write_str("\\\"")
        } else if byte == b'\\' {
            f.write_str("\\\\")
        } else if is_printable(byte) {
            write_printable(f, byte)
        } else {
            write_numbered(f, byte)
        }
    }
}

// The bytes within a string of an object.
#[derive(Clone, Copy)]
struct EscapedBytes<'a>(&'a [u8]);

impl<'a> fmt::Display for EscapedBytes<'a> {
    ghost output = { λ bytes. Some (flat_map escaped_byte bytes.0.now) };

    fn fmt<W: fmt::Write>(&self, f: &mut fmt::Formatter<W>) -> fmt::Result {
        for byte in self.0 {
            let escaped = EscapedByte(*byte);
            write!(f, "{escaped}")?;
        }
        Ok(())
    }
}

// A text as a string of an object.
#[derive(Clone, Copy)]
pub(crate) struct Escaped<'a>(pub(crate) &'a [u8]);

impl<'a> fmt::Display for Escaped<'a> {
    ghost output = { λ text. Some (escaped text.0.now) };

    #[tactic(auto, unfolding(crate::specs::Texts::escaped))]
    fn fmt<W: fmt::Write>(&self, f: &mut fmt::Formatter<W>) -> fmt::Result {
        let bytes = EscapedBytes(self.0);
        write!(f, "\"{bytes}\"")
    }
}

// ---- lists

// Numbers, with commas between them.
#[derive(Clone, Copy)]
pub(crate) struct Numbers<'a>(pub(crate) &'a [u16]);

impl<'a> fmt::Display for Numbers<'a> {
    ghost output = { λ list. Some (joined decimal list.0.now) };

    fn fmt<W: fmt::Write>(&self, f: &mut fmt::Formatter<W>) -> fmt::Result {
        match self.0 {
            [] => Ok(()),
            [first, rest @ ..] => {
                write!(f, "{first}")?;
                write_numbers(f, rest)
            }
        }
    }
}

// The numbers behind the first.
fn write_numbers<W: fmt::Write>(f: &mut fmt::Formatter<W>, numbers: &[u16]) -> fmt::Result
    ensures { WritesOnOk W.write_str_gives f.old result (flat_map (λ n. codes "," ++ decimal n) numbers.now) f.new }
{
    for number in numbers {
        write!(f, ",{number}")?;
    }
    Ok(())
}

// Bytes as strings, with commas between them.
#[derive(Clone, Copy)]
pub(crate) struct QuotedBytes<'a>(pub(crate) &'a [u8]);

impl<'a> fmt::Display for QuotedBytes<'a> {
    ghost output = { λ list. Some (joined quoted_byte list.0.now) };

    fn fmt<W: fmt::Write>(&self, f: &mut fmt::Formatter<W>) -> fmt::Result {
        match self.0 {
            [] => Ok(()),
            [first, rest @ ..] => {
                let digits = TwoDigits(*first);
                write!(f, "\"{digits}\"")?;
                write_quoted(f, rest)
            }
        }
    }
}

// The bytes behind the first.
fn write_quoted<W: fmt::Write>(f: &mut fmt::Formatter<W>, bytes: &[u8]) -> fmt::Result
    ensures { WritesOnOk W.write_str_gives f.old result (flat_map (λ b. codes "," ++ quoted_byte b) bytes.now) f.new }
{
    for byte in bytes {
        let digits = TwoDigits(*byte);
        write!(f, ",\"{digits}\"")?;
    }
    Ok(())
}
