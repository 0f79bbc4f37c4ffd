//! The shape file: a machine's numbers, as a TOML table.

ghost use Rattle.std.specs.Prelude.{◌≡◌, ◌≢◌, Err, None};
ghost use Rattle.shape_files.specs.MachineFile.{bad_machine};
ghost use Rattle.toml.specs.Errors.{IsBlank};
ghost use Rattle.toml.specs.Parse.{parse_document};
ghost use Rattle.toml.specs.View.{table_view};
ghost use Rattle.shape_files.specs.declared.shape_file.ShapeFault.TheVariants.{OutOfMemory};
ghost use Rattle.shape_files.specs.ShapeFile.{is_key, key_of, has_other_key, integer_at, whole, numbers_of, is_register_count, bad_field};
ghost use Rattle.shape_files.specs.ShapeFile.{fitted, shape_of, sizes_of, table_says, text_says};

use cache_unit::Sizes;
use flat_model::{Shape, ShapeField};
use std::alloc::Global;
use std::fmt;
use thiserror::Error;
use toml::Table;

/// Words of a block in the program's machines.
pub const BLOCK_WORDS: usize = 4;

/// Places of the input stack in the program's machines.
pub const DEPTH: usize = 4;

/// The most ways of the program's machines.
pub const MOST_WAYS: u32 = 2;

/// The register counts of the program's machines.
pub const REGISTER_COUNTS: [u32; 4] = [1, 2, 4, 8];

/// The shape of a file without keys.
pub const DEFAULT_SHAPE: ToolShape = ToolShape {
    shape: Shape {
        words: 64,
        sets: 4,
        banks: 4,
        bank_queue: 8,
        write_queue: 8,
        replies: 8,
    },
    ways: 2,
    regs: 4,
};

/// The shape of a machine that the program can make.
#[derive(Clone, Copy, PartialEq, Eq, Debug)]
pub struct ToolShape {
    /// The numbers at run time.
    pub shape: Shape,
    /// Ways: 1 to [`MOST_WAYS`].
    pub ways: u32,
    /// Registers: one of [`REGISTER_COUNTS`].
    pub regs: u32,
}

impl ToolShape {
    /// All numbers of the machine that is made of it.
    pub fn sizes(&self) -> Sizes
        ensures sizes { result ≡ sizes_of self.now }
        ensures good { bad_field self.now ≡ None → bad_machine result ≡ None }
    {
        Sizes {
            ways: self.ways,
            block_words: BLOCK_WORDS as u32,
            regs: self.regs,
            depth: DEPTH as u32,
            words: self.shape.words,
            sets: self.shape.sets,
            banks: self.shape.banks,
            bank_queue: self.shape.bank_queue,
            write_queue: self.shape.write_queue,
            replies: self.shape.replies,
        }
    }
}

impl Default for ToolShape {
    ghost use Rattle.std.specs.Prelude.{◌≡◌};
    ghost use Rattle.shape_files.specs.declared.shape_file.TheConstants.{DEFAULT_SHAPE};

    ghost is_default = { λ tool. tool ≡ DEFAULT_SHAPE };

    fn default() -> ToolShape {
        DEFAULT_SHAPE
    }
}

/// Why a shape file is refused.
#[derive(Clone, Copy, PartialEq, Eq, Debug, Error)]
#[error("{}", FaultText(self))]
pub enum ShapeFault {
    /// The text is no TOML.
    NotToml,
    /// No shape has such a key.
    UnknownKey,
    /// No whole number stands at the key.
    NotWhole(ShapeField),
    /// The number is out of its range.
    BadShape(ShapeField),
    /// Too little memory.
    OutOfMemory,
}

/// A fault's exact text.
#[derive(Drop)]
pub struct FaultText<'a, F>(pub &'a F);

impl fmt::Display for FaultText<'_, ShapeFault> {
    ghost use Rattle.std.specs.Prelude.{Some};
    ghost use Rattle.shape_files.specs.ShapeFile.{fault_text};

    ghost output = { λ told. Some (fault_text told.0.now) };

    fn fmt<W: fmt::Write>(&self, f: &mut fmt::Formatter<W>) -> fmt::Result {
        match self.0 {
            ShapeFault::NotToml => f.write_str("shape: not TOML"),
            ShapeFault::UnknownKey => f.write_str("shape: unknown key"),
            ShapeFault::NotWhole(field) => {
                write!(f, "shape: {} is not a whole number", key_of(*field))
            }
            ShapeFault::BadShape(field) => write!(f, "shape: {} out of range", key_of(*field)),
            ShapeFault::OutOfMemory => f.write_str("out of memory"),
        }
    }
}

// The last five have no key.
pub(crate) fn key_of(field: ShapeField) -> &'static str
    ensures { result.now ≡ key_of field }
{
    match field {
        ShapeField::Words => "words",
        ShapeField::Sets => "sets",
        ShapeField::Ways => "ways",
        ShapeField::Regs => "regs",
        ShapeField::Banks => "banks",
        ShapeField::BankQueue => "bank_queue",
        ShapeField::WriteQueue => "write_queue",
        ShapeField::Replies => "replies",
        ShapeField::BlockWords => "block_words",
        ShapeField::Depth => "depth",
        ShapeField::Ports => "ports",
        ShapeField::Journal => "journal",
        ShapeField::Image => "image",
    }
}

/// Before their ranges are looked at.
#[derive(Clone, Copy)]
struct Numbers {
    ways: i64,
    regs: i64,
    words: i64,
    sets: i64,
    banks: i64,
    bank_queue: i64,
    write_queue: i64,
    replies: i64,
}

/// Reads a shape file: a TOML table of whole numbers. A missing key has its default.
///
/// Text that is no TOML is found first, then an unknown key, then what is no whole number, then
/// what is out of range. The last two go by ways, regs, words, sets, banks, bank_queue,
/// write_queue, replies. Only reading takes memory.
#[tactic(auto, using(crate::proofs::Answers::table_has_room))]
pub fn read_shape(alloc: Global, text: &str) -> Result<ToolShape, ShapeFault>
    ensures answer { result ≢ Err OutOfMemory → result ≡ text_says (parse_document text.now) }
    ensures memory { result ≡ Err OutOfMemory → ¬ IsBlank text.now }
{
    match toml::table_from_str(alloc, text) {
        Ok(table) => shape_of_table(&table),
        Err(fault) if fault.is_memory() => Err(ShapeFault::OutOfMemory),
        Err(_) => Err(ShapeFault::NotToml),
    }
}

/// [`read_shape`] of a TOML table: `OutOfMemory` and `NotToml` never come.
pub fn shape_of_table(table: &Table) -> Result<ToolShape, ShapeFault>
    ensures { result ≡ table_says (table_view table.now) }
{
    if has_other_key(table) {
        return Err(ShapeFault::UnknownKey);
    }
    let numbers = numbers_of(table)?;
    shape_of(&numbers)
}

fn is_key(key: &str) -> bool
    ensures { result ≡ is_key key.now }
{
    key == "words"
        || key == "sets"
        || key == "ways"
        || key == "regs"
        || key == "banks"
        || key == "bank_queue"
        || key == "write_queue"
        || key == "replies"
}

fn has_other_key(table: &Table) -> bool
    ensures { result ≡ has_other_key (table_view table.now) }
{
    for key in table.keys() {
        if !is_key(key.as_str()) {
            return true;
        }
    }
    false
}

// `Some(None)`: no whole number stands there.
pub(crate) fn integer_at(table: &Table, key: &str) -> Option<Option<i64>>
    ensures { result ≡ integer_at key.now (table_view table.now) }
{
    match table.get(key) {
        Some(value) => Some(value.as_integer()),
        None => None,
    }
}

fn whole(field: ShapeField, default: u32, found: Option<Option<i64>>) -> Result<i64, ShapeFault>
    ensures { result ≡ whole field default found }
{
    match found {
        Some(Some(number)) => Ok(number),
        Some(None) => Err(ShapeFault::NotWhole(field)),
        None => Ok(i64::from(default)),
    }
}

fn numbers_of(table: &Table) -> Result<Numbers, ShapeFault>
    ensures { result ≡ numbers_of (table_view table.now) }
{
    let ToolShape { shape, ways, regs } = DEFAULT_SHAPE;
    let ways = whole(ShapeField::Ways, ways, integer_at(table, "ways"))?;
    let regs = whole(ShapeField::Regs, regs, integer_at(table, "regs"))?;
    let words = whole(ShapeField::Words, shape.words, integer_at(table, "words"))?;
    let sets = whole(ShapeField::Sets, shape.sets, integer_at(table, "sets"))?;
    let banks = whole(ShapeField::Banks, shape.banks, integer_at(table, "banks"))?;
    let bank_queue = whole(
        ShapeField::BankQueue,
        shape.bank_queue,
        integer_at(table, "bank_queue"),
    )?;
    let write_queue = whole(
        ShapeField::WriteQueue,
        shape.write_queue,
        integer_at(table, "write_queue"),
    )?;
    let replies = whole(
        ShapeField::Replies,
        shape.replies,
        integer_at(table, "replies"),
    )?;
    Ok(Numbers {
        ways,
        regs,
        words,
        sets,
        banks,
        bank_queue,
        write_queue,
        replies,
    })
}

fn is_register_count(number: u32) -> bool
    ensures { result ≡ is_register_count number }
{
    REGISTER_COUNTS.iter().any(|count| *count == number)
}

/// The first field out of its range: [`MOST_WAYS`], [`REGISTER_COUNTS`], and the rest as in every
/// machine.
pub fn bad_field(tool: &ToolShape) -> Option<ShapeField>
    ensures { result ≡ bad_field tool.now }
{
    if tool.ways < 1 || tool.ways > MOST_WAYS {
        Some(ShapeField::Ways)
    } else if !is_register_count(tool.regs) {
        Some(ShapeField::Regs)
    } else {
        // The other ranges depend on the words of a block alone.
        cache_unit::bad_field::<1, BLOCK_WORDS, 1, DEPTH>(&tool.shape)
    }
}

// What 32 bits don't have is out of every range, as the largest is.
pub(crate) fn fitted(number: i64) -> u32
    ensures { result ≡ fitted number }
{
    if 0 <= number && number <= u32::MAX as i64 {
        number as u32
    } else {
        u32::MAX
    }
}

fn shape_of(numbers: &Numbers) -> Result<ToolShape, ShapeFault>
    ensures { result ≡ shape_of numbers.now }
{
    let shape = Shape {
        words: fitted(numbers.words),
        sets: fitted(numbers.sets),
        banks: fitted(numbers.banks),
        bank_queue: fitted(numbers.bank_queue),
        write_queue: fitted(numbers.write_queue),
        replies: fitted(numbers.replies),
    };
    let tool = ToolShape {
        shape,
        ways: fitted(numbers.ways),
        regs: fitted(numbers.regs),
    };
    match bad_field(&tool) {
        Some(field) => Err(ShapeFault::BadShape(field)),
        None => Ok(tool),
    }
}
