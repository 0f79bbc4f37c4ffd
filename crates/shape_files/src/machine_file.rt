//! The machine file: all numbers, as a TOML table.

ghost use Rattle.std.specs.Prelude.{◌≡◌, None, IfOk, IfErr, take};
ghost use Rattle.std.specs.Option.{option_map};
ghost use Rattle.std.specs.String.{string_bytes};
ghost use Rattle.toml.specs.Parse.{parse_document};
ghost use Rattle.toml.specs.View.{table_view};
ghost use Rattle.shape_files.specs.MachineFile as file;

use crate::shape_file::{DEFAULT_SHAPE, FaultText, fitted, integer_at, key_of};
use cache_unit::Sizes;
use flat_model::{
    MAX_BANK_QUEUE, MAX_BANKS, MAX_BLOCK_WORDS, MAX_DEPTH, MAX_REGS, MAX_REPLIES, MAX_SETS,
    MAX_WAYS, MAX_WORDS, MAX_WRITE_QUEUE, ShapeField,
};
use std::alloc::{AllocError, Global};
use std::fmt;
use thiserror::Error;
use toml::Table;

/// A machine file's numbers, in the order of checks.
pub const MACHINE_FIELDS: [ShapeField; 10] = [
    ShapeField::BlockWords,
    ShapeField::Ways,
    ShapeField::Regs,
    ShapeField::Depth,
    ShapeField::Words,
    ShapeField::Sets,
    ShapeField::Banks,
    ShapeField::BankQueue,
    ShapeField::WriteQueue,
    ShapeField::Replies,
];

/// Bytes of an unknown key that are written at most.
pub const MAX_TOLD_KEY: usize = 64;

/// Why a machine file is refused.
#[derive(Debug, Drop, Error)]
#[error("{}", FaultText(self))]
pub enum MachineFault {
    /// The text is no TOML.
    NotToml,
    /// The first [`MAX_TOLD_KEY`] bytes of a key that no machine has, `?` for each that isn't
    /// printable ASCII.
    UnknownKey(String),
    /// No whole number stands at the key.
    NotWhole(ShapeField),
    /// The number is out of its range.
    OutOfRange(ShapeField),
    /// Too little memory.
    OutOfMemory,
}

impl fmt::Display for FaultText<'_, MachineFault> {
    ghost use Rattle.std.specs.Prelude.{Some};
    ghost use Rattle.shape_files.specs.MachineFile.{machine_fault_text};

    ghost output = { λ told. Some (machine_fault_text told.0.now) };

    fn fmt<W: fmt::Write>(&self, f: &mut fmt::Formatter<W>) -> fmt::Result {
        match self.0 {
            MachineFault::NotToml => f.write_str("machine: not TOML"),
            MachineFault::UnknownKey(key) => write!(f, "machine: unknown key {key}"),
            MachineFault::NotWhole(field) => {
                write!(f, "machine: {} is not a whole number", machine_key(*field))
            }
            MachineFault::OutOfRange(field) => write!(
                f,
                "machine: {} out of range: {} to {}{}",
                machine_key(*field),
                least_text(*field),
                most_of(*field),
                condition_text(*field)
            ),
            MachineFault::OutOfMemory => f.write_str("out of memory"),
        }
    }
}

impl From<AllocError> for MachineFault {
    ghost use Rattle.std.specs.Prelude.{◌≡◌};
    ghost use Rattle.shape_files.specs.declared.machine_file.MachineFault.TheVariants.{OutOfMemory};

    ghost from_gives = { λ e f. f ≡ OutOfMemory };

    fn from(_fault: AllocError) -> MachineFault {
        MachineFault::OutOfMemory
    }
}

// Two are named in full here.
fn machine_key(field: ShapeField) -> &'static str
    ensures { result.now ≡ file.machine_key field }
{
    match field {
        ShapeField::Regs => "registers",
        ShapeField::Depth => "stack",
        _ => key_of(field),
    }
}

fn least_text(field: ShapeField) -> &'static str
    ensures { result.now ≡ file.least_text field }
{
    match field {
        ShapeField::BankQueue => "block_words / banks, rounded up,",
        ShapeField::WriteQueue => "block_words",
        _ => "1",
    }
}

// The last three have no key.
fn most_of(field: ShapeField) -> u32
    ensures { result ≡ file.most_of field }
{
    match field {
        ShapeField::BlockWords => MAX_BLOCK_WORDS as u32,
        ShapeField::Ways => MAX_WAYS as u32,
        ShapeField::Regs => MAX_REGS as u32,
        ShapeField::Depth => MAX_DEPTH as u32,
        ShapeField::Words => MAX_WORDS,
        ShapeField::Sets => MAX_SETS,
        ShapeField::Banks => MAX_BANKS,
        ShapeField::BankQueue => MAX_BANK_QUEUE,
        ShapeField::WriteQueue => MAX_WRITE_QUEUE,
        ShapeField::Replies => MAX_REPLIES,
        ShapeField::Ports | ShapeField::Journal | ShapeField::Image => u32::MAX,
    }
}

fn condition_text(field: ShapeField) -> &'static str
    ensures { result.now ≡ file.condition_text field }
{
    match field {
        ShapeField::Words => ", a multiple of block_words",
        _ => "",
    }
}

/// The first number out of its range, in the order of [`MACHINE_FIELDS`]: each is 1 at least, a
/// queue a block, and at most as [`flat_model`] says. The words are whole blocks.
pub fn bad_number(sizes: &Sizes) -> Option<ShapeField>
    ensures { result ≡ file.bad_machine sizes.now }
{
    // More words than a machine of the program has are out of range, as 0 is.
    let words = if sizes.words > MAX_WORDS {
        0
    } else {
        sizes.words
    };
    cache_unit::bad_size(&Sizes { words, ..*sizes })
}

/// Reads a machine file: a TOML table of whole numbers. A missing key has the number of the
/// program's machine without a file.
///
/// Text that is no TOML is found first, then the unknown key whose bytes come first. Then what is
/// no whole number, then what is out of range, both in the order of [`MACHINE_FIELDS`]. Reading
/// takes memory, and so does an unknown key's name.
pub fn read_machine(alloc: Global, text: &str) -> Result<Sizes, MachineFault>
    ensures says { IfOk result (file.TextSays (parse_document text.now)) }
    ensures good { IfOk result (λ sizes. file.bad_machine sizes ≡ None) }
    ensures fault { IfErr result (file.TextFails text.now) }
{
    match toml::table_from_str(alloc, text) {
        Ok(table) => machine_of_table(alloc, &table),
        Err(fault) if fault.is_memory() => Err(MachineFault::OutOfMemory),
        Err(_) => Err(MachineFault::NotToml),
    }
}

/// [`read_machine`] of a TOML table. `NotToml` never comes, and `OutOfMemory` only for an unknown
/// key.
pub fn machine_of_table(alloc: Global, table: &Table) -> Result<Sizes, MachineFault>
    ensures says { IfOk result (file.TableSays (table_view table.now)) }
    ensures good { IfOk result (λ sizes. file.bad_machine sizes ≡ None) }
    ensures fault { IfErr result (file.TableFails (table_view table.now)) }
{
    if let Some(key) = other_key(table) {
        return Err(MachineFault::UnknownKey(printable(alloc, key)?));
    }
    if let Some(field) = first_not_whole(table) {
        return Err(MachineFault::NotWhole(field));
    }
    let sizes = sizes_said(table);
    match bad_number(&sizes) {
        Some(field) => Err(MachineFault::OutOfRange(field)),
        None => Ok(sizes),
    }
}

fn is_machine_key(key: &str) -> bool
    ensures { result ≡ file.is_machine_key key.now }
{
    MACHINE_FIELDS
        .iter()
        .any(|field| key == machine_key(*field))
}

fn other_key(table: &Table) -> Option<&str>
    ensures { file.other_key (table_view table.now) ≡ option_map (λ key. key.now) result }
{
    for key in table.keys() {
        if !is_machine_key(key.as_str()) {
            return Some(key.as_str());
        }
    }
    None
}

#[tactic(auto, using(std::proofs::lemmas::List::take_min))]
fn told_bytes(key: &[u8]) -> &[u8]
    ensures { result.now ≡ take MAX_TOLD_KEY key.now }
{
    &key[..MAX_TOLD_KEY.min(key.len())]
}

// In one short line, whatever its characters.
fn printable(alloc: Global, key: &str) -> Result<String, AllocError>
    ensures { IfOk result (λ text. string_bytes text ≡ file.told_key key.now) }
{
    let mut text = String::new(alloc);
    for byte in told_bytes(key.as_bytes()) {
        text.push(printable_byte(*byte))?;
    }
    Ok(text)
}

fn printable_byte(byte: u8) -> char
    ensures { result ≡ file.printable_byte byte }
{
    if 0x20 <= byte && byte <= 0x7e {
        byte as char
    } else {
        '?'
    }
}

fn is_whole_at(table: &Table, field: ShapeField) -> bool
    ensures { result ≡ file.is_whole_at (table_view table.now) field }
{
    match integer_at(table, machine_key(field)) {
        Some(Some(_)) | None => true,
        Some(None) => false,
    }
}

fn first_not_whole(table: &Table) -> Option<ShapeField>
    ensures { result ≡ file.first_not_whole (table_view table.now) }
{
    MACHINE_FIELDS
        .iter()
        .copied()
        .find(|field| !is_whole_at(table, *field))
}

fn number_at(table: &Table, field: ShapeField, default: u32) -> u32
    ensures { result ≡ file.number_at (table_view table.now) field default }
{
    match integer_at(table, machine_key(field)) {
        Some(Some(number)) => fitted(number),
        Some(None) | None => default,
    }
}

fn sizes_said(table: &Table) -> Sizes
    ensures { result ≡ file.sizes_said (table_view table.now) }
{
    let usual = DEFAULT_SHAPE.sizes();
    Sizes {
        ways: number_at(table, ShapeField::Ways, usual.ways),
        block_words: number_at(table, ShapeField::BlockWords, usual.block_words),
        regs: number_at(table, ShapeField::Regs, usual.regs),
        depth: number_at(table, ShapeField::Depth, usual.depth),
        words: number_at(table, ShapeField::Words, usual.words),
        sets: number_at(table, ShapeField::Sets, usual.sets),
        banks: number_at(table, ShapeField::Banks, usual.banks),
        bank_queue: number_at(table, ShapeField::BankQueue, usual.bank_queue),
        write_queue: number_at(table, ShapeField::WriteQueue, usual.write_queue),
        replies: number_at(table, ShapeField::Replies, usual.replies),
    }
}
