//! What shape texts, machine texts and tables are read as.

use super::sweeps::with_registers;
use flat_model::{Shape, ShapeField};
use shape_files::{
    ShapeFault, ToolShape, machine_of_table, read_machine, read_shape, shape_of_table,
};
use std::test::Fail;

const SHAPE: Shape = Shape {
    words: 64,
    sets: 4,
    banks: 4,
    bank_queue: 8,
    write_queue: 8,
    replies: 8,
};

const DEFAULTS: ToolShape = ToolShape {
    shape: SHAPE,
    ways: 2,
    regs: 4,
};

const TWO_REGISTERS: ToolShape = ToolShape {
    shape: SHAPE,
    ways: 2,
    regs: 2,
};

const TEXTS: [(&str, Result<ToolShape, ShapeFault>); 16] = [
    ("", Ok(DEFAULTS)),
    ("regs = 2", Ok(TWO_REGISTERS)),
    ("regs = 3", Err(ShapeFault::BadShape(ShapeField::Regs))),
    ("words = 30", Err(ShapeFault::BadShape(ShapeField::Words))),
    ("sets = \"4\"", Err(ShapeFault::NotWhole(ShapeField::Sets))),
    ("depth = 4", Err(ShapeFault::UnknownKey)),
    ("regs =", Err(ShapeFault::NotToml)),
    ("sets = 4.0", Err(ShapeFault::NotWhole(ShapeField::Sets))),
    ("banks = 99999999999999999999", Err(ShapeFault::NotToml)),
    (
        "banks = 9999999999",
        Err(ShapeFault::BadShape(ShapeField::Banks)),
    ),
    (
        "replies = -1",
        Err(ShapeFault::BadShape(ShapeField::Replies)),
    ),
    (
        "[sets]\nways = 1",
        Err(ShapeFault::NotWhole(ShapeField::Sets)),
    ),
    ("sets.ways = 1", Err(ShapeFault::NotWhole(ShapeField::Sets))),
    ("[other]", Err(ShapeFault::UnknownKey)),
    (
        "words = 0\nsets = true",
        Err(ShapeFault::NotWhole(ShapeField::Sets)),
    ),
    (
        "words = 0\nways = 3",
        Err(ShapeFault::BadShape(ShapeField::Ways)),
    ),
];

#[test]
fn shape_texts(rt: HostRuntime) -> Result<(), Fail> {
    let alloc = rt.alloc();
    for (text, wanted) in TEXTS {
        assert_eq!(rt; read_shape(alloc, text), wanted, "{text}");
    }
    let table = toml::table_from_str(alloc, "regs = 2")?;
    assert_eq!(rt; shape_of_table(&table), Ok(with_registers(2)));
    let mut long = "# one of many lines\n".repeat(alloc, 100_000)?;
    long.push_str("regs = 2\n")?;
    assert_eq!(rt; read_shape(alloc, long.as_str()), Ok(TWO_REGISTERS));
    Ok(())
}

const REFUSED: [(&str, &str); 9] = [
    ("ways =", "machine: not TOML"),
    ("regs = 4", "machine: unknown key regs"),
    ("\"a\\nb\u{e9}\" = 1", "machine: unknown key a?b??"),
    ("z = 1\ndepth = 4", "machine: unknown key depth"),
    (
        "a_key_of_sixty_five_bytes_of_which_the_last_one_is_never_told_toX = 1",
        "machine: unknown key a_key_of_sixty_five_bytes_of_which_the_last_one_is_never_told_to",
    ),
    (
        "words = 0\nstack = true",
        "machine: stack is not a whole number",
    ),
    (
        "ways = 0\nblock_words = 0",
        "machine: block_words out of range: 1 to 16",
    ),
    (
        "block_words = 3",
        "machine: words out of range: 1 to 1048576, a multiple of block_words",
    ),
    (
        "words = 4294967296",
        "machine: words out of range: 1 to 1048576, a multiple of block_words",
    ),
];

#[test]
fn machine_texts(rt: HostRuntime) -> Result<(), Fail> {
    let alloc = rt.alloc();
    assert_eq!(rt; read_machine(alloc, "").ok(), Some(DEFAULTS.sizes()));
    let table = toml::table_from_str(alloc, "registers = 2")?;
    let two = machine_of_table(alloc, &table);
    assert_eq!(rt; two.ok(), Some(TWO_REGISTERS.sizes()));
    let six = read_machine(alloc, "registers = 6\nstack = 9\nblock_words = 8\nways = 3")?;
    assert_eq!(rt; (six.regs, six.depth, six.block_words), (6, 9, 8));
    assert_eq!(rt; (six.ways, six.words, six.shape()), (3, 64, SHAPE));
    for (text, told) in REFUSED {
        match read_machine(alloc, text) {
            Ok(_) => assert_eq!(rt; "", told, "{text}"),
            Err(fault) => {
                let line = format!(in alloc; "{fault}")?;
                assert_eq!(rt; line.as_str(), told);
            }
        }
    }
    Ok(())
}
