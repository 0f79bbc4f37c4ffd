//! Figures with names, as a row of a table and as an object.

ghost use Rattle.std.specs.Prelude.{◌≡◌, Some, map, ◌++◌, codes};
ghost use Rattle.std.specs.List.{flat_map};
ghost use Rattle.std.specs.Fmt.{WritesOnOk};
ghost use Rattle.named_fields.specs.Formats as formats;
ghost use Rattle.named_fields.specs.Formats.{said, joined_fields, absent, counted, counted_if, worded, written, numbers, bytes};

use crate::figures::Figure;
use std::fmt;

/// A figure with its name: letters, digits and `_`.
#[derive(Clone, Copy, Default)]
pub struct Field<'a> {
    /// The name.
    pub name: &'static str,
    /// What it says.
    pub figure: Figure<'a>,
}

impl<'a> Field<'a> {
    /// A field that doesn't apply.
    pub fn missing(name: &'static str) -> Field<'a>
        ensures { said result ≡ absent name.now }
    {
        Field {
            name,
            figure: Figure::Missing,
        }
    }

    /// A number.
    pub fn count(name: &'static str, n: u64) -> Field<'a>
        ensures { said result ≡ counted name.now n }
    {
        Field {
            name,
            figure: Figure::Count(u128::from(n)),
        }
    }

    /// A number, if there is one.
    pub fn count_if(name: &'static str, n: Option<u64>) -> Field<'a>
        ensures { said result ≡ counted_if name.now n }
    {
        match n {
            None => Field::missing(name),
            Some(n) => Field::count(name, n),
        }
    }

    /// A name: letters, digits, `_` and spaces.
    pub fn called(name: &'static str, word: &'static str) -> Field<'a>
        ensures { said result ≡ worded name.now word.now }
    {
        Field {
            name,
            figure: Figure::Name(word),
        }
    }

    /// A text, in which any byte may stand.
    pub fn quoted(name: &'static str, text: &'a [u8]) -> Field<'a>
        ensures { said result ≡ written name.now text.now }
    {
        Field {
            name,
            figure: Figure::Quoted(text),
        }
    }

    /// Numbers, in their order.
    pub fn numbers(name: &'static str, list: &'a [u16]) -> Field<'a>
        ensures { said result ≡ numbers name.now list.now }
    {
        Field {
            name,
            figure: Figure::Numbers(list),
        }
    }

    /// Bytes, in their order.
    pub fn bytes(name: &'static str, list: &'a [u8]) -> Field<'a>
        ensures { said result ≡ bytes name.now list.now }
    {
        Field {
            name,
            figure: Figure::Bytes(list),
        }
    }
}

/// The names of fields, with commas between them: the first line of a table.
#[derive(Clone, Copy)]
pub struct Header<'a>(pub &'a [Field<'a>]);

impl<'a> fmt::Display for Header<'a> {
    ghost output = { λ header. Some (formats.header_text (map said header.0.now)) };

    fn fmt<W: fmt::Write>(&self, f: &mut fmt::Formatter<W>) -> fmt::Result {
        write_header(f, self.0)
    }
}

// The names.
#[tactic(auto, unfolding(crate::specs::Formats::joined_fields))]
fn write_header<W: fmt::Write>(f: &mut fmt::Formatter<W>, fields: &[Field<'_>]) -> fmt::Result
    ensures { WritesOnOk W.write_str_gives f.old result (joined_fields formats.name_text fields.now) f.new }
{
    match fields {
        [] => Ok(()),
        [first, rest @ ..] => {
            f.write_str(first.name)?;
            write_names(f, rest)
        }
    }
}

// The names behind the first.
fn write_names<W: fmt::Write>(f: &mut fmt::Formatter<W>, fields: &[Field<'_>]) -> fmt::Result
    ensures { WritesOnOk W.write_str_gives f.old result (flat_map (λ g. codes "," ++ formats.name_text (said g)) fields.now) f.new }
{
    for field in fields {
        write!(f, ",{}", field.name)?;
    }
    Ok(())
}

/// The figures of fields, with commas between them: a line of a table.
#[derive(Clone, Copy)]
pub struct Values<'a>(pub &'a [Field<'a>]);

impl<'a> fmt::Display for Values<'a> {
    ghost output = { λ values. Some (formats.row_text (map said values.0.now)) };

    fn fmt<W: fmt::Write>(&self, f: &mut fmt::Formatter<W>) -> fmt::Result {
        write_row(f, self.0)
    }
}

// The figures.
#[tactic(auto, unfolding(crate::specs::Formats::joined_fields))]
fn write_row<W: fmt::Write>(f: &mut fmt::Formatter<W>, fields: &[Field<'_>]) -> fmt::Result
    ensures { WritesOnOk W.write_str_gives f.old result (joined_fields formats.figure_text fields.now) f.new }
{
    match fields {
        [] => Ok(()),
        [first, rest @ ..] => {
            write!(f, "{}", first.figure)?;
            write_figures(f, rest)
        }
    }
}

// The figures behind the first.
fn write_figures<W: fmt::Write>(f: &mut fmt::Formatter<W>, fields: &[Field<'_>]) -> fmt::Result
    ensures { WritesOnOk W.write_str_gives f.old result (flat_map (λ g. codes "," ++ formats.figure_text (said g)) fields.now) f.new }
{
    for field in fields {
        write!(f, ",{}", field.figure)?;
    }
    Ok(())
}

/// A field as a member of an object of JSON.
#[derive(Clone, Copy)]
pub struct Member<'a>(pub Field<'a>);

impl<'a> fmt::Display for Member<'a> {
    ghost output = { λ member. Some (formats.member_text (said member.0)) };

    fn fmt<W: fmt::Write>(&self, f: &mut fmt::Formatter<W>) -> fmt::Result {
        let name = self.0.name;
        let value = self.0.figure;
        write!(f, "\"{name}\":{value}")
    }
}

/// Fields as members of an object, with commas between them and no braces.
#[derive(Clone, Copy)]
pub struct Members<'a>(pub &'a [Field<'a>]);

impl<'a> fmt::Display for Members<'a> {
    ghost output = { λ members. Some (joined_fields formats.member_text members.0.now) };

    #[tactic(auto, unfolding(crate::specs::Formats::joined_fields))]
    fn fmt<W: fmt::Write>(&self, f: &mut fmt::Formatter<W>) -> fmt::Result {
        match self.0 {
            [] => Ok(()),
            [first, rest @ ..] => {
                write!(f, "{}", Member(*first))?;
                write_members(f, rest)
            }
        }
    }
}

// The members behind the first.
fn write_members<W: fmt::Write>(f: &mut fmt::Formatter<W>, fields: &[Field<'_>]) -> fmt::Result
    ensures { WritesOnOk W.write_str_gives f.old result (flat_map (λ g. codes "," ++ formats.member_text (said g)) fields.now) f.new }
{
    for field in fields {
        let member = Member(*field);
        write!(f, ",{member}")?;
    }
    Ok(())
}

/// Fields as an object of JSON, on one line.
#[derive(Clone, Copy)]
pub struct Object<'a>(pub &'a [Field<'a>]);

impl<'a> fmt::Display for Object<'a> {
    ghost output = { λ object. Some (formats.object_text (map said object.0.now)) };

    fn fmt<W: fmt::Write>(&self, f: &mut fmt::Formatter<W>) -> fmt::Result {
        write_object(f, self.0)
    }
}

// The object.
fn write_object<W: fmt::Write>(f: &mut fmt::Formatter<W>, fields: &[Field<'_>]) -> fmt::Result
    ensures { WritesOnOk W.write_str_gives f.old result (codes "{" ++ (joined_fields formats.member_text fields.now ++ codes "}")) f.new }
{
    let members = Members(fields);
    write!(f, "{{{members}}}")
}
