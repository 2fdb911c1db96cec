// The names of kinds, and of a child's position under its parent.
use std::fmt;

// A kind, by its number in a table.
#[derive(Clone, Copy)]
pub struct Kind(pub u8);

impl fmt::Display for Kind {
    fn fmt<W: fmt::Write>(&self, f: &mut fmt::Formatter<W>) -> fmt::Result {
        let name = match self.0 {
            0 => "bool",
            1 => "i8",
            2 => "i16",
            3 => "i32",
            4 => "i64",
            5 => "u8",
            6 => "u16",
            7 => "u32",
            8 => "u64",
            9 => "f32",
            10 => "f64",
            11 => "char",
            12 => "text",
            13 => "bytes",
            14 => "unit",
            15 => "option",
            16 => "sequence",
            17 => "map",
            18 => "struct",
            19 => "enum",
            20 => "fixed i16 little-endian",
            21 => "fixed i32 little-endian",
            22 => "fixed i64 little-endian",
            23 => "fixed u16 little-endian",
            24 => "fixed u32 little-endian",
            25 => "fixed u64 little-endian",
            26 => "fixed i16 big-endian",
            27 => "fixed i32 big-endian",
            28 => "fixed i64 big-endian",
            29 => "fixed u16 big-endian",
            30 => "fixed u32 big-endian",
            31 => "fixed u64 big-endian",
            _ => "",
        };
        write!(f, "{name}")
    }
}

// How an item of a kind holds others.
#[derive(Clone, Copy)]
pub enum Form {
    Leaf,
    Option,
    Sequence,
    Map,
    Struct,
    Enum,
}

impl From<Kind> for Form {
    fn from(kind: Kind) -> Form {
        match kind.0 {
            15 => Form::Option,
            16 => Form::Sequence,
            17 => Form::Map,
            18 => Form::Struct,
            19 => Form::Enum,
            _ => Form::Leaf,
        }
    }
}

// A child's position under its parent; a leaf has no child.
#[derive(Clone, Copy)]
pub enum Position {
    Content,
    Element,
    Key,
    Value,
    Field(u64),
    Variant(u64),
    Nowhere,
}

impl Position {
    // The position of the child k of an item of a kind.
    pub fn of(kind: Kind, k: u64) -> Position {
        match Form::from(kind) {
            Form::Leaf => Position::Nowhere,
            Form::Option => Position::Content,
            Form::Sequence => Position::Element,
            Form::Map if k % 2 == 0 => Position::Key,
            Form::Map => Position::Value,
            Form::Struct => Position::Field(k),
            Form::Enum => Position::Variant(k),
        }
    }
}

impl fmt::Display for Position {
    fn fmt<W: fmt::Write>(&self, f: &mut fmt::Formatter<W>) -> fmt::Result {
        match self {
            Position::Content => write!(f, "content"),
            Position::Element => write!(f, "element"),
            Position::Key => write!(f, "key"),
            Position::Value => write!(f, "value"),
            Position::Field(k) => write!(f, "field {k}"),
            Position::Variant(k) => write!(f, "variant {k}"),
            Position::Nowhere => Ok(()),
        }
    }
}
