// The kinds of rows.
ghost use Rattle.std.specs.Prelude.{◌≡◌};
ghost use Rattle.scalar.specs.Scalars.{sort_kind};
ghost use Rattle.record.specs.Model.KindNumbers.{kind_number, encoding_of, Decodes};

use scalar::{Encoding, Sort};

// Their numbers are those of `enum hessian_kind` in include/hessian.h and of the definitions in specs/Model/Kinds.antt,
// to which `number` is held. Those up to Bytes hold no values, those from List to Object hold some; names are
// ClassName, FieldName and TypeName.
#[derive(Clone, Copy, PartialEq, Eq, PartialOrd, Ord)]
pub enum Kind {
    Null = 0,
    False = 1,
    True = 2,
    Int = 3,
    Long = 4,
    Double = 5,
    Date = 6,
    Text = 7,
    // A byte string.
    Bytes = 8,
    List = 9,
    TypedList = 10,
    Map = 11,
    TypedMap = 12,
    Object = 13,
    Reference = 14,
    // A class definition.
    Class = 15,
    ClassName = 16,
    FieldName = 17,
    // A type written out.
    TypeName = 18,
    // A type by number.
    TypeNumber = 19,
}

impl Kind {
    // Its number.
    pub fn number(self) -> u64
        ensures { result ≡ kind_number self }
    {
        self as u64
    }

    // How the string is held that a row of this kind names, if it names one.
    pub fn encoding(self) -> Option<Encoding>
        ensures { result ≡ encoding_of self }
    {
        match self {
            Kind::Bytes => Some(Encoding::Binary),
            Kind::Text | Kind::ClassName | Kind::FieldName | Kind::TypeName => Some(Encoding::Utf8),
            _ => None,
        }
    }
}

impl From<Kind> for u64 {
    ghost from_gives = { λ kind number. number ≡ kind_number kind };

    fn from(kind: Kind) -> u64 {
        kind.number()
    }
}

// A row's first number is that of no kind.
#[derive(Clone, Copy, PartialEq, Eq)]
pub struct NoKind;

impl TryFrom<u64> for Kind {
    type Error = NoKind;

    ghost try_from_gives = { Decodes };

    fn try_from(number: u64) -> Result<Kind, NoKind> {
        match number {
            0 => Ok(Kind::Null),
            1 => Ok(Kind::False),
            2 => Ok(Kind::True),
            3 => Ok(Kind::Int),
            4 => Ok(Kind::Long),
            5 => Ok(Kind::Double),
            6 => Ok(Kind::Date),
            7 => Ok(Kind::Text),
            8 => Ok(Kind::Bytes),
            9 => Ok(Kind::List),
            10 => Ok(Kind::TypedList),
            11 => Ok(Kind::Map),
            12 => Ok(Kind::TypedMap),
            13 => Ok(Kind::Object),
            14 => Ok(Kind::Reference),
            15 => Ok(Kind::Class),
            16 => Ok(Kind::ClassName),
            17 => Ok(Kind::FieldName),
            18 => Ok(Kind::TypeName),
            19 => Ok(Kind::TypeNumber),
            _ => Err(NoKind),
        }
    }
}

// The kind of the row of a single value.
impl From<Sort> for Kind {
    ghost from_gives = { λ sort kind. kind_number kind ≡ sort_kind sort };

    fn from(sort: Sort) -> Kind {
        match sort {
            Sort::Null => Kind::Null,
            Sort::False => Kind::False,
            Sort::True => Kind::True,
            Sort::Int => Kind::Int,
            Sort::Long => Kind::Long,
            Sort::Double => Kind::Double,
            Sort::Date => Kind::Date,
        }
    }
}
