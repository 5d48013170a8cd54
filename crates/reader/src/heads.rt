// What a value begins with, when no class definition stands before it. The laws of its meaning are in record's
// proofs/ForReader/ReadValues.antt.
ghost use Rattle.std.specs.Prelude.{◌≡◌, IfSome};
ghost use Rattle.scalar.specs.declared.Lead.TheVariants as lead;
ghost use Rattle.scalar.specs.declared.Encoding.TheVariants as encoding;
ghost use Rattle.texts.specs.Answers.{PassedMet};
ghost use Rattle.scalar.specs.Answers.{number_at};
ghost use Rattle.numbers.specs.Answers.{passed};
ghost use Rattle.record.specs.Laws.KnownLaws.{known_in};
ghost use Rattle.reader.specs.Promises.{PlaceIn, LeadAt, NoName, IsListOrMap};
ghost use Rattle.reader.specs.Promises.{CountMet, TypeReadMet, ListAt, ListMet, instance_of};
ghost use Rattle.reader.specs.Promises.{LeafHeadMet, PlainHeadMet, HolderHeadMet, HeadIs, HeadAtMet, UsualLeaf};

use numbers::NumberPassed;
use record::Group;
use record::kinds::Kind;
use record::known::Known;
use record::limits::TYPES;
use scalar::{Encoding, Lead, Refusal, Refused, Sort};
use texts::StringPassed;

// The message and a place stay two parameters, and what stands there a clause, since each call has another place and
// the laws speak of a place of the whole message: a struct of both would be made for one call and taken apart in it.

// The type of a list or map: none; a name, by its units and bytes; a number.
#[derive(Clone, Copy)]
pub(crate) enum TypeItem {
    Untyped,
    Named { units: u64, bytes: u64 },
    Numbered { number: u64 },
}

// A type, and the place past it.
#[derive(Clone, Copy)]
pub(crate) struct TypeRead {
    pub of: TypeItem,
    pub next: usize,
}

// A value with no values inside: its row, and the place past it.
#[derive(Clone, Copy)]
pub(crate) struct Leaf {
    pub kind: Kind,
    pub first: u64,
    pub second: u64,
    pub next: usize,
}

// A value's head.
#[derive(Clone, Copy)]
pub(crate) enum Head {
    // A value with no values inside.
    Leaf(Leaf),
    // A list, map or object: how its values are counted, where they begin, and its type.
    Holder {
        group: Group,
        next: usize,
        of: TypeItem,
    },
    // A class definition stands before the value.
    Definition,
}

// The count at `at`. A negative one is refused.
pub(crate) fn count_at(message: &[u8], at: usize) -> Result<NumberPassed, Refused>
    requires { PlaceIn message.now at }
    ensures { CountMet message.now at result }
{
    let count = numbers::pass_number(Sort::Int, message, at)?;
    if count.value < 0x8000_0000_0000_0000 {
        Ok(count)
    } else {
        Err(Refused {
            refusal: Refusal::Negative,
            place: at,
        })
    }
}

// The type name at `at`, which gets the next type number, where so many types are given.
fn named_type(message: &[u8], given: u64, at: usize) -> Result<TypeRead, Refused>
    requires { LeadAt message.now at lead.Text }
    ensures { TypeReadMet message.now given at result }
{
    if TYPES <= given {
        return Err(Refused {
            refusal: Refusal::Ceiling,
            place: at,
        });
    }
    let name = texts::pass_string(Encoding::Utf8, message, at)?;
    Ok(TypeRead {
        of: TypeItem::Named {
            units: name.units as u64,
            bytes: name.bytes as u64,
        },
        next: at + name.size,
    })
}

// The type number at `at`, where no type name stands.
fn numbered_type(message: &[u8], given: u64, at: usize) -> Result<TypeRead, Refused>
    requires { NoName message.now at }
    ensures { TypeReadMet message.now given at result }
{
    let number = numbers::pass_number(Sort::Int, message, at)?;
    if given <= number.value {
        return Err(Refused {
            refusal: Refusal::Ungiven,
            place: at,
        });
    }
    Ok(TypeRead {
        of: TypeItem::Numbered {
            number: number.value,
        },
        next: at + number.size,
    })
}

// The type at `at`.
fn type_at(message: &[u8], given: u64, at: usize) -> Result<TypeRead, Refused>
    requires { PlaceIn message.now at }
    ensures { TypeReadMet message.now given at result }
{
    if message.len() <= at {
        return Err(Refused {
            refusal: Refusal::Cut,
            place: at,
        });
    }
    if numbers::chart::entry(message[at]) / 10 == 7 {
        return named_type(message, given, at);
    }
    numbered_type(message, given, at)
}

// The head of a number of this kind.
fn number_head(message: &[u8], at: usize, sort: Sort) -> Result<Head, Refused>
    requires { LeadAt message.now at (lead.Number sort) }
    ensures { LeafHeadMet message.now at result }
{
    let number = numbers::pass_number(sort, message, at)?;
    Ok(Head::Leaf(Leaf {
        kind: Kind::from(sort),
        first: number.value,
        second: 0,
        next: at + number.size,
    }))
}

// The head of a text.
fn text_head(message: &[u8], at: usize) -> Result<Head, Refused>
    requires { LeadAt message.now at lead.Text }
    ensures { LeafHeadMet message.now at result }
{
    let text = texts::pass_string(Encoding::Utf8, message, at)?;
    Ok(Head::Leaf(Leaf {
        kind: Kind::Text,
        first: text.units as u64,
        second: text.bytes as u64,
        next: at + text.size,
    }))
}

// The head of a byte string.
fn bytes_head(message: &[u8], at: usize) -> Result<Head, Refused>
    requires { LeadAt message.now at lead.Bytes }
    ensures { LeafHeadMet message.now at result }
{
    let string = texts::pass_string(Encoding::Binary, message, at)?;
    Ok(Head::Leaf(Leaf {
        kind: Kind::Bytes,
        first: string.bytes as u64,
        second: 0,
        next: at + string.size,
    }))
}

// The head of a reference.
fn reference_head(message: &[u8], known: &Known, at: usize) -> Result<Head, Refused>
    requires { LeadAt message.now at lead.Reference }
    ensures { PlainHeadMet message.now (known_in known.now) at result }
{
    let number = numbers::pass_number(Sort::Int, message, at + 1)?;
    if known.references <= number.value {
        return Err(Refused {
            refusal: Refusal::Ungiven,
            place: at,
        });
    }
    Ok(Head::Leaf(Leaf {
        kind: Kind::Reference,
        first: number.value,
        second: 0,
        next: at + 1 + number.size,
    }))
}

// A list of this type, by its first byte b: `open_code` is the code of the open form, the next one that of the counted
// form, and those from `few` on are the one-byte forms. Its count or its values are at `at`.
#[inline(always)]
fn list_of(
    message: &[u8],
    at: usize,
    of: TypeItem,
    b: u8,
    open_code: u8,
    few: u8,
) -> Result<Head, Refused>
    requires { ListAt message.now at b open_code few }
    ensures { ListMet message.now at of b open_code few result }
{
    if b == open_code {
        return Ok(Head::Holder {
            group: Group::Open,
            next: at,
            of,
        });
    }
    if b == open_code + 1 {
        let count = count_at(message, at)?;
        return Ok(Head::Holder {
            group: Group::Counted(count.value),
            next: at + count.size,
            of,
        });
    }
    Ok(Head::Holder {
        group: Group::Counted(u64::from(b - few)),
        next: at,
        of,
    })
}

// The head of an untyped list.
#[inline(always)]
fn list_head(message: &[u8], known: &Known, at: usize) -> Result<Head, Refused>
    requires { LeadAt message.now at lead.List }
    ensures { HolderHeadMet message.now (known_in known.now) at result }
{
    list_of(message, at + 1, TypeItem::Untyped, message[at], 0x57, 0x78)
}

// The head of a typed list.
fn typed_list_head(message: &[u8], known: &Known, at: usize) -> Result<Head, Refused>
    requires { LeadAt message.now at lead.TypedList }
    ensures { HolderHeadMet message.now (known_in known.now) at result }
{
    let read = type_at(message, known.types, at + 1)?;
    list_of(message, read.next, read.of, message[at], 0x55, 0x70)
}

// The head of a typed map.
fn typed_map_head(message: &[u8], known: &Known, at: usize) -> Result<Head, Refused>
    requires { LeadAt message.now at lead.TypedMap }
    ensures { HolderHeadMet message.now (known_in known.now) at result }
{
    let read = type_at(message, known.types, at + 1)?;
    Ok(Head::Holder {
        group: Group::Pairs,
        next: read.next,
        of: read.of,
    })
}

// An object of this class, whose code stands at `at` and whose fields begin at `next`.
fn instance(known: &Known, at: usize, class: u64, next: usize) -> Result<Head, Refused>
    ensures { result ≡ instance_of (known_in known.now) at class next }
{
    match known.fields_of(class) {
        Some(fields) => Ok(Head::Holder {
            group: Group::Fields(class, fields),
            next,
            of: TypeItem::Untyped,
        }),
        None => Err(Refused {
            refusal: Refusal::Ungiven,
            place: at,
        }),
    }
}

// The head of an object.
fn object_head(message: &[u8], known: &Known, at: usize) -> Result<Head, Refused>
    requires { LeadAt message.now at lead.Object }
    ensures { HolderHeadMet message.now (known_in known.now) at result }
{
    let b = message[at];
    if b == 0x4f {
        let class = numbers::pass_number(Sort::Int, message, at + 1)?;
        return instance(known, at, class.value, at + 1 + class.size);
    }
    instance(known, at, u64::from(b - 0x60), at + 1)
}

// The head of a list or map, where as many as allowed may still open.
#[inline(always)]
fn opening(
    message: &[u8],
    known: &Known,
    at: usize,
    allowed: usize,
    l: Lead,
) -> Result<Head, Refused>
    requires { LeadAt message.now at l × IsListOrMap l }
    ensures { HeadIs message.now (known_in known.now) at allowed result }
{
    if allowed == 0 {
        return Err(Refused {
            refusal: Refusal::Ceiling,
            place: at,
        });
    }
    match l {
        Lead::List => list_head(message, known, at),
        Lead::TypedList => typed_list_head(message, known, at),
        Lead::Map => Ok(Head::Holder {
            group: Group::Pairs,
            next: at + 1,
            of: TypeItem::Untyped,
        }),
        _ => typed_map_head(message, known, at),
    }
}

// The number of this kind at `at`, as it was read, where it is whole. Its answer is an Option, which has no place that it
// shares with a refusal: so a number stays in registers up to its row.
#[inline(always)]
fn whole_number(
    message: &[u8],
    at: usize,
    sort: Sort,
    read: Result<NumberPassed, Refused>,
) -> Option<Leaf>
    requires { LeadAt message.now at (lead.Number sort) × (passed read ≡ number_at sort message.now at) }
    ensures { IfSome result (UsualLeaf message.now at) }
{
    match read {
        Ok(number) => Some(Leaf {
            kind: Kind::from(sort),
            first: number.value,
            second: 0,
            next: at + number.size,
        }),
        Err(_) => None,
    }
}

// The number of this kind at `at`, where it is whole, by the forms whose first byte is below 0x80.
#[inline(always)]
fn low_number(message: &[u8], at: usize, sort: Sort) -> Option<Leaf>
    requires { LeadAt message.now at (lead.Number sort) }
    ensures { IfSome result (UsualLeaf message.now at) }
{
    match sort {
        Sort::Null | Sort::False | Sort::True => {
            whole_number(
                message,
                at,
                sort,
                numbers::direct::pass_single(sort, message, at),
            )
        }
        Sort::Int => whole_number(
            message,
            at,
            sort,
            numbers::direct::pass_wide_int(message, at),
        ),
        Sort::Long => whole_number(
            message,
            at,
            sort,
            numbers::direct::pass_wide_long(message, at),
        ),
        Sort::Double => whole_number(message, at, sort, numbers::direct::pass_double(message, at)),
        Sort::Date => whole_number(message, at, sort, numbers::direct::pass_date(message, at)),
    }
}

// The text at `at`, as it was read, where it is whole.
#[inline(always)]
fn whole_text(message: &[u8], at: usize, read: Result<StringPassed, Refused>) -> Option<Leaf>
    requires { LeadAt message.now at lead.Text × PassedMet encoding.Utf8 message.now at read }
    ensures { IfSome result (UsualLeaf message.now at) }
{
    match read {
        Ok(text) => Some(Leaf {
            kind: Kind::Text,
            first: text.units as u64,
            second: text.bytes as u64,
            next: at + text.size,
        }),
        Err(_) => None,
    }
}

// The byte string at `at`, as it was read, where it is whole.
#[inline(always)]
fn whole_bytes(message: &[u8], at: usize, read: Result<StringPassed, Refused>) -> Option<Leaf>
    requires { LeadAt message.now at lead.Bytes × PassedMet encoding.Binary message.now at read }
    ensures { IfSome result (UsualLeaf message.now at) }
{
    match read {
        Ok(string) => Some(Leaf {
            kind: Kind::Bytes,
            first: string.bytes as u64,
            second: 0,
            next: at + string.size,
        }),
        Err(_) => None,
    }
}

// The value at `at`, if it is a number, a text of up to 31 units or a byte string, and whole: what most values are. The
// others, and every refusal, are told by head_at.
#[inline(always)]
pub(crate) fn usual_leaf(message: &[u8], at: usize) -> Option<Leaf>
    requires { PlaceIn message.now at }
    ensures { IfSome result (UsualLeaf message.now at) }
{
    if message.len() <= at {
        return None;
    }
    let b = message[at];
    if 0xd8 <= b {
        return whole_number(
            message,
            at,
            Sort::Long,
            numbers::direct::pass_long(message, at),
        );
    }
    if 0x80 <= b {
        return whole_number(
            message,
            at,
            Sort::Int,
            numbers::direct::pass_int(message, at),
        );
    }
    if b < 0x20 {
        return whole_text(message, at, texts::pass_text(message, at));
    }
    match numbers::chart::classify(b) {
        Lead::Number(sort) => low_number(message, at, sort),
        Lead::Bytes => {
            whole_bytes(
                message,
                at,
                texts::pass_string(Encoding::Binary, message, at),
            )
        }
        _ => None,
    }
}

// What stands at `at`: a class definition, or the head of a value,// What stands at `at`: a class definition, or the head of a value, where as many lists, maps and objects as allowed may
// still open.
#[inline(always)]
pub(crate) fn head_at(
    message: &[u8],
    known: &Known,
    at: usize,
    allowed: usize,
) -> Result<Head, Refused>
    requires { PlaceIn message.now at }
    ensures { HeadAtMet message.now (known_in known.now) at allowed result }
{
    if message.len() <= at {
        return Err(Refused {
            refusal: Refusal::Cut,
            place: at,
        });
    }
    let l = numbers::chart::classify(message[at]);
    match l {
        Lead::Number(sort) => number_head(message, at, sort),
        Lead::Text => text_head(message, at),
        Lead::Bytes => bytes_head(message, at),
        Lead::Reference => reference_head(message, known, at),
        Lead::Definition => Ok(Head::Definition),
        Lead::Close | Lead::Reserved => Err(Refused {
            refusal: Refusal::Byte,
            place: at,
        }),
        Lead::Object => {
            if allowed == 0 {
                return Err(Refused {
                    refusal: Refusal::Ceiling,
                    place: at,
                });
            }
            object_head(message, known, at)
        }
        _ => opening(message, known, at, allowed, l),
    }
}
