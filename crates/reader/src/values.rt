// Values: class definitions, a head, and the values inside. The laws of their meaning are in record's
// proofs/ForReader/ReadLoops.antt and ReadValues.antt.
ghost use Rattle.std.specs.Prelude.{◌≡◌, ◌+◌, ◌^◌, ◌<◌, length};
ghost use Rattle.record.specs.Model.Rows.{item_row};
ghost use Rattle.record.specs.ForReader.ReadLoops.{closes, stops, past};
ghost use Rattle.record.specs.Laws.RowLaws.{row_of};
ghost use Rattle.record.specs.Laws.KnownLaws.{Kept};
ghost use Rattle.reader.specs.Promises.{ReadyAt, StoresRows, type_rows, TypeRoom, TypeNamed, EntersHolder};
ghost use Rattle.reader.specs.Promises.{LeafFits, KeepsLeaf, holder_item, HolderFits, OpensHolder, BeginningMet, ValuesReadMet};

use crate::Spot;
use crate::definitions::definition;
use crate::heads::{Head, Leaf, TypeItem, head_at, usual_leaf};
use crate::slots::Slot;
use record::kinds::Kind;
use record::known::Known;
use record::{Group, Row};
use scalar::Refused;

// A list, map or object that is open: where it begins, how its values are counted, and its type's number, if it has a
// type.
#[derive(Clone, Copy)]
pub(crate) struct Holder {
    pub spot: Spot,
    pub group: Group,
    pub type_number: Option<u64>,
}

// How a value begins: what it opens, where it holds others, and where its values begin; or where reading is past it.
#[derive(Clone, Copy)]
pub(crate) struct Beginning {
    pub holder: Option<Holder>,
    pub next: Spot,
}

// Where reading is past the values of a group, and how many they are.
#[derive(Clone, Copy)]
pub(crate) struct ValuesRead {
    pub next: Spot,
    pub count: u64,
}

// Whether 5a stands at `at`.
#[inline(always)]
fn closed_at(message: &[u8], at: usize) -> bool
    ensures { result ≡ closes message.now at }
{
    at < message.len() && message[at] == 0x5a
}

// Whether no value of the group is left at `at`, after i of them.
#[inline(always)]
fn stop(message: &[u8], at: usize, group: Group, i: u64) -> bool
    ensures { result ≡ stops message.now group i at }
{
    match group {
        Group::Counted(count) | Group::Fields(_, count) => i == count,
        Group::Open => closed_at(message, at),
        Group::Pairs => i % 2 == 0 && closed_at(message, at),
    }
}

// The place past the group's values, which end at `at`.
#[inline(always)]
fn passed(at: usize, group: Group) -> usize
    requires { at + 1 < 2 ^ 64 }
    ensures { result ≡ past group at }
{
    match group {
        Group::Counted(_) | Group::Fields(_, _) => at,
        Group::Open | Group::Pairs => at + 1,
    }
}

// Keeps the row of the type at `here`, if there is one.
#[inline(always)]
fn keep_type<S: Slot>(message: &[u8], slots: &mut [S], here: Spot, of: TypeItem)
    requires { (here.row + length (type_rows here.at of) < 2 ^ 64) × TypeNamed message.now here.at of }
    ensures { StoresRows S.kept
        message.now (S.numbers slots.old)
        here.row (type_rows here.at of)
        (S.numbers slots.new) }
{
    let (kind, first, second) = match of {
        TypeItem::Untyped => return,
        TypeItem::Named { units, bytes } => (Kind::TypeName, units, bytes),
        TypeItem::Numbered { number } => (Kind::TypeNumber, number, 0),
    };
    let row = Row {
        kind: kind.number(),
        place: here.at as u64,
        first,
        second,
        after: (here.row + 1) as u64,
    };
    S::keep(message, slots, here.row, row);
}

// The row of a list, map or object after i values of its group, which end before the row `after`.
#[inline(always)]
fn holder_row(holder: Holder, i: u64, after: usize) -> Row
    ensures { row_of result ≡ item_row holder.spot.at after (holder_item holder i) }
{
    let (kind, first, second) = match holder.group {
        Group::Fields(class, _) => (Kind::Object, class, i),
        Group::Pairs => match holder.type_number {
            None => (Kind::Map, i / 2, 0),
            Some(number) => (Kind::TypedMap, i / 2, number),
        },
        Group::Counted(_) | Group::Open => match holder.type_number {
            None => (Kind::List, i, 0),
            Some(number) => (Kind::TypedList, i, number),
        },
    };
    Row {
        kind: kind.number(),
        place: holder.spot.at as u64,
        first,
        second,
        after: after as u64,
    }
}

// A list, map or object of this type opens: it gets the next reference number, and a type name the next type number.
// Its type's number, if it has a type.
#[inline(always)]
fn enter(known: &mut Known, of: TypeItem) -> Option<u64>
    requires { Kept known.old × (known.old.references + 1 < 2 ^ 64) × TypeRoom of known.old.types }
    ensures { EntersHolder known.old of result known.new }
{
    known.references += 1;
    match of {
        TypeItem::Untyped => None,
        TypeItem::Named { .. } => {
            let number = known.types;
            known.types += 1;
            Some(number)
        }
        TypeItem::Numbered { number } => Some(number),
    }
}

// The list, map or object at `here` opens, and its values begin at `next`.
#[inline(always)]
fn open_holder<S: Slot>(
    message: &[u8],
    slots: &mut [S],
    known: &mut Known,
    here: Spot,
    group: Group,
    next: usize,
    of: TypeItem,
) -> Beginning
    requires { HolderFits message.now known.old here next of }
    ensures { OpensHolder S.kept
        message.now (S.numbers slots.old) known.old
        here group next of
        result (S.numbers slots.new) known.new }
{
    let inner = Spot {
        at: here.at + 1,
        row: here.row + 1,
    };
    keep_type(message, slots, inner, of);
    let type_number = enter(known, of);
    let row = if type_number.is_some() {
        inner.row + 1
    } else {
        inner.row
    };
    Beginning {
        holder: Some(Holder {
            spot: here,
            group,
            type_number,
        }),
        next: Spot { at: next, row },
    }
}

// Keeps the row of the leaf at `here`, and is past it.
#[inline(always)]
fn keep_leaf<S: Slot>(message: &[u8], slots: &mut [S], here: Spot, leaf: Leaf) -> Beginning
    requires { LeafFits message.now here leaf }
    ensures { KeepsLeaf S.kept
        message.now (S.numbers slots.old)
        here leaf
        result (S.numbers slots.new) }
{
    let after = here.row + 1;
    let row = Row {
        kind: leaf.kind.number(),
        place: here.at as u64,
        first: leaf.first,
        second: leaf.second,
        after: after as u64,
    };
    S::keep(message, slots, here.row, row);
    let next = Spot {
        at: leaf.next,
        row: after,
    };
    Beginning { holder: None, next }
}

// The definitions and the head of the value at `from`, and all of it where it holds no others.
#[inline(always)]
fn begin<S: Slot>(
    message: &[u8],
    slots: &mut [S],
    known: &mut Known,
    from: Spot,
    allowed: usize,
) -> Result<Beginning, Refused>
    requires { ReadyAt message.now known.old from }
    ensures { BeginningMet S.kept
        message.now (S.numbers slots.old) known.old
        from allowed
        result (S.numbers slots.new) known.new }
{
    let mut here = from;
    loop {
        if let Some(leaf) = usual_leaf(message, here.at) {
            return Ok(keep_leaf(message, slots, here, leaf));
        }
        match head_at(message, known, here.at, allowed)? {
            Head::Definition => here = definition(message, slots, known, here)?,
            Head::Leaf(leaf) => return Ok(keep_leaf(message, slots, here, leaf)),
            Head::Holder { group, next, of } => {
                return Ok(open_holder(message, slots, known, here, group, next, of));
            }
        }
    }
}

// Reads the values of a group, the first of them at `from`, with as many more lists, maps and objects as allowed open
// within them.
pub(crate) fn read_values<S: Slot>(
    message: &[u8],
    slots: &mut [S],
    known: &mut Known,
    from: Spot,
    group: Group,
    allowed: usize,
) -> Result<ValuesRead, Refused>
    requires { ReadyAt message.now known.old from }
    ensures { ValuesReadMet S.kept
        message.now (S.numbers slots.old) known.old
        from group allowed
        result (S.numbers slots.new) known.new }
{
    let mut here = from;
    let mut i: u64 = 0;
    // No range counts the values: of the open forms only 5a tells how many they are.
    while !stop(message, here.at, group, i) {
        let begun = begin(message, slots, known, here, allowed)?;
        here = match begun.holder {
            None => begun.next,
            Some(holder) => {
                let inside = read_values(
                    message,
                    slots,
                    known,
                    begun.next,
                    holder.group,
                    allowed - 1,
                )?;
                let row = holder_row(holder, inside.count, inside.next.row);
                S::keep(message, slots, holder.spot.row, row);
                inside.next
            }
        };
        i += 1;
    }
    let next = Spot {
        at: passed(here.at, group),
        row: here.row,
    };
    Ok(ValuesRead { next, count: i })
}
