// Class definitions. The laws of their meaning are in record's proofs/ForReader/ReadDefinitions.antt.
ghost use Rattle.std.specs.Prelude.{◌+◌, ◌^◌, ◌<◌};
ghost use Rattle.scalar.specs.declared.Lead.TheVariants as lead;
ghost use Rattle.record.specs.Laws.KnownLaws.{Kept, known_in};
ghost use Rattle.reader.specs.Promises.{PlaceIn, ReadyAt, LeadAt};
ghost use Rattle.reader.specs.Promises.{FieldCountMet, ClassReadMet, NamesReadMet, DefinitionReadMet};

use crate::Spot;
use crate::heads::count_at;
use crate::slots::Slot;
use numbers::NumberPassed;
use record::Row;
use record::kinds::Kind;
use record::known::Known;
use record::limits::{CLASSES, FIELDS};
use scalar::{Encoding, Refusal, Refused};

// A class's name, by its units and bytes, its number of fields, and where their names begin.
#[derive(Clone, Copy)]
pub(crate) struct ClassRead {
    pub units: u64,
    pub bytes: u64,
    pub fields: usize,
    pub next: usize,
}

// The field count at `at`.
fn field_count(message: &[u8], at: usize) -> Result<NumberPassed, Refused>
    requires { PlaceIn message.now at }
    ensures { FieldCountMet message.now at result }
{
    let count = count_at(message, at)?;
    if FIELDS < count.value {
        return Err(Refused {
            refusal: Refusal::Ceiling,
            place: at,
        });
    }
    Ok(count)
}

// The class name and the field count of the definition at `at`.
fn class_head(message: &[u8], known: &Known, at: usize) -> Result<ClassRead, Refused>
    requires { LeadAt message.now at lead.Definition × Kept known.now }
    ensures { ClassReadMet message.now (known_in known.now) at result }
{
    if CLASSES <= known.classes {
        return Err(Refused {
            refusal: Refusal::Ceiling,
            place: at,
        });
    }
    let name = texts::pass_string(Encoding::Utf8, message, at + 1)?;
    let past = at + 1 + name.size;
    let count = field_count(message, past)?;
    Ok(ClassRead {
        units: name.units as u64,
        bytes: name.bytes as u64,
        fields: count.value as usize,
        next: past + count.size,
    })
}

// So many field names from `from` on: where reading is past them.
fn field_names<S: Slot>(
    message: &[u8],
    slots: &mut [S],
    from: Spot,
    count: usize,
) -> Result<Spot, Refused>
    requires { PlaceIn message.now from.at × (from.row + count < 2 ^ 64) }
    ensures { NamesReadMet S.kept
        message.now (S.numbers slots.old)
        from count
        result (S.numbers slots.new) }
{
    let mut here = from.at;
    for row in from.row..from.row + count {
        let name = texts::pass_string(Encoding::Utf8, message, here)?;
        let kept = Row {
            kind: Kind::FieldName as u64,
            place: here as u64,
            first: name.units as u64,
            second: name.bytes as u64,
            after: (row + 1) as u64,
        };
        S::keep(message, slots, row, kept);
        here += name.size;
    }
    Ok(Spot {
        at: here,
        row: from.row + count,
    })
}

// The definition at `here`: its class gets the next number when its field names are read. Where reading is past it.
pub(crate) fn definition<S: Slot>(
    message: &[u8],
    slots: &mut [S],
    known: &mut Known,
    here: Spot,
) -> Result<Spot, Refused>
    requires { LeadAt message.now here.at lead.Definition × ReadyAt message.now known.old here }
    ensures { DefinitionReadMet S.kept
        message.now (S.numbers slots.old) known.old
        here
        result (S.numbers slots.new) known.new }
{
    let class = class_head(message, known, here.at)?;
    let names = Spot {
        at: class.next,
        row: here.row + 2,
    };
    let end = field_names(message, slots, names, class.fields)?;
    let name = Row {
        kind: Kind::ClassName as u64,
        place: (here.at + 1) as u64,
        first: class.units,
        second: class.bytes,
        after: names.row as u64,
    };
    S::keep(message, slots, here.row + 1, name);
    let opening = Row {
        kind: Kind::Class as u64,
        place: here.at as u64,
        first: class.fields as u64,
        second: 0,
        after: end.row as u64,
    };
    S::keep(message, slots, here.row, opening);
    known.define(class.fields as u64);
    Ok(end)
}
