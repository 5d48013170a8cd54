// Class definitions. The laws of what is written of them are in record's proofs/ForWriter/WrittenNames.antt
// and WrittenValues.antt.
ghost use Rattle.std.specs.Prelude.{◌≡◌, ◌+◌};
ghost use Rattle.record.specs.Model.Kinds.{class_kind};
ghost use Rattle.writer.specs.Promises.{items_of, Among, WritableIn, TurnIn, ClassWritten, DefinitionWritten};
ghost use Rattle.writer.specs.Promises.{DefinitionsWritten};

use crate::names::{put_field_names, put_name};
use crate::progress::{NoRecord, Progress, Turn};
use crate::puts::{put_byte, put_int};
use crate::rows::fetch;
use crate::size::Size;
use crate::table::Table;
use record::kinds::Kind;
use record::known::Known;
use record::limits::{CLASSES, FIELDS};
use record::tables::Cell;

// The code, the name and the count of a class of so many fields, whose row comes next.
fn put_class<C: Cell>(
    table: &Table<C>,
    out: &mut [u8],
    fields: u64,
    at: Progress,
) -> Result<Size, NoRecord>
    requires { Among (items_of table.now) (at.next + 1) }
    ensures { ClassWritten table.now out.old fields at result out.new }
{
    let coded = Progress {
        next: at.next + 1,
        size: put_byte(out, 0x43, at.size),
    };
    let named = put_name(table, out, Kind::ClassName, coded)?;
    put_int(out, fields, named)
}

// The class definition of a row.
fn put_definition<C: Cell>(
    table: &Table<C>,
    known: &mut Known,
    out: &mut [u8],
    class: Turn,
) -> Result<Progress, NoRecord>
    requires turn { TurnIn table.now known.old class }
    requires kind { class.row.kind ≡ class_kind }
    ensures { DefinitionWritten table.now known.old out.old class result known.new out.new }
{
    let fields = class.row.first;
    if class.row.second != 0 {
        return Err(NoRecord);
    }
    if CLASSES <= known.classes {
        return Err(NoRecord);
    }
    if FIELDS < fields {
        return Err(NoRecord);
    }
    let named = put_class(table, out, fields, class.at)?;
    let first = class.at.next + 2;
    let names = Progress {
        next: first,
        size: named,
    };
    let size = put_field_names(table, out, fields, names)?;
    known.define(fields);
    let next = first + fields as usize;
    Ok(Progress { next, size })
}

// The class definitions that come next, up to the row of the value after them.
pub(crate) fn put_definitions<C: Cell>(
    table: &Table<C>,
    known: &mut Known,
    out: &mut [u8],
    from: Progress,
) -> Result<Turn, NoRecord>
    requires { WritableIn table.now known.old from }
    ensures { DefinitionsWritten table.now known.old out.old from result known.new out.new }
{
    let mut at = from;
    loop {
        let row = fetch(table, at.next)?;
        let turn = Turn { row, at };
        if row.kind != Kind::Class as u64 {
            return Ok(turn);
        }
        at = put_definition(table, known, out, turn)?;
    }
}
