// The rows to write, and the source that they name places of.
ghost use Rattle.std.specs.Prelude.{◌≡◌};

use record::tables::Cell;
use std::marker::Model;

// It, what is known and the output stay three parameters: in a struct they would be lent again at each call, and a
// contract say of its fields what it says of the parameters.

// The first `rows` rows of a lent table. The contracts see the source and those rows.
#[derive(Drop)]
pub(crate) struct Table<'a, C: Cell> {
    pub source: &'a [u8],
    pub cells: &'a [C],
    pub rows: usize,
}

impl<'a, C: Cell> Model for Table<'a, C> {
    ghost use Rattle.std.specs.Prelude.{◌≤◌};
    ghost use Rattle.record.specs.Model.Answers.{lent_rows};
    ghost use Rattle.writer.specs.Lent.{Lent, lent_of};

    ghost Value = { Lent };

    ghost view = { λ t. lent_of C.layout t.source.now (C.numbers t.cells.now) t.rows };

    ghost invariant = { λ t. t.rows ≤ lent_rows C.layout (C.numbers t.cells.now) };
}

impl<'a, C: Cell> Table<'a, C> {
    pub fn source(&self) -> &'a [u8]
        ensures { result.now ≡ self.now.source }
    {
        self.source
    }
}
