// What is known at a place of a message or table. specs/Laws/KnownLaws.antt says what it means.
ghost use Rattle.std.specs.Prelude.{◌≡◌, slice_get};
ghost use Rattle.record.specs.Model.Items.{start};
ghost use Rattle.record.specs.Laws.KnownLaws.{Kept, known_in, defined_in};

use crate::limits::CLASSES;

// Each given class's number of fields, and how many classes, types and references are given.
#[derive(Drop)]
pub struct Known {
    pub fields: [u64; CLASSES as usize],
    pub classes: u64,
    pub types: u64,
    pub references: u64,
}

impl Known {
    // Nothing is known.
    pub fn new() -> Known
        ensures starts { known_in result ≡ start }
        ensures kept { Kept result }
    {
        Known {
            fields: [0; CLASSES as usize],
            classes: 0,
            types: 0,
            references: 0,
        }
    }

    // A class of so many fields gets the next number, where there is room for one more.
    pub fn define(&mut self, fields: u64)
        ensures { self.new ≡ defined_in self.old fields }
    {
        let class = self.classes;
        if class < CLASSES {
            self.fields[class as usize] = fields;
            self.classes = class + 1;
        }
    }

    // How many fields a class has, if it is given.
    pub fn fields_of(&self, class: u64) -> Option<u64>
        ensures { result ≡ slice_get (known_in self.now).classes class }
    {
        if class < self.classes {
            self.fields.get(class as usize).copied()
        } else {
            None
        }
    }
}
