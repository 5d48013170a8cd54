// The limits of the base, each once: the numbers of `base` and `base_open_from` in specs/Model/Answers.antt, to which the
// contracts of the reader and the writer hold the code.

// The bytes of the longest message.
pub const LONGEST: usize = 262_144;

// The lists, maps and objects that may be open at once.
pub const CONTAINERS: usize = 32;

// The type names of a message.
pub const TYPES: u64 = 256;

// The class definitions of a message.
pub const CLASSES: u64 = 256;

// The fields of one class.
pub const FIELDS: u64 = 256;

// A list of so many elements and more is written in the open form.
pub const LISTS_OPEN_FROM: u64 = 48;
