// The layout of a holdings file: the mark, a version, then entries, each a length and a message. The numbers of
// holdings' specs/Files.antt, to which the contracts hold the code.

// The mark that a file begins with: the adder writes it, the lister compares with it.
pub(crate) const MARK: [u8; 3] = [0x53, 0x57, 0x50];

// The bytes of the mark.
pub(crate) const MARK_SIZE: usize = 3;

// The bytes of the version.
pub(crate) const VERSION_SIZE: usize = 2;

// The bytes of both.
pub(crate) const HEADER_SIZE: usize = 5;

// The bytes of the length before a message.
pub(crate) const LENGTH_SIZE: usize = 4;

// The version of a new file.
pub(crate) const NEWEST_VERSION: u64 = 1;
