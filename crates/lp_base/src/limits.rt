// The numbers of the limits. Each limit is passed exactly where its number is exceeded.

/// The most bytes of a source file: 1 MiB.
pub const MAX_FILE_BYTES: u64 = 1_048_576;

/// The most bytes of an object or image file: 16 MiB.
pub const MAX_IMAGE_BYTES: u64 = 16_777_216;

/// The most source files that are loaded, or objects that are linked.
pub const MAX_MODULES: usize = 256;

/// The most accumulations in the tree of copies, the root counted.
pub const MAX_COPIES: usize = 4_096;

/// Where the numbers of constants and kinds end: each is below this.
pub const END_OF_NUMBERS: u32 = 65_535;

/// The most bytes of a declared name, and of the name of an accumulated file.
pub const MAX_NAME_BYTES: usize = 255;

/// The most arguments of a type, a kind or a head, and the most type variables of a sentence or
/// query.
pub const MAX_ARGUMENTS: usize = 255;

/// The greatest depth of the tree of a sentence or query, in nodes on one path, and of that of its
/// beta-normal form.
pub const MAX_TERM_DEPTH: usize = 2_000;

/// The greatest depth of the tree of a declared type, in nodes on one path.
pub const MAX_TYPE_DEPTH: usize = 255;

/// The most contractions that the normal form of a sentence or query takes.
pub const MAX_CONTRACTIONS: u64 = 1_000_000;

/// The most nodes of the normal form of a sentence or query.
pub const MAX_NODES: u64 = 1_000_000;

/// The most clause records in an object, and from one sentence.
pub const MAX_CLAUSES: u64 = 65_535;

/// The most registers of one kind in a clause record.
pub const MAX_REGISTERS: usize = 65_535;

/// The most bytes of code in a clause record.
pub const MAX_CODE_BYTES: u64 = 4_294_967_295;

/// The most bytes of a string in a text.
pub const MAX_TEXT_BYTES: usize = 65_535;

/// The limit of a run: the units of one unification, the goals that are taken apart in a row, the
/// contractions of one head normalisation, the nodes that a test for a pattern or an evaluation
/// visits, and the nodes of one printed term.
pub const RUN_LIMIT: u64 = 1_000_000;

/// The steps that a run may take where no option says otherwise.
pub const DEFAULT_STEPS: u64 = 1_000_000;

/// The answers that a run gives where no option says otherwise.
pub const DEFAULT_ANSWERS: u64 = 1_000;
