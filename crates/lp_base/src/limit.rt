// The limits on files, texts and programs, by name. `limits` has their numbers.
ghost use Rattle.std.specs.Prelude.{◌≡◌};
ghost use Rattle.lp_base.specs.Limit.{name_of};

/// A limit on files, texts or programs that was passed. Each is passed exactly where its number,
/// which is a constant of this crate, is exceeded.
#[derive(Clone, Copy, Debug, PartialEq, Eq)]
pub enum Limit {
    /// A source file has at most `MAX_FILE_BYTES` bytes (1 MiB).
    File,
    /// An object or image file has at most `MAX_IMAGE_BYTES` bytes (16 MiB).
    Image,
    /// At most `MAX_MODULES` (256) source files are loaded, or objects by a link.
    Modules,
    /// At most `MAX_COPIES` (4,096) accumulations in the tree of copies, the root counted.
    Copies,
    /// The numbers of constants and kinds are below `END_OF_NUMBERS` (65,535).
    Names,
    /// A declared name has at most `MAX_NAME_BYTES` (255) bytes, and so has the name of an
    /// accumulated file.
    NameLength,
    /// At most `MAX_ARGUMENTS` (255) arguments of a type, a kind or a head, and as many type
    /// variables of a sentence or query.
    Arguments,
    /// The tree of a sentence or query is at most `MAX_TERM_DEPTH` (2,000) deep, and so is its
    /// beta-normal form; that of a declared type at most `MAX_TYPE_DEPTH` (255).
    Nesting,
    /// The normal form of a sentence or query takes at most `MAX_CONTRACTIONS` (1,000,000)
    /// contractions and has at most `MAX_NODES` (1,000,000) nodes.
    NormalForm,
    /// At most `MAX_CLAUSES` (65,535) clause records in an object, and from one sentence.
    Clauses,
    /// A clause record has at most `MAX_REGISTERS` (65,535) registers of one kind and at most
    /// `MAX_CODE_BYTES` (4,294,967,295) bytes of code.
    Registers,
    /// A string in a text has at most `MAX_TEXT_BYTES` (65,535) bytes.
    Text,
}

impl Limit {
    /// The limit's name, as the program prints it.
    pub fn name(self) -> &'static str
        ensures { result.now ≡ name_of self }
    {
        match self {
            Limit::File => "file",
            Limit::Image => "image",
            Limit::Modules => "modules",
            Limit::Copies => "copies",
            Limit::Names => "names",
            Limit::NameLength => "name length",
            Limit::Arguments => "arguments",
            Limit::Nesting => "nesting",
            Limit::NormalForm => "normal form",
            Limit::Clauses => "clauses",
            Limit::Registers => "registers",
            Limit::Text => "string",
        }
    }
}
