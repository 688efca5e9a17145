ghost use Rattle.std.specs.Prelude.{◌≡◌};

/// A cell of a store.
#[derive(Clone, Copy, PartialEq, Eq)]
pub struct CellId(pub usize);

/// Cells, or bytes, that stand one behind the other.
#[derive(Clone, Copy)]
pub struct Span {
    pub(crate) from: usize,
    pub(crate) count: usize,
}

/// An environment: entries, one in front of another.
#[derive(Clone, Copy)]
pub struct Env(pub(crate) usize);

impl Env {
    /// The environment without entries.
    pub const fn nil() -> Env
        ensures { result.0 ≡ 0 }
    {
        Env(0)
    }
}

/// An entry of an environment: a term with the number of abstractions that it was bound under, or the index of an
/// abstraction that stands under so many others.
#[derive(Clone, Copy)]
pub enum EnvEntry {
    Value(CellId, u64),
    Dummy(u64),
}

/// What a cell holds. The first three are types. A suspension is its term with a substitution that is not yet carried
/// out: so many indices are taken from the environment, and so many abstractions stand around the result.
#[derive(Clone, Copy)]
pub enum Cell {
    TypeVar,
    TypeCon(u32, Span),
    TypeArrow(CellId, CellId),
    Ref(CellId),
    Const(u32, Span),
    Int(i64),
    Text(Span),
    Eigen(u64),
    Logic(u64),
    Index(u64),
    Abs(CellId),
    App(CellId, Span),
    Susp(CellId, u64, u64, Env),
}

#[derive(Clone, Copy)]
pub(crate) struct EnvNode {
    pub(crate) entry: EnvEntry,
    pub(crate) rest: Env,
}

// The old content of a cell that was bound or overwritten, as contracts see it.
#[derive(Clone, Copy)]
pub(crate) struct Change {
    pub(crate) at: CellId,
    pub(crate) was: Cell,
}

/// How much a store had.
#[derive(Clone, Copy)]
pub struct Mark {
    pub(crate) cells: usize,
    pub(crate) items: usize,
    pub(crate) bytes: usize,
    pub(crate) envs: usize,
    pub(crate) trail: usize,
}
