// What holds of readings. Each law is the contract of a function without a body.
ghost use Rattle.std.specs.Prelude.{◌≡◌, ◌<◌, ℕ, length, Bool};
ghost use Rattle.lp_calculus.specs.Types.{Ty};
ghost use Rattle.lp_calculus.specs.Term.{Term};
ghost use Rattle.lp_store.specs.Contents.{Contents};
ghost use Rattle.lp_store.specs.Reading.{Reads, ReadsType};
ghost use Rattle.lp_store.specs.Sorted.{HasReading, IsSorted};
ghost use Rattle.lp_store.specs.Sound.{IsSound};

/// A cell reads as one term at most, and as one type at most.
pub fn one_reading()
    ensures of_terms { (s : Contents) → (i : ℕ) → (t u : Term) → Reads s i t → Reads s i u → t ≡ u }
    ensures of_types { (s : Contents) → (i : ℕ) → (T U : Ty) → ReadsType s i T → ReadsType s i U → T ≡ U }
{}

/// Where each part of a cell is of the sort that its place asks for, each cell reads as a type or a term, as its sort says: cells do not lead
/// to one another in a circle.
pub fn some_reading()
    ensures { (s : Contents) → (is_type : ℕ → Bool) → IsSound s → IsSorted s is_type → (i : ℕ) → i < length s.cells → HasReading s is_type i }
{}
