// What the load order says of the files.
ghost use Rattle.std.specs.Prelude.{◌≡◌, ◌++◌, ℕ, Bool, List, [], Some, Contains, codes, string_bytes, take};
ghost use Rattle.lp_base.specs.Held.{Held};
ghost use Rattle.lp_sig.specs.Refusals.{IsAt};
ghost use Rattle.lp_build.specs.Alike.{AreAlike};
ghost use Rattle.lp_build.specs.Loads.{BeginsWith, modules_among, names_of};
ghost use Rattle.lp_build.specs.Ordered.{AreInOrder, IsAsked, IsText, IsThere, Loads, Need, both, named_by};
ghost use Rattle.lp_build.specs.Reads.{AreRead};
ghost use Rattle.lp_build.specs.Told.{AreLoaded};
ghost use Rattle.lp_build.specs.declared.sources.File.{File as IsFile};
ghost use Rattle.lp_build.specs.declared.sources.Sources.{Sources as AreFiles};

/// The first file is the signature of the root, and the first module text its own; each text that a file names is among the files; no file stands twice; and each one is asked for by the
/// root or by a file before it.
pub fn files_in_order_are_all_that_are_named()
    ensures begins { (all : Bool) (root : List ℕ) (s : AreFiles) → AreInOrder all root s → BeginsWith (root ++ codes ".sig") (names_of s.files.items) }
    ensures first { (all : Bool) (root : List ℕ) (s : AreFiles) → AreInOrder all root s → BeginsWith root (modules_among s.files.items) }
    ensures named { (all : Bool) (root : List ℕ) (s : AreFiles) → AreInOrder all root s → (f : IsFile) → Contains s.files.items f → (n : Need) → Contains (named_by all f.part f.text) n → IsThere s.files.items n }
    ensures once { (all : Bool) (root : List ℕ) (files : List IsFile) (left : List Need) → Loads all [] (both root) files left → (i j : ℕ) (f g : IsFile) → IsAt files i f → IsAt files j g → string_bytes f.name ≡ string_bytes g.name → i ≡ j }
    ensures asked { (all : Bool) (root : List ℕ) (files : List IsFile) (left : List Need) → Loads all [] (both root) files left → (i : ℕ) (f : IsFile) → IsAt files i f → (n : Need) × IsText n f × IsAsked all root (take i files) n }
{}

/// All loadings of a module of what a folder holds are of the same files.
pub fn held_files_are_loaded_alike()
    ensures { (held : Held) (all : Bool) (root : List ℕ) (s t : AreFiles) → AreLoaded (Some held) s → AreLoaded (Some held) t → AreRead s → AreRead t → AreInOrder all root s → AreInOrder all root t → AreAlike s.files.items t.files.items }
{}
