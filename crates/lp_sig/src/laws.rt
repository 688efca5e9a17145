//! Laws of declared types and names, and their rules on a worked signature.
ghost use Rattle.std.specs.Prelude.{◌≡◌, ℕ, List, map, Vec, String};
ghost use Rattle.std.specs.Global.{Global};
ghost use Rattle.lp_standard.specs.declared.fixity.Fixity.{Fixity};
ghost use Rattle.lp_syntax.specs.declared.text.Sentence.{Sentence};
ghost use Rattle.lp_syntax.specs.declared.text.SignatureText.{SignatureText};
ghost use Rattle.lp_calculus.specs.Types.{Ty};
ghost use Rattle.lp_sig.specs.Abbreviations.{Text};
ghost use Rattle.lp_sig.specs.Constants.{Written, IsSchemeOf};
ghost use Rattle.lp_sig.specs.Rows.{Row, kind_row};
ghost use Rattle.lp_sig.specs.Refusals.{IsAccepted};
ghost use Rattle.lp_sig.specs.Modules.{HasSeen, IsApart, HasOwnFirst};
ghost use Rattle.lp_sig.specs.declared.signature.Signature.{Signature};
ghost use Rattle.lp_sig.specs.Laws.{all_said, all_definitions};
ghost use Rattle.lp_sig.specs.Named.{HasFreeTypes, IsOrdered, SeesTheirs};
ghost use Rattle.lp_sig.specs.AsWritten.{HasWholeBodies, HasWholeTypes, AreReady, DeclaresTypes};
ghost use Rattle.lp_sig.specs.Same.{AreSameSignatures};
ghost use Rattle.lp_sig.specs.Worked.{IsWorked};

/// A declared type has one scheme under what texts say, whatever numbers its variables are given.
pub fn a_type_has_one_scheme()
    ensures { (texts : List Text) (w : Written) (n m : ℕ) (t u : Ty) → IsSchemeOf (all_said texts) (all_definitions texts) w n t → IsSchemeOf (all_said texts) (all_definitions texts) w m u → (n ≡ m) × (t ≡ u) }
{}

/// `typeabbrev (pair A B) A -> list B.` has this body, and `pair int (list A)` is `int -> list (list A)` behind it.
pub fn worked_signature()
    ensures { IsWorked }
{}

/// Of a signature that texts give no two kinds or abbreviations have one name, no two constants have, and none is standard.
pub fn names_are_apart()
    ensures { (names : List (String Global)) (sources : List (Vec ℕ Global)) (texts : List SignatureText) (root : ℕ) (fixities : List (Row (Fixity × ℕ))) (s : Signature) → IsAccepted names sources texts root (map kind_row s.kinds.items) fixities s.bank s.abbreviations.items s.constants.items → IsApart s }
{}

/// The names of a module's own signature come first in the signature of what it sees.
pub fn own_names_come_first()
    ensures { (own : Signature) (used : List Signature) (text : List ℕ) (lines : List Sentence) (s : Signature) → IsApart own → HasSeen own used text lines s → HasOwnFirst own s }
{}

/// Two signatures that the same texts give have the same kinds, and the same constants with the same types.
pub fn texts_have_one_signature()
    ensures { (names : List (String Global)) (sources : List (Vec ℕ Global)) (texts : List SignatureText) (root : ℕ) (fixities others : List (Row (Fixity × ℕ))) (s t : Signature) →
        IsAccepted names sources texts root (map kind_row s.kinds.items) fixities s.bank s.abbreviations.items s.constants.items → IsAccepted names sources texts root (map kind_row t.kinds.items) others t.bank t.abbreviations.items t.constants.items → AreSameSignatures s t }
{}

/// The signature of texts has kinds by their places, and types of constants with as many variables as is said, whose kinds have names.
pub fn signatures_are_ordered()
    ensures { (names : List (String Global)) (sources : List (Vec ℕ Global)) (texts : List SignatureText) (root : ℕ) (fixities : List (Row (Fixity × ℕ))) (s : Signature) → IsAccepted names sources texts root (map kind_row s.kinds.items) fixities s.bank s.abbreviations.items s.constants.items → IsOrdered s }
{}

/// In the signature of texts each kind of the body of an abbreviation has a name.
pub fn bodies_are_whole()
    ensures { (names : List (String Global)) (sources : List (Vec ℕ Global)) (texts : List SignatureText) (root : ℕ) (fixities : List (Row (Fixity × ℕ))) (s : Signature) → IsAccepted names sources texts root (map kind_row s.kinds.items) fixities s.bank s.abbreviations.items s.constants.items → HasWholeBodies s }
{}

/// In the signature of texts no type of a constant holds a type parameter.
pub fn types_hold_no_parameters()
    ensures { (names : List (String Global)) (sources : List (Vec ℕ Global)) (texts : List SignatureText) (root : ℕ) (fixities : List (Row (Fixity × ℕ))) (s : Signature) → IsAccepted names sources texts root (map kind_row s.kinds.items) fixities s.bank s.abbreviations.items s.constants.items → HasFreeTypes s }
{}

/// Where the signatures are such as texts have, each kind in the type of a constant that a module sees has a name.
pub fn types_are_whole()
    ensures { (own : Signature) (used : List Signature) (text : List ℕ) (lines : List Sentence) (s : Signature) → AreReady own used text lines → HasSeen own used text lines s → SeesTheirs own used text lines s → DeclaresTypes own used text lines s → HasWholeTypes s }
{}
