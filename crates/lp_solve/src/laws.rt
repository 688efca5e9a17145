// What holds of the search of a query on the program of texts: functions that do nothing, each contract a law.

ghost use Rattle.std.specs.Prelude.{◌≡◌, ℕ, List, map, length, Option, Some, false, true};
ghost use Rattle.lp_base.specs.Held.{Held};
ghost use Rattle.lp_lemmas.specs.Each.{EachOf};
ghost use Rattle.lp_calculus.specs.Term.{Term};
ghost use Rattle.lp_calculus.specs.Types.{Ty};
ghost use Rattle.lp_syntax.specs.declared.text.ModuleText.{ModuleText};
ghost use Rattle.lp_term.specs.Nodes.{Nodes, Extends, tree};
ghost use Rattle.lp_model.specs.Flat.{Clause, Clauses, Goals, all_of};
ghost use Rattle.lp_model.specs.Flatten.{flatten, flatten_query};
ghost use Rattle.lp_model.specs.Proofs.{AreFlattened, Declared};
ghost use Rattle.lp_model.specs.Readings.{formula_of};
ghost use Rattle.lp_model.specs.Search.{look, start};
ghost use Rattle.lp_model.specs.Skeleton.{run};
ghost use Rattle.lp_model.specs.Unify.{unit_limit};
ghost use Rattle.lp_model.specs.declared.program.Typed.{Typed};
ghost use Rattle.lp_search_laws.specs.Failed.{InAny, IsFailedSearch};
ghost use Rattle.lp_search_laws.specs.Given.{IsGiven};
ghost use Rattle.lp_search_laws.specs.Right.{IsRightBy};
ghost use Rattle.lp_search_laws.specs.Started.{IsTypedQuery, IsTypedSentence};
ghost use Rattle.lp_sig.specs.declared.signature.Signature.{Signature};
ghost use Rattle.lp_module.specs.Clauses.{IsFormed};
ghost use Rattle.lp_module.specs.Meaning.{IsMeaning};
ghost use Rattle.lp_module.specs.Program.{clauses_in};
ghost use Rattle.lp_module.specs.Schemes.{declared_schemes};
ghost use Rattle.lp_module.specs.declared.module.Module.{Module};
ghost use Rattle.lp_build.specs.declared.build.Built.{Built};
ghost use Rattle.lp_load.specs.Asked.{IsAsked};
ghost use Rattle.lp_load.specs.Loaded.{IsLoaded};
ghost use Rattle.lp_solve.specs.Queries.{Flattens, IsQuery};
ghost use Rattle.lp_solve.specs.Sources.{HasTypes, query_of, source_clauses};

/// The source clauses of texts are typed sentences, by the declared types.
pub fn programs_are_typed()
    ensures typed { (told : Option Held) (name : List ℕ) (built : Built) (l : IsLoaded told name built) (d : Declared) → HasTypes l.program d → EachOf (IsTypedSentence d) (source_clauses l.program) }
    ensures read { (told : Option Held) (name : List ℕ) (built : Built) (l : IsLoaded told name built) (b : Nodes) → Extends built.assembled.program.bank b → map (formula_of b) built.assembled.program.clauses.items ≡ source_clauses l.program }
{}

/// A query that is asked on their program is typed, by the declared types.
pub fn queries_are_typed()
    ensures { (told : Option Held) (name : List ℕ) (built : Built) (l : IsLoaded told name built) (d : Declared) → HasTypes l.program d → (text : List ℕ) (b : Nodes) (query : Typed) → IsAsked built.table built.signature text b query → IsTypedQuery d (query_of b query) }
{}

/// Soundness and exhaustion of the search of a query on a module, as the folder tells its texts: each answer is well formed, each closed instance of it that solves its pairs has a uniform proof from the
/// source clauses, and where there is no more, each instance of the query that has one is, up to conversion, an instance of an answer. In these proofs a negated
/// goal is proved by a search that fails. The limits, the steps of each look, and the moves are any.
pub fn searches_of_texts_are_right()
    ensures { (told : Option Held) (name : List ℕ) (built : Built) (l : IsLoaded told name built) (d : Declared) → HasTypes l.program d → (P : List Clause) → AreFlattened d (source_clauses l.program) P → (text : List ℕ) (b : Nodes) (query : Typed) → IsAsked built.table built.signature text b query →
        (depth : ℕ) (gs : Goals) → flatten_query depth d (tree b query.formula.0) ≡ Some gs → (n j m steps answers : ℕ) →
        IsRightBy (IsFailedSearch InAny d P) (IsGiven n d P (query_of b query) gs) d (source_clauses l.program) (query_of b query) (run (look unit_limit n P) j m (start query.type_vars (length (query_of b query).vars) gs steps answers)) }
{}

/// Of each loaded program there is a map of declared types: that of its own table.
pub fn declared_types_exist()
    ensures { (told : Option Held) (name : List ℕ) (built : Built) (l : IsLoaded told name built) → (d : Declared) × HasTypes l.program d }
{}

/// A formula that has the form of a clause, closed over variables, comes to flattened clauses, and one that has the form of a goal to flattened goals; so does each
/// clause of a module.
pub fn formulas_flatten()
    ensures clauses { (d : Declared) (type_vars : ℕ) (Ts : List Ty) (t : Term) → IsFormed d false type_vars t → (depth : ℕ) × (cs : Clauses) × (flatten depth d (record { type_vars = type_vars; formula = all_of Ts t }) ≡ Some cs) }
    ensures goals { (d : Declared) (type_vars : ℕ) (t : Term) → IsFormed d true type_vars t → (depth : ℕ) × (gs : Goals) × (flatten_query depth d t ≡ Some gs) }
    ensures modules { (source : List ℕ) (text : ModuleText) (expected : List ℕ) (own : Signature) (used : List Signature) (m : Module) → IsMeaning source text expected own used m → EachOf (λ f. (depth : ℕ) × (cs : Clauses) × (flatten depth (declared_schemes m.signature) f ≡ Some cs)) (clauses_in m) }
{}

/// Each query on the program of texts flattens with it, by some declared types of the program.
pub fn texts_flatten()
    ensures { (told : Option Held) (name text : List ℕ) (q : IsQuery told name text) → Flattens q }
{}
