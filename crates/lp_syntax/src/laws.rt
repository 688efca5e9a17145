// What holds of the grammar of terms and of its reader. Each law is the contract of a function without a body.

ghost use Rattle.lp_syntax.specs.Laws.{HasOneAnnotation, HasOneDepth, HasOneModule, HasOneQuery, HasOneSignature, HasOneTree, ReadsTheGrammar, FaultsFirst};

/// A term has one tree.
pub fn one_tree()
    ensures { HasOneTree }
{}

/// The reader gives exactly the trees of the grammar.
pub fn reads_the_grammar()
    ensures { ReadsTheGrammar }
{}

/// A fault is at the first symbol with which no term goes on.
pub fn faults_first()
    ensures { FaultsFirst }
{}

/// A query has one tree.
pub fn one_query()
    ensures { HasOneQuery }
{}

/// An annotation is one type, up to its backslash.
pub fn one_annotation()
    ensures { HasOneAnnotation }
{}

/// A text is a signature in one way.
pub fn one_signature()
    ensures { HasOneSignature }
{}

/// A text is a module in one way, with one set of operators behind it.
pub fn one_module()
    ensures { HasOneModule }
{}

/// A term has one depth.
pub fn one_depth()
    ensures { HasOneDepth }
{}
