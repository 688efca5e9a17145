// The declarations of a text by their lines, whether it is a signature's or a module's.
ghost use Rattle.std.specs.Prelude.{◌≡◌, ℕ, Option, Some, None, IfSome};
ghost use Rattle.lp_syntax.specs.declared.text.Declaration.{Declaration};
ghost use Rattle.lp_sig.specs.Holding.{line_of_text, line_of_module};

use lp_syntax::{Declaration, ModuleText, Sentence, SignatureText};

pub(crate) trait Lines {
    ghost declared: { Self → ℕ → Option Declaration };

    // The declaration of a line, if it is one.
    fn declaration(&self, line: usize) -> Option<&Declaration>
        ensures is { IfSome result (λ d. Self.declared self.now line ≡ Some d.now) }
        ensures none { result ≡ None → Self.declared self.now line ≡ None };
}

impl Lines for SignatureText {
    ghost declared = { λ t i. line_of_text t.lines.items i };

    fn declaration(&self, line: usize) -> Option<&Declaration> {
        self.lines.get(line)
    }
}

impl Lines for ModuleText {
    ghost declared = { λ t i. line_of_module t.lines.items i };

    fn declaration(&self, line: usize) -> Option<&Declaration> {
        match self.lines.get(line)? {
            Sentence::Declares(declaration) => Some(declaration),
            Sentence::Says(_) => None,
        }
    }
}
