ghost use Rattle.std.specs.Prelude.{◌≡◌, ℕ, List, if◌then◌else◌};
ghost use Rattle.lp_model.specs.Shown.{bracketed};
ghost use Rattle.lp_show.specs.Places.{shape_of, standing};

use lp_standard::Fixity;

/// Where a term stands: by itself, as an argument, as a side of a `where` line, or as an operand.
#[derive(Clone, Copy)]
pub(crate) enum Place {
    Alone,
    Argument,
    Side,
    Left(Fixity, u8),
    Right(Fixity, u8),
}

/// What stands at the top of a term.
#[derive(Clone, Copy)]
pub(crate) enum Top {
    Name,
    Applied,
    Abstracted,
    Operated(Fixity, u8),
}

impl Place {
    /// Whether a term with this at its top stands in parentheses there.
    pub(crate) fn wants_brackets(self, top: Top) -> bool
        ensures { (s : List ℕ) → standing self (shape_of top) s ≡ (if result then bracketed s else s) }
    {
        match (self, top) {
            (Place::Alone, _) => false,
            (_, Top::Name) => false,
            (Place::Argument, _) => true,
            (_, Top::Applied) => false,
            (_, Top::Abstracted) => true,
            (Place::Side, Top::Operated(_, _)) => true,
            (Place::Left(of, n), Top::Operated(fixity, k)) => !fixity.fits_left(k, of, n),
            (Place::Right(of, n), Top::Operated(fixity, k)) => !fixity.fits_right(k, of, n),
        }
    }
}
