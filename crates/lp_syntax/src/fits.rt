ghost use Rattle.std.specs.Prelude.{◌≡◌};
ghost use Rattle.lp_syntax.specs.Symbols.{is_infixr, separates, is_item, By};

use crate::symbol::Oper;
use lp_fixity::Fixity;

pub fn is_infixr(f: Fixity) -> bool
    ensures { result ≡ is_infixr f }
{
    matches!(f, Fixity::Infixr)
}

#[tactic(auto, unfolding(crate::specs::Symbols::separates))]
pub fn separates(o: Oper) -> bool
    ensures { result ≡ separates o }
{
    o.comma && o.number == 110 && is_infixr(o.fixity)
}

#[tactic(auto, unfolding(crate::specs::Symbols::is_item))]
pub fn is_item(g: Fixity, k: u8) -> bool
    ensures { result ≡ is_item (By g k) }
{
    k >= 111
}
