// What may stand beside an operator without parentheses.
ghost use Rattle.std.specs.Prelude.{◌≡◌};
ghost use Rattle.lp_standard.specs.Operands.{By, fits_left, fits_right, is_left, is_postfix, is_prefix, is_right};

use crate::fixity::Fixity;

impl Fixity {
    /// Whether the operator groups to the left: its left operand may be of its own number.
    pub fn is_left(self) -> bool
        ensures { result ≡ is_left self }
    {
        matches!(self, Fixity::Infixl | Fixity::Postfixl)
    }

    /// Whether the operator groups to the right: its right operand may be of its own number.
    pub fn is_right(self) -> bool
        ensures { result ≡ is_right self }
    {
        matches!(self, Fixity::Infixr | Fixity::Prefixr)
    }

    /// Whether the operator stands before its one operand.
    pub fn is_prefix(self) -> bool
        ensures { result ≡ is_prefix self }
    {
        matches!(self, Fixity::Prefix | Fixity::Prefixr)
    }

    /// Whether the operator stands behind its one operand.
    pub fn is_postfix(self) -> bool
        ensures { result ≡ is_postfix self }
    {
        matches!(self, Fixity::Postfix | Fixity::Postfixl)
    }

    /// Whether a form of this operator, of this number, may be the left operand of another.
    #[tactic(auto, unfolding(crate::specs::Operands::fits_left))]
    pub fn fits_left(self, number: u8, of: Fixity, of_number: u8) -> bool
        ensures { result ≡ fits_left (By self number) of of_number }
    {
        of_number < number || of_number == number && of.is_left() && self.is_left()
    }

    /// Whether a form of this operator, of this number, may be the right operand of another.
    #[tactic(auto, unfolding(crate::specs::Operands::fits_right))]
    pub fn fits_right(self, number: u8, of: Fixity, of_number: u8) -> bool
        ensures { result ≡ fits_right (By self number) of of_number }
    {
        of_number < number || of_number == number && of.is_right() && self.is_right()
    }
}
