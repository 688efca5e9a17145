// Why texts are refused, as the program tells it.
ghost use Rattle.std.specs.Prelude.{◌≡◌, List, ℕ, true, false};
ghost use Rattle.lp_lines.specs.Placed.{is_message, IsCauseOf};

use lp_base::{Limit, Spot};
use lp_lexer::LexFault;

/// What is said of a text, and of which piece of it. With `is_named` the piece itself is told.
#[derive(Clone, Copy)]
pub struct Blame {
    pub text: &'static str,
    pub spot: Spot,
    pub is_named: bool,
}

/// Why texts are refused.
#[derive(Clone, Copy)]
pub enum Cause {
    Tokens(LexFault),
    Text(Blame),
    Limit(Limit),
    Memory,
}

/// A text that is said of a place alone.
pub fn at(text: &'static str, spot: Spot) -> Cause
    requires { is_message false text.now ≡ true }
    ensures message { (said : List ℕ) → IsCauseOf said result }
    ensures text { result ≡ Cause.Text (record { text = text.entry; spot = spot; is_named = false }) }
{
    Cause::Text(Blame {
        text,
        spot,
        is_named: false,
    })
}

/// A text that is said of a name.
pub fn named(text: &'static str, spot: Spot) -> Cause
    requires { is_message true text.now ≡ true }
    ensures message { (said : List ℕ) → IsCauseOf said result }
    ensures text { result ≡ Cause.Text (record { text = text.entry; spot = spot; is_named = true }) }
{
    Cause::Text(Blame {
        text,
        spot,
        is_named: true,
    })
}
