//! Laws of texts and trees.
ghost use Rattle.std.specs.Prelude.{◌≡◌, ◌≢◌, ℕ, List};
ghost use Rattle.conf_text.specs.declared.refusal.ConfRefusal.{ConfRefusal};
ghost use Rattle.conf_text.specs.declared.refusal.ConfRefusal.TheVariants.{NoMemory};
ghost use Rattle.conf_text.specs.declared.token.Token.{Token};
ghost use Rattle.conf_text.specs.Entries.{Conf, IsBalanced, KeepsLimits};
ghost use Rattle.conf_text.specs.Grammar.{IsTextOf};
ghost use Rattle.conf_text.specs.Printed.{CanPrint, printed};
ghost use Rattle.conf_text.specs.Tokens.{IsTokensOf, IsTokenCause};

/// What is printed of entries, one on a line, is a text of them.
pub fn printed_again()
    ensures { (es : Conf) → CanPrint es → IsBalanced es → KeepsLimits es → IsTextOf (printed es) es }
{}

/// A text has one list of tokens or one cause why it has none, want of memory aside.
pub fn one_token_outcome()
    ensures tokens { (text : List ℕ) (a b : List Token) → IsTokensOf text a → IsTokensOf text b → a ≡ b }
    ensures refused { (text : List ℕ) (tokens : List Token) (refusal : ConfRefusal) → refusal ≢ NoMemory → IsTokensOf text tokens → ¬ IsTokenCause text refusal }
    ensures causes { (text : List ℕ) (a b : ConfRefusal) → a ≢ NoMemory → b ≢ NoMemory → IsTokenCause text a → IsTokenCause text b → a ≡ b }
{}
