//! Tokens of a text.
ghost use Rattle.std.specs.Prelude.{◌≡◌, List};
ghost use Rattle.conf_text.specs.declared.token.Token.{Token as TokenValue};

use std::marker::Model;

/// What a token is.
#[derive(Clone, Copy, Debug, PartialEq, Eq)]
pub enum TokenKind {
    /// A name or a number.
    Word,
    /// A string, with its quotes.
    Text,
    /// One of `{ } [ ] = ,`.
    Mark,
}

/// A token: its first byte's place, and the place behind its last one. Places count bytes from 0.
#[derive(Clone, Copy, Debug, PartialEq, Eq)]
pub struct Token {
    pub from: usize,
    pub to: usize,
    pub kind: TokenKind,
}

/// The tokens of a text, in its order. Contracts see the list of them.
#[derive(Debug, Drop)]
pub struct Tokens {
    tokens: Vec<Token>,
}

impl Model for Tokens {
    ghost Value = { List TokenValue };

    ghost view = { λ tokens. tokens.tokens.items };
}

impl Tokens {
    /// These tokens.
    pub(crate) fn from_vec(tokens: Vec<Token>) -> Self
        ensures { result ≡ tokens.items }
    {
        Tokens { tokens }
    }

    /// The tokens.
    pub fn as_slice(&self) -> &[Token]
        ensures { result.now ≡ self.now }
    {
        &self.tokens
    }
}
