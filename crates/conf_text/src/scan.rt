//! Taking a text's tokens.
ghost use Rattle.std.specs.Prelude.{◌≡◌, ◌≤◌, ◌<◌, ◌+◌, ℕ, List, [], ◌∷◌, true, false, length, slice_index, Option, Ok, Err, IsTrue, IfOk, MatchResult, MatchOption};
ghost use Rattle.conf_text.specs.Bytes.{kind};
ghost use Rattle.conf_text.specs.Grammar.{is_name, gap_byte};
ghost use Rattle.conf_text.specs.Scan.{Between, InWord, InString, is_quote, string_byte, closes, scan_at, token, IsRefused, Takes, Refuses};
ghost use Rattle.conf_text.specs.Tokens.{is_mark, IsTokensOf, IsTokenCause};

use crate::kind::{Kind, kind_of};
use crate::refusal::ConfRefusal;
use crate::token::{Token, TokenKind, Tokens};
use std::alloc::Global;

/// The tokens of a text, each with its place.
///
/// # Errors
///
/// - `BadToken` of the first byte that begins no token, or that may not stand in a string.
/// - `Unclosed` of a quote that is open at the text's end.
/// - `NoMemory` where memory is wanting.
pub fn tokens(alloc: Global, text: &[u8]) -> Result<Tokens, ConfRefusal>
    ensures { MatchResult result (IsTokensOf text.now) (IsTokenCause text.now) }
{
    match taken(alloc, text) {
        Ok(tokens) => Ok(Tokens::from_vec(tokens)),
        Err(refusal) => Err(refusal),
    }
}

// The same, as taking them byte by byte has it.
fn taken(alloc: Global, text: &[u8]) -> Result<Vec<Token>, ConfRefusal>
    ensures { let all = scan_at text.now (Between false) 0 in
        MatchResult result (λ tokens. all ≡ Ok tokens.items) (IsRefused all) }
{
    let mut tokens = Vec::new(alloc);
    let mut at = 0;
    while let Some(next) = next_token(text, at)? {
        tokens.push(next)?;
        at = next.to;
    }
    Ok(tokens)
}

// The next token from this place on.
fn next_token(text: &[u8], from: usize) -> Result<Option<Token>, ConfRefusal>
    requires { from ≤ length text.now }
    ensures found { MatchResult result
        (λ next. MatchOption next (scan_at text.now (Between false) from ≡ Ok []) (Takes text.now (Between false) from))
        (Refuses text.now (Between false) from) }
    ensures within { IfOk result (λ next. MatchOption next (Unit {0}) (λ t. (from < t.to) × (t.to ≤ length text.now))) }
{
    let at = gap_end(text, from)?;
    if at == text.len() {
        return Ok(None);
    }
    Ok(Some(token_at(text, at)?))
}

// The place behind the gap that begins here.
fn gap_end(text: &[u8], from: usize) -> Result<usize, ConfRefusal>
    requires { from ≤ length text.now }
    ensures found { MatchResult result
        (λ to. scan_at text.now (Between false) from ≡ scan_at text.now (Between false) to)
        (Refuses text.now (Between false) from) }
    ensures within { IfOk result (λ to. (from ≤ to) × (to ≤ length text.now)) }
    ensures ended { IfOk result (λ to. to < length text.now → gap_byte false (kind (slice_index text.now to)) ≡ None) }
{
    let mut comment = false;
    for at in from..text.len() {
        match after_gap_byte(comment, kind_of(text[at])) {
            Some(next) => comment = next,
            None => {
                return if comment {
                    Err(ConfRefusal::BadToken(at))
                } else {
                    Ok(at)
                };
            }
        }
    }
    Ok(text.len())
}

fn after_gap_byte(comment: bool, kind: Kind) -> Option<bool>
    ensures { result ≡ gap_byte comment kind }
{
    match (comment, kind) {
        (true, Kind::LineFeed) => Some(false),
        (true, Kind::Zero) => None,
        (true, _) => Some(true),
        (false, Kind::Blank | Kind::LineFeed) => Some(false),
        (false, Kind::Hash) => Some(true),
        (false, _) => None,
    }
}

// The token that begins here.
fn token_at(text: &[u8], at: usize) -> Result<Token, ConfRefusal>
    requires within { at < length text.now }
    requires token { gap_byte false (kind (slice_index text.now at)) ≡ None }
    ensures found { MatchResult result (Takes text.now (Between false) at) (Refuses text.now (Between false) at) }
    ensures within { IfOk result (λ t. (at < t.to) × (t.to ≤ length text.now)) }
{
    let kind = kind_of(text[at]);
    if is_name_kind(kind) {
        let to = word_end(text, at);
        return Ok(Token {
            from: at,
            to,
            kind: TokenKind::Word,
        });
    }
    if is_quote_kind(kind) {
        return match string_end(text, at) {
            Ok(to) => Ok(Token {
                from: at,
                to,
                kind: TokenKind::Text,
            }),
            Err(refusal) => Err(refusal),
        };
    }
    if is_mark_kind(kind) {
        return Ok(Token {
            from: at,
            to: at + 1,
            kind: TokenKind::Mark,
        });
    }
    Err(ConfRefusal::BadToken(at))
}

fn is_name_kind(kind: Kind) -> bool
    ensures { result ≡ is_name kind }
{
    matches!(kind, Kind::Digit | Kind::Letter)
}

fn is_quote_kind(kind: Kind) -> bool
    ensures { result ≡ is_quote kind }
{
    matches!(kind, Kind::Quote)
}

fn is_mark_kind(kind: Kind) -> bool
    ensures { result ≡ is_mark kind }
{
    match kind {
        Kind::OpenBrace
        | Kind::CloseBrace
        | Kind::OpenBracket
        | Kind::CloseBracket
        | Kind::Equals
        | Kind::Comma => true,
        _ => false,
    }
}

// The place behind the word that begins here.
fn word_end(text: &[u8], from: usize) -> usize
    requires { from < length text.now }
    ensures found { Takes text.now (InWord from) (from + 1) (token from result TokenKind.Word) }
    ensures within { (from < result) × (result ≤ length text.now) }
{
    for at in from + 1..text.len() {
        if !is_name_kind(kind_of(text[at])) {
            return at;
        }
    }
    text.len()
}

// The place behind the string that begins here.
fn string_end(text: &[u8], from: usize) -> Result<usize, ConfRefusal>
    requires { from < length text.now }
    ensures found { MatchResult result
        (λ to. Takes text.now (InString false from) (from + 1) (token from to TokenKind.Text))
        (Refuses text.now (InString false from) (from + 1)) }
    ensures within { IfOk result (λ to. (from < to) × (to ≤ length text.now)) }
{
    let mut slash = false;
    for at in from + 1..text.len() {
        let kind = kind_of(text[at]);
        if is_closing(slash, kind) {
            return Ok(at + 1);
        }
        match after_string_byte(slash, kind) {
            Some(next) => slash = next,
            None => return Err(ConfRefusal::BadToken(at)),
        }
    }
    Err(ConfRefusal::Unclosed(from))
}

fn is_closing(slash: bool, kind: Kind) -> bool
    ensures { result ≡ closes slash kind }
{
    !slash && is_quote_kind(kind)
}

fn after_string_byte(slash: bool, kind: Kind) -> Option<bool>
    ensures { result ≡ string_byte slash kind }
{
    match (slash, kind) {
        (true, Kind::Quote | Kind::Backslash) => Some(false),
        (true, _) => None,
        (false, Kind::Backslash) => Some(true),
        (false, Kind::LineFeed | Kind::Zero) => None,
        (false, _) => Some(false),
    }
}
