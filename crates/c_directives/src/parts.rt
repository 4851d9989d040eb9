//! The directives of a text, and the texts between them.

ghost use Rattle.std.specs.Prelude.{◌≡◌, ◌<◌, ◌≤◌, [], ◌∷◌, length, MatchOption};
ghost use Rattle.c_directives.specs.Parts.{begins_directive, line_length, text_length, parts_of};
ghost use Rattle.c_directives.specs.Answers.{part_seen};

use c_macros::is_mark;
use c_text::Token;

/// A part of a text.
#[derive(Clone, Copy)]
pub enum Part<'a> {
    /// All lines between two directives, as one text.
    Text(&'a [Token]),
    /// The `#` of a directive, and what stands behind it on its line.
    Line(&'a Token, &'a [Token]),
}

fn begins_directive(token: &Token) -> bool
    ensures { result ≡ begins_directive token.now }
{
    token.first && is_mark(b"#", token)
}

fn line_length(tokens: &[Token]) -> usize
    ensures value { result ≡ line_length tokens.now }
    ensures within { result ≤ length tokens.now }
{
    let mut n = 0;
    while n < tokens.len() && !tokens[n].first {
        n += 1;
    }
    n
}

fn text_length(tokens: &[Token]) -> usize
    ensures value { result ≡ text_length tokens.now }
    ensures within { result ≤ length tokens.now }
{
    let mut n = 0;
    while n < tokens.len() && !begins_directive(&tokens[n]) {
        n += 1;
    }
    n
}

/// The first part of a text, and what stands behind it.
#[tactic(auto, using(crate::proofs::Cuts::parts_first))]
pub fn first_part<'a>(tokens: &'a [Token]) -> Option<(Part<'a>, &'a [Token])>
    ensures part { MatchOption result (tokens.now ≡ []) (λ x. parts_of tokens.now ≡ part_seen x.0 ∷ parts_of x.1.now) }
    ensures shorter { MatchOption result (tokens.now ≡ []) (λ x. length x.1.now < length tokens.now) }
{
    let (token, behind) = tokens.split_first()?;
    if begins_directive(token) {
        let (line, rest) = behind.split_at(line_length(behind));
        Some((Part::Line(token, line), rest))
    } else {
        let length = text_length(behind);
        let (_, rest) = behind.split_at(length);
        let (text, _) = tokens.split_at(length + 1);
        Some((Part::Text(text), rest))
    }
}
