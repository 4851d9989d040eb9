//! Tokens with the jumps over their brackets.

ghost use Rattle.std.specs.Prelude.{◌≡◌, ◌-◌, ◌≤◌, [], ◌∷◌, length, take, drop, MatchOption};
ghost use Rattle.c_macros.specs.Groups.{Sound};

use c_text::Token;

/// Tokens, and for each bracket how far behind it the one that closes it stands: 0 where that isn't known.
#[derive(Clone, Copy)]
pub struct Segment<'a> {
    pub tokens: &'a [Token],
    pub jumps: &'a [usize],
    pub ghost sound: { Sound tokens.now jumps.now },
    pub ghost many: { length jumps.now ≡ length tokens.now },
}

/// The tokens from a place to another.
#[tactic(auto, using(crate::proofs::Parts::sound_part, crate::proofs::Parts::many_part))]
pub fn part<'a>(segment: Segment<'a>, from: usize, to: usize) -> Segment<'a>
    requires ordered { from ≤ to }
    requires within { to ≤ length segment.tokens.now }
    ensures { result.tokens.now ≡ take (to - from) (drop from segment.entry.tokens.now) }
{
    Segment {
        tokens: &segment.tokens[from..to],
        jumps: &segment.jumps[from..to],
    }
}

/// No tokens.
pub fn nothing<'a>() -> Segment<'a>
    ensures { result.tokens.now ≡ [] }
{
    Segment {
        tokens: &[],
        jumps: &[],
    }
}

/// The first token, and the others.
#[tactic(auto, using(crate::proofs::Parts::all_but_first))]
pub fn split_first<'a>(segment: Segment<'a>) -> Option<(&'a Token, Segment<'a>)>
    ensures { MatchOption result (segment.entry.tokens.now ≡ []) (λ x. segment.entry.tokens.now ≡ x.0.now ∷ x.1.tokens.now) }
{
    let tokens = segment.tokens;
    match tokens.first() {
        Some(token) => Some((token, part(segment, 1, tokens.len()))),
        None => None,
    }
}
