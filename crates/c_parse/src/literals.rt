//! Constants, as they stand in trees.

ghost use Rattle.std.specs.Prelude.{◌≡◌, ◌<◌, length, IfSome};
ghost use Rattle.std.specs.Option.{option_map};
ghost use Rattle.c_parse.specs.Reading.{signed_tree, constant_tree, constant_at, constant_front};

use c_constants::constant;
use c_text::{Place, Token};
use c_tree::{IntType, Num};

/// A constant: its place, its magnitude, and whether it is negative.
#[derive(Clone, Copy)]
pub struct Literal {
    pub place: Place,
    pub number: Num,
    pub negative: bool,
}

// A constant of this type and value. Of negative ones those alone that a byte has, of type `int`.
#[tactic(auto, using(crate::proofs::Magnitudes::kept, crate::proofs::Magnitudes::too_small))]
fn signed(place: Place, n: Num) -> Option<Literal>
    ensures { option_map (λ x. signed_tree x.negative x.place x.number) result ≡ constant_tree place n.ty n.value }
{
    if n.value >= 0 {
        return Some(Literal {
            place,
            number: n,
            negative: false,
        });
    }
    if n.value < -128 {
        return None;
    }
    let number = Num {
        ty: IntType::Int,
        value: -n.value,
    };
    Some(Literal {
        place,
        number,
        negative: true,
    })
}

// The constant that a token is.
#[tactic(auto, unfolding(crate::specs::Reading::constant_at))]
fn literal_of(token: &Token) -> Option<Literal>
    ensures { option_map (λ x. signed_tree x.negative x.place x.number) result ≡ constant_at token.now }
{
    match constant(token.kind, token.text.bytes()) {
        Some(n) => signed(token.place, n),
        None => None,
    }
}

// The constant that comes first, and what is behind it.
pub fn first_literal(tokens: &[Token]) -> Option<(Literal, &[Token])>
    ensures value { option_map (λ x. (signed_tree x.0.negative x.0.place x.0.number, x.1.now)) result ≡ constant_front tokens.now }
    ensures shorter { IfSome result (λ x. length x.1.now < length tokens.now) }
{
    match tokens {
        [] => None,
        [token, rest @ ..] => match literal_of(token) {
            Some(found) => Some((found, rest)),
            None => None,
        },
    }
}
