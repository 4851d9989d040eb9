//! What statements begin with.

ghost use Rattle.std.specs.Prelude.{◌≡◌, ◌<◌, length, IfSome, IfNone};
ghost use Rattle.std.specs.Option.{option_copied};
ghost use Rattle.c_parse.specs.declared.symbols.Symbol.TheVariants.{Other};
ghost use Rattle.c_parse.specs.Reading.{behind, front, place_at};
ghost use Rattle.c_parse.specs.StatementReading.{is_word, past_word};

use crate::symbols::{Symbol, Word, token_symbol};
use c_text::{Dialect, Place, Token};

// The first symbol, its place, and what is behind it.
pub fn ahead(dialect: Dialect, tokens: &[Token]) -> Option<(Symbol, Place, &[Token])>
    ensures found { IfSome result (λ x. (front dialect tokens.now ≡ x.0) × (place_at tokens.now ≡ x.1) × (behind tokens.now ≡ x.2.now)) }
    ensures shorter { IfSome result (λ x. length x.2.now < length tokens.now) }
    ensures none { IfNone result (front dialect tokens.now ≡ Other) }
{
    match tokens {
        [] => None,
        [token, rest @ ..] => Some((token_symbol(dialect, token), token.place, rest)),
    }
}

fn is_the(word: Word, symbol: Symbol) -> bool
    ensures { result ≡ is_word word symbol }
{
    match symbol {
        Symbol::Word(found) => word == found,
        _ => false,
    }
}

// What is behind this word, where it comes first.
pub fn past_word(dialect: Dialect, word: Word, tokens: &[Token]) -> Option<&[Token]>
    ensures value { option_copied result ≡ past_word dialect word tokens.now }
    ensures shorter { IfSome result (λ rest. length rest.now < length tokens.now) }
{
    match tokens {
        [] => None,
        [token, rest @ ..] => {
            if is_the(word, token_symbol(dialect, token)) {
                Some(rest)
            } else {
                None
            }
        }
    }
}
