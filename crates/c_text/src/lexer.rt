//! From the bytes of a source to its tokens.

ghost use Rattle.std.specs.Prelude.{◌≡◌, ℕ, ◌+◌, ◌^◌, ◌<◌, ◌++◌, List, ◌∷◌, [], length, take, drop, ◌⊎◌, IfOk, OnOk, option_map};
ghost use Rattle.c_text.specs.declared.tokens.Token.{Token};
ghost use Rattle.c_text.specs.declared.refusals.Refusal.{Refusal};
ghost use Rattle.c_text.specs.declared.pieces.Sort.TheVariants.{Lexeme};
ghost use Rattle.c_text.specs.Source.{bytes_of};
ghost use Rattle.c_text.specs.Tokens.{is_white, first_behind, token_in, hex_digit, bad_byte, bad_bytes, long_names, bytes_in, faults_in, first_of, AllNamed, Tokens, FirstFault};
ghost use Rattle.c_text.specs.Reading.{piece_of, pieces};
ghost use Rattle.c_text.specs.Answers.{refusal_of, Refuses, IsFirst, Gives, IfRefused};

use crate::pieces::{Alone, Sort, alone_behind, is_alone, is_bad, piece_at};
use crate::refusals::{Fail, Refusal, shortened};
use crate::source::{Placed, bytes_of, shown};
use crate::tokens::{Place, Text, Token, TokenKind};
use std::alloc::{AllocError, Global};

/// What is wrong in a piece, with its first byte, or with the bad one.
#[derive(Clone, Copy, Debug)]
pub enum Fault {
    BadByte(Placed),
    OpenComment(Placed),
    LongName(Placed),
}

fn is_white(sort: Sort) -> bool
    ensures { result ≡ is_white sort }
{
    match sort {
        Sort::Blank | Sort::LineEnd | Sort::Comment => true,
        Sort::Lexeme(_) | Sort::Open | Sort::Bad => false,
    }
}

fn first_behind(sort: Sort, first: bool) -> bool
    ensures { result ≡ first_behind sort first }
{
    match sort {
        Sort::Lexeme(_) => false,
        Sort::LineEnd => true,
        Sort::Blank | Sort::Comment | Sort::Open | Sort::Bad => first,
    }
}

// A digit from 0 to 15, as `0` to `9` and `a` to `f`.
fn hex_digit(d: u8) -> u8
    requires { d < 16 }
    ensures { result ≡ hex_digit d }
{
    if d < 10 { 48 + d } else { 87 + d }
}

fn refusal(alloc: Global, number: u8, place: Place, detail: &[u8]) -> Fail
    ensures { Refuses result (record { number = number; place = place; detail = detail.now }) }
{
    match Text::new(alloc, detail) {
        Ok(detail) => Fail::Refused(Refusal {
            number,
            place,
            detail,
        }),
        Err(_) => Fail::Memory,
    }
}

// The refusal of a fault in a piece of these bytes.
fn refuse(alloc: Global, fault: Fault, bytes: &[u8]) -> Fail
    ensures { Refuses result (refusal_of fault bytes.now) }
{
    match fault {
        Fault::BadByte(c) => {
            let detail = [b'0', b'x', hex_digit(c.byte / 16), hex_digit(c.byte % 16)];
            refusal(alloc, 2, c.place, &detail)
        }
        Fault::OpenComment(c) => refusal(alloc, 3, c.place, b"/*"),
        Fault::LongName(c) => refusal(alloc, 20, c.place, shortened(bytes)),
    }
}

// The first byte of a piece that may stand in comments alone.
fn first_bad(begin: Placed, others: &[Placed]) -> Option<Placed>
    ensures { option_map bad_byte result ≡ first_of (bad_bytes (begin ∷ others.now)) }
{
    if is_bad(begin.byte) {
        return Some(begin);
    }
    for c in others {
        if is_bad(c.byte) {
            return Some(*c);
        }
    }
    None
}

// The fault of a name with more than 255 bytes.
fn long_name(kind: TokenKind, begin: Placed, others: &[Placed]) -> Option<Fault>
    ensures { let bytes = begin.byte ∷ bytes_of others.now in
        IsFirst result bytes (long_names (Lexeme kind) begin bytes) }
{
    match kind {
        TokenKind::Name => {
            if others.len() >= 255 {
                Some(Fault::LongName(begin))
            } else {
                None
            }
        }
        TokenKind::Number | TokenKind::Quote | TokenKind::Str => None,
        TokenKind::Mark | TokenKind::Lone => None,
    }
}

// The first fault in a piece other than a comment.
fn fault_outside(sort: Sort, begin: Placed, others: &[Placed]) -> Option<Fault>
    ensures { let bytes = begin.byte ∷ bytes_of others.now in
        IsFirst result bytes (bad_bytes (begin ∷ others.now) ++ long_names sort begin bytes) }
{
    if let Some(c) = first_bad(begin, others) {
        return Some(Fault::BadByte(c));
    }
    match sort {
        Sort::Lexeme(kind) => long_name(kind, begin, others),
        Sort::Blank | Sort::LineEnd | Sort::Comment | Sort::Open | Sort::Bad => None,
    }
}

// The first fault in a piece.
fn fault_in(sort: Sort, begin: Placed, others: &[Placed]) -> Option<Fault>
    ensures { let p = piece_of sort begin others.now in
        IsFirst result (bytes_in p) (faults_in sort p) }
{
    match sort {
        Sort::Comment => None,
        Sort::Open => Some(Fault::OpenComment(begin)),
        Sort::Lexeme(_) | Sort::Blank | Sort::LineEnd | Sort::Bad => {
            fault_outside(sort, begin, others)
        }
    }
}

fn push_token(
    alloc: Global,
    out: &mut Vec<Token>,
    sort: Sort,
    bytes: &[u8],
    place: Place,
    spaced: bool,
    first: bool,
) -> Result<(), AllocError>
    ensures { OnOk result (out.new.items ≡ out.old.items ++ token_in sort bytes.now place spaced first) }
{
    if let Sort::Lexeme(kind) = sort {
        let text = Text::new(alloc, bytes)?;
        out.push(Token {
            kind,
            text,
            place,
            spaced,
            first,
        })?;
    }
    Ok(())
}

// The bytes behind the first.
fn behind_first(text: &[u8]) -> &[u8]
    ensures { result.now ≡ drop 1 text.now }
{
    match text.split_first() {
        Some((_, behind)) => behind,
        None => text,
    }
}

fn lex_pieces(alloc: Global, chars: &[Placed], bytes: &[u8]) -> Result<Vec<Token>, Fail>
    requires { bytes.now ≡ bytes_of chars.now }
    ensures { Gives result (pieces 0 chars.now) }
{
    let mut out = Vec::new(alloc);
    let mut spaced = false;
    let mut first = true;
    let mut alone = Alone {
        single: false,
        double: false,
    };
    let mut rest = chars;
    let mut text = bytes;
    while let Some((begin, behind)) = rest.split_first() {
        let begin = *begin;
        let bytes_behind = behind_first(text);
        let is_alone = is_alone(alone, begin.byte);
        let (sort, n) = piece_at(begin.byte, bytes_behind, is_alone);
        let (others, after) = behind.split_at(n);
        let (spelling, text_after) = text.split_at(n + 1);
        if let Some(fault) = fault_in(sort, begin, others) {
            return Err(refuse(alloc, fault, spelling));
        }
        push_token(alloc, &mut out, sort, spelling, begin.place, spaced, first)?;
        alone = alone_behind(alone, sort, begin.byte, spelling);
        spaced = is_white(sort);
        first = first_behind(sort, first);
        rest = after;
        text = text_after;
    }
    Ok(out)
}

/// The tokens of a source, by ISO C11 5.1.1.2 (phases 1 to 3) and 6.4, without digraphs, trigraphs and universal character names.
///
/// # Errors
///
/// `Refused` with the first fault in the source. 2 is a byte above 126, or a control byte other than tab, newline, vertical tab, form
/// feed and carriage return, outside a comment; its detail is `0x` and two digits. 3 is a `/*` without its end, with the detail `/*`.
/// 20 is a name of more than 255 bytes, with its first 255 bytes. `Memory` where memory ran out.
pub fn lex(alloc: Global, source: &[u8]) -> Result<Vec<Token>, Fail>
    requires { length source.now < 2 ^ 32 }
    // The source has these tokens,
    ensures found { IfOk result (λ v. Tokens source.now v.items) }
    // and no others,
    ensures only { IfOk result (λ v. (ts : List Token) → Tokens source.now ts → ts ≡ v.items) }
    // each name is made of letters, digits and `_`, without a digit first,
    ensures names { IfOk result (λ v. AllNamed v.items) }
    // and there is no fault in it.
    ensures clean { IfOk result (λ _. (r : Refusal) → FirstFault source.now r → ⊥) }
    // What is refused is the first fault in the source,
    ensures refused { IfRefused result (λ r. FirstFault source.now r) }
    // and no other one is the first,
    ensures first { IfRefused result (λ r. (s : Refusal) → FirstFault source.now s → s ≡ r) }
    // and the source has no tokens.
    ensures none { IfRefused result (λ _. (ts : List Token) → Tokens source.now ts → ⊥) }
{
    let chars = shown(alloc, source)?;
    let bytes = bytes_of(alloc, &chars)?;
    lex_pieces(alloc, &chars, &bytes)
}

/// A source has one list of tokens at most.
pub fn one_token_list()
    ensures { (source : List ℕ) (ts us : List Token) → Tokens source ts → Tokens source us → ts ≡ us }
{}

/// A source has tokens, or a first fault.
pub fn tokens_or_fault()
    ensures { (source : List ℕ) → ((ts : List Token) × Tokens source ts) ⊎ ((r : Refusal) × FirstFault source r) }
{}
