//! What the grammar sees of a token.

ghost use Rattle.std.specs.Prelude.{◌≡◌, bytes_eq, option_map};
ghost use Rattle.std.specs.Map.{lookup};
ghost use Rattle.std.specs.List.{list_any};
ghost use Rattle.c_tree.specs.Vectors.{vectors};
ghost use Rattle.c_parse.specs.Symbols.{infix_marks, assignment_marks, other_marks, type_words, other_words, statement_words, keywords, later_keywords, last_symbol, plain_symbol, symbol_of, mark_symbol, name_symbol};

use c_text::{Dialect, Token, TokenKind, is_among, lookup};
use c_tree::{BinOp, CType, IntType, vector_named};

/// An operator between two operands that groups to the left (C11 6.5.5 to 6.5.14).
#[derive(Clone, Copy, Debug, PartialEq, Eq)]
pub enum Infix {
    Operator(BinOp),
    AndThen,
    OrElse,
}

/// A mark or a word that the grammar names.
#[derive(Clone, Copy, Debug, PartialEq, Eq)]
pub enum Sign {
    Open,
    Close,
    OpenSquare,
    CloseSquare,
    Comma,
    Question,
    Colon,
    SizeOf,
    /// `.`.
    Dot,
    OpenBrace,
    CloseBrace,
    Semicolon,
}

/// A word of statements and declarations (C11 6.7.1, 6.7.4, 6.7.5 and 6.8), with the attributes of GNU C.
#[derive(Clone, Copy, Debug, PartialEq, Eq)]
pub enum Word {
    If,
    Else,
    While,
    Do,
    For,
    Break,
    Continue,
    Return,
    Static,
    Inline,
    /// `_Alignas`.
    AlignAs,
    /// `__attribute__`.
    Attribute,
}

/// A word that is a part of an integer type's name (C11 6.7.2).
#[derive(Clone, Copy, Debug, PartialEq, Eq)]
pub enum Part {
    Char,
    Short,
    Int,
    Long,
    Signed,
    Unsigned,
}

/// A word of a type's name: a part of it, or all of it.
#[derive(Clone, Copy, Debug, PartialEq, Eq)]
pub enum TypeWord {
    Part(Part),
    Whole(CType),
}

/// What the grammar sees of a token.
#[derive(Clone, Copy, Debug, PartialEq, Eq)]
pub enum Symbol {
    Sign(Sign),
    /// An operator between operands. Some stand before an operand too, and `*` in types.
    Infix(Infix),
    /// `=`, or `+=` with the operator in it.
    Assign(Option<BinOp>),
    /// `++` if true, else `--`.
    Step(bool),
    /// `~`.
    Tilde,
    /// `!`.
    Exclamation,
    Type(TypeWord),
    /// `const`.
    Const,
    /// `restrict`.
    Restrict,
    Word(Word),
    /// A name that is no keyword.
    Name,
    /// A number or a character constant.
    Constant,
    /// Every other token.
    Other,
}

fn infix_mark(text: &[u8]) -> Option<Infix>
    ensures { result ≡ lookup (bytes_eq text.now) infix_marks }
{
    match text {
        b"*" => Some(Infix::Operator(BinOp::Mul)),
        b"/" => Some(Infix::Operator(BinOp::Div)),
        b"%" => Some(Infix::Operator(BinOp::Rem)),
        b"+" => Some(Infix::Operator(BinOp::Add)),
        b"-" => Some(Infix::Operator(BinOp::Sub)),
        b"<<" => Some(Infix::Operator(BinOp::Shl)),
        b">>" => Some(Infix::Operator(BinOp::Shr)),
        b"<" => Some(Infix::Operator(BinOp::Lt)),
        b">" => Some(Infix::Operator(BinOp::Gt)),
        b"<=" => Some(Infix::Operator(BinOp::Le)),
        b">=" => Some(Infix::Operator(BinOp::Ge)),
        b"==" => Some(Infix::Operator(BinOp::Eq)),
        b"!=" => Some(Infix::Operator(BinOp::Ne)),
        b"&" => Some(Infix::Operator(BinOp::BitAnd)),
        b"^" => Some(Infix::Operator(BinOp::BitXor)),
        b"|" => Some(Infix::Operator(BinOp::BitOr)),
        b"&&" => Some(Infix::AndThen),
        b"||" => Some(Infix::OrElse),
        _ => None,
    }
}

fn assignment(text: &[u8]) -> Option<Option<BinOp>>
    ensures { result ≡ lookup (bytes_eq text.now) assignment_marks }
{
    match text {
        b"=" => Some(None),
        b"*=" => Some(Some(BinOp::Mul)),
        b"/=" => Some(Some(BinOp::Div)),
        b"%=" => Some(Some(BinOp::Rem)),
        b"+=" => Some(Some(BinOp::Add)),
        b"-=" => Some(Some(BinOp::Sub)),
        b"<<=" => Some(Some(BinOp::Shl)),
        b">>=" => Some(Some(BinOp::Shr)),
        b"&=" => Some(Some(BinOp::BitAnd)),
        b"^=" => Some(Some(BinOp::BitXor)),
        b"|=" => Some(Some(BinOp::BitOr)),
        _ => None,
    }
}

fn other_mark(text: &[u8]) -> Option<Symbol>
    ensures { result ≡ lookup (bytes_eq text.now) other_marks }
{
    match text {
        b"(" => Some(Symbol::Sign(Sign::Open)),
        b")" => Some(Symbol::Sign(Sign::Close)),
        b"[" => Some(Symbol::Sign(Sign::OpenSquare)),
        b"]" => Some(Symbol::Sign(Sign::CloseSquare)),
        b"," => Some(Symbol::Sign(Sign::Comma)),
        b"?" => Some(Symbol::Sign(Sign::Question)),
        b":" => Some(Symbol::Sign(Sign::Colon)),
        b"." => Some(Symbol::Sign(Sign::Dot)),
        b"{" => Some(Symbol::Sign(Sign::OpenBrace)),
        b"}" => Some(Symbol::Sign(Sign::CloseBrace)),
        b";" => Some(Symbol::Sign(Sign::Semicolon)),
        b"++" => Some(Symbol::Step(true)),
        b"--" => Some(Symbol::Step(false)),
        b"~" => Some(Symbol::Tilde),
        b"!" => Some(Symbol::Exclamation),
        _ => None,
    }
}

fn mark_symbol(text: &[u8]) -> Symbol
    ensures { result ≡ mark_symbol text.now }
{
    if let Some(op) = infix_mark(text) {
        return Symbol::Infix(op);
    }
    if let Some(op) = assignment(text) {
        return Symbol::Assign(op);
    }
    match other_mark(text) {
        Some(symbol) => symbol,
        None => Symbol::Other,
    }
}

static TYPE_WORDS: [(&[u8], Symbol); 18] = [
    (b"char", Symbol::Type(TypeWord::Part(Part::Char))),
    (b"short", Symbol::Type(TypeWord::Part(Part::Short))),
    (b"int", Symbol::Type(TypeWord::Part(Part::Int))),
    (b"long", Symbol::Type(TypeWord::Part(Part::Long))),
    (b"signed", Symbol::Type(TypeWord::Part(Part::Signed))),
    (b"unsigned", Symbol::Type(TypeWord::Part(Part::Unsigned))),
    (b"void", Symbol::Type(TypeWord::Whole(CType::Void))),
    (
        b"_Bool",
        Symbol::Type(TypeWord::Whole(CType::Int(IntType::Boolean))),
    ),
    (
        b"int8_t",
        Symbol::Type(TypeWord::Whole(CType::Int(IntType::SChar))),
    ),
    (
        b"int16_t",
        Symbol::Type(TypeWord::Whole(CType::Int(IntType::Short))),
    ),
    (
        b"int32_t",
        Symbol::Type(TypeWord::Whole(CType::Int(IntType::Int))),
    ),
    (
        b"int64_t",
        Symbol::Type(TypeWord::Whole(CType::Int(IntType::Long))),
    ),
    (
        b"uint8_t",
        Symbol::Type(TypeWord::Whole(CType::Int(IntType::UChar))),
    ),
    (
        b"uint16_t",
        Symbol::Type(TypeWord::Whole(CType::Int(IntType::UShort))),
    ),
    (
        b"uint32_t",
        Symbol::Type(TypeWord::Whole(CType::Int(IntType::UInt))),
    ),
    (
        b"uint64_t",
        Symbol::Type(TypeWord::Whole(CType::Int(IntType::ULong))),
    ),
    (
        b"size_t",
        Symbol::Type(TypeWord::Whole(CType::Int(IntType::ULong))),
    ),
    (
        b"ptrdiff_t",
        Symbol::Type(TypeWord::Whole(CType::Int(IntType::Long))),
    ),
];

static OTHER_WORDS: [(&[u8], Symbol); 5] = [
    (b"sizeof", Symbol::Sign(Sign::SizeOf)),
    (b"const", Symbol::Const),
    (b"restrict", Symbol::Restrict),
    (b"__restrict", Symbol::Restrict),
    (b"__restrict__", Symbol::Restrict),
];

static STATEMENT_WORDS: [(&[u8], Symbol); 14] = [
    (b"if", Symbol::Word(Word::If)),
    (b"else", Symbol::Word(Word::Else)),
    (b"while", Symbol::Word(Word::While)),
    (b"do", Symbol::Word(Word::Do)),
    (b"for", Symbol::Word(Word::For)),
    (b"break", Symbol::Word(Word::Break)),
    (b"continue", Symbol::Word(Word::Continue)),
    (b"return", Symbol::Word(Word::Return)),
    (b"static", Symbol::Word(Word::Static)),
    (b"inline", Symbol::Word(Word::Inline)),
    (b"__inline", Symbol::Word(Word::Inline)),
    (b"__inline__", Symbol::Word(Word::Inline)),
    (b"_Alignas", Symbol::Word(Word::AlignAs)),
    (b"__attribute__", Symbol::Word(Word::Attribute)),
];

static KEYWORDS: [&[u8]; 9] = [
    b"auto",
    b"case",
    b"default",
    b"double",
    b"enum",
    b"extern",
    b"float",
    b"goto",
    b"register",
];

static LATER_KEYWORDS: [&[u8]; 13] = [
    b"struct",
    b"switch",
    b"typedef",
    b"union",
    b"volatile",
    b"_Alignof",
    b"_Atomic",
    b"_Complex",
    b"_Generic",
    b"_Imaginary",
    b"_Noreturn",
    b"_Static_assert",
    b"_Thread_local",
];

fn type_symbol(text: &[u8]) -> Option<Symbol>
    ensures { result ≡ lookup (bytes_eq text.now) type_words }
{
    lookup(text, &TYPE_WORDS)
}

fn other_symbol(text: &[u8]) -> Option<Symbol>
    ensures { result ≡ lookup (bytes_eq text.now) other_words }
{
    lookup(text, &OTHER_WORDS)
}

fn statement_symbol(text: &[u8]) -> Option<Symbol>
    ensures { result ≡ lookup (bytes_eq text.now) statement_words }
{
    lookup(text, &STATEMENT_WORDS)
}

fn is_keyword(word: &[u8]) -> bool
    ensures { result ≡ list_any (bytes_eq word.now) keywords }
{
    is_among(word, &KEYWORDS)
}

fn is_later_keyword(word: &[u8]) -> bool
    ensures { result ≡ list_any (bytes_eq word.now) later_keywords }
{
    is_among(word, &LATER_KEYWORDS)
}

// What a word is that is in no table but those of keywords.
fn last_symbol(text: &[u8]) -> Symbol
    ensures { result ≡ last_symbol text.now }
{
    if is_keyword(text) || is_later_keyword(text) {
        Symbol::Other
    } else {
        Symbol::Name
    }
}

// What a word is that is no type's.
fn plain_symbol(text: &[u8]) -> Symbol
    ensures { result ≡ plain_symbol text.now }
{
    match other_symbol(text) {
        Some(symbol) => symbol,
        None => match statement_symbol(text) {
            Some(symbol) => symbol,
            None => last_symbol(text),
        },
    }
}

fn name_symbol(dialect: Dialect, text: &[u8]) -> Symbol
    ensures { result ≡ name_symbol dialect text.now }
{
    match type_symbol(text) {
        Some(symbol) => symbol,
        None => match vector_named(dialect, text) {
            Some(ty) => Symbol::Type(TypeWord::Whole(ty)),
            None => plain_symbol(text),
        },
    }
}

/// What the grammar sees of a token.
#[tactic(auto, unfolding(crate::specs::Symbols::symbol_of))]
pub fn token_symbol(dialect: Dialect, token: &Token) -> Symbol
    ensures { result ≡ symbol_of dialect token.now }
{
    match token.kind {
        TokenKind::Name => name_symbol(dialect, token.text.bytes()),
        TokenKind::Number | TokenKind::Quote => Symbol::Constant,
        TokenKind::Mark => mark_symbol(token.text.bytes()),
        TokenKind::Str | TokenKind::Lone => Symbol::Other,
    }
}
