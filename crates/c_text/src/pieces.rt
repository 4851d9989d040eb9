//! Which piece comes first in a text: a token, white space or a comment.

ghost use Rattle.std.specs.Prelude.{◌≡◌, ◌+◌, ◌≤◌, length, IfSome, None, ◌&&◌, ◌||◌, ◌==◌, true, false};
ghost use Rattle.c_text.specs.Forms.{all_are, is_digit, is_letter, is_name_byte, is_one_of, is_wide, begins_number, goes_on, is_mark_byte, is_mark_pair, is_mark_triple, is_blank, is_lone, is_bad, is_no_line_end};
ghost use Rattle.c_text.specs.declared.pieces.Sort.TheVariants.{Lexeme};
ghost use Rattle.c_text.specs.declared.tokens.TokenKind.TheVariants.{Lone};
ghost use Rattle.c_text.specs.Reading.{run, number_run, partner, comment_end, quoted, utf8_quoted, only_if, or_piece, letter_at, mark_more, slash_at, single_of, other_at, piece_at};
ghost use Rattle.c_text.specs.AloneQuotes.{is_alone, alone_behind, is_lone_sort};

use crate::tokens::TokenKind;

/// What a piece of a text is.
#[derive(Clone, Copy, Debug, PartialEq, Eq)]
pub enum Sort {
    Lexeme(TokenKind),
    /// A space, a tab, a vertical tab, a form feed or a carriage return.
    Blank,
    LineEnd,
    Comment,
    /// A comment without its end.
    Open,
    /// A byte that may stand in comments alone.
    Bad,
}

fn is_digit(b: u8) -> bool
    ensures { result ≡ is_digit b }
{
    b >= b'0' && b <= b'9'
}

fn is_letter(b: u8) -> bool
    ensures { result ≡ is_letter b }
{
    b >= b'a' && b <= b'z' || (b >= b'A' && b <= b'Z' || b == b'_')
}

fn is_name_byte(b: u8) -> bool
    ensures { result ≡ is_name_byte b }
{
    is_letter(b) || is_digit(b)
}

fn is_one_of(bytes: &[u8], b: u8) -> bool
    ensures { result ≡ is_one_of bytes.now b }
{
    for c in bytes {
        if b == *c {
            return true;
        }
    }
    false
}

// Whether a byte goes on with a number behind the byte before.
fn goes_on(before: u8, b: u8) -> bool
    ensures { result ≡ goes_on before b }
{
    is_name_byte(b) || (b == b'.' || (is_one_of(b"+-", b) && is_one_of(b"eEpP", before)))
}

fn is_mark_byte(b: u8) -> bool
    ensures { result ≡ is_mark_byte b }
{
    is_one_of(b"[](){}.&*+-~!/%<>^|?:;=,#", b)
}

fn is_mark_pair(a: u8, b: u8) -> bool
    ensures { result ≡ is_mark_pair a b }
{
    (b == b'=' && is_one_of(b"*/%+-&^|<>=!", a))
        || ((a == b && is_one_of(b"+-<>&|#", a)) || (a == b'-' && b == b'>'))
}

fn is_mark_triple(a: u8, b: u8, c: u8) -> bool
    ensures { result ≡ is_mark_triple a b c }
{
    a == b && ((a == b'.' && c == b'.') || (is_one_of(b"<>", a) && c == b'='))
}

fn is_blank(b: u8) -> bool
    ensures { result ≡ is_blank b }
{
    b == b'\t' || ((b >= 11 && b <= 13) || b == b' ')
}

fn is_lone(b: u8) -> bool
    ensures { result ≡ is_lone b }
{
    (b >= 33 && b <= 126) && !(is_name_byte(b) || is_mark_byte(b))
}

/// Whether a byte may stand in comments alone.
pub fn is_bad(b: u8) -> bool
    ensures { result ≡ is_bad b }
{
    !((b >= 33 && b <= 126) || (is_blank(b) || b == b'\n'))
}

// How many bytes of a name come first.
fn name_run(text: &[u8]) -> usize
    ensures value { result ≡ run is_name_byte 0 text.now }
    ensures within { result ≤ length text.now }
{
    let mut n = 0;
    while n < text.len() && is_name_byte(text[n]) {
        n += 1;
    }
    n
}

// How many bytes there are before the line's end.
fn line_run(text: &[u8]) -> usize
    ensures value { result ≡ run is_no_line_end 0 text.now }
    ensures within { result ≤ length text.now }
{
    let mut n = 0;
    while n < text.len() && text[n] != b'\n' {
        n += 1;
    }
    n
}

// How many bytes of a number follow its first.
fn number_run(first: u8, text: &[u8]) -> usize
    ensures value { result ≡ number_run first 0 text.now }
    ensures within { result ≤ length text.now }
{
    let mut n = 0;
    let mut before = first;
    while n < text.len() && goes_on(before, text[n]) {
        before = text[n];
        n += 1;
    }
    n
}

// How many bytes there are up to the quote's partner on the line, with it.
fn partner(quote: u8, text: &[u8]) -> Option<usize>
    ensures value { result ≡ partner quote false 0 text.now }
    ensures within { IfSome result (λ n. n ≤ length text.now) }
{
    let mut escaped = false;
    let mut n = 0;
    for b in text {
        n += 1;
        if *b == b'\n' {
            return None;
        }
        if !escaped && *b == quote {
            return Some(n);
        }
        escaped = !escaped && *b == b'\\';
    }
    None
}

// How many bytes there are up to the end of a comment, with it.
fn comment_end(text: &[u8]) -> Option<usize>
    ensures value { result ≡ comment_end false 0 text.now }
    ensures within { IfSome result (λ n. n ≤ length text.now) }
{
    let mut star = false;
    let mut n = 0;
    for b in text {
        n += 1;
        if star && *b == b'/' {
            return Some(n);
        }
        star = *b == b'*';
    }
    None
}

// How many bytes a quote has up to its partner on the line, with both.
fn quoted(quote: u8, text: &[u8]) -> Option<usize>
    ensures value { result ≡ quoted quote text.now }
    ensures within { IfSome result (λ n. n ≤ length text.now) }
{
    let Some((first, rest)) = text.split_first() else {
        return None;
    };
    if *first != quote {
        return None;
    }
    match partner(quote, rest) {
        Some(n) => Some(n + 1),
        None => None,
    }
}

// The same behind the `8` of the prefix `u8`.
fn utf8_quoted(text: &[u8]) -> Option<usize>
    ensures value { result ≡ utf8_quoted text.now }
    ensures within { IfSome result (λ n. n ≤ length text.now) }
{
    let Some((first, rest)) = text.split_first() else {
        return None;
    };
    if *first != b'8' {
        return None;
    }
    match quoted(b'"', rest) {
        Some(n) => Some(n + 1),
        None => None,
    }
}

// How many bytes stand behind the letter of an encoding prefix, up to the partner of this quote.
fn wide_quoted(letter: u8, quote: u8, text: &[u8]) -> Option<usize>
    ensures value { result ≡ only_if (is_wide letter) (quoted quote text.now) }
    ensures within { IfSome result (λ n. n ≤ length text.now) }
{
    if is_one_of(b"LuU", letter) {
        quoted(quote, text)
    } else {
        None
    }
}

// The piece that begins with a letter, and how many bytes it has behind that.
fn letter_at(letter: u8, rest: &[u8]) -> (Sort, usize)
    ensures value { result ≡ letter_at letter rest.now }
    ensures within { result.1 ≤ length rest.now }
{
    if let Some(n) = wide_quoted(letter, b'\'', rest) {
        return (Sort::Lexeme(TokenKind::Quote), n);
    }
    if let Some(n) = wide_quoted(letter, b'"', rest) {
        return (Sort::Lexeme(TokenKind::Str), n);
    }
    if letter == b'u' {
        if let Some(n) = utf8_quoted(rest) {
            return (Sort::Lexeme(TokenKind::Str), n);
        }
    }
    (Sort::Lexeme(TokenKind::Name), name_run(rest))
}

// How many bytes a mark has behind its first.
fn mark_more(first: u8, rest: &[u8]) -> usize
    ensures value { result ≡ mark_more first rest.now }
    ensures within { result ≤ length rest.now }
{
    if rest.len() > 1 && is_mark_triple(first, rest[0], rest[1]) {
        return 2;
    }
    if rest.len() > 0 && is_mark_pair(first, rest[0]) {
        return 1;
    }
    0
}

// The piece that begins with a `/`, and how many bytes it has behind that.
fn slash_at(rest: &[u8]) -> (Sort, usize)
    ensures value { result ≡ slash_at rest.now }
    ensures within { result.1 ≤ length rest.now }
{
    let Some((second, behind)) = rest.split_first() else {
        return (Sort::Lexeme(TokenKind::Mark), 0);
    };
    if *second == b'*' {
        return match comment_end(behind) {
            Some(n) => (Sort::Comment, n + 1),
            None => (Sort::Open, rest.len()),
        };
    }
    if *second == b'/' {
        return (Sort::Comment, line_run(behind) + 1);
    }
    (Sort::Lexeme(TokenKind::Mark), mark_more(b'/', rest))
}

// The piece that begins with a quote, which may be known to have no partner, and how many bytes it has behind that.
fn quote_at(quote: u8, kind: TokenKind, rest: &[u8], alone: bool) -> (Sort, usize)
    requires { alone ≡ true → partner quote false 0 rest.now ≡ None }
    ensures value { result ≡ or_piece (partner quote false 0 rest.now) (Lexeme kind) (Lexeme Lone, 0) }
    ensures within { result.1 ≤ length rest.now }
{
    if alone {
        return (Sort::Lexeme(TokenKind::Lone), 0);
    }
    match partner(quote, rest) {
        Some(n) => (Sort::Lexeme(kind), n),
        None => (Sort::Lexeme(TokenKind::Lone), 0),
    }
}

/// Which quotes are known to have no partner before the line's end.
#[derive(Clone, Copy, Debug)]
pub struct Alone {
    pub single: bool,
    pub double: bool,
}

/// Whether a byte is one of them.
pub fn is_alone(alone: Alone, b: u8) -> bool
    ensures { result ≡ is_alone alone b }
{
    (b == b'\'' && alone.single) || (b == b'"' && alone.double)
}

fn stays_on_line(bytes: &[u8]) -> bool
    ensures { result ≡ all_are is_no_line_end bytes.now }
{
    for b in bytes {
        if *b == b'\n' {
            return false;
        }
    }
    true
}

/// Which quotes are known to have no partner behind a piece of these bytes.
pub fn alone_behind(alone: Alone, sort: Sort, first: u8, bytes: &[u8]) -> Alone
    ensures { result ≡ alone_behind alone sort first bytes.now }
{
    let same_line = stays_on_line(bytes);
    let lone = is_lone_sort(sort);
    Alone {
        single: same_line && (alone.single || (lone && first == b'\'')),
        double: same_line && (alone.double || (lone && first == b'"')),
    }
}

fn is_lone_sort(sort: Sort) -> bool
    ensures { result ≡ is_lone_sort sort }
{
    match sort {
        Sort::Lexeme(kind) => match kind {
            TokenKind::Lone => true,
            TokenKind::Name | TokenKind::Number | TokenKind::Quote => false,
            TokenKind::Str | TokenKind::Mark => false,
        },
        Sort::Blank | Sort::LineEnd | Sort::Comment | Sort::Open | Sort::Bad => false,
    }
}

fn single_of(b: u8) -> Sort
    ensures { result ≡ single_of b }
{
    if is_lone(b) {
        Sort::Lexeme(TokenKind::Lone)
    } else if is_blank(b) {
        Sort::Blank
    } else if b == b'\n' {
        Sort::LineEnd
    } else {
        Sort::Bad
    }
}

// The piece that begins with a byte other than a letter or a digit, and how many bytes it has behind that.
fn other_at(first: u8, rest: &[u8], alone: bool) -> (Sort, usize)
    requires { alone ≡ true → partner first false 0 rest.now ≡ None }
    ensures value { result ≡ other_at first rest.now }
    ensures within { result.1 ≤ length rest.now }
{
    if first == b'\'' {
        quote_at(b'\'', TokenKind::Quote, rest, alone)
    } else if first == b'"' {
        quote_at(b'"', TokenKind::Str, rest, alone)
    } else if first == b'/' {
        slash_at(rest)
    } else if is_mark_byte(first) {
        (Sort::Lexeme(TokenKind::Mark), mark_more(first, rest))
    } else {
        (single_of(first), 0)
    }
}

// Whether a number begins with a byte.
fn begins_number(first: u8, rest: &[u8]) -> bool
    ensures { result ≡ begins_number first rest.now }
{
    is_digit(first) || (first == b'.' && rest.len() > 0 && is_digit(rest[0]))
}

/// The piece that begins with a byte, and how many bytes it has behind that. The byte may be a quote that is known to have no
/// partner on its line, which then isn't looked for again.
#[tactic(auto, unfolding(crate::specs::Reading::piece_at))]
pub fn piece_at(first: u8, rest: &[u8], alone: bool) -> (Sort, usize)
    requires { alone ≡ true → partner first false 0 rest.now ≡ None }
    ensures value { result ≡ piece_at first rest.now }
    ensures within { result.1 ≤ length rest.now }
{
    if is_letter(first) {
        letter_at(first, rest)
    } else if begins_number(first, rest) {
        (Sort::Lexeme(TokenKind::Number), number_run(first, rest))
    } else {
        other_at(first, rest, alone)
    }
}
