//! The items that give a run its arguments and its memory, as words.

ghost use Rattle.std.specs.Prelude.{◌≡◌, ◌<◌, length, map, option_map, position, IfSome, string_bytes};
ghost use Rattle.std.specs.Char.{is_ascii_digit, is_ascii_hexdigit};
ghost use Rattle.std.specs.List.{list_all};
ghost use Rattle.std.specs.Option.{option_and_then};
ghost use Rattle.migrate_report.specs.Items.{is_colon, cut, is_number, number_of, value, alignment_of, writable_of, is_hex, block_of_fields, block_of, space_of_fields, space_of, integer_of, is_vector, vector_of, at_of_fields, at_of, item_of_kind, null_of, item_of, items_fit_form};
ghost use Rattle.migrate_report.specs.Reading.{view_item, both_now, at_most, room_after};

/// The bytes that all blocks of a run may have together.
const MOST_BYTES: u64 = 1_048_576;

/// What an item gives. Numbers are kept as their digits, since they may be greater than any integer of the code.
#[derive(Clone, Copy, Debug)]
pub enum Item<'a> {
    /// The next block: its alignment, whether it is writable, and its bytes as hex digits.
    Block(u64, bool, &'a [u8]),
    /// The next block, which is writable: its alignment, and the number of its bytes, none of which is set.
    Space(u64, &'a [u8]),
    /// An integer argument: whether it is negative, and its digits.
    Integer(bool, &'a [u8]),
    /// A vector argument, as hex digits from byte 0 on.
    Vector(&'a [u8]),
    /// A pointer argument: the number of a block, and an offset in it.
    At(&'a [u8], &'a [u8]),
    /// The null pointer as an argument.
    Null,
}

/// The index of the first colon.
fn colon(text: &[u8]) -> Option<usize>
    ensures first { result ≡ position is_colon text.now }
    ensures within { IfSome result (λ i. i < length text.now) }
{
    text.iter().position(|c| *c == b':')
}

/// What stands before the first colon and what stands behind it.
fn cut(text: &[u8]) -> Option<(&[u8], &[u8])>
    ensures { option_map both_now result ≡ cut text.now }
{
    match colon(text) {
        Some(i) => Some((&text[..i], &text[i + 1..])),
        None => None,
    }
}

fn are_digits(text: &[u8]) -> bool
    ensures { result ≡ list_all is_ascii_digit text.now }
{
    text.iter().all(|c| c.is_ascii_digit())
}

fn are_hex_digits(text: &[u8]) -> bool
    ensures { result ≡ list_all is_ascii_hexdigit text.now }
{
    text.iter().all(|c| c.is_ascii_hexdigit())
}

/// Whether this is `0`, or digits of which the first isn't `0`.
fn is_number(text: &[u8]) -> bool
    ensures { result ≡ is_number text.now }
{
    match text.split_first() {
        Some((c, rest)) => {
            c.is_ascii_digit() && are_digits(rest) && (*c != b'0' || rest.is_empty())
        }
        None => false,
    }
}

/// The number that the digits say, where it is at most `most`.
pub fn number_up_to(digits: &[u8], most: u64) -> Option<u64>
    ensures { result ≡ at_most most (value digits.now) }
{
    let most = u128::from(most);
    let mut n = 0u128;
    for c in digits {
        n = 10 * n + u128::from(c.saturating_sub(b'0'));
        if n > most {
            return None;
        }
    }
    Some(n as u64)
}

/// The number that a word is, `0` or digits of which the first isn't `0`, where it is at most `most`.
pub fn number(text: &[u8], most: u64) -> Option<u64>
    ensures { result ≡ option_and_then (at_most most) (number_of text.now) }
{
    if is_number(text) {
        number_up_to(text, most)
    } else {
        None
    }
}

fn alignment(text: &[u8]) -> Option<u64>
    ensures { result ≡ alignment_of text.now }
{
    if !is_number(text) {
        return None;
    }
    match number_up_to(text, 64) {
        Some(n) if matches!(n, 1 | 2 | 4 | 8 | 16 | 32 | 64) => Some(n),
        _ => None,
    }
}

/// Whether a block is writable.
fn writable(text: &[u8]) -> Option<bool>
    ensures { result ≡ writable_of text.now }
{
    if text == b"rw".as_slice() {
        Some(true)
    } else if text == b"ro".as_slice() {
        Some(false)
    } else {
        None
    }
}

/// Whether these are hex digits of either case, two for each byte.
fn is_hex(text: &[u8]) -> bool
    ensures { result ≡ is_hex text.now }
{
    text.len() % 2 == 0 && are_hex_digits(text)
}

/// A block, where its fields are in order.
fn block_of_fields<'a>(align: &[u8], access: &[u8], hex: &'a [u8]) -> Option<Item<'a>>
    ensures { option_map view_item result ≡ block_of_fields align.now access.now hex.now }
{
    if !is_hex(hex) {
        return None;
    }
    match (alignment(align), writable(access)) {
        (Some(align), Some(writable)) => Some(Item::Block(align, writable, hex)),
        _ => None,
    }
}

/// `ALIGN:rw:HEX` or `ALIGN:ro:HEX`.
fn block(text: &[u8]) -> Option<Item<'_>>
    ensures { option_map view_item result ≡ block_of text.now }
{
    let (align, rest) = cut(text)?;
    let (access, hex) = cut(rest)?;
    block_of_fields(align, access, hex)
}

fn space_of_fields<'a>(align: &[u8], count: &'a [u8]) -> Option<Item<'a>>
    ensures { option_map view_item result ≡ space_of_fields align.now count.now }
{
    match alignment(align) {
        Some(align) if is_number(count) => Some(Item::Space(align, count)),
        _ => None,
    }
}

/// `ALIGN:N`.
fn space(text: &[u8]) -> Option<Item<'_>>
    ensures { option_map view_item result ≡ space_of text.now }
{
    let (align, count) = cut(text)?;
    space_of_fields(align, count)
}

/// A number, or `-` and a number other than 0.
fn integer(text: &[u8]) -> Option<Item<'_>>
    ensures { option_map view_item result ≡ integer_of text.now }
{
    match text.split_first() {
        None => None,
        Some((b'-', digits)) => {
            if is_number(digits) && digits != b"0".as_slice() {
                Some(Item::Integer(true, digits))
            } else {
                None
            }
        }
        Some(_) => {
            if is_number(text) {
                Some(Item::Integer(false, text))
            } else {
                None
            }
        }
    }
}

/// Whether these are the hex digits of 8, 16 or 32 bytes.
fn is_vector(text: &[u8]) -> bool
    ensures { result ≡ is_vector text.now }
{
    let digits = text.len();
    are_hex_digits(text) && (digits == 16 || digits == 32 || digits == 64)
}

fn vector(text: &[u8]) -> Option<Item<'_>>
    ensures { option_map view_item result ≡ vector_of text.now }
{
    if is_vector(text) {
        Some(Item::Vector(text))
    } else {
        None
    }
}

fn at_of_fields<'a>(block: &'a [u8], offset: &'a [u8]) -> Option<Item<'a>>
    ensures { option_map view_item result ≡ at_of_fields block.now offset.now }
{
    if is_number(block) && is_number(offset) {
        Some(Item::At(block, offset))
    } else {
        None
    }
}

/// `B:OFF`.
fn at(text: &[u8]) -> Option<Item<'_>>
    ensures { option_map view_item result ≡ at_of text.now }
{
    let (block, offset) = cut(text)?;
    at_of_fields(block, offset)
}

/// An item of this kind.
fn item_of_kind<'a>(kind: &[u8], rest: &'a [u8]) -> Option<Item<'a>>
    ensures { option_map view_item result ≡ item_of_kind kind.now rest.now }
{
    if kind == b"block".as_slice() {
        block(rest)
    } else if kind == b"space".as_slice() {
        space(rest)
    } else if kind == b"int".as_slice() {
        integer(rest)
    } else if kind == b"vec".as_slice() {
        vector(rest)
    } else if kind == b"at".as_slice() {
        at(rest)
    } else {
        None
    }
}

fn null(word: &[u8]) -> Option<Item<'_>>
    ensures { option_map view_item result ≡ null_of word.now }
{
    if word == b"null".as_slice() {
        Some(Item::Null)
    } else {
        None
    }
}

/// The item that a word is.
pub fn read_item(word: &[u8]) -> Option<Item<'_>>
    ensures { option_map view_item result ≡ item_of word.now }
{
    match cut(word) {
        Some((kind, rest)) => item_of_kind(kind, rest),
        None => null(word),
    }
}

/// The room that is left of `room` bytes when the block of a word's item is taken from it.
fn room_after(word: &[u8], room: u64) -> Option<u64>
    ensures { result ≡ room_after room (item_of word.now) }
{
    let size = match read_item(word)? {
        Item::Block(_, _, hex) => hex.len() as u64 / 2,
        Item::Space(_, count) => number_up_to(count, room)?,
        _ => 0,
    };
    room.checked_sub(size)
}

/// Whether each word is an item, and the blocks have together at most 1,048,576 bytes. Takes no memory.
pub fn items_fit_form(words: &[String]) -> bool
    ensures form { result ≡ items_fit_form (map (λ w. string_bytes w) words.now) }
{
    let mut room = MOST_BYTES;
    for word in words {
        match room_after(word.as_bytes(), room) {
            Some(left) => room = left,
            None => return false,
        }
    }
    true
}
