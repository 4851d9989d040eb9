//! What kinds of types there are, and when two are the same.

ghost use Rattle.std.specs.Prelude.{◌≡◌};
ghost use Rattle.type_rules.specs.Types.{integer_number, lane_number, same_integer, same_lane, same_pointee, same_type, read_integer, read_pointee, read_type, is_integer, is_scalar, is_vector, is_character, is_void_pointer, object_type, is_object, decayed, keeps_const, is_like, is_assignable};

use c_text::Dialect;
use c_tree::{CType, IntType, NeonLane, Pointee};

fn integer_number(t: IntType) -> u8
    ensures { result ≡ integer_number t }
{
    match t {
        IntType::Boolean => 0,
        IntType::Char => 1,
        IntType::SChar => 2,
        IntType::UChar => 3,
        IntType::Short => 4,
        IntType::UShort => 5,
        IntType::Int => 6,
        IntType::UInt => 7,
        IntType::Long => 8,
        IntType::ULong => 9,
        IntType::LLong => 10,
        IntType::ULLong => 11,
    }
}

fn lane_number(lane: NeonLane) -> u8
    ensures { result ≡ lane_number lane }
{
    match lane {
        NeonLane::U8 => 0,
        NeonLane::U16 => 1,
        NeonLane::U32 => 2,
        NeonLane::U64 => 3,
        NeonLane::S8 => 4,
        NeonLane::S16 => 5,
        NeonLane::S32 => 6,
        NeonLane::S64 => 7,
    }
}

/// Whether the pointers or arrays are of the same.
pub fn same_pointee(e: Pointee, f: Pointee) -> bool
    ensures { result ≡ same_pointee e f }
{
    match (e, f) {
        (Pointee::Void, Pointee::Void) => true,
        (Pointee::Int(s), Pointee::Int(t)) => integer_number(s) == integer_number(t),
        (Pointee::M128, Pointee::M128) => true,
        (Pointee::M256, Pointee::M256) => true,
        _ => false,
    }
}

/// Whether the types are the same.
pub fn same_type(s: CType, t: CType) -> bool
    ensures { result ≡ same_type s t }
{
    match (s, t) {
        (CType::Void, CType::Void) => true,
        (CType::Int(s), CType::Int(t)) => integer_number(s) == integer_number(t),
        (CType::M128, CType::M128) => true,
        (CType::M256, CType::M256) => true,
        (CType::Neon(l, wide), CType::Neon(m, and_wide)) => lane_number(l) == lane_number(m)
            && wide == and_wide,
        (CType::Pair, CType::Pair) => true,
        (CType::Pointer(e, c), CType::Pointer(f, d)) => same_pointee(e, f) && c == d,
        (CType::Array(e, n, c), CType::Array(f, m, d)) => same_pointee(e, f) && n == m && c == d,
        _ => false,
    }
}

/// The integer type that the word means in this dialect.
pub fn read_integer(dialect: Dialect, t: IntType) -> IntType
    ensures { result ≡ read_integer dialect t }
{
    match (dialect, t) {
        (Dialect::Neon, IntType::Char) => IntType::UChar,
        _ => t,
    }
}

fn read_pointee(dialect: Dialect, e: Pointee) -> Pointee
    ensures { result ≡ read_pointee dialect e }
{
    match e {
        Pointee::Int(t) => Pointee::Int(read_integer(dialect, t)),
        _ => e,
    }
}

/// The type that the words mean in this dialect: in Neon's `char` is `unsigned char`.
pub fn read_type(dialect: Dialect, t: CType) -> CType
    ensures { result ≡ read_type dialect t }
{
    match t {
        CType::Int(t) => CType::Int(read_integer(dialect, t)),
        CType::Pointer(e, c) => CType::Pointer(read_pointee(dialect, e), c),
        CType::Array(e, n, c) => CType::Array(read_pointee(dialect, e), n, c),
        _ => t,
    }
}

/// Whether it is an integer type.
pub fn is_integer(t: CType) -> bool
    ensures { result ≡ is_integer t }
{
    match t {
        CType::Int(_) => true,
        _ => false,
    }
}

/// Whether it is an integer or a pointer type (C11 6.2.5p21).
pub fn is_scalar(t: CType) -> bool
    ensures { result ≡ is_scalar t }
{
    match t {
        CType::Int(_) | CType::Pointer(_, _) => true,
        _ => false,
    }
}

/// Whether it is a vector type or a pair of vectors.
pub fn is_vector(t: CType) -> bool
    ensures { result ≡ is_vector t }
{
    match t {
        CType::M128 | CType::M256 | CType::Neon(_, _) | CType::Pair => true,
        _ => false,
    }
}

fn is_character(e: Pointee) -> bool
    ensures { result ≡ is_character e }
{
    match e {
        Pointee::Int(IntType::Char) | Pointee::Int(IntType::SChar) | Pointee::Int(IntType::UChar) =>
            true,
        _ => false,
    }
}

/// Whether it is a pointer to `void`, which no unit has.
pub fn is_void_pointer(t: CType) -> bool
    ensures { result ≡ is_void_pointer t }
{
    match t {
        CType::Pointer(Pointee::Void, _) => true,
        _ => false,
    }
}

/// The type of what is pointed to, where it is an object type.
pub fn object_type(e: Pointee) -> Option<CType>
    ensures { result ≡ object_type e }
{
    match e {
        Pointee::Void => None,
        Pointee::Int(t) => Some(CType::Int(t)),
        Pointee::M128 => Some(CType::M128),
        Pointee::M256 => Some(CType::M256),
    }
}

/// Whether what is pointed to is of an object type.
pub fn is_object(e: Pointee) -> bool
    ensures { result ≡ is_object e }
{
    match e {
        Pointee::Void => false,
        _ => true,
    }
}

/// The pointer that an array becomes (C11 6.3.2.1p3); the other types stay.
pub fn decayed(t: CType) -> CType
    ensures { result ≡ decayed t }
{
    match t {
        CType::Array(e, _, c) => CType::Pointer(e, c),
        _ => t,
    }
}

fn keeps_const(before: bool, after: bool) -> bool
    ensures { result ≡ keeps_const before after }
{
    !before || after
}

fn is_like(e: Pointee, f: Pointee) -> bool
    ensures { result ≡ is_like e f }
{
    same_pointee(e, f) || (is_character(e) && is_character(f))
}

/// Whether a value of the first type, which is the constant 0 or not, may be given to an object of the second (C11 6.5.16.1p1).
pub fn is_assignable(zero: bool, s: CType, t: CType) -> bool
    ensures { result ≡ is_assignable zero s t }
{
    match (s, t) {
        (CType::Int(_), CType::Int(_)) => true,
        (CType::Int(_), CType::Pointer(_, _)) => zero,
        (CType::Pointer(e, c), CType::Pointer(f, d)) => is_like(e, f) && keeps_const(c, d),
        _ => is_vector(s) && same_type(s, t),
    }
}
