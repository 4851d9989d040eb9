//! The rows of the first form by their names.

ghost use Rattle.std.specs.Prelude.{◌≡◌};
ghost use Rattle.simd_top.specs.Rows.{intel_row, neon_name, moved_row};

/// An Intel row of the first form: it takes two registers of 16 bytes and gives one.
#[derive(Clone, Copy, Debug, PartialEq, Eq)]
pub enum FormRow {
    /// `_mm_add_epi8`
    AddEpi8,
    /// `_mm_sub_epi8`
    SubEpi8,
    /// `_mm_avg_epu8`
    AvgEpu8,
    /// `_mm_min_epu8`
    MinEpu8,
    /// `_mm_xor_si128`
    XorSi128,
}

/// The row of this name, of the x86 dialect.
pub fn intel_row(name: &[u8]) -> Option<FormRow>
    ensures { result ≡ intel_row name.now }
{
    if name == b"_mm_add_epi8".as_slice() {
        Some(FormRow::AddEpi8)
    } else if name == b"_mm_sub_epi8".as_slice() {
        Some(FormRow::SubEpi8)
    } else if name == b"_mm_avg_epu8".as_slice() {
        Some(FormRow::AvgEpu8)
    } else if name == b"_mm_min_epu8".as_slice() {
        Some(FormRow::MinEpu8)
    } else if name == b"_mm_xor_si128".as_slice() {
        Some(FormRow::XorSi128)
    } else {
        None
    }
}

/// The name of the Neon row that stands for a row.
pub fn neon_name(op: FormRow) -> &'static [u8]
    ensures { result.now ≡ neon_name (moved_row op) }
{
    match op {
        FormRow::AddEpi8 => b"vaddq_u8",
        FormRow::SubEpi8 => b"vsubq_u8",
        FormRow::AvgEpu8 => b"vrhaddq_u8",
        FormRow::MinEpu8 => b"vminq_u8",
        FormRow::XorSi128 => b"veorq_u8",
    }
}
