//! Forms of shuffles: what each gives.

ghost use Rattle.std.specs.Prelude.{◌≡◌, ◌<◌, ◌/◌};
ghost use Rattle.price_choice.specs.Forms.{from_side, source_lane, source_byte, pick_at, same_pick, allowed, gives_of, kind_of, IsListed, IsForm};

/// The kinds of calls that move bytes of vectors of 16 bytes (Arm's Neon reference). All calls of a kind have one price.
#[derive(Clone, Copy, Debug, PartialEq, Eq)]
pub enum FormKind {
    /// `vdupq_laneq`: one lane in all places.
    Dup,
    /// `vextq_u8`: the bytes of two operands from one place on.
    Ext,
    /// `vrev16q`, `vrev32q`, `vrev64q`: the lanes of each group from its end.
    Rev,
    /// `vzip1q`, `vzip2q`: lanes of two operands in turn, from their low or their high halves.
    Zip,
    /// `vuzp1q`, `vuzp2q`: every second lane of two operands.
    Uzp,
    /// `vtrn1q`, `vtrn2q`: every second lane of two operands in turn.
    Trn,
    /// `vqtbl1q_u8`, `vqtbl2q_u8`: bytes by a table of places.
    Tbl,
}

/// What a byte of a result is: a byte of the first or the second operand, by its place from 0 to 15, or zero.
#[derive(Clone, Copy, Debug, PartialEq, Eq)]
pub enum Pick {
    A(u8),
    B(u8),
    Zero,
}

/// An operand of a form: the first or the second operand of the row, or the zero vector.
#[derive(Clone, Copy, Debug, PartialEq, Eq)]
pub enum Side {
    A,
    B,
    Zero,
}

/// A form: how a vector of 16 bytes is made of two others.
#[derive(Clone, Copy, Debug, PartialEq, Eq)]
pub enum Form {
    /// An operand itself, without a call.
    Same(Side),
    /// A call of one operand: its kind, the width of its lanes in bytes, and its number: the lane of a dup, or the bytes of a group.
    One(FormKind, u8, u8, Side),
    /// A call of two operands: its kind, the width of its lanes in bytes (1 for an ext), and its number: the count of bytes of an ext, else 1 or 2.
    Two(FormKind, u8, u8, Side, Side),
    /// `vqtbl1q_u8` of an operand.
    Table(Side),
    /// `vqtbl2q_u8` of both operands.
    TablePair,
}

/// Byte `p` of an operand.
fn from_side(side: Side, p: u8) -> Pick
    ensures { result ≡ from_side side p }
{
    match side {
        Side::A => Pick::A(p),
        Side::B => Pick::B(p),
        Side::Zero => Pick::Zero,
    }
}

/// The lane of the operands, one behind the other, that lane `k` of the result is.
fn source_lane(kind: FormKind, w: u8, n: u8, k: u8) -> u8
    requires listed { IsListed kind w n }
    requires lane { k < 16 / w }
    ensures value { result ≡ source_lane kind w n k }
    ensures within { result < 32 }
{
    let lanes = 16 / w;
    match kind {
        FormKind::Dup => n,
        FormKind::Ext => k + n,
        FormKind::Rev => {
            let m = n / w;
            k / m * m + (m - 1 - k % m)
        }
        FormKind::Zip => (n - 1) * (lanes / 2) + k / 2 + k % 2 * lanes,
        FormKind::Uzp => 2 * k + (n - 1),
        FormKind::Trn => k / 2 * 2 + (n - 1) + k % 2 * lanes,
        FormKind::Tbl => k,
    }
}

/// The byte of the operands that byte `i` of the result is.
fn source_byte(kind: FormKind, w: u8, n: u8, i: u8) -> u8
    requires listed { IsListed kind w n }
    requires byte { i < 16 }
    ensures { result ≡ source_byte kind w n i }
{
    source_lane(kind, w, n, i / w) * w + i % w
}

/// Byte `i` of what a form gives.
fn pick_at(form: Form, i: u8) -> Pick
    requires listed { IsForm form }
    requires byte { i < 16 }
    ensures { result ≡ pick_at form i }
{
    match form {
        Form::Same(x) => from_side(x, i),
        Form::One(kind, w, n, x) => from_side(x, source_byte(kind, w, n, i)),
        Form::Two(kind, w, n, x, y) => {
            let p = source_byte(kind, w, n, i);
            if p < 16 {
                from_side(x, p)
            } else {
                from_side(y, p - 16)
            }
        }
        _ => Pick::Zero,
    }
}

fn same_pick(p: Pick, q: Pick) -> bool
    ensures { result ≡ same_pick p q }
{
    match (p, q) {
        (Pick::A(m), Pick::A(n)) => m == n,
        (Pick::B(m), Pick::B(n)) => m == n,
        (Pick::Zero, Pick::Zero) => true,
        _ => false,
    }
}

/// Whether the form can give the byte at place `i`.
fn allowed(form: Form, i: u8, p: Pick) -> bool
    requires listed { IsForm form }
    requires byte { i < 16 }
    ensures { result ≡ allowed form i p }
{
    match form {
        Form::Table(Side::A) => !matches!(p, Pick::B(_)),
        Form::Table(Side::B) => !matches!(p, Pick::A(_)),
        Form::Table(Side::Zero) => false,
        Form::TablePair => true,
        _ => same_pick(p, pick_at(form, i)),
    }
}

impl Form {
    /// Whether the form can give these bytes. Each place in `want` is below 16.
    pub fn gives(&self, want: &[Pick; 16]) -> bool
        requires { IsForm self.now }
        ensures { result ≡ gives_of self.now want.now }
    {
        for (i, p) in want.iter().enumerate() {
            if !allowed(*self, i as u8, *p) {
                return false;
            }
        }
        true
    }

    /// The kind of its call; none exactly for an operand alone.
    pub fn kind(&self) -> Option<FormKind>
        ensures { result ≡ kind_of self.now }
    {
        match self {
            Form::Same(_) => None,
            Form::One(kind, _, _, _) => Some(*kind),
            Form::Two(kind, _, _, _, _) => Some(*kind),
            Form::Table(_) | Form::TablePair => Some(FormKind::Tbl),
        }
    }
}
