//! The list of forms, by the place of each: it is never built.

ghost use Rattle.std.specs.Prelude.{◌≡◌, ◌<◌, ◌^◌, get_or};
ghost use Rattle.price_choice.specs.declared.forms.Form.TheVariants.{TablePair};
ghost use Rattle.price_choice.specs.Forms.{IsForm};
ghost use Rattle.price_choice.specs.List.{side_at, pair_at, group_at, kind_at, dup_at, form_at, forms};

use crate::forms::{Form, FormKind, Side};

/// How many forms the list has.
pub const FORMS: u16 = 390;

fn side_at(k: u16) -> Side
    ensures { result ≡ side_at k }
{
    match k {
        0 => Side::A,
        1 => Side::B,
        _ => Side::Zero,
    }
}

/// The form at a place of the list, from 0 to 389: cheap forms first, and of one kind in the order of widths and operands.
#[tactic(auto, using(crate::proofs::Lists::form_there, crate::proofs::Lists::listed_form))]
pub fn form_at(i: u16) -> Form
    requires { i < 390 }
    ensures value { result ≡ form_at i }
    ensures there { get_or forms i TablePair ≡ result }
    ensures listed { IsForm result }
{
    made_at(i)
}

#[tactic(auto, unfolding(crate::specs::List::form_at))]
fn made_at(i: u16) -> Form
    requires { i < 390 }
    ensures { result ≡ form_at i }
{
    if i < 3 {
        Form::Same(side_at(i))
    } else if i < 63 {
        dup_at(i - 3)
    } else if i < 183 {
        let (x, y) = pair_at((i - 63) / 15);
        Form::Two(FormKind::Ext, 1, ((i - 63) % 15 + 1) as u8, x, y)
    } else if i < 195 {
        let (w, n) = group_at((i - 183) / 2);
        Form::One(FormKind::Rev, w, n, side_at((i - 183) % 2))
    } else if i < 387 {
        let j = i - 195;
        let (x, y) = pair_at(j % 8);
        Form::Two(
            kind_at(j / 64),
            width_at(j % 32 / 8),
            (j % 64 / 32 + 1) as u8,
            x,
            y,
        )
    } else if i == 387 {
        Form::Table(Side::A)
    } else if i == 388 {
        Form::Table(Side::B)
    } else {
        Form::TablePair
    }
}

fn dup_at(j: u16) -> Form
    requires { j < 60 }
    ensures { result ≡ dup_at j }
{
    if j < 32 {
        Form::One(FormKind::Dup, 1, (j % 16) as u8, side_at(j / 16))
    } else if j < 48 {
        Form::One(FormKind::Dup, 2, (j % 8) as u8, side_at((j - 32) / 8))
    } else if j < 56 {
        Form::One(FormKind::Dup, 4, (j % 4) as u8, side_at((j - 48) / 4))
    } else {
        Form::One(FormKind::Dup, 8, (j % 2) as u8, side_at((j - 56) / 2))
    }
}

fn pair_at(k: u16) -> (Side, Side)
    requires { k < 8 }
    ensures { result ≡ pair_at k }
{
    if k < 6 {
        (side_at(k / 3), side_at(k % 3))
    } else {
        (Side::Zero, side_at(k - 6))
    }
}

fn group_at(k: u16) -> (u8, u8)
    requires { k < 6 }
    ensures { result ≡ group_at k }
{
    if k == 0 {
        (1, 2)
    } else if k < 3 {
        (k as u8, 4)
    } else {
        (width_at(k - 3), 8)
    }
}

fn width_at(k: u16) -> u8
    requires { k < 4 }
    ensures { result ≡ 2 ^ k }
{
    match k {
        0 => 1,
        1 => 2,
        2 => 4,
        _ => 8,
    }
}

fn kind_at(k: u16) -> FormKind
    ensures { result ≡ kind_at k }
{
    match k {
        0 => FormKind::Zip,
        1 => FormKind::Uzp,
        _ => FormKind::Trn,
    }
}
