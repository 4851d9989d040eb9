//! What declarators declare.

ghost use Rattle.std.specs.Prelude.{◌≡◌, option_map, Some};
ghost use Rattle.c_tree.specs.View.{view, views, view_declared};
ghost use Rattle.c_parse.specs.Objects.{is_plain, array_of, and_const, is_array, length_of, has_length, object_type, parameter_type, object, parameter, has_value};
ghost use Rattle.c_parse.specs.DeclarationViews.{view_specification, view_extent, view_declarator, view_initial};

use crate::declarators::{Declarator, Extent};
use crate::initialisers::Initial;
use crate::specification::Specification;
use crate::types::{Specifiers, base, pointer};
use c_tree::{CType, Declared, Expr};

// Neither `static` nor `inline`.
pub fn is_plain(said: &Specification) -> bool
    ensures { result ≡ is_plain (view_specification said.now) }
{
    !(said.is_static || said.is_inline)
}

// An array of what this points to.
fn array(to: Option<CType>) -> Option<CType>
    ensures { result ≡ array_of to }
{
    match to {
        Some(CType::Pointer(pointee, constant)) => Some(CType::Array(pointee, 0, constant)),
        _ => None,
    }
}

pub fn is_array(extent: &Extent) -> bool
    ensures { result ≡ is_array (view_extent extent.now) }
{
    match extent {
        Extent::Single => false,
        _ => true,
    }
}

// The length in brackets.
fn length(extent: Extent) -> Option<Expr>
    ensures { option_map view result ≡ length_of (view_extent extent) }
{
    match extent {
        Extent::Bounded(length) => Some(length),
        _ => None,
    }
}

// An array without a length has a list of initialisers.
fn has_length(extent: &Extent, list: &Option<Vec<Expr>>) -> bool
    ensures { result ≡ has_length (view_extent extent.now) (option_map (λ all. views all.items) list.now) }
{
    match extent {
        Extent::Unbounded => list.is_some(),
        _ => true,
    }
}

// A type, if there is one, of an object that is const or not.
fn and_const(ty: Option<CType>, constant: bool) -> Option<(CType, bool)>
    ensures { result ≡ and_const ty constant }
{
    match ty {
        Some(ty) => Some((ty, constant)),
        None => None,
    }
}

// The type of an object, and whether the object is const.
pub fn object_type(words: Specifiers, star: Option<bool>, extent: &Extent) -> Option<(CType, bool)>
    ensures { result ≡ object_type words star (view_extent extent.now) }
{
    match star {
        None => match extent {
            Extent::Single => and_const(base(words), words.constant),
            _ => and_const(array(pointer(base(words), words.constant)), words.constant),
        },
        Some(constant) => match extent {
            Extent::Single => and_const(pointer(base(words), words.constant), constant),
            _ => None,
        },
    }
}

// The same of a parameter: an array is a pointer to its elements.
fn parameter_type(words: Specifiers, star: Option<bool>, extent: &Extent) -> Option<(CType, bool)>
    ensures { result ≡ parameter_type words star (view_extent extent.now) }
{
    match star {
        None => match extent {
            Extent::Single => and_const(base(words), words.constant),
            _ => and_const(pointer(base(words), words.constant), false),
        },
        Some(constant) => match extent {
            Extent::Single => and_const(pointer(base(words), words.constant), constant),
            _ => None,
        },
    }
}

// The object of a declarator with its initialiser.
pub fn declared(said: &Specification, declarator: Declarator, begun: Initial) -> Option<Declared>
    ensures { option_map view_declared result ≡ object (view_specification said.now) (view_declarator declarator) (view_initial begun) }
{
    if !has_length(&declarator.extent, &begun.list) {
        return None;
    }
    match object_type(said.words, declarator.star, &declarator.extent) {
        Some((ty, constant)) => Some(Declared {
            place: declarator.place,
            name: declarator.name,
            ty,
            length: length(declarator.extent),
            constant,
            align: declarator.align,
            align_first: said.align.is_some(),
            init: begun.init,
            list: begun.list,
        }),
        None => None,
    }
}

// The parameter of a declarator, which has no alignment.
pub fn parameter(words: Specifiers, declarator: Declarator) -> Option<Declared>
    ensures { option_map view_declared result ≡ parameter words (view_declarator declarator) }
{
    if declarator.align.is_some() {
        return None;
    }
    match parameter_type(words, declarator.star, &declarator.extent) {
        Some((ty, constant)) => Some(Declared {
            place: declarator.place,
            name: declarator.name,
            ty,
            length: length(declarator.extent),
            constant,
            align: None,
            align_first: false,
            init: None,
            list: None,
        }),
        None => None,
    }
}

// An object at file scope that is const has its value written.
pub fn has_value(object: &Declared) -> bool
    ensures { result ≡ has_value (view_declared object.now) }
{
    !object.constant || object.init.is_some() || object.list.is_some()
}
