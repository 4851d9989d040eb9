//! Declarations in blocks, headings of functions, and objects at file scope (C11 6.7 and 6.9).

ghost use Rattle.std.specs.Prelude.{◌≡◌, ◌<◌, ◌≤◌, length, map, option_map, IfOk};
ghost use Rattle.c_tree.specs.View.{view, view_declared, view_function};
ghost use Rattle.c_parse.specs.Reading.{Gives};
ghost use Rattle.c_parse.specs.DeclarationReading.{initialised_front, more_objects, declaration_front, object_front, heading_front};
ghost use Rattle.c_parse.specs.DeclarationViews.{view_specification};

use crate::attributes::{groups, wanted};
use crate::declarators::{Extent, first_declarator, pointing};
use crate::initialisers::initialiser;
use crate::nodes::{Stuck, stuck_at};
use crate::objects::{declared, has_value, is_array, is_plain, object_type};
use crate::parameters::parameters;
use crate::peeks::{name, past};
use crate::specification::{Specification, specifiers};
use crate::symbols::Sign;
use c_text::{Dialect, Token};
use c_tree::{Declared, Expr, Function};
use std::alloc::{AllocError, Global};

// The same alignment once more.
fn copied(alloc: Global, align: &Option<Expr>) -> Result<Option<Expr>, AllocError>
    ensures { IfOk result (λ c. option_map view c ≡ option_map view align.now) }
{
    match align {
        None => Ok(None),
        Some(e) => Ok(Some(e.copy(alloc)?)),
    }
}

// A declarator with its initialiser, behind these specifiers.
fn initialised<'a>(
    alloc: Global,
    dialect: Dialect,
    said: &Specification,
    tokens: &'a [Token],
) -> Result<(Declared, &'a [Token]), Stuck>
    ensures value { Gives view_declared result (initialised_front dialect (view_specification said.now) tokens.now) }
    ensures shorter { IfOk result (λ x. length x.1.now < length tokens.now) }
{
    let align = copied(alloc, &said.align)?;
    let (declarator, after) = first_declarator(alloc, dialect, align, tokens)?;
    let (begun, after) = initialiser(alloc, dialect, is_array(&declarator.extent), after)?;
    match declared(said, declarator, begun) {
        Some(object) => Ok((object, after)),
        None => Err(stuck_at(after)),
    }
}

// These objects, and those behind commas.
#[tactic(auto, using(crate::proofs::DeclarationsShorter::objects_eq))]
fn more_objects<'a>(
    alloc: Global,
    dialect: Dialect,
    said: &Specification,
    start: Vec<Declared>,
    tokens: &'a [Token],
) -> Result<(Vec<Declared>, &'a [Token]), Stuck>
    ensures value { Gives (λ v. map view_declared v.items) result (more_objects dialect (view_specification said.now) (map view_declared start.items) tokens.now) }
    ensures shorter { IfOk result (λ x. length x.1.now ≤ length tokens.now) }
{
    let mut all = start;
    let mut left = tokens;
    while let Some(behind) = past(dialect, Sign::Comma, left) {
        let (next, after) = initialised(alloc, dialect, said, behind)?;
        all.push(next)?;
        left = after;
    }
    Ok((all, left))
}

// A declaration as a block has it, with its `;`.
#[tactic(auto, unfolding(crate::specs::DeclarationReading::declaration_front))]
pub fn declaration(
    alloc: Global,
    dialect: Dialect,
    tokens: &[Token],
) -> Result<(Vec<Declared>, &[Token]), Stuck>
    ensures value { Gives (λ v. map view_declared v.items) result (declaration_front dialect tokens.now) }
    ensures shorter { IfOk result (λ x. length x.1.now < length tokens.now) }
{
    let (said, behind) = specifiers(alloc, dialect, tokens)?;
    if !is_plain(&said) {
        return Err(stuck_at(behind));
    }
    let (first, after) = initialised(alloc, dialect, &said, behind)?;
    let mut all = Vec::new(alloc);
    all.push(first)?;
    let (all, after) = more_objects(alloc, dialect, &said, all, after)?;
    let behind = wanted(dialect, Sign::Semicolon, after)?;
    Ok((all, behind))
}

// An object at file scope with its `;`, and whether it is `static`.
#[tactic(auto, unfolding(crate::specs::DeclarationReading::object_front))]
pub fn object(
    alloc: Global,
    dialect: Dialect,
    tokens: &[Token],
) -> Result<((Declared, bool), &[Token]), Stuck>
    ensures value { Gives (λ x. (view_declared x.0, x.1)) result (object_front dialect tokens.now) }
    ensures shorter { IfOk result (λ x. length x.1.now < length tokens.now) }
{
    let (said, behind) = specifiers(alloc, dialect, tokens)?;
    if said.is_inline {
        return Err(stuck_at(behind));
    }
    let (object, after) = initialised(alloc, dialect, &said, behind)?;
    let behind = wanted(dialect, Sign::Semicolon, after)?;
    if has_value(&object) {
        Ok(((object, said.is_static), behind))
    } else {
        Err(stuck_at(after))
    }
}

// The heading of a function: a function without statements in its body.
#[tactic(auto, unfolding(crate::specs::DeclarationReading::heading_front))]
pub fn heading(
    alloc: Global,
    dialect: Dialect,
    tokens: &[Token],
) -> Result<(Function, &[Token]), Stuck>
    ensures value { Gives view_function result (heading_front dialect tokens.now) }
    ensures shorter { IfOk result (λ x. length x.1.now < length tokens.now) }
{
    let (said, behind) = specifiers(alloc, dialect, tokens)?;
    let (star, behind) = pointing(dialect, behind);
    let Some((token, behind)) = name(dialect, behind) else {
        return Err(stuck_at(behind));
    };
    let behind = wanted(dialect, Sign::Open, behind)?;
    let (params, after) = parameters(alloc, dialect, behind)?;
    let words = said.words;
    let is_static = said.is_static;
    let is_inline = said.is_inline;
    let (align, after) = groups(alloc, dialect, said.align, after)?;
    if align.is_some() {
        return Err(stuck_at(after));
    }
    let Some((result, _)) = object_type(words, star, &Extent::Single) else {
        return Err(stuck_at(after));
    };
    let function = Function {
        place: token.place,
        name: token.text.copy(alloc)?,
        result,
        params,
        is_static,
        is_inline,
        body: Vec::new(alloc),
    };
    Ok((function, after))
}
