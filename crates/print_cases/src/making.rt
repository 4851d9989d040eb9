//! Trees made of words, each of which stands behind its operands.

use crate::naming::{number, operator_named, prefix_named, step_named, type_named};
use c_tree::{CType, Declared, Expr, ExprKind, Function, Item, Place, Stmt, Text};
use std::alloc::Global;
use std::test::Fail;

const PLACE: Place = Place { line: 1, col: 1 };

// What is made so far.
#[derive(Drop)]
pub struct Maker {
    alloc: Global,
    exprs: Vec<Expr>,
    objects: Vec<Declared>,
    stmts: Vec<Stmt>,
    items: Vec<Item>,
}

pub(crate) fn nothing_made(alloc: Global) -> Maker {
    Maker {
        alloc,
        exprs: Vec::new(alloc),
        objects: Vec::new(alloc),
        stmts: Vec::new(alloc),
        items: Vec::new(alloc),
    }
}

// The last n of a list, in their order.
fn last<T: Drop>(alloc: Global, from: &mut Vec<T>, n: usize) -> Result<Vec<T>, Fail> {
    let mut all = Vec::new(alloc);
    for _ in 0..n {
        let one = from.pop().ok_or("too few")?;
        all.push(one).map_err(|_| "memory")?;
    }
    all.reverse();
    Ok(all)
}

fn count(text: &str) -> Result<usize, Fail> {
    Ok(text.parse::<usize>().map_err(|_| "count")?)
}

fn node(alloc: Global, kind: ExprKind) -> Result<Expr, Fail> {
    Ok(Expr {
        place: PLACE,
        ty: CType::Void,
        kind: Box::new(alloc, kind)?,
    })
}

impl Maker {
    fn expr(&mut self) -> Result<Expr, Fail> {
        Ok(self.exprs.pop().ok_or("no expression")?)
    }

    fn stmt(&mut self) -> Result<Box<Stmt>, Fail> {
        let s = self.stmts.pop().ok_or("no statement")?;
        Ok(Box::new(self.alloc, s)?)
    }

    fn text(&self, bytes: &str) -> Result<Text, Fail> {
        Ok(Text::new(self.alloc, bytes.as_bytes())?)
    }

    fn exprs(&mut self, n: &str) -> Result<Vec<Expr>, Fail> {
        last(self.alloc, &mut self.exprs, count(n)?)
    }

    // Forms with words of two parts.
    fn worded(&mut self, word: &str, what: &str) -> Result<Option<ExprKind>, Fail> {
        match word {
            "call" => {
                let (name, n) = what.split_once('/').ok_or("call")?;
                let all = self.exprs(n)?;
                Ok(Some(ExprKind::Call(self.text(name)?, all)))
            }
            "comma" => Ok(Some(ExprKind::Comma(self.exprs(what)?))),
            "cast" => Ok(Some(ExprKind::Cast(type_named(what).ok_or("type")?, self.expr()?, true))),
            "as" => Ok(Some(ExprKind::Cast(type_named(what).ok_or("type")?, self.expr()?, false))),
            "sizeof" => Ok(Some(ExprKind::SizeOfType(type_named(what).ok_or("type")?))),
            "size" => Ok(Some(ExprKind::SizeOfName(self.text(what)?))),
            _ => Ok(None),
        }
    }

    // Forms with one operand.
    fn single(&mut self, word: &str) -> Result<Option<ExprKind>, Fail> {
        if let Some(op) = prefix_named(word) {
            return Ok(Some(ExprKind::Unary(op, self.expr()?)));
        }
        if let Some((up, before)) = step_named(word) {
            return Ok(Some(ExprKind::Step(self.expr()?, up, before)));
        }
        match word {
            "pre*" => Ok(Some(ExprKind::Deref(self.expr()?))),
            "pre&" => Ok(Some(ExprKind::Address(self.expr()?))),
            ".0" => Ok(Some(ExprKind::Half(self.expr()?, 0))),
            ".1" => Ok(Some(ExprKind::Half(self.expr()?, 1))),
            _ => Ok(None),
        }
    }

    // Forms with several operands.
    fn joined(&mut self, word: &str) -> Result<Option<ExprKind>, Fail> {
        if let Some(op) = operator_named(word) {
            let b = self.expr()?;
            return Ok(Some(ExprKind::Binary(op, self.expr()?, b)));
        }
        if let Some(op) = word.strip_suffix("=") {
            let b = self.expr()?;
            return Ok(Some(ExprKind::Assign(operator_named(op), self.expr()?, b)));
        }
        self.marked(word)
    }

    fn marked(&mut self, word: &str) -> Result<Option<ExprKind>, Fail> {
        match word {
            "&&" | "||" | "[]" | "pair" | "?:" => {}
            _ => return Ok(None),
        }
        let b = self.expr()?;
        let a = self.expr()?;
        match word {
            "&&" => Ok(Some(ExprKind::AndThen(a, b))),
            "||" => Ok(Some(ExprKind::OrElse(a, b))),
            "[]" => Ok(Some(ExprKind::Index(a, b))),
            "pair" => Ok(Some(ExprKind::PairOf(a, b))),
            _ => Ok(Some(ExprKind::Choice(self.expr()?, a, b))),
        }
    }

    fn kind(&mut self, word: &str) -> Result<ExprKind, Fail> {
        if let Some(n) = number(word) {
            return Ok(ExprKind::Const(n));
        }
        if let Some((first, what)) = word.split_once(':') {
            if let Some(kind) = self.worded(first, what)? {
                return Ok(kind);
            }
        }
        if let Some(kind) = self.single(word)? {
            return Ok(kind);
        }
        if let Some(kind) = self.joined(word)? {
            return Ok(kind);
        }
        Ok(ExprKind::Name(self.text(word)?))
    }

    // A declared object, or what is added to the last one.
    fn object(&mut self, word: &str, what: &str) -> Result<bool, Fail> {
        if word == "object" {
            let (ty, name) = what.split_once('/').ok_or("object")?;
            let object = Declared {
                place: PLACE,
                name: self.text(name)?,
                ty: type_named(ty).ok_or("type")?,
                length: None,
                constant: false,
                align: None,
                align_first: false,
                init: None,
                list: None,
            };
            self.objects.push(object).map_err(|_| "memory")?;
            return Ok(true);
        }
        if word != "with" {
            return Ok(false);
        }
        let mut object = self.objects.pop().ok_or("no object")?;
        match what {
            "const" => object.constant = true,
            "align" => object.align = Some(self.expr()?),
            "length" => object.length = Some(self.expr()?),
            "init" => object.init = Some(self.expr()?),
            n => object.list = Some(self.exprs(n)?),
        }
        self.objects.push(object).map_err(|_| "memory")?;
        Ok(true)
    }

    fn looped(&mut self, word: &str, what: &str) -> Result<Option<Stmt>, Fail> {
        match word {
            "while" => {
                let body = self.stmt()?;
                Ok(Some(Stmt::While(self.expr()?, body)))
            }
            "do" => {
                let body = self.stmt()?;
                Ok(Some(Stmt::DoWhile(body, self.expr()?)))
            }
            "for" => {
                let body = self.stmt()?;
                let next = if what.contains('n') {
                    Some(self.expr()?)
                } else {
                    None
                };
                let condition = if what.contains('c') {
                    Some(self.expr()?)
                } else {
                    None
                };
                let start = if what.contains('s') {
                    Some(self.stmt()?)
                } else {
                    None
                };
                Ok(Some(Stmt::For(start, condition, next, body)))
            }
            _ => Ok(None),
        }
    }

    fn branched(&mut self, word: &str, what: &str) -> Result<Option<Stmt>, Fail> {
        match word {
            "block" => Ok(Some(Stmt::Block(last(self.alloc, &mut self.stmts, count(what)?)?))),
            "if" => {
                let otherwise = if what == "else" {
                    Some(self.stmt()?)
                } else {
                    None
                };
                let body = self.stmt()?;
                Ok(Some(Stmt::If(self.expr()?, body, otherwise)))
            }
            _ => self.looped(word, what),
        }
    }

    fn statement(&mut self, word: &str, what: &str) -> Result<Option<Stmt>, Fail> {
        match word {
            "declare" => Ok(Some(Stmt::Declare(last(
                self.alloc,
                &mut self.objects,
                count(what)?,
            )?))),
            "run" => Ok(Some(Stmt::Run(self.expr()?))),
            "break" => Ok(Some(Stmt::Break(PLACE))),
            "continue" => Ok(Some(Stmt::Continue(PLACE))),
            "return" => Ok(Some(Stmt::Return(PLACE, None))),
            "give" => Ok(Some(Stmt::Return(PLACE, Some(self.expr()?)))),
            "empty" => Ok(Some(Stmt::Empty)),
            _ => self.branched(word, what),
        }
    }

    fn function(&mut self, what: &str) -> Result<Item, Fail> {
        let (ty, rest) = what.split_once('/').ok_or("function")?;
        let (name, rest) = rest.split_once('/').ok_or("function")?;
        let (params, body) = rest.split_once('/').ok_or("function")?;
        let (name, is_static) = match name.strip_prefix("static-") {
            Some(name) => (name, true),
            None => (name, false),
        };
        let body = last(self.alloc, &mut self.stmts, count(body)?)?;
        Ok(Item::Function(Function {
            place: PLACE,
            name: self.text(name)?,
            result: type_named(ty).ok_or("type")?,
            params: last(self.alloc, &mut self.objects, count(params)?)?,
            is_static,
            is_inline: is_static,
            body,
        }))
    }

    fn item(&mut self, word: &str, what: &str) -> Result<Option<Item>, Fail> {
        match word {
            "function" => Ok(Some(self.function(what)?)),
            "table" => {
                let object = self.objects.pop().ok_or("no object")?;
                Ok(Some(Item::Table(object, what == "static")))
            }
            _ => Ok(None),
        }
    }

    /// The items that were made.
    pub(crate) fn into_items(self) -> Vec<Item> {
        self.items
    }

    /// One word more.
    pub(crate) fn take(&mut self, word: &str) -> Result<(), Fail> {
        let (first, what) = match word.split_once(':') {
            Some(parts) => parts,
            None => (word, ""),
        };
        if self.object(first, what)? {
            return Ok(());
        }
        if let Some(s) = self.statement(first, what)? {
            self.stmts.push(s).map_err(|_| "memory")?;
            return Ok(());
        }
        if let Some(item) = self.item(first, what)? {
            self.items.push(item).map_err(|_| "memory")?;
            return Ok(());
        }
        let kind = self.kind(word)?;
        let e = node(self.alloc, kind)?;
        self.exprs.push(e).map_err(|_| "memory")?;
        Ok(())
    }
}
