//! Nesting and weight of a text, counted token by token.

ghost use Rattle.std.specs.Prelude.{◌≡◌, ◌+◌, ◌^◌, ◌<◌, ◌≤◌, List, sum_by, OnOk, vec_len, false};
ghost use Rattle.std.specs.Bool.{OnFalse};
ghost use Rattle.c_preproc.specs.Nesting.{Context, added, opened, closed, counted, is_too_deep, file};
ghost use Rattle.c_preproc.specs.Counts.{IsWithin, Shows};

use crate::counts::{Addition, Counts};
use crate::limits::Limits;
use crate::roles::Role;
use std::alloc::{AllocError, Global};

/// The contexts that are open, by their counts, and their weight.
#[derive(Drop)]
pub struct Nesting {
    pub current: Counts,
    /// Those around the current one, the file first: as many as brackets are open.
    pub outer: Vec<Counts>,
    /// The number of open brackets and the runs of all contexts.
    pub weight: usize,
    pub ghost total: { weight ≡ vec_len outer + current.run + sum_by (λ c. c.run) outer.items },
}

impl Nesting {
    /// That of a file before its first token.
    pub fn new(alloc: Global) -> Nesting
        ensures shown { Shows result.current result.outer.items file }
        ensures light { result.weight ≡ 0 }
    {
        Nesting {
            current: Counts::new(false),
            outer: Vec::new(alloc),
            weight: 0,
        }
    }

    fn set_current(&mut self, counts: Counts)
        requires { self.old.weight + counts.run < 2 ^ 64 }
        ensures current { self.new.current ≡ counts }
        ensures outer { self.new.outer.items ≡ self.old.outer.items }
        ensures weight { self.new.weight + self.old.current.run ≡ self.old.weight + counts.run }
    {
        self.weight = self.weight - self.current.run + counts.run;
        self.current = counts;
    }

    fn open(&mut self, block: bool) -> Result<(), AllocError>
        requires { self.old.weight < 2 ^ 63 }
        ensures { (cs : List Context) → Shows self.old.current self.old.outer.items cs
            → OnOk result (Shows self.new.current self.new.outer.items (opened block cs)) }
    {
        self.outer.push(self.current)?;
        self.current = Counts::new(block);
        self.weight += 1;
        Ok(())
    }

    fn close(&mut self)
        ensures shown { (cs : List Context) → Shows self.old.current self.old.outer.items cs
            → Shows self.new.current self.new.outer.items (closed cs) }
        ensures lowered { self.new.weight ≤ self.old.weight }
    {
        if let Some(around) = self.outer.pop() {
            self.weight = self.weight - self.current.run - 1;
            self.current = around;
        }
    }

    /// Whether more brackets are open than the limit, or the weight is above its limit.
    pub fn is_too_deep(&self, limits: Limits) -> bool
        ensures shown { (cs : List Context) → Shows self.now.current self.now.outer.items cs
            → result ≡ is_too_deep limits cs }
        ensures light { OnFalse result (self.now.weight ≤ limits.weight) }
    {
        self.outer.len() > limits.brackets || self.weight > limits.weight
    }
}

impl Nesting {
    /// Counts a token by its role, whether a brace that it opens is a block, and the role of the next token.
    pub fn count(&mut self, role: Role, block: bool, next: Role) -> Result<(), AllocError>
        requires within { IsWithin self.old.current }
        requires light { self.old.weight < 2 ^ 32 }
        ensures { (cs : List Context) → Shows self.old.current self.old.outer.items cs
            → OnOk result (Shows self.new.current self.new.outer.items (counted role block next cs)) }
    {
        match role {
            Role::OpensBracket => {
                self.set_current(self.current.added(Addition::Other));
                self.open(false)?;
            }
            Role::OpensBrace => self.open(block)?,
            Role::ClosesBracket => self.close(),
            Role::ClosesBrace => self.close_brace(next),
            _ => self.set_current(self.current.passed(role, next)),
        }
        Ok(())
    }

    fn close_brace(&mut self, next: Role)
        requires { self.old.weight < 2 ^ 32 }
        ensures { (cs : List Context) → Shows self.old.current self.old.outer.items cs
            → Shows self.new.current self.new.outer.items (counted Role.ClosesBrace false next cs) }
    {
        let block = self.current.block;
        self.close();
        if block {
            self.set_current(self.current.statement_ended(next));
        }
    }
}
