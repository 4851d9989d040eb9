//! What is counted of a context: the file, or an open bracket.

ghost use Rattle.std.specs.Prelude.{◌≡◌, ◌+◌, ◌≤◌, []};
ghost use Rattle.c_preproc.specs.Nesting.{Context, added, statement_ended, comma_passed, colon_passed, passed};
ghost use Rattle.c_preproc.specs.Counts.{counts_of, IsWithin};

use crate::roles::Role;

/// What adds one to a run.
#[derive(Clone, Copy, Debug, PartialEq, Eq)]
pub enum Addition {
    /// One of the words `if else for while`.
    Word,
    /// The word `do`.
    DoWord,
    /// A `?` that waits for its `:`.
    Waiting,
    /// Anything else.
    Other,
}

/// What is counted of a context since its run was last 0.
#[derive(Clone, Copy, Debug, PartialEq, Eq)]
pub struct Counts {
    /// Its bracket is a brace whose end ends a statement.
    pub block: bool,
    pub run: usize,
    /// The words `if else for while do` that have added to the run.
    pub words: usize,
    /// A `do` is among them.
    pub has_do: bool,
    /// The `?` that have added to the run and wait for their `:`.
    pub waiting: usize,
}

impl Counts {
    /// Those of a new context.
    pub fn new(block: bool) -> Counts
        ensures { result ≡ counts_of (record { block = block; additions = [] }) }
    {
        Counts {
            block,
            run: 0,
            words: 0,
            has_do: false,
            waiting: 0,
        }
    }

    /// One more in the run.
    pub fn added(self, addition: Addition) -> Counts
        requires { IsWithin self }
        ensures shown { (c : Context) → self ≡ counts_of c → result ≡ counts_of (added addition c) }
        ensures grown { result.run ≡ self.run + 1 }
    {
        let run = self.run + 1;
        match addition {
            Addition::Word => Counts {
                run,
                words: self.words + 1,
                ..self
            },
            Addition::DoWord => Counts {
                run,
                words: self.words + 1,
                has_do: true,
                ..self
            },
            Addition::Waiting => Counts {
                run,
                waiting: self.waiting + 1,
                ..self
            },
            Addition::Other => Counts { run, ..self },
        }
    }

    /// Behind the end of a statement, where the next token has this role.
    pub fn statement_ended(self, next: Role) -> Counts
        ensures shown { (c : Context) → self ≡ counts_of c → result ≡ counts_of (statement_ended next c) }
        ensures lowered { result.run ≤ self.run }
    {
        match next {
            Role::Else => self,
            Role::While if self.has_do => self,
            _ => Counts::new(self.block),
        }
    }

    fn comma_passed(self) -> Counts
        requires { IsWithin self }
        ensures shown { (c : Context) → self ≡ counts_of c → result ≡ counts_of (comma_passed c) }
        ensures lowered { result.run ≤ self.run }
    {
        if self.waiting > 0 {
            self
        } else {
            Counts {
                run: self.words,
                ..self
            }
        }
    }

    fn colon_passed(self) -> Counts
        ensures shown { (c : Context) → self ≡ counts_of c → result ≡ counts_of (colon_passed c) }
        ensures kept { result.run ≡ self.run }
    {
        Counts {
            waiting: self.waiting.saturating_sub(1),
            ..self
        }
    }

    /// Behind a token that is no bracket, where the next token has this role.
    pub fn passed(self, role: Role, next: Role) -> Counts
        requires { IsWithin self }
        ensures shown { (c : Context) → self ≡ counts_of c → result ≡ counts_of (passed role next c) }
        ensures grown { result.run ≤ self.run + 1 }
    {
        match role {
            Role::Semicolon => self.statement_ended(next),
            Role::Comma => self.comma_passed(),
            Role::Colon => self.colon_passed(),
            Role::Question => self.added(Addition::Waiting),
            Role::Do => self.added(Addition::DoWord),
            Role::While | Role::Else | Role::IfOrFor => self.added(Addition::Word),
            Role::Adds => self.added(Addition::Other),
            _ => self,
        }
    }
}
