//! Conditionals that are open.

ghost use Rattle.std.specs.Prelude.{◌≡◌, reverse, IfOk};
ghost use Rattle.c_directives.specs.Directives.{is_live, opened, passed_over, turned, unclosed};
ghost use Rattle.c_directives.specs.Answers.{Refusing};

use c_macros::placed;
use c_text::{Fail, Token, refuse_token};
use std::alloc::{AllocError, Global};

const OPEN_CONDITION: u8 = 8;

/// A conditional that isn't closed.
#[derive(Debug, Drop)]
pub struct Condition {
    /// The word that opens it.
    pub word: Token,
    /// The group that is being read is live.
    pub live: bool,
    /// No later group can be live.
    pub spent: bool,
    /// The group that is being read is that of `else`.
    pub last: bool,
}

impl Condition {
    /// A conditional in a live group, whose first group is live or not.
    pub fn opened(alloc: Global, word: &Token, live: bool) -> Result<Condition, AllocError>
        ensures { IfOk result (λ c. c ≡ opened word.now live) }
    {
        Ok(Condition {
            word: placed(alloc, word, word.place)?,
            live,
            spent: live,
            last: false,
        })
    }

    /// A conditional in a group that isn't live.
    pub fn passed_over(alloc: Global, word: &Token) -> Result<Condition, AllocError>
        ensures { IfOk result (λ c. c ≡ passed_over word.now) }
    {
        Ok(Condition {
            word: placed(alloc, word, word.place)?,
            live: false,
            spent: true,
            last: false,
        })
    }

    /// A later group of it, and whether that is the last.
    pub fn turned(self, live: bool, last: bool) -> Condition
        ensures { result ≡ turned self live last }
    {
        Condition {
            word: self.word,
            live,
            spent: self.spent || live,
            last,
        }
    }
}

/// Whether the lines that these conditionals surround are live. The innermost stands last.
pub fn is_live(conditions: &[Condition]) -> bool
    ensures { result ≡ is_live (reverse conditions.now) }
{
    match conditions.split_last() {
        Some((innermost, _)) => innermost.live,
        None => true,
    }
}

/// Refuses the outermost of these conditionals, if there is one.
#[tactic(auto, using(crate::proofs::Lists::unclosed_first))]
pub fn refuse_unclosed(alloc: Global, conditions: &[Condition]) -> Result<(), Fail>
    ensures { Refusing (unclosed (reverse conditions.now)) result }
{
    match conditions.split_first() {
        Some((outermost, _)) => Err(refuse_token(alloc, OPEN_CONDITION, &outermost.word)),
        None => Ok(()),
    }
}
