//! The arguments of a use, where brackets inside are passed over.

ghost use Rattle.std.specs.Prelude.{◌≡◌, ◌+◌, ◌<◌, length, take, drop, IfOk};
ghost use Rattle.c_macros.specs.Arguments.{arguments, role};
ghost use Rattle.c_macros.specs.Groups.{Sound, jump_at, IsGroup, IsOpen};
ghost use Rattle.c_macros.specs.Seen.{listed, arguments_seen};

use crate::arguments::{Arguments, role};
use crate::roles::Role;
use crate::segments::{Segment, part};
use c_text::Token;
use std::alloc::{AllocError, Global};

fn jump_at(jumps: &[usize], i: usize) -> usize
    ensures { result ≡ jump_at jumps.now i }
{
    jumps.get(i).copied().unwrap_or(0)
}

/// The arguments that these tokens begin with, in as many steps as tokens stand in no inner brackets, where all jumps are
/// known.
pub fn split_hinted<'a>(
    alloc: Global,
    segment: Segment<'a>,
) -> Result<Option<Arguments<'a>>, AllocError>
    ensures { IfOk result (λ x. arguments_seen x ≡ listed (arguments 0 segment.entry.tokens.now)) }
{
    let tokens = segment.tokens;
    let jumps = segment.jumps;
    let mut list = Vec::new(alloc);
    let mut start = 0;
    let mut inner = 0usize;
    let mut i = 0;
    while i < tokens.len() {
        let jump = jump_at(jumps, i);
        if jump > 0 && jump < tokens.len() - i {
            i += jump + 1;
        } else {
            match role(&tokens[i]) {
                Role::Opens => inner += 1,
                Role::Closes => {
                    if inner == 0 {
                        list.push(part(segment, start, i))?;
                        return Ok(Some(Arguments {
                            list,
                            rest: part(segment, i + 1, tokens.len()),
                        }));
                    }
                    inner -= 1;
                }
                Role::Parts => {
                    if inner == 0 {
                        list.push(part(segment, start, i))?;
                        start = i + 1;
                    }
                }
                Role::Other => {}
            }
            i += 1;
        }
    }
    Ok(None)
}

// How far behind a bracket the one that closes it stands, where the jumps behind it are known: else 0.
fn jump_from(tokens: &[Token], jumps: &[usize], i: usize) -> usize
    requires sound { Sound tokens.now jumps.now }
    requires within { i < length tokens.now }
    requires opens { IsOpen tokens.now i }
    ensures { 0 < result → i + result < length tokens.now → IsGroup (take (result + 1) (drop i tokens.now)) }
{
    let mut j = i + 1;
    while j < tokens.len() {
        match role(&tokens[j]) {
            Role::Closes => return j - i,
            Role::Opens => {
                let jump = jump_at(jumps, j);
                if jump == 0 || jump >= tokens.len() - j {
                    return 0;
                }
                j += jump + 1;
            }
            Role::Parts => j += 1,
            Role::Other => j += 1,
        }
    }
    0
}

/// For each bracket how far behind it the one that closes it stands, in a number of steps linear in the tokens.
pub fn jumps_of(alloc: Global, tokens: &[Token]) -> Result<Vec<usize>, AllocError>
    ensures sound { IfOk result (λ v. Sound tokens.now v.items) }
    ensures many { IfOk result (λ v. length v.items ≡ length tokens.now) }
{
    let mut jumps = vec![in alloc; 0usize; tokens.len()]?;
    for i in (0..tokens.len()).rev() {
        if role(&tokens[i]) == Role::Opens {
            jumps[i] = jump_from(tokens, &jumps, i);
        }
    }
    Ok(jumps)
}
