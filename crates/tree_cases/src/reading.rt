//! Tokens from texts.

use c_text::{Token, lex};
use std::alloc::{AllocError, Global};
use std::test::Fail;

pub(crate) fn put(out: &mut Vec<u8>, text: &str) -> Result<(), AllocError> {
    out.extend_from_slice(text.as_bytes())?;
    Ok(())
}

// The tokens of a text of at most 1,000 bytes.
pub(crate) fn tokens_of(alloc: Global, text: &str) -> Result<Vec<Token>, Fail> {
    let bytes = text.as_bytes();
    if bytes.len() > 1000 {
        return Err("too long".into());
    }
    Ok(lex(alloc, bytes).map_err(|_| "no tokens")?)
}
