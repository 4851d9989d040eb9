//! Units from texts.

use c_parse::parse;
use c_preproc::scan;
use c_text::{Dialect, lex};
use c_tree::Unit;
use std::alloc::{AllocError, Global};
use std::test::Fail;

pub(crate) fn put(out: &mut Vec<u8>, text: &str) -> Result<(), AllocError> {
    out.extend_from_slice(text.as_bytes())?;
    Ok(())
}

// The unit of a text of at most 1,000 bytes, in which `$` stands for a line end.
pub(crate) fn read(alloc: Global, text: &str, dialect: Dialect) -> Result<Unit, Fail> {
    let mut bytes = Vec::new(alloc);
    for line in text.split('$') {
        put(&mut bytes, line)?;
        put(&mut bytes, "\n")?;
    }
    if bytes.len() > 1000 {
        return Err("too long".into());
    }
    let tokens = lex(alloc, bytes.as_slice()).map_err(|_| "no tokens")?;
    scan(alloc, tokens.as_slice(), dialect).map_err(|_| "no C")?;
    Ok(parse(alloc, tokens.as_slice(), dialect).map_err(|_| "no unit")?)
}
