//! The text of both runs tells each unit's own.

use crate::reading::read;
use c_text::Dialect;
use simd_top::{Status, both_text};
use std::alloc::Global;
use std::test::Fail;
use vector_types::{TypedUnit, check};

// A unit of each dialect, the most turns, and the text of both runs of `f`.
const ROWS: [(&str, &str, u64, Status, &[u8]); 4] = [
    (
        "int f(void) { return 1; }",
        "int f(void) { return 2; }",
        0,
        Status::Done,
        b"x86\nvalue int 1\nneon\nvalue int 2\n",
    ),
    (
        "int f(void) { int x; return x; }",
        "int f(void) { return 2; }",
        0,
        Status::Undefined,
        b"x86\nundefined\n",
    ),
    (
        "int f(void) { while (1) ; return 0; }",
        "int f(void) { int x; return x; }",
        3,
        Status::Turns,
        b"x86\nturns\nneon\nundefined\n",
    ),
    (
        "void f(void) { }",
        "int f(void) { while (1) ; return 0; }",
        3,
        Status::Done,
        b"x86\nvalue none\nneon\nturns\n",
    ),
];

fn typed(alloc: Global, text: &str, dialect: Dialect) -> Result<TypedUnit, Fail> {
    let unit = read(alloc, text, dialect)?;
    Ok(check(alloc, &unit, dialect).map_err(|_| "no types")?)
}

#[test]
fn both_runs_are_told(rt: HostRuntime) -> Result<(), Fail> {
    for (source, written, turns, status, text) in ROWS {
        let first = typed(rt.alloc(), source, Dialect::X86)?;
        let second = typed(rt.alloc(), written, Dialect::Neon)?;
        let found = both_text(rt.alloc(), &first, &second, b"f", &[], turns).map_err(
            |_| "no text",
        )?;
        assert_eq!(rt; found.1, status);
        assert_eq!(rt; found.0.as_slice(), text);
    }
    Ok(())
}
