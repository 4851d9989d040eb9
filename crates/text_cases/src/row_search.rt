//! Rows that are found by their names.

use row_names::row_named;

#[test]
fn names_are_found(rt: HostRuntime) {
    let rows = [("add", 1u8), ("addq", 2), ("sub", 3)];
    assert_eq!(rt; row_named(&rows, b"add"), Some(1));
    assert_eq!(rt; row_named(&rows, b"addq"), Some(2));
    assert_eq!(rt; row_named(&rows, b"sub"), Some(3));
    assert_eq!(rt; row_named(&rows, b"ad"), None);
    assert_eq!(rt; row_named(&rows, b"subs"), None);
}
