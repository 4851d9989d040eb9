//! Names in scopes (C11 6.2.1).
use scopes::{CType, Dialect, Environment, Names, Object, scopes_end};
use std::test::Fail;

#[test]
fn inner_names_hide_outer_ones(rt: HostRuntime) -> Result<(), Fail> {
    let mut env = Environment {
        dialect: Dialect::X86,
        rows: Names::new(rt.alloc()),
        neon: Names::new(rt.alloc()),
        outer: Vec::new(rt.alloc()),
        innermost: Names::new(rt.alloc()),
        functions: Names::new(rt.alloc()),
        here: 0,
        calls_none: false,
    };
    let wide = Object {
        ty: CType::M256,
        constant: false,
    };
    let narrow = Object {
        ty: CType::M128,
        constant: true,
    };
    if !env.declares(b"x") {
        env.declare(rt.alloc(), b"x", wide)?;
    }
    env.open(rt.alloc())?;
    assert_eq!(rt; (env.declares(b"x"), env.object(b"x")), (false, Some(wide)));
    if !env.declares(b"x") {
        env.declare(rt.alloc(), b"x", narrow)?;
    }
    assert_eq!(rt;
        (env.declares(b"x"), env.object(b"x")),
        (true, Some(narrow))
    );
    assert_eq!(rt;
        (env.object(b"y"), env.function(b"x").is_none()),
        (None, true)
    );
    scopes_end();
    Ok(())
}
