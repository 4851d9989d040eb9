//! Rows' headings and arguments, and ranges of immediates. Types are tested in the crate above, on whole expressions.
use std::alloc::Global;
use std::test::Fail;
use type_rules::{
    CType, Expr, ImmRange, IntType, Num, ParamKind, Place, Sig, immediate_of, is_in_range,
    operations, passed, row_heading, types_are_by_rules,
};

const RANGES: &str = "\
-1 no no no
0 yes yes no
1 no yes yes
2 no yes yes
3 no yes no
8 no no yes
255 no no no
65536 no no no";

fn constant(alloc: Global, value: i128) -> Result<Expr, Fail> {
    let n = Num {
        ty: IntType::Int,
        value: if value == 7 { 7 } else { 0 },
    };
    Ok(operations::constant(alloc, Place { line: 1, col: 1 }, n)?)
}

#[test]
fn ranges_of_immediates(rt: HostRuntime) -> Result<(), Fail> {
    for row in RANGES.lines() {
        let (number, want) = row.split_once(" ").ok_or("malformed")?;
        let value = i128::from(number.parse::<i32>()?);
        let mut answer = String::new(rt.alloc());
        for range in [ImmRange::NoImmediate, ImmRange::Span(0, 3), ImmRange::Scale].iter() {
            let word = if is_in_range(*range, value) {
                " yes"
            } else {
                " no"
            };
            answer.push_str(word)?;
        }
        assert_eq!(rt; answer.trim(), want, "{row}");
    }
    Ok(())
}

#[test]
fn a_row_takes_an_immediate(rt: HostRuntime) -> Result<(), Fail> {
    let sig = Sig::new(
        ParamKind::Reg(32),
        &[ParamKind::Immediate, ParamKind::Scalar(IntType::Long)],
    );
    let heading = row_heading(rt.alloc(), &sig)?.copy(rt.alloc())?;
    let mut all = Vec::new(rt.alloc());
    all.push(constant(rt.alloc(), 7)?)?;
    all.push(constant(rt.alloc(), 0)?)?;
    let all = passed(rt.alloc(), heading.params.as_slice(), all)?.ok_or("arguments")?;
    assert_eq!(rt; heading.result, CType::M256);
    assert_eq!(rt; all[0].ty, CType::Int(IntType::Int));
    assert_eq!(rt; all[1].ty, CType::Int(IntType::Long));
    let number = immediate_of(heading.params.as_slice(), all.as_slice());
    assert_eq!(rt; number.is_some(), true);
    types_are_by_rules();
    Ok(())
}
