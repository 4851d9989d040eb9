//! A table of one row, and the calls of any table.

ghost use Rattle.std.specs.Prelude.{◌≡◌, ℕ, false, List, Option, Some, None, []};
ghost use Rattle.std.proofs.Common.{rules};
ghost use Rattle.lane_core.specs.declared.table.Arg.{Arg};
ghost use Rattle.lane_core.specs.declared.table.Arg.TheVariants.{Nothing as no_value};
ghost use Rattle.lane_core.specs.declared.table.ParamKind.TheVariants.{Nothing as no_kind};
ghost use Rattle.lane_core.specs.declared.table.ImmRange.TheVariants.{NoImmediate};
ghost use Rattle.lane_core.specs.declared.table.Sig.{Sig};
ghost use Rattle.lane_core.specs.declared.table.Access.{Access};
ghost use Rattle.lane_core.specs.Table.{Fits, InImmRange, signature};

use lane_core::table::{Access, Arg, ImmRange, ParamKind, Sig, VectorTable, known_arg};

/// A table of one row, which has every name, takes nothing and gives nothing. Its one access is always
/// kept away.
#[derive(Drop)]
struct Pause;

impl VectorTable for Pause {
    type Op = ();

    ghost is_neon = { false };

    ghost find_of = { λ name. Some tt };

    ghost signature_of = { λ op. signature no_kind [] };

    ghost range_of = { λ op. NoImmediate };

    ghost accesses_of = { λ op. 1 };

    ghost access_of = { λ op args imm k. None };

    ghost eval_of = { λ op args imm. no_value };

    fn neon(&self) -> bool {
        false
    }

    fn find(&self, _name: &[u8]) -> Option<()> {
        Some(())
    }

    fn signature(&self, _op: ()) -> Sig {
        Sig::new(ParamKind::Nothing, &[])
    }

    fn range(&self, _op: ()) -> ImmRange {
        ImmRange::NoImmediate
    }

    fn accesses(&self, _op: ()) -> usize {
        1
    }

    fn access(&self, _op: (), _args: &[Arg], _imm: u16, _k: usize) -> Option<Access> {
        None
    }

    fn eval(&self, _op: (), _args: &[Arg], _imm: u16) -> Arg {
        Arg::Nothing
    }

    ghost counts_parameters = { λ op. (Prim.search rules, Prim.search rules) };

    ghost gives_its_kind = { λ op args imm fit immediate. tt };
}

fn value_without_arguments<D: VectorTable>(table: &D, op: D::Op) -> Arg
    requires fit { Fits (D.signature_of op) [] }
    requires immediate { InImmRange (D.range_of op) 0 }
    ensures { result ≡ D.eval_of op [] 0 }
{
    table.eval(op, &[], 0)
}

#[test]
fn one_row_is_a_table(rt: HostRuntime) {
    let table = Pause;
    assert_eq!(rt; table.neon(), false);
    assert_eq!(rt; table.find(b"pause"), Some(()));
    assert_eq!(rt; table.signature(()).count, 0);
    assert_eq!(rt; table.range(()), ImmRange::NoImmediate);
    assert_eq!(rt; table.accesses(()), 1);
    assert_eq!(rt; table.access((), &[], 0, 0), None);
    assert_eq!(rt; value_without_arguments(&table, ()), Arg::Nothing);
    let sig = Sig::new(
        ParamKind::Reg(16),
        &[ParamKind::Reg(16), ParamKind::Immediate],
    );
    assert_eq!(rt; (sig.result, sig.count), (ParamKind::Reg(16), 2));
    assert_eq!(rt;
        (sig.params[1], sig.params[2]),
        (ParamKind::Immediate, ParamKind::Nothing)
    );
    known_arg(&Arg::Int(7));
}
