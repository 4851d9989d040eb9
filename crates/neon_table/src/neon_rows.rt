//! The table as a value.

ghost use Rattle.std.specs.Prelude.{◌≡◌, true};
ghost use Rattle.neon_table.specs.Rows.{find_of, signature_of, range_of, accesses_of, access_of, eval_of};
ghost use Rattle.neon_table.specs.Laws.{counts_parameters, gives_its_kind};

use crate::NeonOp;
use lane_core::table::{Access, Arg, ImmRange, Sig, VectorTable};

/// The Neon rows as a table.
#[derive(Clone, Copy, Debug)]
pub struct NeonRows;

impl VectorTable for NeonRows {
    type Op = NeonOp;

    ghost is_neon = { true };

    ghost find_of = { find_of };

    ghost signature_of = { signature_of };

    ghost range_of = { range_of };

    ghost accesses_of = { accesses_of };

    ghost access_of = { access_of };

    ghost eval_of = { eval_of };

    fn neon(&self) -> bool {
        true
    }

    fn find(&self, name: &[u8]) -> Option<NeonOp> {
        crate::find(name)
    }

    fn signature(&self, op: NeonOp) -> Sig {
        crate::signature(op)
    }

    fn range(&self, op: NeonOp) -> ImmRange {
        crate::range(op)
    }

    fn accesses(&self, op: NeonOp) -> usize {
        crate::accesses(op)
    }

    fn access(&self, op: NeonOp, args: &[Arg], imm: u16, k: usize) -> Option<Access>
        ensures { result ≡ access_of op args.now imm k }
    {
        crate::access(op, args, imm, k)
    }

    fn eval(&self, op: NeonOp, args: &[Arg], imm: u16) -> Arg {
        crate::eval(op, args, imm)
    }

    ghost counts_parameters = { counts_parameters };

    ghost gives_its_kind = { gives_its_kind };
}
