//! What the order rule means.

ghost use Rattle.std.specs.Prelude.{◌≡◌, ◌↔◌, IsTrue, None};
ghost use Rattle.c_tree.specs.Tree.{Tree, Definition};
ghost use Rattle.lane_core.specs.declared.table.Sig.{Sig};
ghost use Rattle.lane_core.specs.Table as table;
ghost use Rattle.lane_core.specs.Table.{params_of};
ghost use Rattle.type_rules.specs.Passing.{row_heading};
ghost use Rattle.order_rule.specs.Callees.{Callees, stores, reads, has_target};
ghost use Rattle.order_rule.specs.Memory.{Env};
ghost use Rattle.order_rule.specs.Parts.{Passes, passes};
ghost use Rattle.order_rule.specs.Full.{order_of};
ghost use Rattle.order_rule.specs.Rule.{KeepsOrder};

/// A part passes the test exactly where the three rules hold of it, and nothing of a function is refused exactly where they hold of
/// each part of each of its full expressions. A row stores and reads memory where its signature says so.
pub fn passing_is_by_the_rules()
    ensures part { (env : Env) (callees : Callees) (e : Tree) → IsTrue (passes env callees e) ↔ Passes env callees e }
    ensures whole { (callees : Callees) (f : Definition) → (order_of f callees ≡ None) ↔ KeepsOrder callees f }
    ensures row_stores { (sig : Sig) → stores (row_heading sig).params ≡ has_target (params_of sig) }
    ensures row_reads { (sig : Sig) → reads (row_heading sig).params ≡ table.reads (params_of sig) }
{}
