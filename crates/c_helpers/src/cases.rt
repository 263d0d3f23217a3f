// Closed cases of the helpers' trees, by computation: the statements of nine tables.
ghost use Rattle.std.specs.Prelude.{◌≡◌};
ghost use Rattle.wasm_tree.specs.declared.operators.LoadOp.TheVariants.{I32Load8S};
ghost use Rattle.c_helpers.specs.declared.number_tables.TheConstants.{COUNT_END};
ghost use Rattle.c_helpers.specs.declared.operation.Helper.TheVariants as helper;
ghost use Rattle.c_helpers.specs.declared.operation.NumOp.TheVariants as num;
ghost use Rattle.c_helpers.specs.Helpers.{helper_of, object_stmts};
ghost use Rattle.c_helpers.specs.Bodies.{stmts_of};
ghost use Rattle.c_helpers.specs.Samples as sample;

/// The statements that the tables make, each at one width.
pub fn tree_cases()
    ensures signed_order { stmts_of (helper_of (helper.Num num.I32LtS)) ≡ sample.signed_order }
    ensures signed_quotient { stmts_of (helper_of (helper.Num num.I32DivS)) ≡ sample.signed_quotient }
    ensures signed_remainder { stmts_of (helper_of (helper.Num num.I32RemS)) ≡ sample.signed_remainder }
    ensures signed_shift { stmts_of (helper_of (helper.Num num.I32ShrS)) ≡ sample.signed_shift }
    ensures end_of_counts { object_stmts 32 COUNT_END ≡ sample.end_of_counts }
    ensures signed_load { stmts_of (helper_of (helper.Load I32Load8S)) ≡ sample.signed_load }
    ensures element { stmts_of (helper_of helper.Element) ≡ sample.element }
    ensures copied { stmts_of (helper_of helper.Copy) ≡ sample.copied }
    ensures filled { stmts_of (helper_of helper.Fill) ≡ sample.filled }
{}
