// The laws of lines, and closed cases of their definitions, chosen by hand.
ghost use Rattle.std.specs.Prelude.{◌≡◌, ℕ, List, [], ◌∷◌, codes, Some, None};
ghost use Rattle.w2c_base.specs.declared.value.ValType.TheVariants as type;
ghost use Rattle.w2c_base.specs.declared.value.Value.TheVariants.{I32, I64};
ghost use Rattle.c_meaning.specs.declared.reply.HostReply.TheVariants as reply;
ghost use Rattle.journal_lines.specs.declared.line.JournalLine.{JournalLine as AnyLine};
ghost use Rattle.journal_lines.specs.declared.line.JournalLine.TheVariants as line;
ghost use Rattle.journal_lines.specs.Lines.{line_text, IsLine};

/// The law that a line says one thing at most.
pub fn one_line()
    ensures { (text : List ℕ) (l m : AnyLine) → IsLine text l → IsLine text m → l ≡ m }
{}

/// The texts of some lines, by computation.
pub fn line_cases()
    ensures host { line_text (line.Module (codes "env")) ≡ codes "module env\n" }
    ensures no_name { line_text (line.Module []) ≡ codes "module Z\n" }
    ensures parameter { line_text (line.Function (record { name = codes "put_i32"; ty = record { params = type.I32 ∷ []; result = None } }))
        ≡ codes "function put_i32 i32 = none\n" }
    ensures result { line_text (line.Function (record { name = codes "tick"; ty = record { params = []; result = Some type.I64 } }))
        ≡ codes "function tick = i64\n" }
    ensures call { line_text (line.Host (record { host = codes "env"; function = codes "tick"; args = []; reply = reply.Value (Some (I64 1)) }))
        ≡ codes "host env tick = i64:1\n" }
    ensures trap { line_text (line.Host (record { host = codes "env"; function = codes "put_i32"; args = I32 5 ∷ []; reply = reply.Trap }))
        ≡ codes "host env put_i32 i32:5 = trap\n" }
{}
