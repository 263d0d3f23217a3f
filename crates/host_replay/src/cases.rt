// Closed cases of the definitions, chosen by hand.
ghost use Rattle.std.specs.Prelude.{◌≡◌, ◌∷◌, ◌++◌, [], codes, Some};
ghost use Rattle.w2c_base.specs.declared.value.Value.TheVariants.{I32, I64};
ghost use Rattle.c_meaning.specs.declared.reply.HostReply.TheVariants as reply;
ghost use Rattle.host_replay.specs.Reading.{empty, lines_of, IsJournal, IsRefusedAt};
ghost use Rattle.host_replay.specs.Replaying.{Replays};
ghost use Rattle.host_replay.specs.Samples.{tick, ticks};
ghost use Rattle.host_replay.specs.Texts.{journal_text};

/// Texts of journals.
pub fn text_cases()
    ensures written { journal_text ticks ≡ codes "module env\nfunction put_i32 i32 = none\nfunction put_i64 i64 = none\n"
        ++ codes "function tick = i64\nhost env tick = i64:1\nhost env tick = i64:2\n" }
    ensures nothing { journal_text empty ≡ [] }
    ensures lines { lines_of (codes "module a\n\nb") ≡ codes "module a\n" ∷ codes "\n" ∷ codes "b" ∷ [] }
    ensures no_lines { lines_of [] ≡ [] }
{}

/// Texts that are read, and lines that are refused.
pub fn reading_cases()
    ensures read { IsJournal (journal_text ticks) ticks }
    ensures nothing { IsJournal [] empty }
    ensures module_behind_a_call { IsRefusedAt (journal_text ticks ++ codes "module env\n") 7 }
{}

/// What hosts reply again.
pub fn replay_cases()
    ensures first { Replays ticks.entries (0 ∷ []) 2 [] (reply.Value (Some (I64 1))) (1 ∷ []) }
    ensures second { Replays ticks.entries (1 ∷ []) 2 [] (reply.Value (Some (I64 2))) (2 ∷ []) }
    ensures none_left { Replays (tick 1 ∷ []) (1 ∷ []) 2 [] reply.Trap (1 ∷ []) }
    ensures other_function { Replays ticks.entries (0 ∷ []) 0 (I32 5 ∷ []) reply.Trap (0 ∷ []) }
{}
