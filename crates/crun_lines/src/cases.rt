// Closed cases of the definitions, chosen by hand, by computation.
ghost use Rattle.std.specs.Prelude.{◌≡◌, ℕ, true, false, [], ◌∷◌, ◌++◌, codes, Some, None};
ghost use Rattle.w2c_base.specs.declared.trap.TrapKind.TheVariants as trap;
ghost use Rattle.w2c_base.specs.declared.value.Value.TheVariants.{I32, I64};
ghost use Rattle.w2c_base.specs.Run.{Asked, CallEnded, Gave, HostTrapped, Init, Call};
ghost use Rattle.c_meaning.specs.State.{Asks, Stuck, Trapped, Undefined};
ghost use Rattle.c_meaning.specs.Run.{Ended, OutOfSteps, Stopped};
ghost use Rattle.crun_lines.specs.CallLines.{ended_line, last_line};
ghost use Rattle.crun_lines.specs.HostLines.{host_line, replied_line};
ghost use Rattle.crun_lines.specs.NameOrder.{in_order};
ghost use Rattle.crun_lines.specs.RunLines.{event_lines, lines_of};
ghost use Rattle.crun_lines.specs.StateLines.{row_line, unit_lines};
ghost use Rattle.crun_lines.specs.Samples as sample;

/// Lines of calls and init functions.
pub fn call_line_cases()
    ensures sum { ended_line 0 (Some (I32 0)) ≡ codes "call 1 = i32:0\n" }
    ensures wide { ended_line 2 (Some (I64 3)) ≡ codes "call 3 = i64:3\n" }
    ensures no_value { ended_line 0 None ≡ codes "call 1 = none\n" }
    ensures trap { last_line (Call 0) (Stopped (Trapped trap.IntOverflow)) ≡ codes "call 1 trap 4 integer overflow\n" }
    ensures init_trap { last_line (Init 0) (Stopped (Trapped trap.SegmentOut)) ≡ codes "init 1 trap 10 segment out of bounds\n" }
    ensures undefined { last_line (Call 0) (Stopped (Undefined 1 (record { unit = 0; item = 0; statement = 1 })))
        ≡ codes "call 1 undefined 1 unit 0 item 0 statement 1\n" }
    ensures out_of_steps { last_line (Call 0) OutOfSteps ≡ codes "call 1 out of steps\n" }
    ensures all_ended { last_line (Call 0) Ended ≡ [] }
    ensures waits { last_line (Call 0) (Stopped Asks) ≡ [] }
    ensures stuck { last_line (Call 0) (Stopped Stuck) ≡ [] }
{}

/// Lines of calls of hosts.
pub fn host_line_cases()
    ensures tick { host_line sample.hosts sample.tick (Some (Gave (Some (I64 1)))) ≡ codes "host env tick = i64:1\n" }
    ensures not_replied { host_line sample.hosts sample.tick None ≡ [] }
    ensures empty_function_name { host_line sample.hosts (record { host = 0; function = 1; args = I32 5 ∷ I64 6 ∷ [] }) (Some (Gave None))
        ≡ codes "host env Z i32:5 i64:6 = none\n" }
    ensures escaped_names { replied_line (codes "a b") (codes "Z") [] HostTrapped ≡ codes "host aZ20b Z5A = trap\n" }
    ensures empty_host_name { replied_line [] [] [] HostTrapped ≡ codes "host Z Z = trap\n" }
{}

/// What happened in a run, in order, and its last line.
pub fn run_line_cases()
    ensures two_ticks { event_lines sample.hosts 0 (
        Asked sample.tick (Some (Gave (Some (I64 1))))
        ∷ Asked sample.tick (Some (Gave (Some (I64 2))))
        ∷ CallEnded (Some (I64 3)) ∷ CallEnded None ∷ [])
        ≡ codes "host env tick = i64:1\nhost env tick = i64:2\ncall 1 = i64:3\ncall 2 = none\n" }
    ensures stops_at_an_ask { lines_of sample.hosts false (record {
      phase = Call 1;
      events = CallEnded None ∷ Asked sample.tick None ∷ [];
      units = sample.objects ∷ [];
      outcome = Stopped Asks;
    }) ≡ codes "call 1 = none\n" }
    ensures host_trap { lines_of sample.hosts false (record {
      phase = Call 0;
      events = Asked sample.tick (Some HostTrapped) ∷ [];
      units = [];
      outcome = Stopped (Trapped trap.HostTrap);
    }) ≡ codes "host env tick = trap\ncall 1 trap 11 host trap\n" }
    ensures state_behind { lines_of sample.hosts true (record {
      phase = Init 0;
      events = [];
      units = record { vars = []; memories = []; tables = [] }
          ∷ record { vars = []; memories = []; tables = (codes "t0", record { is_made = false; elements = []; max = 0 }) ∷ [] } ∷ [];
      outcome = OutOfSteps;
    }) ≡ codes "init 1 out of steps\nstate 1 t0 length 0\n" }
{}

/// Lines of the state.
pub fn state_line_cases()
    ensures names_in_order { in_order {A = ℕ} ((codes "g10", 0) ∷ (codes "g9", 1) ∷ (codes "a9", 2) ∷ (codes "g1", 3) ∷ [])
        ≡ (codes "a9", 2) ∷ (codes "g1", 3) ∷ (codes "g9", 1) ∷ (codes "g10", 0) ∷ [] }
    ensures unit { unit_lines sample.hosts (1, sample.objects)
        ≡ codes "state 1 g0 u32:66560\nstate 1 g9 u64:18446744073709551615\nstate 1 g10 u32:7\n"
        ++ codes "state 1 m0 pages 0\nstate 1 m0 at 16 00000000000000000500000000000000\n"
        ++ codes "state 1 t0 length 3\nstate 1 t0 at 1 unit 0 f1 4\nstate 1 t0 at 2 host 0 Z 3\n" }
    ensures row_of_zeros { row_line 0 (codes "m0") sample.bytes 0 ≡ [] }
{}
