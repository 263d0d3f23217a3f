// The laws of journals.
ghost use Rattle.std.specs.Prelude.{◌≡◌, ℕ, List, true};
ghost use Rattle.std.specs.List.{list_all};
ghost use Rattle.w2c_base.specs.Run.{Host};
ghost use Rattle.c_tree.specs.Rules.{are_distinct};
ghost use Rattle.c_tree.specs.Tree as tree;
ghost use Rattle.c_meaning.specs.Linking.{SymbolCall};
ghost use Rattle.c_hosts.specs.declared.journal.Asked.{Asked};
ghost use Rattle.c_hosts.specs.Asking.{hosts_of};
ghost use Rattle.host_replay.specs.declared.replay.ReplayHost.{ReplayHost as AnyReplay};
ghost use Rattle.host_replay.specs.Fitting.{fits};
ghost use Rattle.host_replay.specs.Reading.{IsJournal, IsRefusedAt};
ghost use Rattle.host_replay.specs.Replayed.{replaying, AreReplays};
ghost use Rattle.host_replay.specs.Runs.{run_with, IsAnsweredRun};
ghost use Rattle.host_replay.specs.Texts.{journal_text, Recorded};
ghost use Rattle.host_replay.specs.Writable.{symbols_of, AreDistinct, IsWritable};

use c_hosts::HostModule;

/// The laws that a text is one journal at most, or has one line at most that is the first to be refused, and not both.
pub fn one_verdict()
    ensures one_journal { (text : List ℕ) (a b : Recorded) → IsJournal text a → IsJournal text b → a ≡ b }
    ensures one_line { (text : List ℕ) (m n : ℕ) → IsRefusedAt text m → IsRefusedAt text n → m ≡ n }
    ensures not_both { (text : List ℕ) (j : Recorded) (n : ℕ) → IsJournal text j → IsRefusedAt text n → ⊥ }
{}

/// The law that the text of a journal is that journal, where it has distinct symbols, names of bytes, and calls that fit.
pub fn texts_are_read_back()
    ensures { (j : Recorded) → IsWritable j → IsJournal (journal_text j) j }
{}

/// The law that no two functions of a journal that is read have one symbol.
pub fn journals_have_distinct_symbols()
    ensures { (text : List ℕ) (j : Recorded) → IsJournal text j → AreDistinct j.hosts }
{}

/// The law that no two functions have one symbol, where none comes twice among all symbols.
pub fn distinct_symbols_make_texts()
    ensures { (hosts : List Host) → are_distinct (symbols_of hosts) ≡ true → AreDistinct hosts }
{}

/// The law that what hosts have answered, as a run tells it, fits their functions: so it can be put into a journal.
pub fn runs_are_recorded<H: HostModule>()
    ensures { (hosts : List H) (units : List (List tree.Item)) (calls : List SymbolCall) (steps : ℕ) (asks : List Asked)
        → IsAnsweredRun H.HostModule hosts units calls steps asks → list_all (fits (hosts_of H.HostModule hosts)) asks ≡ true }
{}

/// The law that hosts that reply again what a journal says offer the functions that the journal says.
pub fn replays_offer_what_was_recorded()
    ensures { (j : Recorded) (replays : List AnyReplay) → AreReplays j replays → hosts_of replaying replays ≡ j.hosts }
{}

/// The laws of a run that is replayed: with hosts that reply again what the hosts of a run have replied, the same is asked
/// and replied, and the run is the same.
pub fn replayed_runs_are_the_recorded_runs<H: HostModule>()
    ensures asks { (hosts : List H) (units : List (List tree.Item)) (calls : List SymbolCall) (steps : ℕ)
        (asks again : List Asked) (replays : List AnyReplay)
        → IsAnsweredRun H.HostModule hosts units calls steps asks
        → AreReplays (record { hosts = hosts_of H.HostModule hosts; entries = asks }) replays
        → IsAnsweredRun replaying replays units calls steps again → again ≡ asks }
    ensures run { (hosts : List H) (units : List (List tree.Item)) (calls : List SymbolCall) (steps : ℕ)
        (asks again : List Asked) (replays : List AnyReplay)
        → IsAnsweredRun H.HostModule hosts units calls steps asks
        → AreReplays (record { hosts = hosts_of H.HostModule hosts; entries = asks }) replays
        → IsAnsweredRun replaying replays units calls steps again
        → run_with replaying replays units calls steps again ≡ run_with H.HostModule hosts units calls steps asks }
{}
