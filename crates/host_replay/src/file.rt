// A journal as a file: what hosts offer, and what they were asked and replied.
ghost use Rattle.std.specs.Prelude.{◌≡◌, true};
ghost use Rattle.std.specs.List.{list_all};
ghost use Rattle.host_replay.specs.Modules.{modules_of};
ghost use Rattle.host_replay.specs.Fitting.{fits};

use crate::entry::{copies, put_entry};
use crate::module::{JournalModule, module_of, push_function, put_module};
use c_hosts::{Asked, HostModule, Journal};
use journal_lines::FunctionLine;
use std::alloc::Global;
use w2c_base::{Bytes, Memory};

/// The host modules of a run, with their functions, and the calls of these that were answered, in order. The calls are
/// of functions that are there, with arguments and replies of their types.
#[derive(Drop)]
pub struct JournalFile {
    pub(crate) modules: Vec<JournalModule>,
    pub(crate) entries: Vec<Asked>,
    ghost fitting: { list_all (fits (modules_of modules.items)) entries.items ≡ true },
}

impl JournalFile {
    ghost use Rattle.std.specs.Prelude.{[], ◌<◌, ◌∷◌, ◌++◌, List, length, vec_len, IfOk, OnOk, OnErr};
    ghost use Rattle.w2c_base.specs.Run.{Host};
    ghost use Rattle.c_hosts.specs.Asking.{hosts_of};
    ghost use Rattle.host_replay.specs.Reading.{empty, named_function, with_function, IsJournal};
    ghost use Rattle.host_replay.specs.Recording.{recorded};
    ghost use Rattle.host_replay.specs.Texts.{journal_text};
    ghost use Rattle.host_replay.specs.Writable.{AreDistinct};

    // No modules and no calls. It takes no memory.
    pub(crate) fn new(alloc: Global) -> JournalFile
        ensures { recorded result ≡ empty }
    {
        JournalFile {
            modules: Vec::new(alloc),
            entries: Vec::new(alloc),
        }
    }

    /// The functions of hosts, and no calls.
    pub fn of_hosts<H: HostModule>(alloc: Global, hosts: &[H]) -> Result<JournalFile, Memory>
        ensures { IfOk result (λ f. recorded f ≡ record { hosts = hosts_of H.HostModule hosts.now; entries = [] }) }
    {
        let mut modules = Vec::new(alloc);
        for host in hosts {
            modules.push(module_of(alloc, host)?)?;
        }
        Ok(JournalFile {
            modules,
            entries: Vec::new(alloc),
        })
    }

    /// Puts the calls of a journal at the end. Its calls are of functions that are there, by the numbers of their
    /// modules and of themselves, with arguments and replies of their types. After `Memory` nothing has changed.
    pub fn add(&mut self, journal: &Journal) -> Result<(), Memory>
        requires { list_all (fits (recorded self.old).hosts) journal.now ≡ true }
        ensures ok { OnOk result (recorded self.new ≡ record {
          hosts = (recorded self.old).hosts;
          entries = (recorded self.old).entries ++ journal.now;
        }) }
        ensures err { OnErr result (recorded self.new ≡ recorded self.old) }
    {
        let alloc = *self.entries.allocator();
        let mut more = copies(alloc, journal.as_slice())?;
        self.entries.append(&mut more)?;
        Ok(())
    }

    /// The text: for each module a line and a line for each of its functions, then a line for each call. It is the text
    /// of this journal alone, where no two functions have one symbol.
    pub fn text(&self, alloc: Global) -> Result<Bytes, Memory>
        ensures text { IfOk result (λ text. text ≡ journal_text (recorded self.now)) }
        ensures read_back { IfOk result (λ text. AreDistinct (recorded self.now).hosts → IsJournal text (recorded self.now)) }
    {
        let mut text = Bytes::new(alloc);
        for module in self.modules.as_slice() {
            put_module(alloc, &mut text, module)?;
        }
        for entry in self.entries.as_slice() {
            put_entry(alloc, &mut text, self.modules.as_slice(), entry)?;
        }
        Ok(text)
    }

    /// The number of modules.
    pub fn module_count(&self) -> usize
        ensures { result ≡ length (recorded self.now).hosts }
    {
        self.modules.len()
    }

    // A module without functions at the end, where there are no calls.
    pub(crate) fn push_module(&mut self, name: Bytes) -> Result<(), Memory>
        requires { self.old.entries.items ≡ [] }
        ensures { OnOk result (recorded self.new ≡ record {
          entries = [];
          hosts = (recorded self.old).hosts ++ record { name = name; functions = [] } ∷ [];
        }) }
    {
        let functions = Vec::new(*self.entries.allocator());
        self.modules.push(JournalModule { name, functions })?;
        Ok(())
    }

    // A function at the end of the last module, where there are no calls.
    pub(crate) fn push_function(&mut self, f: FunctionLine) -> Result<(), Memory>
        requires no_entries { self.old.entries.items ≡ [] }
        requires some { 0 < vec_len self.old.modules }
        ensures { OnOk result ((front : List Host) (last : Host) → (recorded self.old).hosts ≡ front ++ last ∷ []
            → recorded self.new ≡ record { hosts = front ++ with_function last (named_function f) ∷ []; entries = [] }) }
    {
        push_function(&mut self.modules, f)
    }

    // A call at the end.
    pub(crate) fn push_entry(&mut self, asked: Asked) -> Result<(), Memory>
        requires { fits (recorded self.old).hosts asked ≡ true }
        ensures { OnOk result (recorded self.new ≡ record {
          hosts = (recorded self.old).hosts;
          entries = (recorded self.old).entries ++ asked ∷ [];
        }) }
    {
        self.entries.push(asked)?;
        Ok(())
    }
}
