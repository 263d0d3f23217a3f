// A journal that is read, line by line.
ghost use Rattle.std.specs.Prelude.{◌≡◌, true, false, ℕ, IfOk};
ghost use Rattle.journal_lines.specs.declared.line.JournalLine.{JournalLine as AnyLine};
ghost use Rattle.journal_lines.specs.Lines.{IsLine};
ghost use Rattle.host_replay.specs.Knowing.{Knows};
ghost use Rattle.host_replay.specs.Reading.{empty, Adds, AddsEntry, AddsFunction, AddsModule};
ghost use Rattle.host_replay.specs.Recording.{recorded};
ghost use Rattle.host_replay.specs.Texts.{Recorded};

use crate::file::JournalFile;
use crate::fitting::fits;
use crate::place::{Place, new_function};
use c_hosts::Asked;
use journal_lines::{FunctionLine, HostLine, JournalLine, read_line};
use name_table::{NameTable, Salted};
use std::alloc::Global;
use w2c_base::{Bytes, Memory};
use w2c_mangle::{SymbolKind, export_symbol};

/// What the lines so far have made known, and a table of the symbols of functions.
#[derive(Drop)]
pub(crate) struct Reading {
    pub(crate) file: JournalFile,
    pub(crate) places: NameTable<Place>,
}

impl Reading {
    /// Nothing is known. Symbols will be hashed by a key. It takes no memory.
    pub(crate) fn new(alloc: Global, salt: Salted) -> Reading
        ensures file { recorded result.file ≡ empty }
        ensures known { Knows result.places (recorded result.file).hosts }
    {
        Reading {
            file: JournalFile::new(alloc),
            places: NameTable::new(alloc, salt),
        }
    }

    /// Takes a line, given without its newline: whether it says what can be added.
    pub(crate) fn step(&mut self, alloc: Global, text: &[u8]) -> Result<bool, Memory>
        requires { Knows self.old.places (recorded self.old.file).hosts }
        ensures known { IfOk result (λ b. b ≡ true → Knows self.new.places (recorded self.new.file).hosts) }
        ensures yes { IfOk result (λ b. b ≡ true → (l : AnyLine) × IsLine text.now l × Adds (recorded self.old.file) l (recorded self.new.file)) }
        ensures no { IfOk result (λ b. b ≡ false → (l : AnyLine) (after : Recorded) → IsLine text.now l → Adds (recorded self.old.file) l after → ⊥) }
    {
        let Some(line) = read_line(alloc, text)? else {
            return Ok(false);
        };
        self.add(alloc, line)
    }

    fn add(&mut self, alloc: Global, line: JournalLine) -> Result<bool, Memory>
        requires { Knows self.old.places (recorded self.old.file).hosts }
        ensures known { IfOk result (λ b. b ≡ true → Knows self.new.places (recorded self.new.file).hosts) }
        ensures yes { IfOk result (λ b. b ≡ true → Adds (recorded self.old.file) line (recorded self.new.file)) }
        ensures no { IfOk result (λ b. b ≡ false → (after : Recorded) → Adds (recorded self.old.file) line after → ⊥) }
    {
        match line {
            JournalLine::Module(name) => self.add_module(name),
            JournalLine::Function(f) => self.add_function(alloc, f),
            JournalLine::Host(call) => self.add_entry(alloc, call),
        }
    }

    fn add_module(&mut self, name: Bytes) -> Result<bool, Memory>
        requires { Knows self.old.places (recorded self.old.file).hosts }
        ensures known { IfOk result (λ b. b ≡ true → Knows self.new.places (recorded self.new.file).hosts) }
        ensures yes { IfOk result (λ b. b ≡ true → AddsModule (recorded self.old.file) name (recorded self.new.file)) }
        ensures no { IfOk result (λ b. b ≡ false → (after : Recorded) → AddsModule (recorded self.old.file) name after → ⊥) }
    {
        if !self.file.entries.is_empty() {
            return Ok(false);
        }
        self.file.push_module(name)?;
        Ok(true)
    }

    fn add_function(&mut self, alloc: Global, f: FunctionLine) -> Result<bool, Memory>
        requires { Knows self.old.places (recorded self.old.file).hosts }
        ensures known { IfOk result (λ b. b ≡ true → Knows self.new.places (recorded self.new.file).hosts) }
        ensures yes { IfOk result (λ b. b ≡ true → AddsFunction (recorded self.old.file) f (recorded self.new.file)) }
        ensures no { IfOk result (λ b. b ≡ false → (after : Recorded) → AddsFunction (recorded self.old.file) f after → ⊥) }
    {
        if !self.file.entries.is_empty() {
            return Ok(false);
        }
        let Some(new) = new_function(alloc, self.file.modules.as_slice(), &f)? else {
            return Ok(false);
        };
        if self.places.has(new.symbol.as_slice()) {
            return Ok(false);
        }
        self.file.push_function(f)?;
        self.places.enter(alloc, new.symbol.as_slice(), new.place)?;
        Ok(true)
    }

    fn add_entry(&mut self, alloc: Global, call: HostLine) -> Result<bool, Memory>
        requires { Knows self.old.places (recorded self.old.file).hosts }
        ensures known { IfOk result (λ b. b ≡ true → Knows self.new.places (recorded self.new.file).hosts) }
        ensures yes { IfOk result (λ b. b ≡ true → AddsEntry (recorded self.old.file) call (recorded self.new.file)) }
        ensures no { IfOk result (λ b. b ≡ false → (after : Recorded) → AddsEntry (recorded self.old.file) call after → ⊥) }
    {
        let symbol = export_symbol(
            alloc,
            call.host.as_slice(),
            SymbolKind::Func,
            call.function.as_slice(),
        )?;
        let Some(place) = self.places.find(symbol.as_slice()) else {
            return Ok(false);
        };
        let asked = Asked {
            host: place.host,
            function: place.function,
            args: call.args,
            reply: call.reply,
        };
        if !fits(self.file.modules.as_slice(), &asked) {
            return Ok(false);
        }
        self.file.push_entry(asked)?;
        Ok(true)
    }
}
