// A chunk: how many statements it has, and each of them.
ghost use Rattle.std.specs.Prelude.{◌≡◌, ◌++◌, map, OnOk, IfOk};
ghost use Rattle.c_tree.specs.View.{stmt_of};
ghost use Rattle.packed_stmts.specs.Packed.{list_code};
ghost use Rattle.packed_stmts.specs.Statement.{stmt_code};
ghost use Rattle.packed_stmts.specs.Chunk as chunks;

use crate::packing::put_u64;
use crate::statement::put_stmt;
use crate::unpacking::Source;
use c_tree::Stmt;
use std::alloc::Global;
use w2c_base::{Bytes, Memory};

fn put_stmts(bytes: &mut Bytes, stmts: &[Stmt]) -> Result<(), Memory>
    ensures { OnOk result (bytes.new ≡ bytes.old ++ list_code stmt_code (map stmt_of stmts.now)) }
{
    put_u64(bytes, stmts.len() as u64)?;
    for stmt in stmts {
        put_stmt(bytes, stmt)?;
    }
    Ok(())
}

/// The bytes of statements.
#[tactic(auto, unfolding(crate::specs::Chunk::chunk_code))]
pub(crate) fn chunk_of(alloc: Global, stmts: &[Stmt]) -> Result<Bytes, Memory>
    ensures { IfOk result (λ bytes. bytes ≡ chunks.chunk_code (map stmt_of stmts.now)) }
{
    let mut bytes = Bytes::new(alloc);
    put_stmts(&mut bytes, stmts)?;
    // A list that grew has room for more.
    let chunk = bytes.copy(alloc)?;
    Ok(chunk)
}

/// The statements of a chunk.
#[tactic(auto, unfolding(crate::specs::Chunk::stmts_of))]
pub(crate) fn stmts_of(alloc: Global, chunk: &[u8]) -> Result<Vec<Stmt>, Memory>
    ensures { IfOk result (λ stmts. map stmt_of stmts.items ≡ chunks.stmts_of chunk.now) }
{
    let mut source = Source::new(chunk);
    let count = source.u64();
    let mut stmts = Vec::new(alloc);
    for _ in 0..count {
        let stmt = source.stmt(alloc)?;
        stmts.push(stmt)?;
    }
    Ok(stmts)
}
