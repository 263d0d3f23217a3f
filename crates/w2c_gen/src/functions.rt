// The functions of a generated module.
ghost use Rattle.std.specs.Prelude.{◌≡◌, ◌%◌, IfOk, map};
ghost use Rattle.std.specs.List.{range_with_len};
ghost use Rattle.wasm_tree.specs.Views.{kind_tree};
ghost use Rattle.w2c_gen.specs.Numbers.{next_number};
ghost use Rattle.w2c_gen.specs.Generated.{operator, code_with, body_with, body_of};

use std::alloc::Global;
use w2c_base::Memory;
use wasm_tree::{BodyEntries, BodyEntry, Code, Instr, Kind, Runs};

fn next(x: u32) -> u32
    ensures { result ≡ next_number x }
{
    ((1_664_525 * u64::from(x) + 1_013_904_223) % 4_294_967_296) as u32
}

fn operator_of(x: u32) -> Kind
    ensures { kind_tree result ≡ operator (x % 4) }
{
    match x % 4 {
        0 => Kind::I32Add,
        1 => Kind::I32Sub,
        2 => Kind::I32Mul,
        _ => Kind::I32Xor,
    }
}

fn instr(kind: Kind) -> Instr
    ensures place { result.place ≡ 0 }
    ensures kind { kind_tree result.kind ≡ kind_tree kind }
{
    Instr { place: 0, kind }
}

/// The code of function k, where x is its number.
fn code(alloc: Global, x: u32, k: u32) -> Result<Code, Memory>
    ensures { IfOk result (λ code. code ≡ code_with x k) }
{
    let mut code = Code::new(alloc);
    code.push(instr(Kind::LocalGet(0)))?;
    code.push(instr(Kind::I32Const(x.cast_signed())))?;
    code.push(instr(operator_of(x)))?;
    if k % 1000 != 0 {
        code.push(instr(Kind::Call(k - 1)))?;
    }
    Ok(code)
}

fn body(alloc: Global, x: u32, k: u32) -> Result<BodyEntry, Memory>
    ensures { IfOk result (λ body. body ≡ body_with x k) }
{
    Ok(BodyEntry {
        runs: Runs::new(alloc),
        code: code(alloc, x, k)?,
        end_place: 0,
    })
}

/// The bodies of n functions.
pub fn bodies(alloc: Global, n: u32) -> Result<BodyEntries, Memory>
    ensures { IfOk result (λ list. list ≡ map (body_of n) (range_with_len 0 n)) }
{
    let mut list = BodyEntries::new(alloc);
    let mut x = n;
    for k in 0..n {
        x = next(x);
        list.push(body(alloc, x, k)?)?;
    }
    Ok(list)
}
