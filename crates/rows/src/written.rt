// The same texts, as they are written into files an item at a time.
ghost use Rattle.std.specs.Prelude.{◌≤◌, length};

use std::alloc::Global;
use w2c_io::{Files, SureFiles, WriteAnswer};
use w2c_sim::{Texts, accept, write_header, write_unit};
use wasm_valid::ValidModule;

/// Whether the files hold these texts then.
pub fn writes_these(
    alloc: Global,
    bytes: &[u8],
    name: &[u8],
    texts: &Texts,
) -> Result<bool, WriteAnswer>
    requires bytes { length bytes.now ≤ 8388608 }
    requires named { 1 ≤ length name.now }
    requires short { length name.now ≤ 1024 }
{
    let Ok(module) = accept(alloc, bytes) else {
        return Ok(false);
    };
    let mut files = SureFiles::new(alloc);
    let written = write_both(alloc, &module, name, &mut files);
    drop(module);
    let same = files.get("unit") == Some(texts.unit.as_slice())
        && files.get("header") == Some(texts.header.as_slice());
    drop(files);
    written?;
    Ok(same)
}

fn write_both<F: Files>(
    alloc: Global,
    m: &ValidModule,
    name: &[u8],
    files: &mut F,
) -> Result<(), WriteAnswer>
    requires named { 1 ≤ length name.now }
    requires short { length name.now ≤ 1024 }
{
    files.begin("unit")?;
    write_unit(alloc, m, name, files)?;
    files.finish()?;
    files.begin("header")?;
    write_header(alloc, m, name, files)?;
    files.finish()?;
    Ok(())
}
