// A module of a set.
use w2c_base::Bytes;
use wasm_typing::ValidModule;

/// A valid module under the name by which later modules import from it.
#[derive(Drop)]
pub struct SetModule {
    pub name: Bytes,
    pub module: ValidModule,
}
