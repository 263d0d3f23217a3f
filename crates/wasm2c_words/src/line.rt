// The four forms of a command line.

/// `FILE -o OUT.c [-n NAME]`: the file to read, the file to write, and the module's name, which is NAME or by FILE.
#[derive(Clone, Copy, Debug)]
pub struct Translation<'a> {
    pub input: &'a str,
    pub output: &'a str,
    pub module_name: &'a [u8],
}

/// `--dir DIR FILE ..`: where to write, and the 1 to 16 files to read. Their modules' names, by `module_name`, are
/// distinct.
#[derive(Debug, Drop)]
pub struct FileSet<'a> {
    pub dir: &'a str,
    pub inputs: Vec<&'a str>,
}

/// `--gen N -o OUT.c [-n NAME]`: how many functions are generated, the file to write, and the module's name, which is
/// NAME or `gen`.
#[derive(Clone, Copy, Debug)]
pub struct Generation<'a> {
    pub count: u32,
    pub output: &'a str,
    pub module_name: &'a [u8],
}

/// What a command line asks for.
#[derive(Debug, Drop)]
pub enum Line<'a> {
    Translate(Translation<'a>),
    Set(FileSet<'a>),
    Generate(Generation<'a>),
    /// `--runtime DIR`: where the runtime's texts are written.
    Runtime(&'a str),
}
