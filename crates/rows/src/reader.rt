// Lines of the input, each by the part that it stands in.
use crate::around::Around;
use crate::files::{self, Asked};
use crate::units;
use std::alloc::{AllocError, Global};

/// What a part's rows are, as its first line says.
#[derive(Clone, Copy)]
enum Part {
    Units,
    Files(Asked),
}

impl Part {
    fn of_heading(line: &str) -> Option<Part> {
        match line {
            "[modules]" => Some(Part::Files(Asked::Verdict)),
            "[units]" => Some(Part::Units),
            "[bodies]" => Some(Part::Files(Asked::Bodies)),
            "[translations]" => Some(Part::Files(Asked::Texts)),
            _ => None,
        }
    }
}

/// The part that was begun last, and what stands around the texts of units.
#[derive(Drop)]
pub struct Reader {
    part: Option<Part>,
    around: Around,
}

impl Reader {
    /// In no part.
    pub fn new(alloc: Global) -> Reader {
        Reader {
            part: None,
            around: Around::new(alloc),
        }
    }

    /// Takes a line, and gives what is printed for it.
    pub fn answer(&mut self, alloc: Global, line: &str) -> Result<Option<String>, AllocError> {
        if line.is_empty() || line.starts_with("# ") {
            return Ok(None);
        }
        if let Some(part) = Part::of_heading(line) {
            self.part = Some(part);
            return Ok(Some(String::from_str(alloc, line)?));
        }
        match self.part {
            Some(Part::Units) => self.unit(alloc, line),
            Some(Part::Files(asked)) => Ok(Some(files::answer(alloc, asked, line)?)),
            None => Ok(Some(format!(in alloc; "{line}: in no part")?)),
        }
    }

    fn unit(&mut self, alloc: Global, line: &str) -> Result<Option<String>, AllocError> {
        match self.around.take(alloc, line)? {
            Some(text) => {
                let verdict = units::verdict(alloc, text.as_slice())?;
                Ok(Some(format!(in alloc; "{line}  =>  {verdict}")?))
            }
            None => Ok(None),
        }
    }
}
