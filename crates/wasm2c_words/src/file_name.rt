// A module's name, from its file's name.
ghost use Rattle.std.specs.Prelude.{◌≡◌, ◌==◌, ◌-◌, length, not};
ghost use Rattle.std.specs.List.{suffix_len};
ghost use Rattle.wasm2c_words.specs.Names.{module_name_of, without_ending};

/// The part of a file's name after its last `/`, cut before its last `.` where that is not its
/// first character.
pub fn module_name(file: &[u8]) -> &[u8]
    ensures { result.now ≡ module_name_of file.now }
{
    cut_ending(&file[place_after_last(file, b'/')..])
}

fn cut_ending(name: &[u8]) -> &[u8]
    ensures { result.now ≡ without_ending name.now }
{
    let after_dot = place_after_last(name, b'.');
    if after_dot > 1 {
        &name[..after_dot - 1]
    } else {
        name
    }
}

// The place behind the last such byte, or 0.
fn place_after_last(bytes: &[u8], wanted: u8) -> usize
    ensures { result ≡ length bytes.now - suffix_len (λ b. not (b == wanted)) bytes.now }
{
    let mut place = bytes.len();
    while place > 0 && bytes[place - 1] != wanted {
        place -= 1;
    }
    place
}
