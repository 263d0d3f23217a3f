// Lists of words that end in = and one word more.
ghost use Rattle.std.specs.Prelude.{◌≡◌, List, ℕ, IfSome, IfNone};
ghost use Rattle.crun_lines.specs.Views.{texts};
ghost use Rattle.journal_lines.specs.Words.{equals};

/// The words in front of `=`, and the word behind it, which is the last.
pub(crate) fn around_equals<'w, 'a>(words: &'w [&'a [u8]]) -> Option<(&'w [&'a [u8]], &'a [u8])>
    ensures some { IfSome result (λ p. texts words.now ≡ equals (texts p.0.now) p.1.now) }
    ensures none { IfNone result ((front : List (List ℕ)) (last : List ℕ) → texts words.now ≡ equals front last → ⊥) }
{
    let Some((last, rest)) = words.split_last() else {
        return None;
    };
    let Some((sign, front)) = rest.split_last() else {
        return None;
    };
    if *sign == b"=".as_slice() {
        Some((front, *last))
    } else {
        None
    }
}
