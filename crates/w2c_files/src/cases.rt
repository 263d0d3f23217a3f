// Closed cases of what stands of files that are written one after another.
ghost use Rattle.std.specs.Prelude.{◌≡◌, [], ◌∷◌, None, Some, codes};
ghost use Rattle.std.specs.FinMap.{get, insert};
ghost use Rattle.w2c_io.specs.Contents.{Contents};
ghost use Rattle.w2c_files.specs.Samples.{two_files};
ghost use Rattle.w2c_files.specs.Standing.{StandsAt};

/// Two files up to one of them, which is untouched or holds a part of its text; and what does not stand so: a file that is none of
/// them, bytes that do not begin the text, and the second file without the first.
pub fn standing_cases()
    ensures first_untouched { (m : Contents) → StandsAt (Some m) (Some m) two_files (codes "a") }
    ensures second_untouched { (m : Contents) → StandsAt (Some m) (Some (insert m (codes "a") (1 ∷ 2 ∷ []))) two_files (codes "b") }
    ensures second_in_part { (m : Contents)
        → StandsAt (Some m) (Some (insert (insert m (codes "a") (1 ∷ 2 ∷ [])) (codes "b") (3 ∷ []))) two_files (codes "b") }
    ensures none_of_them { (m : Contents) → StandsAt (Some m) (Some m) two_files (codes "c") → ⊥ }
    ensures other_bytes { (m : Contents) → get m (codes "a") ≡ None
        → StandsAt (Some m) (Some (insert m (codes "a") (2 ∷ []))) two_files (codes "a") → ⊥ }
    ensures second_alone { (m : Contents) → get m (codes "a") ≡ None
        → StandsAt (Some m) (Some (insert m (codes "b") (3 ∷ []))) two_files (codes "b") → ⊥ }
{}
