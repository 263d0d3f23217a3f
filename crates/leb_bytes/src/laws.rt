// Laws of the spelling. Each is the contract of a function that does nothing.
ghost use Rattle.std.specs.Prelude.{◌≡◌, ℕ, ℤ, ◌^◌, ◌<◌, List, [], ◌++◌, All, Result, Ok, length};
ghost use Rattle.w2c_base.specs.SpelledNumber.{SpellsSigned, SpellsUnsigned};
ghost use Rattle.leb_bytes.specs.Computed.{s32_of, s64_of, u32_of};
ghost use Rattle.leb_bytes.specs.Reading.{AnswersSigned, AnswersUnsigned};
ghost use Rattle.leb_bytes.specs.Run.{InRange};
ghost use Rattle.leb_bytes.specs.Shortest.{IsShortest};
ghost use Rattle.leb_bytes.specs.declared.fault.LebFault.{LebFault as Fault};

/// No spelling is a proper prefix of another, whatever the width.
pub fn no_spelling_begins_another()
    ensures unsigned { (width : ℕ) (bytes more : List ℕ) (m n : ℕ)
        → SpellsUnsigned width bytes m → SpellsUnsigned width (bytes ++ more) n
        → more ≡ [] }
    ensures signed { (width : ℕ) (bytes more : List ℕ) (m n : ℤ)
        → SpellsSigned width bytes m → SpellsSigned width (bytes ++ more) n
        → more ≡ [] }
{}

/// The spelling of a number fixes it.
pub fn the_spelling_fixes_the_number()
    ensures unsigned { (width : ℕ) (bytes : List ℕ) (m n : ℕ)
        → SpellsUnsigned width bytes m → SpellsUnsigned width bytes n → m ≡ n }
    ensures signed { (width : ℕ) (bytes : List ℕ) (m n : ℤ)
        → SpellsSigned width bytes m → SpellsSigned width bytes n → m ≡ n }
{}

/// Each number of a width has exactly one shortest spelling.
pub fn a_number_has_one_shortest_spelling()
    ensures some_unsigned { (width n : ℕ) → 0 < width → n < 2 ^ width
        → (bytes : List ℕ) × IsShortest (SpellsUnsigned width) bytes n }
    ensures some_signed { (width : ℕ) (n : ℤ) → 0 < width → InRange width n
        → (bytes : List ℕ) × IsShortest (SpellsSigned width) bytes n }
    ensures one_unsigned { (width : ℕ) (xs ys : List ℕ) (n : ℕ)
        → All (λ b. b < 256) xs → All (λ b. b < 256) ys
        → IsShortest (SpellsUnsigned width) xs n → IsShortest (SpellsUnsigned width) ys n
        → xs ≡ ys }
    ensures one_signed { (width : ℕ) (xs ys : List ℕ) (n : ℤ)
        → All (λ b. b < 256) xs → All (λ b. b < 256) ys
        → IsShortest (SpellsSigned width) xs n → IsShortest (SpellsSigned width) ys n
        → xs ≡ ys }
{}

/// A spelling is read again, whatever follows it.
pub fn a_spelling_is_read_again()
    ensures u32 { (bytes more : List ℕ) (n : ℕ)
        → SpellsUnsigned 32 bytes n → u32_of (bytes ++ more) ≡ Ok (n, length bytes) }
    ensures s32 { (bytes more : List ℕ) (n : ℤ)
        → SpellsSigned 32 bytes n → s32_of (bytes ++ more) ≡ Ok (n, length bytes) }
    ensures s64 { (bytes more : List ℕ) (n : ℤ)
        → SpellsSigned 64 bytes n → s64_of (bytes ++ more) ≡ Ok (n, length bytes) }
{}

/// Each window of bytes has exactly one answer at each width.
pub fn each_window_has_one_answer()
    ensures unsigned { (width : ℕ) (window : List ℕ) (r s : Result (ℕ × ℕ) Fault)
        → AnswersUnsigned width window r → AnswersUnsigned width window s → r ≡ s }
    ensures signed { (width : ℕ) (window : List ℕ) (r s : Result (ℤ × ℕ) Fault)
        → AnswersSigned width window r → AnswersSigned width window s → r ≡ s }
    ensures u32 { (window : List ℕ) → AnswersUnsigned 32 window (u32_of window) }
    ensures s32 { (window : List ℕ) → AnswersSigned 32 window (s32_of window) }
    ensures s64 { (window : List ℕ) → AnswersSigned 64 window (s64_of window) }
{}
