//! What holds of traces: functions that do nothing, with laws as contracts.
ghost use Rattle.std.specs.Prelude.{◌≡◌, ℕ, Option, ◌^◌, ◌<◌, ◌≤◌, List, ◌++◌, Some, Ok, decimal, codes};
ghost use Rattle.std.specs.List.{AllByRecursion};
ghost use Rattle.flat_model.specs.declared.Word.{Word};
ghost use Rattle.flat_model.specs.declared.Lanes.{Lanes};
ghost use Rattle.trace_text.specs.declared.lines.Line.{Line};
ghost use Rattle.trace_text.specs.declared.lines.LineFault.{LineFault};
ghost use Rattle.machine_core.specs.Machine.{MachineState};
ghost use Rattle.flat_model.specs.Texts.{word_text, lanes_text};
ghost use Rattle.trace_text.specs.Fields.{number_of, word_of, lanes_of};
ghost use Rattle.trace_text.specs.Lines.{line_of};
ghost use Rattle.trace_text.specs.Written.{line_text, IsFit, IsFitAnswer, IsFitReply};
ghost use Rattle.trace_text.specs.Texts.{answer_text, reply_text};
ghost use Rattle.trace_text.specs.Pairs.{answer_of, pair_of};
ghost use Rattle.flat_model.specs.declared.Answer.{Answer};
ghost use Rattle.trace_text.specs.Serving.{answer_to};
ghost use Rattle.trace_text.specs.Reading.{joined_texts, IsGood, IsStuck, BeginsFaulty};

/// A number has one text, its decimal digits.
pub fn numbers()
    ensures read { (most n : ℕ) (text : List ℕ) → most < 2 ^ 32 → number_of most text ≡ Some n
        → (text ≡ decimal n) }
    ensures bound { (most n : ℕ) (text : List ℕ) → most < 2 ^ 32 → number_of most text ≡ Some n
        → (n ≤ most) }
    ensures written { (most n : ℕ) → most < 2 ^ 32 → n ≤ most
        → number_of most (decimal n) ≡ Some n }
{}

/// Words and masks are read as written.
pub fn words_and_masks()
    ensures words { (w : Word) → w.b0 < 256 → w.b1 < 256 → w.b2 < 256 → w.b3 < 256
        → word_of (word_text w) ≡ Some w }
    ensures masks { (m : Lanes) → m.0 < 16 → lanes_of (lanes_text m) ≡ Some m }
{}

/// A text splits into good lines and a rest in one way: pieces don't matter.
pub fn one_reading()
    ensures { (fault_in : List ℕ → Option LineFault) (most : ℕ) (xs ys : List (List ℕ)) (a b more after : List ℕ)
        → AllByRecursion (IsGood fault_in most) xs → AllByRecursion (IsGood fault_in most) ys
        → IsStuck fault_in most a → IsStuck fault_in most b
        → joined_texts xs ++ (a ++ more) ≡ joined_texts ys ++ (b ++ after)
        → (xs ≡ ys) × (a ++ more ≡ b ++ after) }
{}

/// A line's fault stands whatever follows.
pub fn faults_stand()
    ensures { (fault_in : List ℕ → Option LineFault) (most : ℕ) (rest : List ℕ) (f : LineFault)
        → BeginsFaulty fault_in most rest f → IsStuck fault_in most rest }
{}

/// A line has one text.
pub fn lines()
    ensures read { (text : List ℕ) (l : Line) → line_of text ≡ Ok l → IsFit l
        × (text ≡ line_text l) }
    ensures written { (l : Line) → IsFit l → line_of (line_text l) ≡ Ok l }
{}

/// An answer has one text.
pub fn answers()
    ensures read { (text : List ℕ) (a : Answer) → answer_of text ≡ Some a → IsFitAnswer a
        × (text ≡ answer_text a) }
    ensures written { (a : Answer) → IsFitAnswer a → answer_of (answer_text a) ≡ Some a }
{}

/// A served line is read as its line and answer.
pub fn pairs()
    ensures { (m : MachineState) (text : List ℕ) (l : Line) → line_of text ≡ Ok l → IsFitReply (answer_to m l)
        → pair_of (text ++ (codes " -> " ++ reply_text m l)) ≡ Ok (record { line = l; answer = answer_to m l }) }
{}
