// What holds of lines, whatever code reads them.
ghost use Rattle.std.specs.Prelude.{◌≡◌, List, ℕ};
ghost use Rattle.edl_text.specs.Statements.{Statement as Said};
ghost use Rattle.edl_text.specs.Saying.{Says, HasFault};
ghost use Rattle.edl_text.specs.declared.statement_types.LineFault.{LineFault as Fault};

/// Laws of the words `Says` and `HasFault`: a line says one statement at most, has one fault at
/// most, and never both.
pub fn one_statement()
    ensures statement { (line : List ℕ) (a b : Said) → Says line a → Says line b → a ≡ b }
    ensures fault { (line : List ℕ) (a b : Fault) → HasFault line a → HasFault line b → a ≡ b }
    ensures apart { (line : List ℕ) (a : Said) (b : Fault) → Says line a → HasFault line b → ⊥ }
{}
