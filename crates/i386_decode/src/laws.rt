// Laws on spellings.
ghost use Rattle.std.specs.Prelude.{◌≡◌, ◌≤◌, ◌++◌, ◌↔◌, ℕ, List, [], ◌∷◌, length};
ghost use Rattle.i386_decode.specs.declared.form.Form.{Form};
ghost use Rattle.cpu_state.specs.declared.op.Op.TheVariants as op;
ghost use Rattle.cpu_state.specs.declared.width.Width.TheVariants.{W16, W32};
ghost use Rattle.i386_decode.specs.declared.form.Decoded.TheVariants as decoded;
ghost use Rattle.i386_decode.specs.declared.form.Operand.TheVariants as operand;
ghost use Rattle.i386_decode.specs.Spelling.{AreBytes, Spells, BeginsWith, BeginsSpelling, SpellsNothing};
ghost use Rattle.i386_decode.specs.Reading.{decode_of, form_with, at_base};
ghost use Rattle.i386_decode.specs.WellFormed.{IsWellFormed};

/// No spelling is a proper prefix of another, and a byte string spells one form at most.
pub fn one_spelling()
    ensures { (s more : List ℕ) (f g : Form) → Spells s f → Spells (s ++ more) g → (more ≡ []) × (f ≡ g) }
{}

/// The width, the operands and the repeat of a form that is spelled are among those that its operation can have.
pub fn well_formed_spellings()
    ensures { (s : List ℕ) (f : Form) → Spells s f → IsWellFormed f }
{}

/// A spelling has 1 to 15 bytes.
pub fn spelling_sizes()
    ensures { (s : List ℕ) (f : Form) → Spells s f → (1 ≤ length s) × (length s ≤ 15) }
{}

/// The function that computes agrees with what spellings are: a form, Short or Undefined exactly where it is due.
pub fn decided()
    ensures form { (bytes : List ℕ) → AreBytes bytes → (f : Form) (n : ℕ) → (decode_of bytes ≡ decoded.Form f n) ↔ BeginsWith bytes f n }
    ensures short { (bytes : List ℕ) → AreBytes bytes → (decode_of bytes ≡ decoded.Short) ↔ BeginsSpelling bytes }
    ensures undefined { (bytes : List ℕ) → AreBytes bytes → (decode_of bytes ≡ decoded.Undefined) ↔ SpellsNothing bytes }
{}

/// The function computes on given bytes: a first byte of two, an opcode that the 80386 lacks, NOP, and a store under prefix 66.
pub fn computed_forms()
    ensures short { decode_of (0x0f ∷ []) ≡ decoded.Short }
    ensures undefined { decode_of (0x0f ∷ 0x0b ∷ []) ≡ decoded.Undefined }
    ensures nop { decode_of (0x90 ∷ []) ≡ decoded.Form (form_with op.Xchg W32 (operand.Register 0) (operand.Register 0)) 1 }
    ensures store { decode_of (0x66 ∷ 0x89 ∷ 0x45 ∷ 0xfc ∷ []) ≡ decoded.Form (form_with op.Mov W16 (operand.Memory (at_base 5 0xfffffffc)) (operand.Register 0)) 4 }
{}
