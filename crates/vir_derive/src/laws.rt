// What holds of derivability and of signatures, whatever the terms. Each law is the contract of a function that does
// nothing.
ghost use Rattle.std.specs.Prelude.{◌↔◌, ℕ, Bool, IsTrue};
ghost use Rattle.vir_term.specs.Tree.{Tree};
ghost use Rattle.vir_derive.specs.Within.{AreAlike, HaveLikeParts};
ghost use Rattle.vir_derive.specs.Signatures.{are_equal, SayTheSame};
ghost use Rattle.vir_derive.specs.declared.term_signature.Signature.{Signature};

/// Whatever numbers are of interest, as long as 1 and 2 are among them: which properties with these
/// numbers are derivable of a composition follows from its form, from which of them are derivable of its
/// parts, and from whether the heads of these are opposed.
pub fn numbers_close()
    ensures { (numbers : ℕ → Bool) → IsTrue (numbers 1) → IsTrue (numbers 2)
        → (t u : Tree) → HaveLikeParts numbers t u → AreAlike numbers t u }
{}

/// Two signatures are equal just where they have the same numbers, the same properties and the same head: a
/// signature that is equal in meaning is equal by `==`.
pub fn equal_signatures_say_the_same()
    ensures { (s r : Signature) → IsTrue (are_equal s r) ↔ SayTheSame s r }
{}
