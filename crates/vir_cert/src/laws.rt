// Laws of certificates. The functions do nothing; their contracts are what is proved of the definitions.
ghost use Rattle.std.specs.Prelude.{ℕ, List, ◌≡◌, ◌≤◌, Ok, length};
ghost use Rattle.vir_term.specs.declared.prop.Prop.{Prop};
ghost use Rattle.vir_term.specs.Limits.{IsWithinLimits};
ghost use Rattle.vir_term.specs.Tree.{Tree, nesting as term_levels};
ghost use Rattle.vir_rules.specs.Claims.{of};
ghost use Rattle.vir_rules.specs.Derivations.{Valid};
ghost use Rattle.vir_rules.specs.Named.{IsPropInRange};
ghost use Rattle.vir_rules.specs.RuleTrees.{RuleTree, nesting as levels};
ghost use Rattle.vir_cert.specs.Certs.{Cert, cert_of};
ghost use Rattle.vir_cert.specs.FirstReader.{first_cert_of};
ghost use Rattle.vir_cert.specs.Texts.{IsCert, IsValid, cert_text};

/// A printed certificate that isn't too long is read as that certificate, whichever version it is printed in.
pub fn printed_certificates_are_read()
    ensures { (c : Cert) → IsCert c → length (cert_text c) ≤ 16777216 → cert_of (cert_text c) ≡ Ok c }
{}

/// What a text is accepted as has a term and a property within the limits, rules that there are, and no nesting
/// past the limit. So it can be printed and read again, if the text isn't too long.
pub fn accepted_certificates_are_within_limits()
    ensures { (text : List ℕ) (c : Cert) → cert_of text ≡ Ok c → IsCert c }
{}

/// What the reader of the first version alone accepts, in the language without `until`, is read as the same
/// certificate.
pub fn first_certificates_are_read()
    ensures { (text : List ℕ) (c : Cert) → first_cert_of text ≡ Ok c → cert_of text ≡ Ok c }
{}

/// A derivation that is valid for a property of a term within the limits has at most three levels for each level of
/// the term, so such a certificate can be printed and read, if the text isn't too long.
pub fn valid_certificates_are_within_limits()
    ensures levels { (d : RuleTree) (p : Prop) (t : Tree) → Valid d (of p t) → term_levels t ≤ 64 → levels d ≤ 192 }
    ensures certificates { (c : Cert) → IsWithinLimits c.term → IsPropInRange c.prop → IsValid c → IsCert c }
{}
