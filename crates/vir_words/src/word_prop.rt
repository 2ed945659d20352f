// Properties as words of the command line.
ghost use Rattle.std.specs.Prelude.{◌≡◌, IfSome};
ghost use Rattle.vir_rules.specs.Named.{IsPropInRange};
ghost use Rattle.vir_words.specs.WordProps.{prop_of};

use vir_rules::read_prop;
use vir_term::Prop;

/// The property that a word is the printed text of.
pub fn word_prop(word: &str) -> Option<Prop>
    ensures prop { result ≡ prop_of word.now }
    ensures range { IfSome result (λ prop. IsPropInRange prop) }
{
    read_prop(word.as_bytes())
}
