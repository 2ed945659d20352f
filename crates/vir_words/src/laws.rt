// Laws of words. The functions do nothing; their contracts are what is proved of the definitions.
ghost use Rattle.std.specs.Prelude.{ℕ, ◌≡◌, List, Some, length};
ghost use Rattle.vir_term.specs.declared.leaf.Leaf.{Leaf};
ghost use Rattle.vir_term.specs.declared.prop.Prop.{Prop};
ghost use Rattle.vir_term.specs.Limits.{IsWithinLimits};
ghost use Rattle.vir_term.specs.Text.{leaf_text};
ghost use Rattle.vir_term.specs.Tree.{leaf};
ghost use Rattle.vir_rules.specs.Named.{IsPropInRange};
ghost use Rattle.vir_rules.specs.Props.{prop_text};
ghost use Rattle.vir_words.specs.Command.{Command, IsInRange, command_of};
ghost use Rattle.vir_words.specs.WordLeaves.{default_leaves, leaf_of};
ghost use Rattle.vir_words.specs.WordProps.{prop_of};

/// The printed text of a property is a word for it.
pub fn printed_properties_are_words()
    ensures { (p : Prop) → IsPropInRange p → prop_of (prop_text p) ≡ Some p }
{}

/// And each word for a property is its printed text.
pub fn words_are_printed_properties()
    ensures text { (word : List ℕ) (p : Prop) → prop_of word ≡ Some p → prop_text p ≡ word }
    ensures range { (word : List ℕ) (p : Prop) → prop_of word ≡ Some p → IsPropInRange p }
{}

/// The printed text of a module within the limits is a word for it.
pub fn printed_modules_are_words()
    ensures { (l : Leaf) → IsWithinLimits (leaf l) → leaf_of (leaf_text l) ≡ Some l }
{}

/// And each word for a module is its printed text.
pub fn words_are_printed_modules()
    ensures text { (word : List ℕ) (l : Leaf) → leaf_of word ≡ Some l → leaf_text l ≡ word }
    ensures range { (word : List ℕ) (l : Leaf) → leaf_of word ≡ Some l → IsWithinLimits (leaf l) }
{}

/// What a command holds is within the limits of what it asks for.
pub fn commands_are_in_range()
    ensures { (words : List (List ℕ)) (command : Command) → command_of words ≡ Some command → IsInRange command }
{}

/// Where the words name no modules, 27 are taken.
pub fn default_modules_are_27()
    ensures { length default_leaves ≡ 27 }
{}
