//! Laws of the rule language: a printed term, read again, is that term. The functions do nothing; their contracts are
//! what is proved of the language's definitions.
ghost use Rattle.std.specs.Prelude.{ℕ, ◌≡◌, ◌≤◌, ◌+◌, ◌*◌, ◌++◌, List, Ok, length, true};
ghost use Rattle.vir_term.specs.Tree.{Tree, nesting, size};
ghost use Rattle.vir_term.specs.Limits.{IsInRange, IsWithinLimits, count_limit, nesting_limit, size_limit};
ghost use Rattle.vir_term.specs.Orders.{member_limit};
ghost use Rattle.vir_term.specs.Text.{term_text};
ghost use Rattle.vir_read.specs.declared.token.Token.{Token};
ghost use Rattle.vir_read.specs.Tokens.{run, is_word_byte, tokens_from};
ghost use Rattle.vir_read.specs.RawTrees.{RawTree};
ghost use Rattle.vir_read.specs.Grammar.{tree_of, unclosed_limit};
ghost use Rattle.vir_read.specs.Arguments.{Names};
ghost use Rattle.vir_read.specs.Typing.{term_at};
ghost use Rattle.vir_read.specs.Spelling.{Spells};
ghost use Rattle.vir_read.specs.Pieces.{SayAll, term_pieces, OpensNothing, with_tokens};
ghost use Rattle.vir_read.specs.Printed.{part_length, is_name, definition_text, IsRead, IsDefinition};

/// Where the text of a term stands in a text, and no byte of a word behind it, its tokens say the term's pieces in
/// order, and then come the tokens of what stands behind it.
pub fn terms_are_pieces()
    ensures { (t : Tree) (before after : List ℕ) → IsInRange t → run is_word_byte after ≡ 0
        → (tokens : List Token) × SayAll (before ++ (term_text t ++ after)) (term_pieces t) tokens
        × (tokens_from 0 (length before) (term_text t ++ after)
        ≡ with_tokens tokens (tokens_from 0 (length before + length (term_text t)) after)) }
{}

/// Tokens that say a term's pieces are read as one tree, which spells the term, and the tokens behind them are left.
pub fn pieces_are_read()
    ensures { (text : List ℕ) (t : Tree) (tokens rest : List Token) → nesting t ≤ nesting_limit
        → SayAll text (term_pieces t) tokens → OpensNothing text rest
        → (raw : RawTree) × Spells text t raw × (tree_of text (tokens ++ rest) ≡ Ok (raw, rest)) }
{}

/// A tree that spells a term stands for that term, whatever names are defined.
pub fn spelled_terms_are_typed()
    ensures { (text : List ℕ) (names : Names) (t : Tree) (raw : RawTree) (level : ℕ) → Spells text t raw → IsInRange t
        → level + nesting t ≤ nesting_limit + 1 → term_at text names raw level ≡ Ok t }
{}

/// A printed term is read as itself wherever it stands in a text: in a rule file and in a certificate. It is enough
/// that neither a byte of a word nor the token `(` stands behind it.
pub fn printed_terms_are_read()
    ensures { (t : Tree) (before after : List ℕ) (rest : List Token) → IsWithinLimits t → run is_word_byte after ≡ 0
        → tokens_from 0 (length before + length (term_text t)) after ≡ Ok rest
        → OpensNothing (before ++ (term_text t ++ after)) rest
        → (tokens : List Token) × (tokens_from 0 (length before) (term_text t ++ after) ≡ Ok tokens)
        × IsRead (before ++ (term_text t ++ after)) t tokens rest }
{}

/// A rule file that defines one printed term, `NAME=TERM;`, has the tokens of that definition, and its tree stands
/// for that term.
pub fn printed_definitions_are_read()
    ensures { (name : List ℕ) (t : Tree) → is_name name ≡ true → IsWithinLimits t
        → IsDefinition (definition_text name t) name t }
{}

/// A printed term has at most 5,140 bytes for each module and each composition. With at most 200 of these it isn't
/// too long for a rule file.
pub fn printed_terms_are_short()
    ensures { (t : Tree) → IsInRange t → length (term_text t) ≤ part_length * size t }
{}

/// The limits of a rule text: so many signs unclosed at a time, levels of composition, modules and compositions, and
/// the greatest numbers of alternatives and in a fixed order.
pub fn limits_are_these()
    ensures signs { unclosed_limit ≡ 80 }
    ensures levels { nesting_limit ≡ 64 }
    ensures size { size_limit ≡ 200 }
    ensures count { count_limit ≡ 1000000 }
    ensures member { member_limit ≡ 1024 }
{}
