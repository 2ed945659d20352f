//! Laws of rule files: what is printed is read as what it was printed from, and what is read is within the limits. The
//! functions do nothing; their contracts are what is proved of the language's definitions.
ghost use Rattle.std.specs.Prelude.{ℕ, ◌≡◌, ◌≤◌, ◌∷◌, [], List, Ok, None, length, true};
ghost use Rattle.vir_term.specs.Tree.{Tree};
ghost use Rattle.vir_term.specs.Limits.{IsWithinLimits};
ghost use Rattle.vir_read.specs.BuiltIns.{built_in_named};
ghost use Rattle.vir_read.specs.Printed.{is_name, definition_text};
ghost use Rattle.vir_read.specs.declared.token.Token.{Token};
ghost use Rattle.vir_book.specs.Books.{Entry, entry, rule_file_limit, entries_of, book_of, rule_of};
ghost use Rattle.vir_book.specs.Printed.{book_text, AreDefinable, name_limit};

/// A printed term is read as itself: the rule file `NAME=TERM;` defines that term under that name, for each word
/// that isn't built in and each term within the limits. The name has at most 20,000 bytes, so that the file isn't
/// too long.
pub fn printed_rules_are_read()
    ensures { (name : List ℕ) (t : Tree) → is_name name ≡ true → built_in_named name ≡ None → length name ≤ name_limit
        → IsWithinLimits t → book_of (definition_text name t) ≡ Ok (entry name t ∷ []) }
{}

/// And so is a rule file of several printed terms, where each name is new and the file isn't too long.
pub fn printed_books_are_read()
    ensures { (e : Entry) (rest : List Entry) → AreDefinable [] (e ∷ rest)
        → length (book_text (e ∷ rest)) ≤ rule_file_limit → book_of (book_text (e ∷ rest)) ≡ Ok (e ∷ rest) }
{}

/// The rule of a rule file is within the limits.
pub fn rules_are_within_limits()
    ensures { (text : List ℕ) (t : Tree) → rule_of text ≡ Ok t → IsWithinLimits t }
{}

/// A rule file has no more definitions than tokens: where more of these may be read, the same ones are.
pub fn no_more_definitions_than_tokens()
    ensures { (most : ℕ) (text : List ℕ) (before : List Entry) (tokens : List Token) → length tokens ≤ most
        → entries_of most text before tokens ≡ entries_of (length tokens) text before tokens }
{}

/// A rule file has at most so many bytes.
pub fn rule_files_are_so_long()
    ensures { rule_file_limit ≡ 1048576 }
{}
