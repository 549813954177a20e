//! Laws of the lexer: a source is cut in one way, by longest match, and denotes at most one unit.
ghost use Rattle.std.specs.Prelude.{◌≡◌, ◌≤◌, ◌++◌, List, ℕ, Bool, Option, Some, Ok, length};
ghost use Rattle.c_lexer.specs.declared.lex_fault.LexFault.{LexFault as Fault};
ghost use Rattle.c_lexer.specs.declared.place.Place.{Place as Places};
ghost use Rattle.c_lexer.specs.declared.token.Token.{Token as Tokens};
ghost use Rattle.lcc_text.specs.Classes.{AllIn};
ghost use Rattle.c_ast.specs.Lexemes.{Placed};
ghost use Rattle.c_ast.specs.Signs.{sign_of};
ghost use Rattle.c_lexer.specs.Runs.{run};
ghost use Rattle.c_lexer.specs.LongestSigns.{longest_sign};
ghost use Rattle.c_lexer.specs.Characters.{Characters, Values};
ghost use Rattle.c_lexer.specs.Tokens.{Answer, Cuts, AreTokens};
ghost use Rattle.c_ast.specs.Trees.{UnitTree};
ghost use Rattle.c_lexer.specs.SourceUnits.{AreLexemes, DenotesUnit};
ghost use Rattle.c_lexer.specs.PlacedTokens.{placed};
ghost use Rattle.c_lexer.specs.PrintedTokens.{AreBytes, IsReadAgain};

use c_readings::one_unit;

/// From one place a source is cut in one way: one answer, and one place behind it.
pub fn one_cut()
    ensures { (source : List ℕ) (p : Places) (a b : Answer) (q r : Places) → Cuts source p a q → Cuts source p b r → (a ≡ b) × (q ≡ r) }
{}

/// A source has one list of tokens, and one fault behind them or none.
pub fn one_list()
    ensures { (source : List ℕ) (p : Places) (ts us : List Tokens) (e f : Option Fault) → AreTokens source p ts e → AreTokens source p us f → (ts ≡ us) × (e ≡ f) }
{}

/// A source's tokens are one list of lexemes.
pub fn one_lexing()
    ensures { (source : List ℕ) (ts : List Tokens) (ps qs : List Placed) → AreLexemes source ts ps → AreLexemes source ts qs → ps ≡ qs }
{}

/// No front that a class makes is longer than the run that is taken, and no sign is longer than
/// the one that is taken.
pub fn longest()
    ensures runs { (class : ℕ → Bool) (u z : List ℕ) → AllIn class u → length u ≤ length (run class (u ++ z)) }
    ensures signs { (u z : List ℕ) (n : ℕ) → sign_of u ≡ Some n → (x : ℕ × ℕ) × (longest_sign (u ++ z) ≡ Some x) × (length u ≤ x.1) }
{}

/// The characters of a literal have one list of values.
pub fn one_text()
    ensures some { (quote : ℕ) (bytes : List ℕ) (x : ℕ × ℕ) → Characters quote bytes (Ok x) → (vs : List ℕ) × Values quote bytes vs × (length vs ≡ x.0) }
    ensures one { (quote : ℕ) (bytes vs ws : List ℕ) → Values quote bytes vs → Values quote bytes ws → vs ≡ ws }
{}

/// A source denotes at most one unit of C's grammar.
pub fn one_source_unit()
    ensures { (source : List ℕ) (u v : UnitTree) → DenotesUnit source u → DenotesUnit source v → u ≡ v }
{
    one_unit();
}

/// The tokens of a source, one for one, are the lexemes that the grammar sees.
pub fn placed_tokens()
    ensures { (source : List ℕ) (p : Places) (ts : List Tokens) (e : Option Fault) → AreTokens source p ts e → AreLexemes source ts (placed source ts) }
{}

/// The printed text of a unit that a source denotes is cut into tokens which have the classes, names
/// and texts of the unit's spelling.
pub fn printed_tokens()
    ensures { (source : List ℕ) (u : UnitTree) → AreBytes source → DenotesUnit source u → IsReadAgain u }
{}
