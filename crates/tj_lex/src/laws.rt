//! Laws of the tokens of a text. They speak of the definitions alone.
ghost use Rattle.std.specs.Prelude.{ℕ, ◌≡◌, List, [], Result};
ghost use Rattle.tj_lex.specs.declared.token.LexFault.{LexFault};
ghost use Rattle.tj_lex.specs.declared.token.Token.{Token};
ghost use Rattle.tj_lex.specs.Pieces.{Piece, text_of, AreLaidOut, tokens_of};
ghost use Rattle.tj_lex.specs.Tokens.{Answers, AreTokens};

/// A text has one list of tokens or one first fault, and not both.
pub fn one_answer()
    // Law: a text has at most one answer: one list of tokens or one first fault, and not both.
    ensures { (text : List ℕ) (a b : Result (List Token) LexFault)
        → Answers text a → Answers text b → a ≡ b }
{}

/// A text that is laid out token by token has these tokens, each at the position where it was put.
pub fn laid_out()
    // Law: a text put together token by token, with blanks and comments behind each and nothing
    // that extends a token, has just these tokens, where they were put.
    ensures { (pieces : List Piece) → AreLaidOut pieces
        → AreTokens (text_of pieces) (tokens_of [] pieces) }
{}
