//! Laws of the lines of a text. They speak of the definitions alone.
ghost use Rattle.std.specs.Prelude.{ℕ, ◌≡◌, List, Some, slice_get, take};
ghost use Rattle.tj_lex.specs.Positions.{position_after};
ghost use Rattle.tj_lex.specs.declared.place.Place.{Place};
ghost use Rattle.tj_lex.specs.declared.token.Token.{Token};
ghost use Rattle.tj_lex.specs.Tokens.{AreTokens};
ghost use Rattle.tj_faults.specs.TokenLines.{StandsInLine};

/// The source line that is told of a token is there, and the caret stands below its first byte.
pub fn tokens_stand_in_lines()
    // Law: each token of a text, and the end, stands in the line with the number of its position, behind the bytes that
    // its column tells. The lines in front, with their line feeds, and these bytes are what the text has in front of it.
    // A caret that is told for this position stands below the token's first byte, under this line.
    ensures { (text : List ℕ) (tokens : List Token) (n : ℕ) (token : Token) → AreTokens text tokens
        → slice_get tokens n ≡ Some token → StandsInLine text token.at token.from token.to }
{}

/// The source line that is told of a position is there, and the caret stands behind so many of its bytes.
pub fn places_stand_in_lines()
    // Law: the position behind any bytes of a text stands in the line with its number, behind the bytes that its column
    // tells; so does the caret that is told for it.
    ensures { (text : List ℕ) (i : ℕ) (at : Place) → at ≡ position_after (take i text)
        → StandsInLine text at i i }
{}
