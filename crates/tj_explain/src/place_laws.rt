//! Laws of the positions that are told. They speak of the definitions alone.
ghost use Rattle.tj_explain.specs.PlaceLaws.{PlacesAreOfTokens};

use tj_faults::tokens_stand_in_lines;

/// Each position that is told of a statement of a script is that of a token of the input.
pub fn places_are_of_tokens()
    // Law: of a statement's number, or that of a closing brace, that has a position among those of an
    // input's script, the position is told of a token of this input: of the first of the statement's ask,
    // if it has one, or else of the statement, or of the brace. So 1:1, which the definitions give where
    // there is no token, is never told instead. The token stands in the source line that is told for this
    // position, and the caret below its first byte.
    ensures { PlacesAreOfTokens }
{
    tokens_stand_in_lines();
}
