//! The tokens that are left to read, with their text.
ghost use Rattle.std.specs.Prelude.{◌≡◌, All, drop, map};
ghost use Rattle.std.specs.Option.{option_map};
ghost use Rattle.tj_lex.specs.Shorts.{IsIn, tok_seen, what_of};
ghost use Rattle.tj_syntax.specs.Inner.Input as spec;

use tj_lex::{Seen, Short};

/// The tokens that are left, and the text, which has their names and numbers.
#[derive(Drop)]
pub(crate) struct Ahead<'t> {
    pub text: &'t [u8],
    pub rest: &'t [Short],
    ghost within: { All (IsIn text.now) rest.now },
}

impl<'t> Ahead<'t> {
    /// The next token, unless none is left.
    #[inline(always)]
    pub(crate) fn first(&self) -> Option<Seen<'t>>
        ensures { option_map tok_seen result
            ≡ spec.first (map (what_of self.now.text.now) self.now.rest.now) }
    {
        match self.rest.first() {
            Some(token) => Some(token.seen(self.text)),
            None => None,
        }
    }

    /// What is left behind the next token.
    #[inline(always)]
    pub(crate) fn behind_first(&self) -> Ahead<'t>
        ensures { map (what_of result.text.now) result.rest.now
            ≡ drop 1 (map (what_of self.now.text.now) self.now.rest.now) }
    {
        if let Some((_, rest)) = self.rest.split_first() {
            return Ahead {
                text: self.text,
                rest,
            };
        }
        Ahead {
            text: self.text,
            rest: self.rest,
        }
    }
}
