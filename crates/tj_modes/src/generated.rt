//! The generated script, read as any other. The fact speaks of the definitions alone.
ghost use Rattle.std.specs.Prelude.{ℕ, ◌≤◌};
ghost use Rattle.tj_gen.specs.declared.script.TheConstants.{MAX_SIZE};
ghost use Rattle.tj_modes.specs.Generated.{IsGenerated};

/// The generated text of each size is a script, and its own listing: no fault is found in it.
pub fn generated_text_is_a_script()
    // Law: the generated text of each size from 1 to 4,000 has fewer than 300,000 bytes, and has
    // tokens, which are the stated script, whose listing is the text.
    ensures { (size : ℕ) → size ≤ MAX_SIZE → IsGenerated size }
{}
