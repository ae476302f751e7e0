//! The generated script. Its `main` forks `size` tasks; each gets the promise of the one before,
//! adds its own number and sets the next promise, and `main` prints and returns the last one.
ghost use Rattle.std.specs.Prelude.{◌≡◌, ◌≤◌, ◌<◌, ◌++◌, IfOk};
ghost use Rattle.std.specs.List.{flat_map};
ghost use Rattle.tj_gen.specs.Script.{script_text, step_lines, ended};

use itoa::Buffer;
use std::alloc::Global;
use tj_base::Oom;

/// The greatest size of a generated script.
pub const MAX_SIZE: u32 = 4000;

const HEAD: &[u8] = b"task main() {\n  let a = new;\n  let p = a;\n  let q = 0;\n  let t = 0;\n";

const FORK: &[u8] = b"  q = new;\n  t = fork node(";

const HAND: &[u8] = b", p, own q);\n  p = q;\n";

const TAIL: &[u8] = b"  set a = 0;\n  let v = get p;\n  print v;\n  return v;\n}\n\
    task node(i, p, q) {\n  let v = get p;\n  set q = v + i;\n  return i;\n}\n";

/// The script of this size, in its canonical listing.
pub fn gen_script(alloc: Global, size: u32) -> Result<Vec<u8>, Oom>
    requires { (0 < size) × (size ≤ MAX_SIZE) }
    // The text is the stated one of the given size, for sizes from 1 to 4,000.
    ensures { IfOk result (λ text. text.items ≡ script_text size) }
{
    let mut text = Vec::from_slice(alloc, HEAD)?;
    for i in 0..size {
        add_step(&mut text, i + 1)?;
    }
    text.extend_from_slice(TAIL)?;
    Ok(text)
}

fn add_step(text: &mut Vec<u8>, i: u32) -> Result<(), Oom>
    ensures { IfOk result (λ _. text.new.items ≡ text.old.items ++ flat_map ended (step_lines i)) }
{
    let mut buffer = Buffer::new();
    text.extend_from_slice(FORK)?;
    text.extend_from_slice(buffer.format(i).as_bytes())?;
    text.extend_from_slice(HAND)?;
    Ok(())
}
