//! The generated text, by hand.
use crate::shown::{holds, reads};
use tj_gen::gen_script;

#[test]
fn the_script_of_two_steps_and_the_longest(rt: HostRuntime) {
    let Ok(text) = gen_script(rt.alloc(), 2) else {
        panic!(rt; "no memory");
    };
    let wanted = b"task main() {
  let a = new;
  let p = a;
  let q = 0;
  let t = 0;
  q = new;
  t = fork node(1, p, own q);
  p = q;
  q = new;
  t = fork node(2, p, own q);
  p = q;
  set a = 0;
  let v = get p;
  print v;
  return v;
}
task node(i, p, q) {
  let v = get p;
  set q = v + i;
  return i;
}
";
    reads(&rt, "two steps", text.as_slice(), wanted.as_slice());
    let Ok(text) = gen_script(rt.alloc(), 4000) else {
        panic!(rt; "no memory");
    };
    holds(&rt, "the longest script is short", text.len() < 300_000);
}
