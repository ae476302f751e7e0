//! A future that waits for a cell while two workers run: of a script, and of a channel.
ghost use Rattle.std.specs.Prelude.{List};
ghost use Rattle.tj_lex.specs.declared.token.Tok.{Tok};
ghost use Rattle.tj_syntax.specs.Faults.{IsScript};
ghost use Rattle.tj_syntax.specs.View as view;

use std::alloc::{AllocGlobal, Global};
use std::process::Abort;
use std::test::Fail;
use tj_base::{CellId, Items};
use tj_chan::{ChanBody, ChatRow, TableChat, is_chat_table};
use tj_eval::{ScriptBody, main_body};
use tj_future::{Watched, run_polled};
use tj_ports::OpenGate;
use tj_ready::NewestFirstPool;
use tj_syntax::{Script, script_in};
use tj_words::Fill;

/// The script that the text is.
fn script(rt: &impl Abort, alloc: Global, text: &[u8]) -> Script
    ensures { (tokens : List Tok) × IsScript tokens (view.script result) }
{
    match script_in(alloc, text) {
        Ok(script) => script,
        Err(_) => panic!(rt; "no script"),
    }
}

#[test]
fn a_promise_of_a_script_is_waited_for(rt: HostRuntime) -> Result<(), Fail> {
    let text = b"task main() { let p = new; fork giver(own p); let v = get p; return v; }
        task giver(p) { set p = 20; return 0; }";
    let script = script(&rt, rt.alloc(), text);
    let root = main_body(rt.alloc(), &script, 100)?;
    let told = run_polled::<ScriptBody<'_>, NewestFirstPool, OpenGate, HostRuntime>(
        &rt,
        rt.alloc(),
        root,
        8,
        2,
        &OpenGate,
        CellId(1),
    );
    assert!(rt;
        matches!(told, Ok((Watched::Value(Fill::Num(20)), _))),
        "the promise"
    );
    Ok(())
}

#[test]
fn an_item_of_a_channel_is_waited_for(rt: HostRuntime) -> Result<(), Fail> {
    let rows = vec![in rt.alloc(); ChatRow::Open(1), ChatRow::Send { c: 0, v: 5 }]?;
    let lists = [Items::of(rows)];
    if !is_chat_table(&lists) {
        panic!(rt; "no table");
    }
    let root = ChanBody::new(rt.alloc(), TableChat::new(&lists, 0))?;
    let told = run_polled::<ChanBody<TableChat<'_>>, NewestFirstPool, OpenGate, HostRuntime>(
        &rt,
        rt.alloc(),
        root,
        8,
        2,
        &OpenGate,
        CellId(1),
    );
    assert!(rt;
        matches!(told, Ok((Watched::Value(Fill::Num(5)), _))),
        "the item"
    );
    Ok(())
}
