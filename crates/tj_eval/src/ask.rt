//! The asks of a task, whose values are for a variable or are dropped.
ghost use Rattle.std.specs.Prelude.{◌≡◌, IfErr, IfOk, IsTrue};
ghost use Rattle.std.specs.Option.{option_map};
ghost use Rattle.tj_eval.specs.Bodies.{all_have_few_params};
ghost use Rattle.tj_syntax.specs.View as view;
ghost use Rattle.tj_eval.specs.Statements as state;
ghost use Rattle.tj_eval.specs.Inner.Effects.{IsAskOf};

use crate::expression::{held, reference_in};
use crate::halt::Halt;
use crate::state::{Due, ScriptBody, State};
use std::alloc::Global;
use tj_base::{Pay, Trouble};
use tj_body::Ask;
use tj_syntax::{Call, Expr, RefOf};

impl<'s> State<'s> {
    /// The place of the reference that a get or a join asks for.
    fn reference(&self, r: RefOf) -> Result<u32, Trouble>
        ensures { result ≡ state.reference_of self.now r }
    {
        match r {
            RefOf::Var(x) => reference_in(held(&self.vars, x)),
            RefOf::Me => Ok(0),
        }
    }

    /// Lets the task await the value of the cell that the reference names, or what stands behind
    /// `or` where that one is broken. The place of the reference.
    fn await_cell(
        &mut self,
        into: Option<u32>,
        r: RefOf,
        or_else: &'s Option<Expr>,
    ) -> Result<u32, Trouble>
        ensures place { result ≡ state.reference_of self.old r }
        ensures awaits { let due = state.cell_due into (option_map view.expression or_else.now) in
            IfOk result (λ _. self.new ≡ record self.old { due = due }) }
        ensures fails { IfErr result (λ _. self.new ≡ self.old) }
    {
        let place = self.reference(r)?;
        self.due = match or_else {
            None => Due::Cell(into),
            Some(e) => Due::CellOr(into, e),
        };
        Ok(place)
    }

    /// Asks, for the variable or to have the answer dropped.
    #[inline(always)]
    pub(crate) fn ask(
        &mut self,
        alloc: Global,
        into: Option<u32>,
        call: &'s Call,
    ) -> Result<Ask<ScriptBody<'s>>, Halt>
        requires { IsTrue (all_have_few_params self.old.script) }
        ensures { let ask = state.asked self.old into (view.ask call.now) in
            IsAskOf self.old ask result self.new }
    {
        match call {
            Call::New => {
                self.due = Due::Place(into);
                Ok(Ask::New)
            }
            Call::Fork(f, args) => {
                let ask = self.fork(alloc, *f, args)?;
                self.due = Due::Place(into);
                Ok(ask)
            }
            Call::Get(r, or_else) => {
                let p = self.await_cell(into, *r, or_else)?;
                match or_else {
                    None => Ok(Ask::Get { p }),
                    Some(_) => Ok(Ask::GetOr { p }),
                }
            }
            Call::Join(r, or_else) => {
                let t = self.await_cell(into, *r, or_else)?;
                match or_else {
                    None => Ok(Ask::Join { t }),
                    Some(_) => Ok(Ask::JoinOr { t }),
                }
            }
        }
    }
}
