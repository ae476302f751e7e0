//! A deadlock that is told while another task goes on.
use std::alloc::Global;
use std::sync::Wait;
use std::thread::Threads;
use tj_base::{Name, Oom, Shown};
use tj_embed::Options;
use tj_examples::Knot;
use tj_mean::LinkList;
use tj_task::{Replay, TaskBody};
use tj_told::{Goes, Listener, Looks, run_told};

/// Writes down what it is told, and stops the run where memory is lacking.
#[derive(Drop)]
struct Writes {
    alloc: Global,
    text: Vec<u8>,
}

impl Writes {
    fn add(&mut self, links: &LinkList) -> Result<(), Oom> {
        self.text.extend_from_slice(b"told")?;
        for link in links.items() {
            self.text.extend_from_slice(b" ")?;
            link.task.text_into(self.alloc, &mut self.text)?;
            self.text.extend_from_slice(b" waits for ")?;
            link.cell.text_into(self.alloc, &mut self.text)?;
        }
        self.text.extend_from_slice(b"\n")?;
        Ok(())
    }

    fn add_broken(&mut self, name: &Name) -> Result<(), Oom> {
        self.text.extend_from_slice(b"broken ")?;
        name.text_into(self.alloc, &mut self.text)?;
        self.text.extend_from_slice(b"\n")?;
        Ok(())
    }
}

impl Listener for Writes {
    fn cycle(&mut self, links: &LinkList) -> Goes {
        match self.add(links) {
            Ok(()) => Goes::On,
            Err(Oom) => Goes::Stop,
        }
    }

    fn broken(&mut self, name: &Name) -> Goes {
        match self.add_broken(name) {
            Ok(()) => Goes::On,
            Err(Oom) => Goes::Stop,
        }
    }

    fn value(&mut self, _name: &Name, _value: &Shown) -> Goes {
        Goes::On
    }
}

/// What is told of two tasks that wait for each other, by looks every two milliseconds, while a third
/// one counts to 8,192.
pub(crate) fn told_knot<R: Wait + Threads + Sync + AllocGlobal>(rt: &R) -> Option<Vec<u8>> {
    let alloc = rt.alloc();
    let writes = Writes {
        alloc,
        text: Vec::new(alloc),
    };
    let root = TaskBody::new(Replay::of(alloc, Knot::Root(13)), 100);
    let options = Options {
        cells: 20_000,
        ..Options::usual()
    };
    let (outcome, writes) = run_told(rt, alloc, root, options, Looks::Every(2), writes);
    match outcome {
        Ok(_outcome) => Some(writes.text),
        Err(_fault) => None,
    }
}
