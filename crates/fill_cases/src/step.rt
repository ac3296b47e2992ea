//! The questions of a case behind its first line.
ghost use Rattle.std.specs.Prelude.{◌≡◌, IfOk};
ghost use Rattle.fill_cases.specs.Steps.{Steps, StepsStore, inside_asked};

use crate::answer::Answer;
use crate::begun::begun;
use crate::case::{Case, Opened};
use crate::fills::{fill_step, one_number};
use crate::verb::{Verb, asked};
use inside::Inside;
use sheet::Store;
use std::alloc::{AllocError, Global};

impl Case {
    /// Takes the next question, and gives its answer and the case after it.
    pub fn step(self, heap: Global, question: &[u8]) -> Result<(Case, Answer), AllocError>
        ensures { IfOk result (λ p. Steps self question.now p.0 p.1) }
    {
        match self {
            Case::Fresh => begun(heap, question),
            Case::Packed(store) => {
                let (store, answer) = store.step(inside_place(question));
                Ok((Case::Packed(store), answer))
            }
            Case::Table(store) => {
                let (store, answer) = store.step(inside_place(question));
                Ok((Case::Table(store), answer))
            }
            Case::Filling(work) => Ok(fill_step(work, question)),
            Case::Closed => Ok((Case::Closed, Answer::Closed)),
            Case::Unknown => Ok((Case::Unknown, Answer::Unknown)),
        }
    }
}

/// The place that `inside P` asks for.
fn inside_place(question: &[u8]) -> Option<u32>
    ensures { result ≡ inside_asked question.now }
{
    match asked(question) {
        (Verb::Inside, rest) => one_number(rest),
        _ => None,
    }
}

impl<S: Store + Drop> Opened<S> {
    /// Goes into the group at the place that was asked for. Where none stands, the store stays as it was.
    fn step(self, place: Option<u32>) -> (Opened<S>, Answer)
        ensures { StepsStore S.Store.sheet self place result.0 result.1 }
    {
        let Some(place) = place else {
            return (self, Answer::Unknown);
        };
        match self {
            Opened::Whole(store) => match Inside::open(store, place as usize) {
                Ok(inside) => (Opened::Inside(inside), Answer::Ok),
                Err(refused) => (Opened::Whole(refused.below), Answer::NoGroup),
            },
            Opened::Inside(store) => match store.inside(place as usize) {
                Ok(inside) => (Opened::Inside(inside), Answer::Ok),
                Err(refused) => (Opened::Inside(refused.below), Answer::NoGroup),
            },
        }
    }
}
