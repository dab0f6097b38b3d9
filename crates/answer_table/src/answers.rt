//! What is known of a run of a program on rows.
ghost use Rattle.std.specs.Prelude.{◌≡◌, ◌∷◌, ◌++◌, [], IfOk, IfSome};
ghost use Rattle.answer_table.specs.Things.{Shows};

use crate::paths::{Step, View, extended};
use crate::questions::{Answer, Asked, Entry, Question, Stop, found};
use crate::views::view;
use hept_ast::{Accepted, Memory, Rows};
use sqlite_items::at;
use std::alloc::Global;

/// What is known of a run of an accepted program on rows.
#[derive(Drop)]
pub struct Answers<'a> {
    pub alloc: Global,
    pub accepted: &'a Accepted,
    pub top: usize,
    pub rows: &'a Rows,
    /// For each instant, the answers that were found.
    pub known: Vec<Vec<Entry<'a>>>,
}

/// A copy of a path.
pub fn copied(alloc: Global, path: &[Step]) -> Result<Vec<Step>, Memory>
    ensures { IfOk result (λ copy. copy.items ≡ path.now) }
{
    match Vec::from_slice(alloc, path) {
        Ok(copy) => Ok(copy),
        Err(_) => Err(Memory),
    }
}

impl<'a> Answers<'a> {
    ghost use Rattle.answer_table.specs.Tables.{AnswerAt, IsSameRun, IsSound, thing_in};

    pub fn view(&self, path: &[Step]) -> Option<View<'a>>
        ensures { IfSome result (Shows (thing_in self.now path.now)) }
    {
        view(self.accepted, self.top, path)
    }

    /// The answer that was found to what is asked at the end of a path.
    fn known_answer(&self, path: &[Step], asked: Asked<'a>, instant: usize) -> Option<Answer>
        requires { IsSound self.now }
        ensures { IfSome result (AnswerAt self.now path.now asked.entry instant) }
    {
        match at(self.known.as_slice(), instant) {
            Some(entries) => found(entries.as_slice(), path, asked, instant),
            None => None,
        }
    }

    /// The answer to what is asked at the end of a path, if it is known.
    pub fn ask(&self, path: Vec<Step>, asked: Asked<'a>, instant: usize) -> Result<Answer, Stop<'a>>
        requires { IsSound self.now }
        ensures { IfOk result (AnswerAt self.now path.items asked.entry instant) }
    {
        match self.known_answer(path.as_slice(), asked, instant) {
            Some(answer) => Ok(answer),
            None => Err(Stop::First(Question {
                path,
                asked,
                instant,
            })),
        }
    }

    /// The answer to what is asked at the end of this path.
    pub fn ask_here(
        &self,
        path: &[Step],
        asked: Asked<'a>,
        instant: usize,
    ) -> Result<Answer, Stop<'a>>
        requires { IsSound self.now }
        ensures { IfOk result (AnswerAt self.now path.now asked.entry instant) }
    {
        match copied(self.alloc, path) {
            Ok(path) => self.ask(path, asked, instant),
            Err(Memory) => Err(Stop::Memory),
        }
    }

    /// The answer to what is asked one step further.
    pub fn ask_part(
        &self,
        path: &[Step],
        step: Step,
        asked: Asked<'a>,
        instant: usize,
    ) -> Result<Answer, Stop<'a>>
        requires { IsSound self.now }
        ensures { IfOk result (AnswerAt self.now (path.now ++ step ∷ []) asked.entry instant) }
    {
        match extended(self.alloc, path, step) {
            Ok(path) => self.ask(path, asked, instant),
            Err(Memory) => Err(Stop::Memory),
        }
    }

    /// Keeps an answer.
    pub fn keep(&mut self, question: Question<'a>, answer: Answer) -> Result<(), Memory>
        requires sound { IsSound self.old }
        requires right { AnswerAt self.old question.path.items question.asked question.instant answer }
        ensures sound { IsSound self.new }
        ensures same { IsSameRun self.old self.new }
    {
        while self.known.len() <= question.instant {
            if self.known.push(Vec::new(self.alloc)).is_err() {
                return Err(Memory);
            }
        }
        let instant = question.instant;
        match self.known[instant].push(Entry { question, answer }) {
            Ok(()) => Ok(()),
            Err(_) => Err(Memory),
        }
    }
}
