//! The answer to a question about a graph: one value, which is told as lines or as an object.

ghost use Rattle.std.specs.Prelude.{◌≡◌, ◌≢◌, ◌++◌, [], is_some, string_bytes, IfErr, IfOk, OnOk};
ghost use Rattle.std.specs.Option.{option_map_or};
ghost use Rattle.json.specs.Tree.{json_tokens};
ghost use Rattle.csdf_analysis.specs.Repetition.{IsRepetition};
ghost use Rattle.csdf_analysis.specs.Room.{HasSomePeriod};
ghost use Rattle.csdf_answers.specs.Described.{Answers, AreLinesOf, RefusesRepetition};
ghost use Rattle.csdf_answers.specs.Faults.{Tells};
ghost use Rattle.csdf_answers.specs.Objects.{IsObjectOf, TellsAnswer, object_of};

use crate::drawing::dot_text;
use crate::fault::ToolFault;
use crate::object::{put_capacities, put_check, put_repetition, put_schedule};
use crate::question::{Form, Question, capacity_text, check_text, repetition_text, schedule_text};
use crate::repeated::Repeated;
use crate::session::{accept_fault, accepted_in};
use csdf_analysis::{Accepted, Room, Vector, repetition, schedule};
use csdf_json::{json_writer, line_of};
use csdf_model::Graph;
use json::Writer;
use std::alloc::{AllocError, Global};

/// The answer to a question about a graph.
#[derive(Drop)]
pub(crate) enum Answer {
    /// It has a least repetition vector, and so many actors and channels.
    Check { actors: usize, channels: usize },
    /// It has this least repetition vector.
    Repetition(Repeated),
    /// As it is accepted, its actors fire in this order in a period.
    Schedule(Accepted, Vec<u32>),
    /// As it is accepted, it has these capacities.
    Capacity(Accepted),
    /// As it is accepted, it is drawn.
    Dot(Accepted),
}

impl Answer {
    /// Its lines.
    fn lines(&self, alloc: Global) -> Result<String, AllocError>
        ensures { IfOk result (λ text. AreLinesOf self.now (string_bytes text)) }
    {
        match self {
            Answer::Check { actors, channels } => check_text(alloc, *actors, *channels),
            Answer::Repetition(found) => repetition_text(alloc, found),
            Answer::Schedule(accepted, firings) => {
                schedule_text(alloc, accepted.graph().actors(), firings)
            }
            Answer::Capacity(accepted) => capacity_text(alloc, accepted),
            Answer::Dot(accepted) => dot_text(alloc, accepted),
        }
    }

    /// Whether it has an object: a drawing has none.
    fn has_object(&self) -> bool
        ensures { result ≡ is_some (object_of self.now) }
    {
        !matches!(self, Answer::Dot(_))
    }

    /// Appends its object, where it has one.
    fn put(&self, writer: &mut Writer) -> Result<(), AllocError>
        ensures tokens { OnOk result (writer.new.tokens ≡ writer.old.tokens ++ option_map_or json_tokens (object_of self.now) []) }
        ensures before { writer.new.before ≡ writer.old.before }
    {
        match self {
            Answer::Check { actors, channels } => put_check(writer, *actors, *channels),
            Answer::Repetition(found) => put_repetition(writer, found),
            Answer::Schedule(accepted, firings) => {
                put_schedule(writer, accepted.graph().actors(), firings)
            }
            Answer::Capacity(accepted) => put_capacities(writer, accepted),
            Answer::Dot(_) => Ok(()),
        }
    }

    /// Its object on a line, or its lines where it has none.
    fn object(&self, alloc: Global) -> Result<Vec<u8>, AllocError>
        ensures { IfOk result (λ text. IsObjectOf self.now text.items) }
    {
        if !self.has_object() {
            return Ok(self.lines(alloc)?.into_bytes());
        }
        let mut writer = json_writer(alloc);
        self.put(&mut writer)?;
        line_of(writer)
    }

    /// What tells it in a form.
    pub(crate) fn told(&self, alloc: Global, form: Form) -> Result<Vec<u8>, AllocError>
        ensures { IfOk result (λ text. TellsAnswer form self.now text.items) }
    {
        match form {
            Form::Text => Ok(self.lines(alloc)?.into_bytes()),
            Form::Json => self.object(alloc),
        }
    }
}

/// The least repetition vector, or why there is none, as the program tells it.
fn vector_of(alloc: Global, graph: &Graph) -> Result<Vector, ToolFault>
    ensures vector { IfOk result (λ v. IsRepetition graph.now.actors graph.now.channels v.r.items v.q.items) }
    ensures refused { IfErr result (λ fault. fault ≢ ToolFault.Memory → RefusesRepetition graph.now fault) }
{
    match repetition(alloc, graph) {
        Ok(vector) => Ok(vector),
        Err(fault) => Err(accept_fault(alloc, graph, fault)?),
    }
}

/// The answer to a question about a graph, with this room where it is accepted, or why there is none.
pub(crate) fn answer_to(
    alloc: Global,
    question: Question,
    graph: Graph,
    room: Room,
) -> Result<Answer, ToolFault>
    requires { HasSomePeriod room }
    ensures { Tells (λ answer. answer) result (Answers question room graph) }
{
    match question {
        Question::Check => {
            vector_of(alloc, &graph)?;
            let actors = graph.actors().len();
            let channels = graph.channels().len();
            Ok(Answer::Check { actors, channels })
        }
        Question::Repetition => {
            let vector = vector_of(alloc, &graph)?;
            Ok(Answer::Repetition(Repeated { graph, vector }))
        }
        Question::Schedule => {
            let accepted = accepted_in(alloc, &graph, room)?;
            let firings = schedule(alloc, &accepted)?;
            Ok(Answer::Schedule(accepted, firings))
        }
        Question::Capacity => Ok(Answer::Capacity(accepted_in(alloc, &graph, room)?)),
        Question::Dot => Ok(Answer::Dot(accepted_in(alloc, &graph, room)?)),
    }
}
