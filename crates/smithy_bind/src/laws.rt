//! What follows from the contracts of this crate.

ghost use Rattle.std.specs.Prelude.{◌≡◌, [], Some};
ghost use Rattle.smithy_bind.specs.Alone.{LinesAreAlone, RepliesAreAlone};
ghost use Rattle.smithy_bind.specs.Plain.{AwsIsPlain};
ghost use Rattle.smithy_bind.specs.Verdicts.{ExplainIsExact};
ghost use Rattle.smithy_bind.specs.Runs.{RanInMemory};

use crate::ended::Status;
use crate::top_call::run;
use smithy_io::{Sink, SureSink, SureSource};
use smithy_types::Words;
use std::alloc::Global;

/// `run` over a source that can't fail and a fresh sink: where the sink has room for the whole text it ends as is due, or there
/// was no memory. With 0 and 3 the sink has exactly the text, with any other such end it is as before.
pub fn run_in_memory(
    alloc: Global,
    words: &Words,
    source: &mut SureSource,
    sink: &mut SureSink,
) -> Status
    requires { ⟦<SureSink as Sink>⟧.written sink.old ≡ Some [] }
    ensures { RanInMemory words.now source.old sink.old sink.new result }
{
    run(alloc, words, source, sink)
}

/// `explain` tells of bytes that they are a job exactly where the command that it is about doesn't end with `Status::Job` over them,
/// and each of many inputs has the form of one; and that they are no JSON exactly where no value is read of them.
#[tactic(auto, using(crate::proofs::ExplainedLaws::explains))]
pub fn explain_is_exact()
    ensures { ExplainIsExact }
{}

/// The line of an input among many tells what `request` answers to the job of that input alone, and what their jobs have in common.
#[tactic(auto, using(crate::proofs::RequestedLemmas::each_alone))]
pub fn each_line_is_alone()
    ensures { LinesAreAlone }
{}

/// The line of a response among many tells what `response` answers to any job that has the keys of its item, and else those of
/// their job, with its model.
#[tactic(auto, using(crate::proofs::ReplyLemmas::each_alone))]
pub fn each_reply_is_alone()
    ensures { RepliesAreAlone }
{}

/// Where bytes have no protocol under `protocol`, as where they are no JSON, `aws request` answers what `request` does, and `aws
/// response` what `response` does, whatever codec the bodies are written by.
pub fn aws_is_plain_without_protocol()
    ensures { AwsIsPlain }
{}
