//! Making a record, and what is told of it.

ghost use Rattle.std.specs.Prelude.{◌≡◌, IfOk, IfSome, None, Some};
ghost use Rattle.play.specs.Watched.{Hears};
ghost use Rattle.play.specs.Whole.{shown as shown_played};
ghost use Rattle.record.specs.Filing.{contents_with, inputs_of, shown_made, told_of_filing, ReplayAgrees};
ghost use Rattle.record.specs.Opened.{opened};
ghost use Rattle.record_replies.specs.Filing.{filing, made_filing, no_filing, refused_source, shown_filing, taken};
ghost use Rattle.reply.specs.Replies.{shown};

use assembler::question::Refusal;
use play::played::Played;
use play::watch::Watch;
use record::file::{FileError, Inputs, Made};
use reply::permit_refusal::refuse_permit;
use reply::played::played_page;
use reply::refusal::refuse_at;
use reply::reply::Reply;
use reply::run::refuse_run;
use std::alloc::{AllocError, Global};

/// What is told, and the record, where one is made.
#[derive(Drop)]
pub struct Filing {
    pub reply: Reply,
    pub made: Option<Made>,
}

/// The reply to a run that was taken.
fn tell_run(heap: Global, played: &Played) -> Result<Reply, AllocError>
    ensures { IfOk result (λ r. shown r ≡ taken (shown_played played.now)) }
{
    Ok(Reply {
        page: played_page(heap, played)?,
        done: true,
    })
}

/// The reply where a source is not assembled.
fn refuse_source(heap: Global, refusal: Refusal) -> Result<Reply, AllocError>
    ensures { IfOk result (λ r. shown r ≡ refused_source refusal) }
{
    refuse_at(heap, refusal.question.number(), refusal.origin.line)
}

/// A record that is made, told by its run.
fn with_record(heap: Global, made: Made) -> Result<Filing, AllocError>
    ensures told { IfOk result (λ f. shown_filing f ≡ made_filing (shown_made made)) }
    ensures made { IfOk result (λ f. f.made ≡ Some made) }
{
    Ok(Filing {
        reply: tell_run(heap, &made.played)?,
        made: Some(made),
    })
}

/// No record, told by a reply.
fn without_record(reply: Reply) -> Filing
    ensures told { shown_filing result ≡ no_filing (shown reply) }
    ensures none { result.made ≡ None }
{
    Filing { reply, made: None }
}

/// Makes a record of what is given, and tells what its run came to, or why none is made; the permit is told by its name.
pub fn file<W: Watch>(
    heap: Global,
    inputs: &Inputs<'_>,
    permit_name: &str,
    watch: &mut W,
) -> Result<Filing, AllocError>
    ensures told { IfOk result (λ f. shown_filing f ≡ filing permit_name.now (inputs_of inputs.now)) }
    ensures heard { Hears W.hears (told_of_filing (inputs_of inputs.now)) result watch.old watch.new }
    ensures replays { IfOk result (λ f. IfSome f.made (λ m. ReplayAgrees (opened (contents_with (inputs_of inputs.now) (shown_made m))))) }
{
    match record::file::file(heap, inputs, watch) {
        Ok(made) => with_record(heap, made),
        Err(FileError::Source(refusal)) => Ok(without_record(refuse_source(heap, refusal)?)),
        Err(FileError::Permit(error)) => Ok(without_record(refuse_permit(
            heap,
            permit_name,
            error,
        )?)),
        Err(FileError::Run(refusal)) => Ok(without_record(refuse_run(heap, refusal)?)),
        Err(FileError::Memory) => Err(AllocError),
    }
}
