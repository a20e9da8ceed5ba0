//! The command help.

ghost use Rattle.std.specs.Prelude.{◌≡◌, IfOk};
ghost use Rattle.command_line.specs.Topics.{topic_of};
ghost use Rattle.reply.specs.Replies.{shown};
ghost use Rattle.text_replies.specs.Helped.{Helps, TellsNamed, TellsOfWord, TellsTool, TellsTopic, numbers, unknown};

use command_line::help::{help_text, overview, usage};
use command_line::misuse::{Misuse, misuse_text};
use command_line::topic::{Topic, topic_of};
use reply::reply::Reply;
use sentences::help::all_questions;
use std::alloc::{AllocError, Global};

/// Tells what the tool is.
fn tell_tool(heap: Global) -> Result<Reply, AllocError>
    ensures { IfOk result (λ r. TellsTool (shown r)) }
{
    let text = overview();
    let page = format!(in heap; "{text}\n")?;
    Ok(Reply {
        page: page.into_bytes(),
        done: true,
    })
}

/// Tells what each number asks.
fn tell_numbers(heap: Global) -> Result<Reply, AllocError>
    ensures { IfOk result (λ r. shown r ≡ numbers) }
{
    Ok(Reply {
        page: all_questions(heap)?.into_bytes(),
        done: true,
    })
}

/// Tells how a command is written, and what it does.
fn tell_topic(heap: Global, topic: Topic) -> Result<Reply, AllocError>
    ensures { IfOk result (λ r. TellsTopic topic (shown r)) }
{
    let usage = usage(topic);
    let text = help_text(topic);
    let page = format!(in heap; "{usage}\n\n{text}\n")?;
    Ok(Reply {
        page: page.into_bytes(),
        done: true,
    })
}

/// Tells that a word names no command.
fn tell_unknown(heap: Global, word: &str) -> Result<Reply, AllocError>
    ensures { IfOk result (λ r. shown r ≡ unknown word.entry) }
{
    let text = misuse_text(heap, Misuse::UnknownCommand { word })?;
    let page = format!(in heap; "{text}\n")?;
    Ok(Reply {
        page: page.into_bytes(),
        done: false,
    })
}

/// Tells of the command that a word names, if it names one.
fn tell_named(heap: Global, word: &str) -> Result<Reply, AllocError>
    ensures { IfOk result (λ r. TellsNamed word.entry (topic_of word.now) (shown r)) }
{
    match topic_of(word) {
        Some(topic) => tell_topic(heap, topic),
        None => tell_unknown(heap, word),
    }
}

/// Tells of a word.
fn tell_of_word(heap: Global, word: &str) -> Result<Reply, AllocError>
    ensures { IfOk result (λ r. TellsOfWord word.entry (shown r)) }
{
    if word == "numbers" {
        return tell_numbers(heap);
    }
    tell_named(heap, word)
}

/// Tells what the tool is, what a command does, or what each number asks.
pub fn help(heap: Global, about: Option<&str>) -> Result<Reply, AllocError>
    ensures { IfOk result (λ r. Helps about.entry (shown r)) }
{
    match about {
        None => tell_tool(heap),
        Some(word) => tell_of_word(heap, word),
    }
}
