//! The command assemble.

ghost use Rattle.std.specs.Prelude.{◌≡◌, IfOk};
ghost use Rattle.text_replies.specs.Assembled.{assembly, shown_assembly, TellsFirst};

use reply::refusal::refuse_at;
use reply::reply::Reply;
use std::alloc::{AllocError, Global};
use tasks::assembling::{AssembleError, assemble_source, facts_page};

/// What assembling a text tells and makes.
#[derive(Drop)]
pub struct Assembly {
    pub reply: Reply,
    /// The bytes of the executable, if one is made.
    pub executable: Option<Vec<u8>>,
}

/// Assembles a text: tells the facts of the executable, or which question about the text is the first of all with a no.
pub fn assemble(heap: Global, source: &[u8]) -> Result<Assembly, AllocError>
    ensures told { IfOk result (λ a. shown_assembly a ≡ assembly source.now) }
    ensures first { IfOk result (λ a. TellsFirst source.now (shown_assembly a)) }
{
    match assemble_source(heap, source) {
        Ok(assembled) => {
            let page = facts_page(heap, assembled.summary, assembled.labels.len())?;
            Ok(Assembly {
                reply: Reply {
                    page: page.into_bytes(),
                    done: true,
                },
                executable: Some(assembled.bytes),
            })
        }
        Err(AssembleError::Refused(refusal)) => Ok(Assembly {
            reply: refuse_at(heap, refusal.question.number(), refusal.origin.line)?,
            executable: None,
        }),
        Err(AssembleError::Memory) => Err(AllocError),
    }
}
