//! The reply that tells how an executable runs under two permits.

ghost use Rattle.std.specs.Prelude.{◌≡◌, IfOk, string_bytes};
ghost use Rattle.play.specs.Whole.{orders_of, shown};
ghost use Rattle.run_replies.specs.Partings.{fault_lines, is_same, law_line, met_lines, outcome_lines, parting_lines, parted, parting_page, second_line};
ghost use Rattle.run_replies.specs.Running.{shown_running};

use crate::running::{Extras, Running, ran_page};
use machine::fault::Fault;
use play::comparing::Parting;
use play::orders::Orders;
use play::played::Played;
use reply::reply::Reply;
use runs::comparison::Outcome;
use sentences::page::no_line;
use std::alloc::{AllocError, Global};

/// The fault that the first meets, and the question that got a no, if there is one.
fn fault_lines(heap: Global, fault: Option<Fault>) -> Result<String, AllocError>
    ensures { IfOk result (λ s. string_bytes s ≡ fault_lines fault) }
{
    match fault {
        None => Ok(String::new(heap)),
        Some(fault) => {
            let number = fault.cause.number();
            let address = fault.address;
            let no = no_line(heap, number)?;
            format!(in heap; "fault {number} address {address}\n{no}")
        }
    }
}

/// What the second does where the first meets a permit fault. That both hold the same there is told of a second permit that is at
/// least as open.
fn second_line(as_open: bool) -> &'static str
    ensures { result.now ≡ second_line as_open }
{
    if as_open {
        "the second is spent after as many steps, and holds the same there\n"
    } else {
        "the second is spent after as many steps\n"
    }
}

/// Where the first meets a permit fault, and what the second does there.
fn met_lines(
    heap: Global,
    steps: u32,
    fault: Option<Fault>,
    as_open: bool,
) -> Result<String, AllocError>
    ensures { IfOk result (λ s. string_bytes s ≡ met_lines steps fault as_open) }
{
    let lines = fault_lines(heap, fault)?;
    let second = second_line(as_open);
    format!(in heap; "the first meets a permit fault after {steps} steps\n{lines}{second}")
}

/// Whether and where the two part.
fn outcome_lines(heap: Global, parting: Parting) -> Result<String, AllocError>
    ensures { IfOk result (λ s. string_bytes s ≡ outcome_lines parting parting.outcome) }
{
    match parting.outcome {
        Outcome::Same => String::from_str(heap, "the same throughout\n"),
        Outcome::PermitFault { steps, .. } => met_lines(heap, steps, parting.fault, parting.open),
        Outcome::Different { .. } => String::from_str(heap, "the second answers otherwise\n"),
    }
}

/// That no law is about the two permits, where the second is not at least as open as the first.
fn law_line(as_open: bool) -> &'static str
    ensures { result.now ≡ law_line as_open }
{
    if as_open {
        ""
    } else {
        "the second permit is not at least as open as the first: that the two do not differ is no law of such permits\n"
    }
}

/// What comes of the two, and the line that begins what is told of the run under the first permit.
fn parting_lines(heap: Global, parting: Parting) -> Result<String, AllocError>
    ensures { IfOk result (λ s. string_bytes s ≡ parting_lines parting) }
{
    let lines = outcome_lines(heap, parting)?;
    let law = law_line(parting.open);
    format!(in heap; "{lines}{law}under the first permit:\n")
}

/// What comes of the two, and all that is told of the run under the first permit.
#[tactic(auto, unfolding(crate::specs::Partings::parting_page))]
fn parting_page(
    heap: Global,
    orders: &Orders<'_>,
    extras: Extras,
    parting: Parting,
    played: &Played,
) -> Result<Vec<u8>, AllocError>
    ensures { IfOk result (λ page. page.items ≡ parting_page (orders_of orders.now) extras parting (shown played.now)) }
{
    let mut page = parting_lines(heap, parting)?.into_bytes();
    let run = ran_page(heap, orders, extras, played)?;
    page.extend_from_slice(run.as_slice())?;
    Ok(page)
}

/// Whether no answer of the two differs.
fn is_same(outcome: Outcome) -> bool
    ensures { result ≡ is_same outcome }
{
    !matches!(outcome, Outcome::Different { .. })
}

/// What comes of the two, with the results of the run under the first permit.
pub(crate) fn parted(
    heap: Global,
    orders: &Orders<'_>,
    extras: Extras,
    parting: Parting,
    played: Played,
) -> Result<Running, AllocError>
    ensures { IfOk result (λ r. shown_running r ≡ parted (orders_of orders.now) extras parting (shown played)) }
{
    let page = parting_page(heap, orders, extras, parting, &played)?;
    let reply = Reply {
        page,
        done: is_same(parting.outcome),
    };
    Ok(Running {
        reply,
        results: Some(played.results),
    })
}
