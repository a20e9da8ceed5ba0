//! The line that tells how a run ended.

ghost use Rattle.std.specs.Prelude.{◌≡◌, IfOk, string_bytes};
ghost use Rattle.run_pages.specs.Runs.{layer_name, fault_line, ending_line};

use machine::cause::Layer;
use machine::fault::Fault;
use runs::report::Ending;
use std::alloc::{AllocError, Global};

/// The name of a layer.
fn layer_name(layer: Layer) -> &'static str
    ensures { result.now ≡ layer_name layer }
{
    match layer {
        Layer::Machine => "machine",
        Layer::Host => "host",
    }
}

/// The line of a run that ended at a fault.
fn fault_line(heap: Global, fault: Fault) -> Result<String, AllocError>
    ensures { IfOk result (λ s. string_bytes s ≡ fault_line fault) }
{
    let number = fault.cause.number();
    let address = fault.address;
    let layer = layer_name(fault.cause.layer());
    format!(in heap; "ending fault {number} address {address} layer {layer}\n")
}

/// The line that tells how a run ended.
pub fn ending_line(heap: Global, ending: Ending) -> Result<String, AllocError>
    ensures { IfOk result (λ s. string_bytes s ≡ ending_line ending) }
{
    match ending {
        Ending::Spent => String::from_str(heap, "ending spent\n"),
        Ending::Halted => String::from_str(heap, "ending halted\n"),
        Ending::Exited(code) => format!(in heap; "ending exited {code}\n"),
        Ending::Fault(fault) => fault_line(heap, fault),
    }
}
