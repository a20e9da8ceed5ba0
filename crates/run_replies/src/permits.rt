//! The permit of a file that may be given.

ghost use Rattle.std.specs.Prelude.{◌≡◌, IfOk};
ghost use Rattle.run_replies.specs.Permits.{permit_given, permit_of, shown_permit};

use permit::permit::Permit;
use permit_text::read::read_permit;
use reply::named::Named;
use reply::permit_refusal::refuse_permit;
use reply::reply::Reply;
use std::alloc::{AllocError, Global};

/// The permit of a file, or the reply where it is not read.
#[tactic(auto, unfolding(crate::specs::Permits::permit_of))]
pub(crate) fn permit_of(heap: Global, file: Named<'_>) -> Result<Result<Permit, Reply>, AllocError>
    ensures { IfOk result (λ permit. shown_permit permit ≡ permit_of file.entry) }
{
    match read_permit(file.bytes) {
        Ok(permit) => Ok(Ok(permit)),
        Err(error) => Ok(Err(refuse_permit(heap, file.name, error)?)),
    }
}

/// The permit of a file that may be given, a new one where none is, or the reply where it is not read.
pub(crate) fn permit_given(
    heap: Global,
    file: Option<Named<'_>>,
) -> Result<Result<Permit, Reply>, AllocError>
    ensures { IfOk result (λ permit. shown_permit permit ≡ permit_given file.entry) }
{
    match file {
        None => Ok(Ok(Permit::new())),
        Some(file) => permit_of(heap, file),
    }
}
