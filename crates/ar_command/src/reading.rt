//! Documents, read with their warnings.

ghost use Rattle.std.specs.Prelude.{◌≡◌, Err, IfOk, Ok};
ghost use Rattle.serde_json.specs.Data.{Data};
ghost use Rattle.serde_json.specs.View.{view};
ghost use Rattle.ar_value.specs.Answer.{IfRefused};
ghost use Rattle.ar_command.specs.Warned.{AreWarningsOf};
ghost use Rattle.ar_document.specs.Document.{ReadsInput, is_bundle_memory};
ghost use Rattle.ar_document.specs.Unmeasured.{KeepsUnmeasured};
ghost use Rattle.ar_json.specs.Document.{json_in};

use ar_bundle::Bundle;
use ar_diagnostic::Diagnostic;
use ar_document::{BundleError, read_unmeasured, read_with_head};
use ar_warning::{push_misfits, template_warnings};
use serde_json::Value as Json;
use std::alloc::Global;

/// The bundle of an input, and its warnings.
#[derive(Drop)]
pub(crate) struct Reading {
    pub bundle: Bundle,
    pub warnings: Vec<Diagnostic>,
}

/// The bundle of an input, and its warnings. No tree is made of its measurements.
pub(crate) fn read(alloc: Global, input: &[u8]) -> Result<Reading, BundleError>
    ensures read { IfOk result (λ reading. ReadsInput input.now (Ok reading.bundle)) }
    ensures warns { IfOk result (λ reading. AreWarningsOf input.now reading.warnings.items) }
    ensures refused { IfRefused is_bundle_memory result (λ error. ReadsInput input.now (Err error)) }
{
    let (head, bundle) = read_with_head(alloc, input)?;
    let mut warnings = template_warnings(alloc, &head)?;
    push_misfits(alloc, &mut warnings, &bundle)?;
    Ok(Reading { bundle, warnings })
}

/// The bundle of an input and its warnings, with a document of the measurements that gave no value.
pub(crate) fn read_kept(alloc: Global, input: &[u8]) -> Result<(Json, Reading), BundleError>
    ensures kept { IfOk result (λ found. (document : Data) × (json_in input.now ≡ Ok document)
        × KeepsUnmeasured found.1.bundle document (view found.0)) }
    ensures read { IfOk result (λ found. ReadsInput input.now (Ok found.1.bundle)) }
    ensures warns { IfOk result (λ found. AreWarningsOf input.now found.1.warnings.items) }
    ensures refused { IfRefused is_bundle_memory result (λ error. ReadsInput input.now (Err error)) }
{
    let reading = read(alloc, input)?;
    let kept = read_unmeasured(alloc, input, &reading.bundle)?;
    Ok((kept, reading))
}
