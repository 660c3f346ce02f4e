// Whether what a file claims is shown by its lists.
ghost use Rattle.std.specs.Prelude.{◌≡◌, ◌<◌, IfErr, IfOk};
ghost use Rattle.dob_pieces.specs.declared.setup.Setup.{Setup};
ghost use Rattle.dob_rank.specs.Families.{classes_of};
ghost use Rattle.dob_certificate.specs.Claims.{Holds, Prove};
ghost use Rattle.dob_certificate.specs.Refusals.{IsRefusal};
ghost use Rattle.dob_certfile.specs.Roots.{IsRoot};

use crate::file::CertificateFile;
use dob_certificate::{Refusal, verify};
use dob_classes::Classes;

/// Passes the file exactly if its lists prove what it claims of the root, the representative of its class: so only if that holds.
/// It reads no table.
///
/// # Errors
///
/// Those of [`verify`].
pub fn verify_file(classes: &Classes, file: &CertificateFile) -> Result<(), Refusal>
    requires family { classes.now.family ≡ file.now.family }
    requires root { file.now.root < classes_of file.now.family }
    ensures proof { IfOk result (λ _. (p : Setup) × IsRoot file.now.family file.now.root p
        × Prove file.now.family file.now.certificate.lost file.now.certificate.held p file.now.claim × Holds file.now.family.profile p file.now.claim) }
    ensures refusal { IfErr result (λ refusal. (p : Setup) × IsRoot file.now.family file.now.root p
        × IsRefusal file.now.family file.now.certificate.lost file.now.certificate.held p file.now.claim refusal) }
{
    let root = classes.class_at(file.root as u64);
    verify(classes, &file.certificate, &root, file.claim)
}
