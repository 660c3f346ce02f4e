// What a certificate's file says.
use dob_certificate::{Certificate, Claim};
use dob_pieces::Family;

/// A certificate with its claim and the position of the claim.
#[derive(Drop)]
pub struct CertificateFile {
    pub family: Family,
    /// The class of the position of the claim.
    pub root: u32,
    pub claim: Claim,
    pub certificate: Certificate,
}
