//! The law of certificates.

ghost use Rattle.stp_relax.specs.Unreachable.{CertificatesHold};

/// Where there is a certificate for a task, no run of any steps of its actions with its events executes.
pub fn certificates_hold()
    ensures { CertificatesHold }
{}
