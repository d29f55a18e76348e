//! What is possible under a certificate's lists.

ghost use Rattle.std.specs.Prelude.{◌≡◌};
ghost use Rattle.stp_cond.specs.Formulas.{view};
ghost use Rattle.stp_task.specs.Certificates.{possible};
ghost use Rattle.stp_task.specs.CertificateViews.{pair_of};

use crate::literals::{Literals, may_be};
use stp_cond::Cond;
use stp_task::Certificate;

/// Whether a formula is possible.
pub fn possible(cond: &Cond<'_>, cert: &Certificate) -> bool
    ensures { result ≡ possible (pair_of cert.now) (view cond.now) }
{
    may_be(cond, &Literals::Listed(cert), true)
}
