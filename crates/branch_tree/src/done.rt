//! How a solve ended.
ghost use Rattle.std.specs.Prelude.{◌≡◌};

use model_data::{Cert, Outcome};

/// How a solve ended, with its certificate.
#[derive(Debug, Drop)]
pub struct Done {
    pub(crate) outcome: Outcome,
    pub(crate) cert: Cert,
}

impl Done {
    /// The outcome and the certificate.
    pub fn parts(self) -> (Outcome, Cert)
        ensures { result ≡ (self.outcome, self.cert) }
    {
        (self.outcome, self.cert)
    }
}
