//! What holds of each record by its types. The functions do nothing but go over it once.
ghost use Rattle.std.specs.Prelude.{◌<◌, ◌^◌, All, IfSome, length};
ghost use Rattle.base_names.specs.Id.{IsId};
ghost use Rattle.rec_format.specs.Format.{AreBytes};
ghost use Rattle.rec_format.specs.Lawful.{CanBeSpelled, IsAttempt, IsCertText, IsKeptPoint, IsKeptResult, IsKeptWide, IsLawfulRecord, IsShortPoint, IsShortResult};

use base_names::{BatchId, Text};
use frac128::Frac;
use model_data::{AttemptOf, BatchRecord, BatchResult, Point, WideAt, kept_numbers};

/// Tells a proof that a record that can be spelled is lawful.
pub(crate) fn typed_record(r: &BatchRecord)
    requires { CanBeSpelled r.now }
    ensures { IsLawfulRecord r.now }
{
    match r {
        BatchRecord::Create(id, attempt, body) => {
            let _attempt = *attempt;
            typed_id(id);
            kept_numbers(&body.model);
        }
        BatchRecord::Abort(id, attempt) | BatchRecord::Retry(id, attempt) => {
            let _attempt = *attempt;
            typed_id(id);
        }
        BatchRecord::Finish(id, attempt, found) => {
            let _attempt = *attempt;
            typed_id(id);
            typed_result(found);
        }
        BatchRecord::Lost(attempts) => typed_attempts(attempts.as_slice()),
        BatchRecord::Discard(id) | BatchRecord::Next(id) => typed_id(id),
    }
}

fn typed_id(id: &BatchId)
    ensures { IsId id.now }
{
    let _number = id.number;
    let _name = id.owner.as_bytes();
}

fn typed_attempt(of: &AttemptOf)
    ensures { IsAttempt of.now }
{
    let _attempt = of.attempt;
    typed_id(&of.id);
}

fn typed_attempts(list: &[AttemptOf])
    ensures { All IsAttempt list.now }
{
    for of in list {
        typed_attempt(of);
    }
}

fn typed_result(found: &BatchResult)
    requires { IsShortResult found.now }
    ensures { IsKeptResult found.now }
{
    let _status = found.outcome.status;
    let _pivots = found.outcome.pivots;
    let _nodes = found.outcome.nodes;
    let _work = found.outcome.work;
    typed_point(&found.outcome.point);
    typed_wide(&found.outcome.wide);
    typed_cert(&found.cert);
}

fn typed_point(point: &Option<Point>)
    requires { IfSome point.now IsShortPoint }
    ensures { IfSome point.now IsKeptPoint }
{
    if let Some(point) = point {
        Frac::are_kept(point.xs.as_slice());
        point.value.kept();
    }
}

fn typed_wide(wide: &Option<WideAt>)
    ensures { IfSome wide.now IsKeptWide }
{
    if let Some(wide) = wide {
        let _at = wide.at;
        wide.wide.left.kept();
        wide.wide.right.kept();
    }
}

fn typed_cert(cert: &Option<Text>)
    requires { IfSome cert.now (λ t. length t < 2 ^ 32) }
    ensures { IfSome cert.now IsCertText }
{
    if let Some(cert) = cert {
        typed_bytes(cert.as_bytes());
    }
}

fn typed_bytes(bytes: &[u8])
    ensures { AreBytes bytes.now }
{
    let _len = bytes.len();
}
