// What the types of a certificate's fields say of their values. These functions do nothing when
// they run: their clauses make known what a caller need not state.
ghost use Rattle.std.specs.Prelude.{◌≡◌, ◌≤◌, length, All};
ghost use Rattle.report_frame.specs.declared.limits.TheConstants.{MAX_VALUE};
ghost use Rattle.cert_audit.specs.Certificate.{IsCert, IsPoint, InRange};

use crate::cert::Cert;
use field61::know_elements;
use report_frame::{CHECK_BYTES, TAG_BYTES};
use shamir_limbs::Point;

/// Says that each field of a certificate is in its range, some of them by their types.
pub(crate) fn know_cert(cert: &Cert)
    requires { IsCert cert.now }
    ensures { InRange cert.now }
{
    let _epoch = cert.epoch;
    let _boxed = cert.head.boxed.as_slice();
    know_length(&cert.parent);
    know_length(&cert.head.tag);
    know_length(&cert.head.check);
    know_points(cert.points.as_slice());
    know_elements(cert.numbers.as_slice());
}

fn know_length<const N: usize>(bytes: &[u8; N])
    ensures { length bytes.now ≡ N }
{
    let _bytes = bytes;
}

fn know_points(points: &[Point])
    ensures { All IsPoint points.now }
{
    for point in points {
        know_point(point);
    }
}

/// Says that the numbers of a point are field elements, by their types.
pub(crate) fn know_point(point: &Point)
    ensures { IsPoint point.now }
{
    let [y0, y1, y2] = point.y;
    let _numbers = (point.x.value(), y0.value(), y1.value(), y2.value());
}
