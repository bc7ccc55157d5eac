//! Which live mirrors are reported (RFC 8435, section 9.1).

ghost use Rattle.std.specs.Prelude.{◌≡◌};
ghost use Rattle.ff_xdr.specs.Items.{contents};
ghost use Rattle.ff_layout.specs.IoError.{ff_ioerr4, ff_ioerr4_value};
ghost use Rattle.layout_report.specs.Reports.{names_device, is_reported, report_of, reported_at};

use cluster_model::{Mirrors, Reported};
use ff_layout::IoErr;
use ff_xdr::Items;
use nfs4_types::{DeviceId, device_of};

/// One of the errors of this part of a file is an error of the device.
fn names_device(error: &IoErr<'_>, device: DeviceId) -> bool
    ensures { result ≡ names_device device.0 (ff_ioerr4_value error.now) }
{
    for failed in error.errors.items() {
        if failed.device.0 == device.0 {
            return true;
        }
    }
    false
}

/// One of the errors is an error of this data server's device.
fn is_reported(errors: &Items<'_, IoErr<'_>>, server: u32) -> bool
    ensures { result ≡ is_reported (contents ff_ioerr4 ff_ioerr4_value errors.now.place) server }
{
    let device = device_of(server);
    for error in errors.items() {
        if names_device(&error, device) {
            return true;
        }
    }
    false
}

/// The mirror at this place is reported; there may be none.
fn reported_at(errors: &Items<'_, IoErr<'_>>, live: &Mirrors, place: usize) -> bool
    ensures { result ≡ reported_at (contents ff_ioerr4 ff_ioerr4_value errors.now.place) live.now place }
{
    match live.get(place) {
        None => false,
        Some(mirror) => is_reported(errors, mirror.id.server),
    }
}

/// For each place in the live list, whether the errors name the device of its mirror. Errors of other
/// devices are passed over, and what the error is does not matter (RFC 8435, sections 9.1.1 and 9.1.2).
pub fn report_of(errors: &Items<'_, IoErr<'_>>, live: &Mirrors) -> Reported
    ensures { result.places ≡ report_of (contents ff_ioerr4 ff_ioerr4_value errors.now.place) live.now }
{
    Reported {
        places: [
            reported_at(errors, live, 0),
            reported_at(errors, live, 1),
            reported_at(errors, live, 2),
            reported_at(errors, live, 3),
        ],
    }
}
