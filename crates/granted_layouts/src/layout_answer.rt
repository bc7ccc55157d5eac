//! A layout that is granted, in the result of its LAYOUTGET (RFC 8881, section 18.43).

ghost use Rattle.std.specs.Prelude.{◌≡◌, ◌<◌, ◌≤◌, ◌^◌, List, length, map};
ghost use Rattle.std.specs.List.{AllByRecursion};
ghost use Rattle.ff_xdr.specs.Form.{Fits};
ghost use Rattle.cluster_model.specs.declared.ids.Mirror.{Mirror};
ghost use Rattle.nfs4_file_ops.specs.Layout4.{layout4, layout4_value};
ghost use Rattle.nfs4_file_ops.specs.LayoutGet.{layoutget4_res, layoutget4_res_value};
ghost use Rattle.granted_layouts.specs.GrantedBodies.{layout_length, layout_result, whole_layout};

use cluster_model::Cred;
use ff_xdr::{Array, Items};
use itoa::Buffer;
use mds_refusals::{FLEX_FILES, IOMODE_RW};
use nfs4_file_ops::{Layout4, LayoutGetOk, LayoutGetRes};
use nfs4_types::{OpaqueBody, Stateid};

/// How many bytes the layout of so many mirrors under this uid has, which the most bytes that a LAYOUTGET asks for bound. Takes no
/// memory: 48, and for each mirror 56 and the uid twice as a text.
pub fn layout_size(cred: Cred, count: usize) -> u32
    requires { count ≤ 4 }
    ensures { (mirrors : List Mirror) → length mirrors ≡ count → result ≡ layout_length cred.0 mirrors }
{
    let mut buffer = Buffer::new();
    let digits = buffer.format(cred.0).len() as u32;
    let user = 4 + (digits + 3) / 4 * 4;
    48 + count as u32 * (56 + 2 * user)
}

/// The layout of a whole file, for reading and writing, with this body.
pub fn whole_layout(body: &[u8]) -> Layout4<'_>
    requires { length body.now < 2 ^ 32 }
    ensures value { layout4_value result ≡ whole_layout body.now }
    ensures fits { Fits layout4 (layout4_value result) }
{
    Layout4 {
        offset: 0,
        length: u64::MAX,
        iomode: IOMODE_RW,
        layout_type: FLEX_FILES,
        body: OpaqueBody { bytes: body },
    }
}

/// The result of a LAYOUTGET to which these layouts are granted; a CLOSE does not return them.
pub fn layout_result<'a>(stateid: Stateid, layouts: &'a [Layout4<'a>]) -> LayoutGetRes<'a>
    requires few { length layouts.now < 2 ^ 32 }
    requires fit { AllByRecursion (Fits layout4) (map layout4_value layouts.now) }
    ensures value { layoutget4_res_value result ≡ layout_result stateid (map layout4_value layouts.now) }
    ensures fits { Fits layoutget4_res (layoutget4_res_value result) }
{
    LayoutGetRes::Done(LayoutGetOk {
        return_on_close: false,
        stateid,
        layouts: Array {
            items: Items::made(layouts),
        },
    })
}
