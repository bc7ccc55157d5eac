//! GETATTR (RFC 8881, sections 5.8 and 18.7).

ghost use Rattle.std.specs.Prelude.{◌≡◌, ◌≤◌, ◌<◌, length, get_or};
ghost use Rattle.std.proofs.Common.{inl};
ghost use Rattle.ff_xdr.specs.Arms.{arm};
ghost use Rattle.nfs4_compound.specs.Results.{resop4};
ghost use Rattle.cluster_model.specs.declared.outbox.Outbox.{Outbox};
ghost use Rattle.nfs4_types.specs.Bitmaps.{bitmap4_value};
ghost use Rattle.mds_rule.specs.FileOps.{object_attributes, runs_get_attr, attributes_result};
ghost use Rattle.mds_rule.specs.OpSteps.{with_result};
ghost use Rattle.mds_refusals.specs.Attributes.{asked_of};
ghost use Rattle.compound_run.specs.CompoundRuns.{HasRoomForResults, HasOperated, AddsResult, OnGoes};

use compound_run::{OpEnd, Run};
use ff_xdr::{Items, NoMemory, Opaque, Out};
use mds_refusals::{AskedAttributes, Attributes, Object, current_object};
use mds_state::State;
use nfs4_compound::OpRes;
use nfs4_compound::nfs4_file_ops::Fattr4;
use nfs4_types::{Bitmap, OpResult};

/// How many bytes the root has.
pub const ROOT_SIZE: u64 = 4_096;

/// What the attributes of an object say.
fn attributes_of(state: &State, object: Object) -> Attributes
    ensures { result ≡ object_attributes state.now object }
{
    match object {
        Object::Root => Attributes {
            object,
            change: u64::from(state.files.len()),
            size: ROOT_SIZE,
        },
        Object::File(file) => match state.files.get(file) {
            Some(served) => Attributes {
                object,
                change: served.periods,
                size: served.size(),
            },
            None => Attributes {
                object,
                change: 0,
                size: 0,
            },
        },
    }
}

/// Which attributes a bitmap asks for, of those that there are: they are in its first two words.
fn asked_in(bitmap: &Bitmap<'_>) -> AskedAttributes
    ensures { result ≡ asked_of (get_or (bitmap4_value bitmap.now) 0 0) (get_or (bitmap4_value bitmap.now) 1 0) }
{
    let mut words = bitmap.words.items();
    let first = words.next().unwrap_or(0);
    let second = words.next().unwrap_or(0);
    AskedAttributes::of(first, second)
}

/// The result with a bitmap of these words, and these values.
fn give_words(run: &mut Run<'_>, words: &[u32], values: &[u8]) -> Result<OpEnd, NoMemory>
    requires room { HasRoomForResults run.old }
    requires words { length words.now ≤ 2 }
    requires values { length values.now < 65536 }
    ensures run { OnGoes result (run.new ≡ with_result run.old (arm 9 resop4 (inl (words.now, values.now)))) }
    ensures on { AddsResult run.old result run.new }
{
    let mask = Bitmap {
        words: Items::made(words),
    };
    let values = Opaque { bytes: values };
    run.give(&OpRes::GetAttr(OpResult::Done(Fattr4 { mask, values })))
}

/// The result with these attributes: no words behind the last that is not 0.
fn give_attributes(
    state: &State,
    run: &mut Run<'_>,
    asked: AskedAttributes,
    of: Attributes,
) -> Result<OpEnd, NoMemory>
    requires { HasRoomForResults run.old }
    ensures run { OnGoes result (run.new ≡ with_result run.old (attributes_result asked of)) }
    ensures on { AddsResult run.old result run.new }
{
    let mut values = Out::new(state.alloc);
    asked.put(of, &mut values)?;
    let first = asked.first_word();
    let second = asked.second_word();
    if second != 0 {
        return give_words(run, &[first, second], values.bytes());
    }
    if first != 0 {
        return give_words(run, &[first], values.bytes());
    }
    give_words(run, &[], values.bytes())
}

/// GETATTR: the attributes of the current object that are asked for, of those that there are. Takes memory.
pub fn get_attr(state: &State, run: &mut Run<'_>, asked: &Bitmap<'_>) -> Result<OpEnd, NoMemory>
    requires { HasRoomForResults run.old }
    ensures op { (out : Outbox) → HasOperated (runs_get_attr state.now run.old (bitmap4_value asked.now)) out result state.now run.new out }
    ensures on { AddsResult run.old result run.new }
{
    match current_object(run.so_far.current) {
        Ok(object) => {
            let of = attributes_of(state, object);
            give_attributes(state, run, asked_in(asked), of)
        }
        Err(status) => run.refuse(9, status),
    }
}
