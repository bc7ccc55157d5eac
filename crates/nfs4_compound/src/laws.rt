//! The laws of compounds and of their operations.

ghost use Rattle.std.specs.Prelude.{◌∷◌, []};
ghost use Rattle.ff_xdr.specs.Exact.{IsExact};
ghost use Rattle.nfs4_compound.specs.Args.{argop4};
ghost use Rattle.nfs4_compound.specs.AllOps.{nfs_argop4};
ghost use Rattle.nfs4_compound.specs.CbArgs.{cb_argop4};
ghost use Rattle.nfs4_compound.specs.Results.{resop4};
ghost use Rattle.nfs4_compound.specs.CbResults.{cb_resop4};
ghost use Rattle.nfs4_compound.specs.Compounds.{compound4_args, compound4_res, cb_compound4_args, cb_compound4_res};
ghost use Rattle.nfs4_compound.specs.Laws.{AreSpelledSo, AreReadAgain, AreGivenWhole, AreServedWhole, TellsUnbuilt};

use ff_xdr::every_form;

/// The laws of the operations and callbacks, of their results, and of whole compounds: all that an exact
/// form has. What is written is read again, what is read is spelled so, and a refusal names the first byte
/// at which no value goes on.
pub fn every_operation()
    ensures args { IsExact nfs_argop4 }
    ensures served_args { IsExact argop4 }
    ensures results { IsExact resop4 }
    ensures cb_args { IsExact cb_argop4 }
    ensures cb_results { IsExact cb_resop4 }
    ensures compound_args { IsExact compound4_args }
    ensures compound_results { IsExact compound4_res }
    ensures cb_compound_args { IsExact cb_compound4_args }
    ensures cb_compound_results { IsExact cb_compound4_res }
{
    every_form();
}

/// The laws of operations that are read one by one: those that are given are spelled in the bytes, and
/// behind them stands why there is no further one; what is spelled so is given; and what is read as the
/// array of a compound is given whole, and carried out whole where all of it can be.
pub fn every_listing()
    ensures spelled { AreSpelledSo nfs_argop4 }
    ensures again { AreReadAgain nfs_argop4 }
    ensures all { AreGivenWhole nfs_argop4 }
    ensures whole { AreServedWhole }
    ensures cb_spelled { AreSpelledSo cb_argop4 }
    ensures cb_again { AreReadAgain cb_argop4 }
    ensures cb_whole { AreGivenWhole cb_argop4 }
{
    every_form();
}

/// Which refused operations are not built. A refused number is one of an arm that is not built, of the operations or of a
/// union in one, but for WRITE (38), BIND_CONN_TO_SESSION (41) and SECINFO_NO_NAME (52), which have an enum and no union;
/// of callbacks none has an enum. Any other refusal is one of form (RFC 8881, sections 15.1.1 and 15.2).
pub fn every_refused_number()
    ensures ops { TellsUnbuilt nfs_argop4 (38 ∷ 41 ∷ 52 ∷ []) }
    ensures callbacks { TellsUnbuilt cb_argop4 [] }
{}
