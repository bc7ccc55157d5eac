//! The agreement law, of every run of the cluster's machine.

ghost use Rattle.std.specs.Prelude.{ℕ, List};
ghost use Rattle.cluster_laws.specs.Machine.{Move};
ghost use Rattle.cluster_laws.specs.Holders.{AgreementLaw};

use copied_bytes::copied_bytes;
use sound_journals::sound_journals;
use sound_runs::sound_runs;

/// In every run in which all holders are bound, whatever is lost, repeated, delayed and restarted, each file agrees always:
/// it is empty when it is first free, takes the steps of one flat file that knows no mirrors from there on, at clean ends
/// and dirty ones, and whenever it is free all its live mirrors have the flat file's bytes, on different servers (RFC 8435,
/// sections 2.2 and 8).
pub fn agreement_law()
    ensures agrees { (boots : List ℕ) (moves : List Move) → AgreementLaw boots moves }
{
    sound_journals();
    sound_runs();
    copied_bytes();
}
