//! What holds of the table of the calls that were sent and are not answered.

ghost use Rattle.std.specs.Prelude.{ℕ, List};
ghost use Rattle.device_addr.specs.Universal.{AddressValue};
ghost use Rattle.mds_walk.specs.MdsRuns.{MdsEvent, mds_run};
ghost use Rattle.mds_walk.specs.CallTables.{TableStands};

/// Behind every run of a metadata server, whatever came, each call that was sent and is not answered went out; a call to
/// a data server is one of a file, of a READ or of a write of its own, and a callback is one of a recall; no two have the
/// same number, and while numbers are left each is below the next (RFC 5531, section 9).
pub fn table_law()
    ensures { (servers : List AddressValue) (mirrors : ℕ) (events : List MdsEvent) → TableStands (mds_run servers mirrors events) }
{}
