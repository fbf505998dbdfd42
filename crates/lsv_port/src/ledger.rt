ghost use Rattle.lsv_port.specs.Ledger.{PortLedger, Continues, GoesOn};

/// Over two calls in a row it is the same port, and no count fell, as over each of them. A port that was asked to listen on
/// nothing more goes on.
pub fn ledgers_compose()
    ensures same { (port : PortLedger) → Continues port port }
    ensures through { (before mid now : PortLedger) → Continues before mid → Continues mid now → Continues before now }
    ensures goes_on { (before now : PortLedger) → Continues before now → GoesOn before now }
    ensures on_through { (before mid now : PortLedger) → GoesOn before mid → GoesOn mid now → GoesOn before now }
{}
