// The limits of one yard: two bunkers, then the weighbridge.
#![tactic(auto)]

pub mod yards;
