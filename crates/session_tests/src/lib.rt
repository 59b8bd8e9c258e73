//! Tests of sessions of the debugger and with gdb, and of gdb's packets, by public calls alone.
//!
//! They are what neither a clause nor a row of `doc_tests` says: devices that end or fail, memory that is refused,
//! plans that a command refuses, and packets that no answer has. They stand here, and not in `tm_debug`, `gdb_packet`
//! and `tm_gdb`, so that each of those is proved once. Nothing is promised here.
#![tactic(auto)]

#[cfg(test)]
mod gdb_packets;
#[cfg(test)]
mod gdb_sessions;
#[cfg(test)]
mod sessions;
