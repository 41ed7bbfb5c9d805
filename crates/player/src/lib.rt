//! What playing a recording needs: a device with its clients and the grab that is out on it, and the lines that their reads make. Nothing plays one yet.
#![tactic(auto)]

mod listing;
mod rigs;
